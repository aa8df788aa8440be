//! What the ordering rules come to.
ghost use Rattle.std.specs.Prelude.{◌≡◌, ◌≢◌, ◌⊎◌, ℕ, ◌<◌, true, false, Some, List, ◌∷◌, slice_get};
ghost use Rattle.dllp_core.specs.declared.packet.Class.TheVariants as classes;
ghost use Rattle.tlp_core.specs.TlpView.{TlpView};
ghost use Rattle.flow_control.specs.Needs.{class_of};
ghost use Rattle.flow_control.specs.Ordering.{may_pass};
ghost use Rattle.flow_control.specs.Queue.{Item, is_takeable};

/// Nothing passes a posted request: what is taken leaves none before it.
pub fn nothing_passes_a_posted_request()
    ensures pair { (later earlier : TlpView) → class_of earlier.kind ≡ classes.Posted → may_pass later earlier ≡ false }
    ensures queue { (q : List Item) (place before : ℕ) (earlier : Item) →
        is_takeable q place ≡ true → before < place → slice_get q before ≡ Some earlier → class_of earlier.0.kind ≢ classes.Posted }
{}

/// A posted request passes every non-posted request and every completion: it is takeable where no posted request stands
/// before it.
pub fn posted_requests_pass_the_others()
    ensures pair { (later earlier : TlpView) → class_of later.kind ≡ classes.Posted → class_of earlier.kind ≢ classes.Posted → may_pass later earlier ≡ true }
    ensures queue { (q : List Item) (place : ℕ) (item : Item) → slice_get q place ≡ Some item → class_of item.0.kind ≡ classes.Posted →
        ((before : ℕ) (earlier : Item) → before < place → slice_get q before ≡ Some earlier → class_of earlier.0.kind ≢ classes.Posted) →
        is_takeable q place ≡ true }
{}

/// Everything passes a non-posted request.
pub fn everything_passes_a_non_posted_request()
    ensures { (later earlier : TlpView) → class_of earlier.kind ≡ classes.NonPosted → may_pass later earlier ≡ true }
{}

/// A request passes every completion, so it waits for posted requests alone.
pub fn requests_pass_completions()
    ensures pair { (later earlier : TlpView) → class_of later.kind ≢ classes.Completion → class_of earlier.kind ≡ classes.Completion →
        may_pass later earlier ≡ true }
    ensures queue { (q : List Item) (place : ℕ) (item : Item) → slice_get q place ≡ Some item → class_of item.0.kind ≢ classes.Completion →
        ((before : ℕ) (earlier : Item) → before < place → slice_get q before ≡ Some earlier → class_of earlier.0.kind ≢ classes.Posted) →
        is_takeable q place ≡ true }
{}

/// Completions of different Requester IDs or different Tags pass each other.
pub fn completions_of_different_requests_pass()
    ensures { (later earlier : TlpView) → class_of later.kind ≡ classes.Completion → class_of earlier.kind ≡ classes.Completion →
        (later.requester ≢ earlier.requester) ⊎ (later.tag ≢ earlier.tag) → may_pass later earlier ≡ true }
{}

/// Completions of one Requester ID and Tag keep their order.
pub fn completions_of_a_request_keep_their_order()
    ensures pair { (later earlier : TlpView) → class_of later.kind ≡ classes.Completion → class_of earlier.kind ≡ classes.Completion →
        later.requester ≡ earlier.requester → later.tag ≡ earlier.tag → may_pass later earlier ≡ false }
    ensures queue { (q : List Item) (place before : ℕ) (item earlier : Item) → is_takeable q place ≡ true → before < place →
        slice_get q place ≡ Some item → slice_get q before ≡ Some earlier →
        class_of item.0.kind ≡ classes.Completion → class_of earlier.0.kind ≡ classes.Completion →
        item.0.requester ≡ earlier.0.requester → item.0.tag ≢ earlier.0.tag }
{}

/// What is takeable may pass every earlier packet, and the other way round; the oldest has none before it.
pub fn the_oldest_is_takeable()
    ensures oldest { (item : Item) (q : List Item) → is_takeable (item ∷ q) 0 ≡ true }
    ensures each { (q : List Item) (place before : ℕ) (item earlier : Item) → is_takeable q place ≡ true → before < place →
        slice_get q place ≡ Some item → slice_get q before ≡ Some earlier → may_pass item.0 earlier.0 ≡ true }
    ensures all { (q : List Item) (place : ℕ) (item : Item) → slice_get q place ≡ Some item →
        ((before : ℕ) (earlier : Item) → before < place → slice_get q before ≡ Some earlier → may_pass item.0 earlier.0 ≡ true) →
        is_takeable q place ≡ true }
{}
