//! The steps on the words.
ghost use Rattle.std.specs.Prelude.{◌≡◌, ◌≢◌, suc, ◌+◌, ◌<◌, ◌^◌, [], ◌∷◌, ◌++◌, length, drop, MatchResult, Some, None};
ghost use Rattle.atomic_table.specs.Table.{rest};
ghost use Rattle.fabric_steps.specs.Event.{Event, Seen};
ghost use Rattle.hall_laws.specs.declared.token.Token.{Token};
ghost use Rattle.hall_laws.specs.Standing.{token_of, others_of, holding_first, Outside};
ghost use Rattle.hall_laws.specs.Calls.{HasSlot};
ghost use Rattle.hall_laws.specs.declared.token.Knowledge.{Knowledge};
ghost use Rattle.fabric_steps.specs.Fabric.{Fabric};
ghost use Rattle.fabric_core.specs.Runs.{Runs};
ghost use Rattle.hall_laws.specs.Knows.{IsTrueOf, IsRuled};
ghost use Rattle.hall_laws.specs.Story.{Ran, events_in};
ghost use Rattle.hall_laws.specs.declared.token.Start.{Start};
ghost use Rattle.hall_laws.specs.Standing.{Table};
ghost use Rattle.hall_laws.specs.Rule.{Traced, IsSoundTraced, Fits, Kept, Known, Releases, Goes, dropped_first, dropped_seen};

use crate::boxed::Boxed;
use crate::part::PartValue;
use crate::slots::WORDS_APART;
use crate::token::{Start, Token};
use atomic_table::{Join, Play, Seat, Shared, Split, TableRule};
use fabric_core::laws::each_event_keeps_it_sound;
use fabric_steps::laws::{packets_keep_their_ports, the_trace_belongs};
use seq_memory::Memory;
use std::collections::LinkedList;
use std::marker::{Brand, PhantomData};

pub struct FabricRule;

impl TableRule<Option<PartValue>, LinkedList<Token>, Start> for FabricRule {
    ghost use Rattle.hall_laws.specs.Rule.{Kept, newcomers};

    ghost holds = { Kept };

    ghost first = { λ k. newcomers k.config k.opened.value k.seats 0 k.seats };
}

pub type Place = Seat<Option<PartValue>, LinkedList<Token>>;

pub type Steps = Shared<Option<PartValue>, LinkedList<Token>, Start, FabricRule>;

pub struct Taking;

impl Play<Option<PartValue>, LinkedList<Token>> for Taking {
    ghost use Rattle.hall_laws.specs.Rule.{taken};

    ghost then = { taken };
}

/// The view after a release. Each call picks it.
pub trait After {
    ghost use Rattle.std.specs.Prelude.{List};

    ghost after: { List Token };
}

impl After for Brand {
    ghost use Rattle.std.specs.Prelude.{[]};

    ghost after = { [] };
}

pub struct Releasing<C> {
    of: PhantomData<C>,
}

impl<C: After> Play<Option<PartValue>, LinkedList<Token>> for Releasing<C> {
    ghost use Rattle.hall_laws.specs.Rule.{released};

    ghost then = { released C.after };
}

/// Kind 1: the first token of the seat takes the part if its word is 0, which then names it. The error is the word that
/// was found; it isn't the token's own where the token doesn't hold the part.
pub fn take(steps: &Steps, place: &mut Place, slot: usize, number: u64) -> Result<PartValue, u64>
    requires table { (place.old.table_id ≡ steps.now.table_id) × HasSlot steps.now.table_id slot }
    requires token { (0 < length place.old.me.0) × (number ≡ (token_of place.old.me.0).knows.number) × (number < 2 ^ 32) }
    ensures seat { (place.new.table_id ≡ place.old.table_id) × (place.new.id ≡ place.old.id) }
    ensures taken { MatchResult result (λ v. (place.new.me ≡ (holding_first slot v place.old.me.0, (slot, None) ∷ place.old.me.1)) ×
        Known (holding_first slot v place.old.me.0)) (λ w. (w ≢ 0) × (place.new.me ≡ place.old.me) ×
        (Outside slot (token_of place.old.me.0).held → w ≢ suc (token_of place.old.me.0).knows.number)) }
{
    let found = steps.compare_exchange::<Taking>(place, WORDS_APART * slot, 0, number + 1);
    if found != 0 {
        return Err(found);
    }
    let value = steps.exchange(place, slot, None);
    Ok(value.unwrap())
}

// Kinds 2 to 4: the part goes home with this value, and its word is 0.
fn release<C: After>(steps: &Steps, place: &mut Place, slot: usize, value: PartValue)
    requires table { (place.old.table_id ≡ steps.now.table_id) × HasSlot steps.now.table_id slot }
    requires token { (0 < length place.old.me.0) × (place.old.me.1 ≡ (slot, None) ∷ rest place.old.me.1) }
    requires rule { Releases place.old.me.0 slot value C.after }
    ensures seat { (place.new.table_id ≡ place.old.table_id) × (place.new.id ≡ place.old.id) }
    ensures released { (place.new.me ≡ (C.after, rest place.old.me.1)) × Known C.after }
{
    steps.exchange(place, slot, Some(value));
    steps.store::<Releasing<C>>(place, WORDS_APART * slot, 0);
}

/// The token of a seat after an event. Each call picks it.
pub trait AfterEvent {
    ghost token: { Token };
}

impl AfterEvent for Brand {
    ghost use Rattle.hall_laws.specs.Standing.{blank};

    ghost token = { blank };
}

/// Kind 2: the event happens as one of its parts goes home. `told` is for the proof alone.
pub fn event<C: AfterEvent, T>(
    steps: &Steps,
    place: &mut Place,
    slot: usize,
    value: PartValue,
    told: &T,
)
    requires table { (place.old.table_id ≡ steps.now.table_id) × HasSlot steps.now.table_id slot }
    requires token { (0 < length place.old.me.0) × (place.old.me.1 ≡ (slot, None) ∷ rest place.old.me.1) ×
        (C.token.knows.number ≡ (token_of place.old.me.0).knows.number) }
    requires event { (e : Event) × (what : Seen) × Goes e what (token_of place.old.me.0) slot value C.token }
    ensures seat { (place.new.table_id ≡ place.old.table_id) × (place.new.id ≡ place.old.id) }
    ensures happened { (place.new.me ≡ (C.token ∷ others_of place.old.me.0, rest place.old.me.1)) × Known (C.token ∷ others_of place.old.me.0) }
{
    let _ = told;
    each_event_keeps_it_sound();
    the_trace_belongs();
    packets_keep_their_ports();
    release::<Brand>(steps, place, slot, value);
}

/// Kinds 3 and 4: the part goes home with the value that the token says.
pub fn put_back(steps: &Steps, place: &mut Place, slot: usize, value: PartValue)
    requires table { (place.old.table_id ≡ steps.now.table_id) × HasSlot steps.now.table_id slot }
    requires token { (0 < length place.old.me.0) × (place.old.me.1 ≡ (slot, None) ∷ rest place.old.me.1) }
    requires held { let h = (token_of place.old.me.0).held in (h ≡ (slot, value) ∷ drop 1 h) × Outside slot (drop 1 h) }
    ensures seat { (place.new.table_id ≡ place.old.table_id) × (place.new.id ≡ place.old.id) }
    ensures same { (place.new.me ≡ (dropped_first place.old.me.0, rest place.old.me.1)) × Known (dropped_first place.old.me.0) }
{
    release::<Brand>(steps, place, slot, value);
}

/// Kind 3 of the memory, whose history all tokens of the seat then have seen.
pub fn put_back_seen(steps: &Steps, place: &mut Place, slot: usize, memory: Boxed<Memory>)
    requires table { (place.old.table_id ≡ steps.now.table_id) × HasSlot steps.now.table_id slot }
    requires token { (0 < length place.old.me.0) × (place.old.me.1 ≡ (slot, None) ∷ rest place.old.me.1) × (slot ≡ 0) }
    requires held { let h = (token_of place.old.me.0).held in (h ≡ (slot, PartValue.Memory memory) ∷ drop 1 h) × Outside slot (drop 1 h) }
    ensures seat { (place.new.table_id ≡ place.old.table_id) × (place.new.id ≡ place.old.id) }
    ensures seen { (place.new.me ≡ (dropped_seen memory.entries place.old.me.0, rest place.old.me.1)) × Known (dropped_seen memory.entries place.old.me.0) }
{
    release::<Brand>(steps, place, slot, PartValue::Memory(memory));
}

pub struct FirstToken;

impl Split<LinkedList<Token>> for FirstToken {
    ghost use Rattle.std.specs.Prelude.{[], ◌∷◌};
    ghost use Rattle.hall_laws.specs.Standing.{token_of, others_of};

    ghost left = { others_of };

    ghost right = { λ v. token_of v ∷ [] };
}

pub struct AllTokens;

impl Join<LinkedList<Token>> for AllTokens {
    ghost use Rattle.std.specs.Prelude.{[], ◌++◌};

    ghost both = { λ v w. v ++ w };

    ghost spent = { [] };
}

/// Kind 5: the first token goes to a seat of its own.
pub fn split(steps: &Steps, place: &mut Place) -> Place
    requires { (place.old.table_id ≡ steps.now.table_id) × (0 < steps.now.table_id.words) × (0 < length place.old.me.0) }
    ensures seat { (place.new.table_id ≡ place.old.table_id) × (place.new.id ≡ place.old.id) × (place.new.me ≡ (others_of place.old.me.0, place.old.me.1)) }
    ensures given { (result.table_id ≡ place.old.table_id) × (result.me ≡ (token_of place.old.me.0 ∷ [], [])) }
{
    steps.split_seat::<FirstToken>(place)
}

/// Kind 6: the seat has the tokens of both, and the other is spent.
pub fn join(steps: &Steps, place: &mut Place, other: Place)
    requires { (place.old.table_id ≡ steps.now.table_id) × (other.table_id ≡ steps.now.table_id) × (0 < steps.now.table_id.words) × (other.me.1 ≡ []) }
    ensures { (place.new.table_id ≡ place.old.table_id) × (place.new.id ≡ place.old.id) × (place.new.me ≡ (place.old.me.0 ++ other.me.0, place.old.me.1)) }
{
    steps.join_seat::<AllTokens>(place, other);
}

/// What a seat knows is true of the fabric: it has seen a prefix of the history; what it made is what its requester
/// submitted; what is pending is what is open, of which nothing acted before its submission; and each of its requests
/// that isn't posted and isn't pending stands in what it has seen.
pub fn what_a_seat_knows_is_true()
    ensures { (s : Traced) (w : Knowledge) → IsSoundTraced s → Fits s w → IsTrueOf s.fabric w }
{}

/// What threads did is one run of the fabric that their hall was made of, in which each seat's calls stand in its order.
pub fn what_threads_did_is_a_run()
    ensures run { (w : Knowledge) (f : Fabric) (r : Ran w f) → Runs w.opened (events_in r.acts) r.told f }
    ensures any { (s : Traced) (w : Knowledge) → IsSoundTraced s → Fits s w → Ran w s.fabric }
{}

/// The rule of the hall, between any two steps on the words, line by line: the values at home and those that tokens
/// hold are the parts of one sound fabric, each with its word and its slot; no seat number stands in two tokens, and no place of
/// the history was served twice; one list of acts leads to that fabric from the one that the hall was made of, and each
/// seat's calls are those with its number, in its order; and what each seat knows is true of that fabric.
pub fn the_rule_line_by_line()
    ensures { (about : Start) (s : Table) → Kept about s → IsRuled s }
{}
