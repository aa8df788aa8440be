//! Laws of runs.
ghost use Rattle.std.specs.Prelude.{ℕ, ◌≡◌, List, length, slice_get, Option, Some};
ghost use Rattle.tlp_core.specs.Ops.{Op};
ghost use Rattle.seq_memory.specs.Entries.{Reply};
ghost use Rattle.log_runs.specs.EventView as events;
ghost use Rattle.log_runs.specs.declared.Step.TheVariants as steps;
ghost use Rattle.log_runs.specs.LogView.{LogView};
ghost use Rattle.log_runs.specs.declared.Step.{Step};
ghost use Rattle.log_runs.specs.Runs.{State, Allowed, MayAct, Live, Dead, IsForced, next, start};
ghost use Rattle.search_rules.specs.Alike.{GoesFirst};
ghost use Rattle.search_rules.specs.Idle.{GoesOrIdles, HasMore, IsIdle};
ghost use Rattle.search_rules.specs.Rules.{NeverBrings, NeverPuts, Yields, LetsFirst, IsOutside, IsLost, LacksByte, IsLast, IsFirst, IsOverJunk, ChangesNothing, NeverSuits};

use search_effects::laws::{a_request_sees_its_addresses, apart_requests_commute};
use seq_memory::laws::only_the_place_changes;

/// Where a request is lost, no run leads to the end.
#[tactic(auto, using(crate::proofs::LostLemmas::lost_is_dead))]
pub fn lost_is_dead()
    ensures { (log : LogView) (s : State) (q a : ℕ) → IsLost log s q a → Dead log s }
{}

/// Where a request lacks a byte that doesn't come, no run leads to the end.
pub fn what_lacks_a_byte_is_dead()
    ensures { (log : LogView) (s : State) (q a k v : ℕ) → LacksByte log s q a k v → Dead log s }
{}

/// A request puts no byte that isn't in its range.
#[tactic(auto, using(crate::proofs::ByteLemmas::outside_stays))]
pub fn nothing_is_put_outside()
    ensures { (log : LogView) (b k v : ℕ) →
        ((i : ℕ) (op : Op) (told : Option Reply) → slice_get log.events b ≡ Some (events.Sub i op told) → IsOutside log.extent op k) → NeverPuts log b k v }
{
    only_the_place_changes();
}

/// The last that can have what it needs may act at once.
#[tactic(auto, using(crate::proofs::LastLemmas::last_is_forced))]
pub fn the_last_acts_at_once()
    ensures { (log : LogView) (s : State) (q a : ℕ) → IsLast log s q a → IsForced log s (steps.Act q) }
{}

/// A request that changes nothing wherever it suits a memory of the log's size may act at once.
pub fn what_changes_nothing_acts_at_once()
    ensures { (log : LogView) (s : State) (q : ℕ) → length s.bytes ≡ log.extent.size → ChangesNothing log q → MayAct log s q → IsForced log s (steps.Act q) }
{
    only_the_place_changes();
}

/// Where a request was answered what no memory of the log's size answers, no run leads to the end.
pub fn what_is_never_answered_is_dead()
    ensures { (log : LogView) (q a : ℕ) → slice_get log.events a ≡ Some (events.Due q) → NeverSuits log q → Dead log (start log) }
{
    only_the_place_changes();
}

/// A request that may act, and before which none can that has one of its bytes, may act at once.
pub fn the_first_acts_at_once()
    ensures { (log : LogView) (s : State) (q r a : ℕ) → IsFirst log s q r a → IsForced log s (steps.Act q) }
{
    apart_requests_commute();
    only_the_place_changes();
}

/// A request that may act acts at once, if others may act in turn after it, and nobody who is left
/// then needs what it overwrites at any of its words, or what any of them puts there.
pub fn what_is_over_junk_acts_at_once()
    ensures { (log : LogView) (s : State) (q : ℕ) (group : List ℕ) → IsOverJunk log s q group → IsForced log s (steps.Act q) }
{
    a_request_sees_its_addresses();
    only_the_place_changes();
}

/// Of requests that are alike the one that is due first may act first: where a run leads on after the other, one does after it.
pub fn the_first_of_alike_requests_acts_first()
    ensures { (log : LogView) (s : State) (b c : ℕ) → GoesFirst log s b c → MayAct log s c → Live log (next log s (steps.Act c)) →
        Live log (next log s (steps.Act b)) }
{}

/// Where more requests have acted to which no answer comes, no more leads to the end.
pub fn more_acted_is_no_better()
    ensures { (log : LogView) (s t : State) → HasMore log s t → Dead log s → Dead log t }
{}

/// A request to which no answer comes may wait, where nobody who is pending needs what it leaves: if no step leads to the end
/// but by the act of such a request, none does; and if each other step that does is as good as one, so is that. What is alike
/// may wait then, too.
pub fn idle_requests_may_wait()
    ensures dead { (log : LogView) (s : State) → (s.event ≡ length log.events → ⊥) → ((x : Step) → Allowed log s x → GoesOrIdles log s ⊥ x) → Dead log s }
    ensures live { (log : LogView) (s t : State) → (s.event ≡ length log.events → ⊥) → ((x : Step) → Allowed log s x → GoesOrIdles log s (Live log t) x) →
        Live log s → Live log t }
    ensures alike { (log : LogView) (s : State) (p b : ℕ) → GoesFirst log s p b → MayAct log s b → IsIdle log s p → IsIdle log s b }
{
    apart_requests_commute();
    only_the_place_changes();
}

/// An event that is no submission brings nothing, yields to any request and lets it be the first.
#[tactic(auto, using(crate::proofs::PairLemmas::idle_brings, crate::proofs::PairLemmas::idle_yields, crate::proofs::FirstLemmas::idle_first))]
pub fn answers_yield()
    ensures brings { (log : LogView) (b q : ℕ) → ((i : ℕ) (op : Op) (told : Option Reply) → slice_get log.events b ≡ Some (events.Sub i op told) → ⊥) →
        NeverBrings log b q }
    ensures yields { (log : LogView) (b q : ℕ) → ((i : ℕ) (op : Op) (told : Option Reply) → slice_get log.events b ≡ Some (events.Sub i op told) → ⊥) →
        Yields log b q }
    ensures first { (log : LogView) (m : List ℕ) (b q : ℕ) →
        ((i : ℕ) (op : Op) (told : Option Reply) → slice_get log.events b ≡ Some (events.Sub i op told) → ⊥) → LetsFirst log m b q }
{}
