//! What holds of a fabric whatever steps it takes.
ghost use Rattle.std.specs.Prelude.{◌≡◌, ◌≢◌, ◌<◌, ℕ, suc, Some, Ok, List, [], ◌∷◌, ◌++◌, length, slice_get, is_some, true};
ghost use Rattle.tlp_core.specs.Ops.{Op};
ghost use Rattle.seq_memory.specs.Entries.{Entry};
ghost use Rattle.seq_memory.specs.Entries.{Reply};
ghost use Rattle.requester_core.specs.Answers.{Answer};
ghost use Rattle.tlp_core.specs.TlpView.{TlpView};
ghost use Rattle.tlp_core.specs.Operation.{op_of};
ghost use Rattle.requester_core.specs.RequesterView.{RequesterView, finished};
ghost use Rattle.lane_core.specs.Steps.{LaneEndsView};
ghost use Rattle.lane_core.specs.Calls.{content};
ghost use Rattle.history_words.specs.Records.{Record};
ghost use Rattle.history_words.specs.declared.record.RecordOf.TheVariants.{Sub, Ans};
ghost use Rattle.history_words.specs.Clocks.{IsClocked};
ghost use Rattle.history_words.specs.Trace.{Explains, IsLegal, answers_to, submissions};
ghost use Rattle.fabric_steps.specs.Whole.{Whole, MarkedPacket, view, memory_of, up_of, down_of, requester_of, open_number};
ghost use Rattle.fabric_steps.specs.Sound.{Sound, times};
ghost use Rattle.fabric_steps.specs.Trace.{Belongs, IsMade, submitted_by, submission_count};
ghost use Rattle.fabric_steps.specs.Steps.{Step, Run};
ghost use Rattle.fabric_steps.specs.New.{IsNew, IsNewFabric};
ghost use Rattle.fabric_steps.specs.Expected.{IsExpected};
ghost use Rattle.fabric_steps.specs.Routed.{HasPort, IsRouted};
ghost use Rattle.fabric_steps.specs.Fabric.{Fabric, whole_of};
ghost use Rattle.fabric_steps.specs.Events.{IsSubmitted, IsForwarded, IsServed, IsReturned, IsCollected, IsLinked};

use completer_core::laws::a_served_completion_has_its_length;
use seq_memory::laws::history_grows_by_steps;

/// A new fabric is sound, and each step keeps it so: a submission, a request that goes from its
/// requester's lane to the memory's, one that acts on the memory, a completion that goes back, one
/// that is collected, and a call of a link, which moves nothing.
pub fn each_step_keeps_it_sound()
    ensures new { (p : Whole) → IsNew p → Sound p }
    ensures step { (p p' : Whole) (rs : List Record) → Sound p → Step p p' rs → Sound p' }
{}

/// Whatever steps a sound fabric takes, its history only grows, and the records so far, with those
/// of the steps behind them, belong to it; and the history of a sound fabric explains all records
/// that belong to it, whose `n` are those of a history that grew, and of which as many are
/// submissions as its requesters submitted operations.
pub fn the_trace_belongs()
    ensures new { (p : Whole) → IsNew p → Belongs p [] }
    ensures run { (p p' : Whole) (rs ss : List Record) → Sound p → Belongs p rs → Run p p' ss → Belongs p' (rs ++ ss) }
    ensures sound { (p p' : Whole) (rs : List Record) → Sound p → Run p p' rs → Sound p' }
    ensures begins { (p p' : Whole) (rs : List Record) → Sound p → Run p p' rs → (new : List Entry) × (p'.history ≡ p.history ++ new) }
    ensures explained { (p : Whole) (rs : List Record) → Sound p → Belongs p rs → Explains (record { memory = memory_of p; records = rs }) }
    ensures clocked { (p : Whole) (rs : List Record) → Belongs p rs → IsClocked (record { memory = memory_of p; records = rs }) }
    ensures counted { (p : Whole) (rs : List Record) → Belongs p rs → submission_count rs ≡ submitted_by p.requesters }
{}

/// A new fabric by its parts is new as a whole, and its packets, of which there are none, have their
/// ports.
pub fn new_parts_make_a_new_fabric()
    ensures whole { (f : Fabric) → IsNewFabric f → IsNew (whole_of f) }
    ensures routed { (f : Fabric) → IsNewFabric f → IsRouted f }
{}

/// Each event on the real parts, the packets in the lanes and the tag tables of the requesters, is
/// a step: with the record of what was submitted or collected, and else with none.
pub fn each_event_is_a_step()
    ensures submitted { (f f' : Fabric) (i : ℕ) (op : Op) (e : IsSubmitted f i op f') →
        Step (whole_of f) (whole_of f') (Sub (suc i) e.number op (length f.memory.entries) ∷ []) }
    ensures forwarded { (f f' : Fabric) (i place : ℕ) → IsForwarded f i place f' → Step (whole_of f) (whole_of f') [] }
    ensures served { (f f' : Fabric) (place : ℕ) → IsServed f place f' → Step (whole_of f) (whole_of f') [] }
    ensures returned { (f f' : Fabric) (i place : ℕ) → IsReturned f i place f' → Step (whole_of f) (whole_of f') [] }
    ensures collected { (f f' : Fabric) (i : ℕ) (a : Answer) → IsCollected f i a f' →
        Step (whole_of f) (whole_of f') (Ans (suc i) a.number a.reply (length f.memory.entries) ∷ []) }
{
    a_served_completion_has_its_length();
    history_grows_by_steps();
}

/// A call of a link, which leaves what its lane holds, is a step that leaves the whole.
pub fn each_link_call_is_a_step()
    ensures up { (f : Fabric) (i : ℕ) (lanes : List LaneEndsView) → IsLinked f.up i lanes → Step (whole_of f) (whole_of (record f { up = lanes })) [] }
    ensures down { (f : Fabric) (i : ℕ) (lanes : List LaneEndsView) → IsLinked f.down i lanes → Step (whole_of f) (whole_of (record f { down = lanes })) [] }
    ensures inward { (f : Fabric) (lane : LaneEndsView) → content lane ≡ content f.inward → Step (whole_of f) (whole_of (record f { inward = lane })) [] }
    ensures outward { (f : Fabric) (lane : LaneEndsView) → content lane ≡ content f.outward → Step (whole_of f) (whole_of (record f { outward = lane })) [] }
{}

/// What each requester submitted is one list of operations, which can be read off its path; and a step adds to it what
/// its records say, which is nothing but for that requester's submission.
pub fn what_was_submitted_is_one_list()
    ensures there { (p : Whole) (i : ℕ) → Sound p → (ops : List Op) × IsMade i (view p i) ops }
    ensures one { (p : Whole) (i : ℕ) (ops others : List Op) → Sound p → IsMade i (view p i) ops → IsMade i (view p i) others → ops ≡ others }
    ensures grows { (p p' : Whole) (rs : List Record) (i : ℕ) (ops : List Op) → Sound p → Step p p' rs → IsMade i (view p i) ops →
        IsMade i (view p' i) (ops ++ submissions rs i) }
{}

/// The history of a sound fabric is legal for what its requesters submitted.
pub fn the_history_is_legal()
    ensures legal { (p : Whole) (s : ℕ → List Op) → Sound p → ((i : ℕ) → IsMade i (view p i) (s i)) → IsLegal s p.history }
    ensures always { (p : Whole) → Sound p → (s : ℕ → List Op) × ((i : ℕ) → IsMade i (view p i) (s i)) × IsLegal s p.history }
{}

/// What a record adds to what a requester submitted, and which record is the answer of a request.
pub fn what_a_record_adds()
    ensures own { (rs : List Record) (i k n : ℕ) (op : Op) → submissions (rs ++ Sub i k op n ∷ []) i ≡ submissions rs i ++ op ∷ [] }
    ensures other { (rs : List Record) (i j k n : ℕ) (op : Op) → j ≢ i → submissions (rs ++ Sub j k op n ∷ []) i ≡ submissions rs i }
    ensures answered { (rs : List Record) (i j k n : ℕ) (reply : Reply) → submissions (rs ++ Ans j k reply n ∷ []) i ≡ submissions rs i }
    ensures answer { (i k : ℕ) (r : Record) → answers_to i k r ≡ true → (reply : Reply) × (n : ℕ) × (r ≡ Ans i k reply n) }
{}

/// In a sound fabric whose lanes hold nothing of a requester, each of its submissions stands once
/// in the history, and none waits for its completion.
pub fn quiet_is_all_acted()
    ensures acted { (p : Whole) (i k : ℕ) → Sound p → p.inward ≡ [] → up_of p i ≡ [] → k < (requester_of p i).next → times i k p.history ≡ 1 }
    ensures answered { (p : Whole) (i t k : ℕ) → Sound p → p.inward ≡ [] → up_of p i ≡ [] → p.outward ≡ [] → down_of p i ≡ [] →
        open_number (requester_of p i) t ≢ Some k }
{}

/// The history of a sound fabric whose lanes hold no request has as many entries as its requesters submitted
/// operations.
pub fn a_quiet_history_has_every_submission()
    ensures { (p : Whole) → Sound p → p.inward ≡ [] → ((i : ℕ) → up_of p i ≡ []) → length p.history ≡ submitted_by p.requesters }
{}

/// Each event keeps every packet's Requester ID that of a port of the fabric, the requests such that
/// each asks for an operation, and the completions of the form that their requesters expect.
pub fn packets_keep_their_ports()
    ensures asks { (f : Fabric) (place mark : ℕ) (t : TlpView) → IsRouted f → slice_get (content f.inward) place ≡ Some (t, mark) → is_some (op_of t) ≡ true }
    ensures submitted { (f f' : Fabric) (i : ℕ) (op : Op) → IsRouted f → IsSubmitted f i op f' → IsRouted f' }
    ensures forwarded { (f f' : Fabric) (i place : ℕ) → IsRouted f → IsForwarded f i place f' → IsRouted f' }
    ensures served { (f f' : Fabric) (place : ℕ) → IsRouted f → IsServed f place f' → IsRouted f' }
    ensures returned { (f f' : Fabric) (i place : ℕ) → IsRouted f → IsReturned f i place f' → IsRouted f' }
    ensures collected { (f f' : Fabric) (i : ℕ) (a : Answer) → IsRouted f → IsCollected f i a f' → IsRouted f' }
    ensures up { (f : Fabric) (i : ℕ) (lanes : List LaneEndsView) → IsRouted f → IsLinked f.up i lanes → IsRouted (record f { up = lanes }) }
    ensures down { (f : Fabric) (i : ℕ) (lanes : List LaneEndsView) → IsRouted f → IsLinked f.down i lanes → IsRouted (record f { down = lanes }) }
    ensures inward { (f : Fabric) (lane : LaneEndsView) → IsRouted f → content lane ≡ content f.inward → IsRouted (record f { inward = lane }) }
    ensures outward { (f : Fabric) (lane : LaneEndsView) → IsRouted f → content lane ≡ content f.outward → IsRouted (record f { outward = lane }) }
{}

/// What a requester of a sound fabric collects is a completion that it expects, so it is never
/// refused; and every completion on its way back has a port to go to.
pub fn no_completion_is_strange()
    ensures expected { (p : Whole) (i : ℕ) (c : MarkedPacket) (rest : List MarkedPacket) → Sound p → down_of p i ≡ c ∷ rest →
        IsExpected i (requester_of p i) c }
    ensures finished { (f : Fabric) (i mark : ℕ) (q : RequesterView) (lane : LaneEndsView) (t : TlpView) → Sound (whole_of f) → IsRouted f →
        slice_get f.requesters i ≡ Some q → slice_get f.down i ≡ Some lane → slice_get lane.receiver.queue 0 ≡ Some (t, mark) →
        (a : Answer) × (finished q t ≡ Ok a) }
    ensures routed { (f : Fabric) (place mark : ℕ) (t : TlpView) → IsRouted f → slice_get (content f.outward) place ≡ Some (t, mark) →
        HasPort (length f.requesters) t }
{}
