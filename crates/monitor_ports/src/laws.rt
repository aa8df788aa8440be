//! Laws over any list of calls on a monitor.
ghost use Rattle.std.specs.Prelude.{◌≡◌, Bool, ℕ, List, Ok, Some};
ghost use Rattle.tlp_core.specs.Ops as operations;
ghost use Rattle.tlp_core.specs.Operation.{op_of};
ghost use Rattle.tlp_core.specs.TlpView.{TlpView};
ghost use Rattle.tlp_core.specs.Faults.{reading};
ghost use Rattle.history_words.specs.Records as recorded_things;
ghost use Rattle.history_words.specs.declared.record.RecordOf.TheVariants as records;
ghost use Rattle.monitor_ports.specs.Monitoring.{Monitor, new, request, watched};
ghost use Rattle.monitor_ports.specs.Runs.{Call, recorded, IsWellFormed};

/// Whatever the ports carry, whichever tags are given up and whichever requests are said to act: the numbers of each requester's
/// submissions are 0, 1, 2 and so on, and each answer is to an earlier non-posted request that wasn't
/// answered before. That is the form of a trace that can be explained: `numbered` of `Explains`, and
/// `asked`, `not_posted` and `unanswered` of `IsExplained`, in `history_check`.
pub fn records_are_well_formed()
    ensures { (is_trace : Bool) (calls : List Call) → IsWellFormed (recorded (new is_trace) calls) }
{}

/// The record of a request has the operation that its packet asks for, under the next number of its
/// requester.
pub fn a_submission_has_the_packets_operation()
    ensures { (m : Monitor) (i : ℕ) (bytes : List ℕ) (r : recorded_things.Record) → (request m i bytes).answer ≡ Ok r
        → (t : TlpView) × (op : operations.Op) × (reading bytes ≡ Ok t) × (op_of t ≡ Some op) × (r ≡ records.Sub i (watched m i).next op m.acted) }
{}
