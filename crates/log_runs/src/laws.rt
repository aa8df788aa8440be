//! Laws of logs.
ghost use Rattle.std.specs.Prelude.{ℕ, Bool, Option, ◌≡◌, ◌<◌, ◌+◌, ◌++◌, ◌∷◌, [], List, is_some, length, option_map, take, slice_get, Some};
ghost use Rattle.tlp_core.specs.Operation.{address_of, count_of, is_posted};
ghost use Rattle.tlp_core.specs.Ops.{Op};
ghost use Rattle.seq_memory.specs.Entries.{Entry};
ghost use Rattle.seq_memory.specs.Entries.{Reply};
ghost use Rattle.history_words.specs.Records.{Record};
ghost use Rattle.history_words.specs.declared.record.RecordOf.TheVariants as records;
ghost use Rattle.history_words.specs.Claim.{claim_of};
ghost use Rattle.history_words.specs.Clocks.{IsClocked};
ghost use Rattle.history_words.specs.Trace.{Explains, IsNumbered, submissions};
ghost use Rattle.history_words.specs.TraceView.{TraceView, observed};
ghost use Rattle.log_runs.specs.EventView.{EventView};
ghost use Rattle.log_runs.specs.EventView as events;
ghost use Rattle.log_runs.specs.Headers.{header_of};
ghost use Rattle.log_runs.specs.declared.log.EventHeader.TheVariants as headers;
ghost use Rattle.log_runs.specs.Explainable.{IsExplainable, SeenAlike, prefix, without};
ghost use Rattle.log_runs.specs.Histories.{history_of, timed, with_replies};
ghost use Rattle.log_runs.specs.Runs.{Live, start};
ghost use Rattle.log_runs.specs.Tasks.{AreAllEvents, AreEvents, IsMisformed, IsWellFormed};

/// What a history explains, with `n` that are those of a history that grew, is explainable: so it has a history whatever
/// its `n` are.
pub fn clocked_is_explainable()
    ensures { (t : TraceView) (h : List Entry) → Explains (claim_of t h) → IsClocked (claim_of t h) → IsExplainable t }
{}

/// A prefix of an explainable log is explainable.
pub fn prefix_is_explainable()
    ensures { (t : TraceView) (n : ℕ) → IsExplainable t → IsExplainable (prefix n t) }
{}

/// An explainable log without one of its answers is explainable.
pub fn fewer_answers_are_explainable()
    ensures { (t : TraceView) (a i k n : ℕ) (reply : Reply) → slice_get t.records a ≡ Some (records.Ans i k reply n) → IsExplainable t →
        IsExplainable (without a t) }
{}

/// An explainable log has no record whose form is wrong.
pub fn explainable_is_well_formed()
    ensures { (t : TraceView) (a : ℕ) (r : Record) → IsExplainable t → slice_get t.records a ≡ Some r → IsMisformed (take a t.records) r → ⊥ }
{}

/// Some run leads through the events of an explainable log to the end.
pub fn explainable_has_a_run()
    ensures { (t : TraceView) (es : List EventView) → AreEvents t.records es → IsExplainable t →
        Live (record { extent = observed t; events = es }) (start (record { extent = observed t; events = es })) }
{}

/// A run through all events of a log whose form is right is a history that explains the log. Its entries are the
/// requests in the order in which they act, and n of a record is the number of requests that had acted when it was passed.
/// An answer that has only that its request was done gets the reply of the memory.
pub fn a_run_is_a_history()
    ensures explains { (t : TraceView) (es : List EventView) → IsWellFormed t.records → AreAllEvents t.records es →
        (run : Live (record { extent = observed t; events = es }) (start (record { extent = observed t; events = es }))) →
        Explains (claim_of (timed run.steps (with_replies (history_of t.records run.steps) t)) (history_of t.records run.steps)) }
    ensures clocked { (t : TraceView) (es : List EventView) → IsWellFormed t.records → AreAllEvents t.records es →
        (run : Live (record { extent = observed t; events = es }) (start (record { extent = observed t; events = es }))) →
        IsClocked (claim_of (timed run.steps (with_replies (history_of t.records run.steps) t)) (history_of t.records run.steps)) }
    ensures alike { (t : TraceView) (es : List EventView) → IsWellFormed t.records → AreAllEvents t.records es →
        (run : Live (record { extent = observed t; events = es }) (start (record { extent = observed t; events = es }))) →
        SeenAlike t (timed run.steps (with_replies (history_of t.records run.steps) t)) }
    ensures explainable { (t : TraceView) (es : List EventView) → IsWellFormed t.records → AreAllEvents t.records es →
        Live (record { extent = observed t; events = es }) (start (record { extent = observed t; events = es })) → IsExplainable t }
{}

/// Where the numbers of submissions are right, a number names one submission, and is below the
/// number of its requester's submissions; and each number below that names one.
pub fn numbers_name_submissions()
    ensures below { (rs : List Record) (b i k n : ℕ) (op : Op) → IsNumbered rs → slice_get rs b ≡ Some (records.Sub i k op n) → k < length (submissions rs i) }
    ensures unique { (rs : List Record) (a b i k n m : ℕ) (op w : Op) → IsNumbered rs → slice_get rs a ≡ Some (records.Sub i k op n) →
        slice_get rs b ≡ Some (records.Sub i k w m) → a ≡ b }
    ensures named { (rs : List Record) (i k : ℕ) (op : Op) → IsNumbered rs → slice_get (submissions rs i) k ≡ Some op →
        (b : ℕ) × (n : ℕ) × (slice_get rs b ≡ Some (records.Sub i k op n)) }
{}

/// A record more is a submission more of its requester, if it is one.
pub fn submissions_grow_by_records()
    ensures own { (rs : List Record) (a i k n : ℕ) (op : Op) → slice_get rs a ≡ Some (records.Sub i k op n) →
        submissions (take (a + 1) rs) i ≡ submissions (take a rs) i ++ op ∷ [] }
    ensures other { (rs : List Record) (a i j k n : ℕ) (op : Op) → slice_get rs a ≡ Some (records.Sub i k op n) → (j ≡ i → ⊥) →
        submissions (take (a + 1) rs) j ≡ submissions (take a rs) j }
    ensures answer { (rs : List Record) (a i j k n : ℕ) (reply : Reply) → slice_get rs a ≡ Some (records.Ans i k reply n) →
        submissions (take (a + 1) rs) j ≡ submissions (take a rs) j }
    ensures numbered { (rs : List Record) (a i k n : ℕ) (op : Op) → IsNumbered (take a rs) → slice_get rs a ≡ Some (records.Sub i k op n) →
        k ≡ length (submissions (take a rs) i) → IsNumbered (take (a + 1) rs) }
    ensures numbered_answer { (rs : List Record) (a i k n : ℕ) (reply : Reply) → IsNumbered (take a rs) → slice_get rs a ≡ Some (records.Ans i k reply n) →
        IsNumbered (take (a + 1) rs) }
{}

/// A header says of which kind its event is, and of a submission what it says of the operation and the reply.
pub fn headers_are_of_events()
    ensures submission { (o : Option EventView) (i a size : ℕ) (posted answered : Bool) → option_map header_of o ≡ Some (headers.Sub i posted answered a size) →
        (op : Op) × (told : Option Reply) × (o ≡ Some (events.Sub i op told)) × (is_posted op ≡ posted) × (is_some told ≡ answered) ×
        (address_of op ≡ a) × (count_of op ≡ size) }
    ensures due { (o : Option EventView) (b : ℕ) → option_map header_of o ≡ Some (headers.Due b) → o ≡ Some (events.Due b) }
    ensures free { (o : Option EventView) → option_map header_of o ≡ Some headers.Free → o ≡ Some events.Free }
{}
