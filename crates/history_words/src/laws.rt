//! Laws of histories: what holds of the definitions.
ghost use Rattle.history_words.specs.Claim.{Claim};
ghost use Rattle.history_words.specs.Clocks.{IsClocked, KeepsRealTimeOrder};
ghost use Rattle.history_words.specs.Trace.{Explains};

/// Answered requests are linearizable, in the words of Herlihy and Wing (1990): the history is a legal
/// sequential one (`Explains`), in which each answered request has its reply, and it keeps the order of
/// real time. If the response to one request comes before the invocation of another, the first stands
/// before the second in the history, whether the second is answered or still pending.
pub fn answered_first_acts_first()
    ensures { (x : Claim) → Explains x → IsClocked x → KeepsRealTimeOrder x }
{}
