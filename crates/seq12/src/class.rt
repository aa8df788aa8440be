//! What a receiver takes a packet's sequence number for.
ghost use Rattle.std.specs.Prelude.{◌≡◌, ℕ, ◌+◌, ◌%◌, ◌≤◌};
ghost use Rattle.seq12.specs.Numbers.{class_of, true_class};

use crate::Seq12;

/// A packet's sequence number beside NEXT_RCV_SEQ, the number that is waited for (section 3.6.3.1).
#[derive(Clone, Copy, PartialEq)]
pub enum SequenceClass {
    /// The number that is waited for.
    Expected,
    /// A number that was accepted before.
    Duplicate,
    /// A later number: a packet before it was lost.
    Ahead,
}

/// What a receiver whose NEXT_RCV_SEQ is `next` takes `got` for.
///
/// A sender has at most 2047 packets unacknowledged, so numbers from 1 to 2048 behind `next` are duplicates.
pub fn classify(next: Seq12, got: Seq12) -> SequenceClass
    ensures value { result ≡ class_of next got }
    // Wrapped numbers are told apart as the true ones are, where these aren't further apart than a window.
    ensures right { (true_next true_got : ℕ) → true_next % 4096 ≡ next → true_got % 4096 ≡ got →
        true_next ≤ true_got + 2048 → true_got ≤ true_next + 2047 → result ≡ true_class true_next true_got }
{
    if got == next {
        SequenceClass::Expected
    } else if next.distance(got) <= 2048 {
        SequenceClass::Duplicate
    } else {
        SequenceClass::Ahead
    }
}
