//! What holds of a sender whatever calls are made.
ghost use Rattle.std.specs.Prelude.{◌≡◌, ℕ, ◌+◌, ◌%◌, ◌<◌, ◌≤◌, List, length, slice_get};
ghost use Rattle.seq12.specs.Numbers.{next_of};
ghost use Rattle.link_replay.specs.CargoView.{CargoView};
ghost use Rattle.link_replay.specs.SenderView.{SenderView, fresh, number_at, next_number, sent_from, from_oldest};
ghost use Rattle.link_replay.specs.Runs.{Call, AreCalls, after_calls, accepted_in, KeepsTheLast};

/// Whatever calls are made, the kept packets are the last ones accepted, oldest first, each once and at most 2047.
pub fn kept_are_the_last_accepted()
    ensures kept { (calls : List Call) → AreCalls calls → KeepsTheLast (accepted_in fresh calls) (after_calls fresh calls) }
    ensures next { (calls : List Call) → AreCalls calls →
        next_number (after_calls fresh calls) ≡ length (accepted_in fresh calls) % 4096 }
{}

/// What `transmit` gives is one of the last 2047 packets accepted, under the number that it was accepted under.
pub fn transmitted_under_its_own_number()
    ensures { (calls : List Call) → AreCalls calls → (number : ℕ) (cargo : CargoView) →
        sent_from (after_calls fresh calls) ≡ Some (number, cargo) →
        (i : ℕ) × (slice_get (accepted_in fresh calls) i ≡ Some cargo) × (number ≡ i % 4096)
        × (length (accepted_in fresh calls) ≤ i + 2047) }
{}

/// The numbers of the kept packets are consecutive, from the one after ACKD_SEQ to the one before NEXT_TRANSMIT_SEQ,
/// and no two are equal.
pub fn kept_numbers_are_consecutive()
    ensures oldest { (s : SenderView) → number_at s 0 ≡ next_of s.acked }
    ensures each { (s : SenderView) (i : ℕ) → number_at s (i + 1) ≡ next_of (number_at s i) }
    ensures next { (s : SenderView) → next_number s ≡ number_at s (length s.kept) }
    ensures distinct { (s : SenderView) (i j : ℕ) → length s.kept ≤ 2047 → i < length s.kept → j < length s.kept →
        number_at s i ≡ number_at s j → i ≡ j }
{}

/// A replay sends the same packets under the same numbers, from the oldest on.
pub fn replays_are_the_same()
    ensures packets { (s : SenderView) → (from_oldest s).kept ≡ s.kept }
    ensures numbers { (s : SenderView) (i : ℕ) → number_at (from_oldest s) i ≡ number_at s i }
    ensures from_the_oldest { (s : SenderView) → (from_oldest s).place ≡ 0 }
{}
