//! Laws over any list of calls on a requester.
ghost use Rattle.std.specs.Prelude.{◌≡◌, ◌≤◌, ℕ, List, Contains};
ghost use Rattle.tlp_core.specs.Limits.{most_requesters};
ghost use Rattle.std.specs.List.{range_with_len};
ghost use Rattle.requester_core.specs.RequesterView.{fresh, IsSound};
ghost use Rattle.requester_core.specs.Runs.{Call, after_calls, given_in, answered_in, NoneTwice, IsOpen};

/// Whatever requests are prepared and opened and whatever packets arrive: the numbers are 0, 1, 2,
/// and so on; an open number was given and not yet answered, and stands under one tag; no number
/// is answered twice.
pub fn each_number_is_answered_once()
    ensures numbers { (port : ℕ) (calls : List Call) → given_in (fresh port) calls ≡ range_with_len 0 (after_calls (fresh port) calls).next }
    ensures sound { (port : ℕ) (calls : List Call) → 1 ≤ port → port ≤ most_requesters → IsSound (after_calls (fresh port) calls) }
    ensures not_yet { (port n : ℕ) (calls : List Call) → 1 ≤ port → port ≤ most_requesters → IsOpen (after_calls (fresh port) calls) n →
        Contains (answered_in (fresh port) calls) n → ⊥ }
    ensures once { (port : ℕ) (calls : List Call) → 1 ≤ port → port ≤ most_requesters → NoneTwice (answered_in (fresh port) calls) }
{}
