//! What a device behind a link comes to, if its peer answers.
#![tactic(auto)]

ghost use Rattle.std.specs.Prelude.{ℕ, ◌≡◌, ◌*◌, ◌<◌, [], None};
ghost use Rattle.linked_endpoint.specs.LinkedView.{LinkedView};
ghost use Rattle.linked_endpoint.specs.Linked.{turns_left};
ghost use Rattle.linked_laws.specs.Rounds.{Rounds};

/// If, before each [`settle`](linked_endpoint::LinkedEndpoint::settle) that succeeds, the peer has acknowledged all that is
/// kept, and has given the credits of the next completion back, all requests that wait are completed: no more rounds go by
/// than there are turns left, twice, and one. A request has one turn, or, if it is a read, one more than its DW at most.
pub fn a_device_that_is_served_completes_all()
    ensures waiting { (n : ℕ) (old new : LinkedView) → Rounds n old new → 2 * turns_left old < n → new.endpoint.waiting ≡ [] }
    ensures held { (n : ℕ) (old new : LinkedView) → Rounds n old new → 2 * turns_left old < n → new.held ≡ None }
{}
