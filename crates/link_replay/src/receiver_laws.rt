//! What holds of a receiver whatever calls are made.
ghost use Rattle.std.specs.Prelude.{◌≡◌, ◌+◌, ◌%◌, ◌<◌, ◌≤◌, List, [], length};
ghost use Rattle.link_replay.specs.ReceiverView.{ReceiverView, fresh};
ghost use Rattle.link_replay.specs.ReceiverRuns.{Call, after_calls, handed_up_in, naks_in, AreConsecutive};

/// A receiver hands up as many packets as NEXT_RCV_SEQ advanced by, and their numbers are consecutive: the first that a
/// fresh one hands up is 000h, and none is left out or comes twice.
pub fn hands_up_what_it_advanced_by()
    ensures advanced { (r : ReceiverView) (calls : List Call) → r.next < 4096 →
        (after_calls r calls).next ≡ (r.next + length (handed_up_in r calls)) % 4096 }
    ensures consecutive { (r : ReceiverView) (calls : List Call) → AreConsecutive r.next (handed_up_in r calls) }
    ensures from_the_start { (calls : List Call) → AreConsecutive 0 (handed_up_in fresh calls) }
{}

/// While no packet is accepted, at most one Nak becomes due.
pub fn one_nak_until_a_packet_is_accepted()
    ensures { (r : ReceiverView) (calls : List Call) → handed_up_in r calls ≡ [] → naks_in r calls ≤ 1 }
{}
