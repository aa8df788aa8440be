//! What holds of a port whatever calls are made, whatever its peer and the wires do, and of every DLLP.
ghost use Rattle.std.specs.Prelude.{◌≡◌, ◌≢◌, ◌⊎◌, ◌+◌, ◌%◌, ◌<◌, ◌≤◌, Bool, true, false, ℕ, Ok, Err, List, [], length, map, slice_get};
ghost use Rattle.dllp_core.specs.declared.packet.Class.{Class};
ghost use Rattle.flow_control.specs.declared.limits.LaneCredits.{LaneCredits};
ghost use Rattle.flow_control.specs.Limits.{IsInLimits};
ghost use Rattle.flow_control.specs.Credits.{ledger_of};
ghost use Rattle.link_crc.specs.declared.check.Check.{Check};
ghost use Rattle.link_replay.specs.ReceiverRuns.{AreConsecutive};
ghost use Rattle.link_replay.specs.SenderView.{next_number};
ghost use Rattle.link_replay.specs.Runs.{KeepsTheLast};
ghost use Rattle.port_core.specs.declared.init.FirstCredits.{FirstCredits};
ghost use Rattle.port_core.specs.Init.{is_up, fi1, first_of};
ghost use Rattle.port_core.specs.Dllps.{link_reading, link_bytes};
ghost use Rattle.port_core.specs.Runs.{Call, AreCalls, AreOfFewUnits, IsEntered, CoversHeaders, CoversUnits, advertised_in, story_in, given_in, headers_in, units_in, allocated_headers, allocated_units};
ghost use Rattle.port_core.specs.Port.{PortView, received, after_receive, dllp_answer, after_dllp_received, outgoing_of, outgoing_bytes, after_next};

use crate::dllp::{InitStage, LinkDllp};
use crate::incoming::Received;
use crate::init::LinkState;
use crate::port::{DllpReceived, Outgoing};
use dllp_core::bytes_spell_one_dllp;
use flow_control::limits_let_each_packet_go;
use link_replay::{
    hands_up_what_it_advanced_by, kept_are_the_last_accepted, transmitted_under_its_own_number,
};

/// A packet or DLLP that is discarded or refused changes nothing, nor does `next` if there is nothing to send.
pub fn a_refused_call_changes_nothing()
    ensures packet { (p : PortView) (packet : List ℕ) (check : Check) → received p packet check ≡ Received.Dropped → after_receive p packet check ≡ p }
    ensures dllp { (p : PortView) (bytes : List ℕ) (check : Check) (r : _) → dllp_answer p bytes check ≡ Err r → after_dllp_received p bytes check ≡ p }
    ensures gone { (p : PortView) (bytes : List ℕ) (check : Check) → dllp_answer p bytes check ≡ Ok DllpReceived.Gone → after_dllp_received p bytes check ≡ p }
    ensures nothing { (p : PortView) → outgoing_of p ≡ Outgoing.Nothing → after_next p ≡ p }
{}

/// An InitFC is read back from the bytes that a port sends for it.
pub fn an_initfc_is_read_back()
    ensures { (stage : InitStage) (class : Class) (first : FirstCredits) → first.header < 256 → first.units < 4096 →
        link_reading (link_bytes (LinkDllp.Init stage class first)) ≡ Ok (LinkDllp.Init stage class first) }
{}

/// Whatever calls come, and whatever bytes arrive: the packets that a port handed up since its link came up have the
/// numbers 0, 1, 2, .. modulo 4096, each once, and NEXT_RCV_SEQ is their count. The replay buffer is the last packets
/// that were entered, at most 2047, each under its own number. Before FC_INIT2 nothing was accepted, and nothing enters
/// before DL_Active.
pub fn whatever_arrives()
    ensures numbers { (ours : LaneCredits) (calls : List Call) → AreCalls calls →
        AreConsecutive 0 (map (λ packet. packet.0) (story_in ours calls).accepted) }
    ensures next { (ours : LaneCredits) (calls : List Call) → AreCalls calls →
        (story_in ours calls).port.incoming.receiving.next ≡ length (story_in ours calls).accepted % 4096 }
    ensures kept { (ours : LaneCredits) (calls : List Call) → AreCalls calls →
        KeepsTheLast (story_in ours calls).entered (story_in ours calls).port.sender.sending }
    ensures before { (ours : LaneCredits) (calls : List Call) → AreCalls calls →
        is_up (story_in ours calls).port.state ≡ false → (story_in ours calls).accepted ≡ [] }
    ensures closed { (ours : LaneCredits) (calls : List Call) → AreCalls calls →
        (story_in ours calls).port.state ≢ LinkState.Active → (story_in ours calls).entered ≡ [] }
{
    bytes_spell_one_dllp();
    hands_up_what_it_advanced_by();
    kept_are_the_last_accepted();
}

/// Whatever calls come, and whatever bytes arrive: no class holds more headers or data units than were advertised, and
/// no credit is lost. What was received is what is held and what went back, and CREDITS_ALLOCATED is what was advertised
/// and what went back.
pub fn no_more_is_held_than_was_advertised()
    ensures headers { (ours : LaneCredits) (calls : List Call) (class : Class) → IsInLimits ours → AreCalls calls → 0 < (first_of ours class).header →
        headers_in class (story_in ours calls).held ≤ (first_of ours class).header }
    ensures units { (ours : LaneCredits) (calls : List Call) (class : Class) → IsInLimits ours → AreCalls calls → 0 < (first_of ours class).units →
        units_in class (story_in ours calls).held ≤ (first_of ours class).units }
    ensures allocated_headers { (ours : LaneCredits) (calls : List Call) (class : Class) → IsInLimits ours → AreCalls calls →
        allocated_headers class (story_in ours calls) ≡ ((first_of ours class).header + headers_in class (story_in ours calls).freed) % 256 }
    ensures allocated_units { (ours : LaneCredits) (calls : List Call) (class : Class) → IsInLimits ours → AreCalls calls →
        allocated_units class (story_in ours calls) ≡ ((first_of ours class).units + units_in class (story_in ours calls).freed) % 4096 }
    ensures received_headers { (ours : LaneCredits) (calls : List Call) (class : Class) → IsInLimits ours → AreCalls calls →
        (ledger_of class (story_in ours calls).port.incoming.ledger).header.received ≡
        (headers_in class (story_in ours calls).held + headers_in class (story_in ours calls).freed) % 256 }
    ensures received_units { (ours : LaneCredits) (calls : List Call) (class : Class) → IsInLimits ours → AreCalls calls →
        (ledger_of class (story_in ours calls).port.incoming.ledger).units.received ≡
        (units_in class (story_in ours calls).held + units_in class (story_in ours calls).freed) % 4096 }
{
    bytes_spell_one_dllp();
}

/// Whatever calls come, and whatever bytes arrive: a packet that `next` gives is one of the last 2047 that were entered,
/// byte by byte. Its number is its place among all that were entered, modulo 4096, however often it is replayed, and the
/// one that enters next has their count.
pub fn what_is_sent_was_entered()
    ensures sent { (ours : LaneCredits) (calls : List Call) (number : ℕ) → AreCalls calls → outgoing_of (story_in ours calls).port ≡ Outgoing.Packet number →
        IsEntered (story_in ours calls).entered number (outgoing_bytes (story_in ours calls).port) }
    ensures next { (ours : LaneCredits) (calls : List Call) → AreCalls calls →
        next_number (story_in ours calls).port.sender.sending ≡ length (story_in ours calls).entered % 4096 }
{
    bytes_spell_one_dllp();
    kept_are_the_last_accepted();
    transmitted_under_its_own_number();
}

/// Whatever calls come, and whatever bytes arrive: as many packets as were acknowledged, those that were entered and aren't kept,
/// were given out by `next` at least once. An Ack of any other is refused.
#[tactic(auto, using(crate::proofs::GivenRuns::was_given))]
pub fn what_is_acknowledged_was_given_out()
    ensures { (ours : LaneCredits) (calls : List Call) →
        length (story_in ours calls).entered ≤ given_in ours calls + length (story_in ours calls).port.sender.sending.kept }
{}

/// Initialization comes first, whatever calls come: a port is in DL_Up, where it accepts packets, exactly when the peer's
/// InitFCs of all three classes took effect. It sends packets in DL_Active alone, InitFC1s alone in FC_INIT1, and
/// nothing in DL_Inactive.
pub fn initialization_comes_first()
    ensures up { (ours : LaneCredits) (calls : List Call) → AreCalls calls → AreOfFewUnits calls →
        is_up (story_in ours calls).port.state ≡ fi1 (advertised_in (story_in ours calls).heard) }
    ensures active { (p : PortView) (number : ℕ) → outgoing_of p ≡ Outgoing.Packet number → p.state ≡ LinkState.Active }
    ensures init1 { (p : PortView) → p.state ≡ LinkState.Init1 →
        (outgoing_of p ≡ Outgoing.Nothing) ⊎ ((class : Class) × (outgoing_of p ≡ Outgoing.Dllp (LinkDllp.Init InitStage.First class (first_of p.ours class)))) }
    ensures inactive { (p : PortView) → p.state ≡ LinkState.Inactive → outgoing_of p ≡ Outgoing.Nothing }
{
    bytes_spell_one_dllp();
    limits_let_each_packet_go();
}

/// Whatever calls come, and whatever bytes arrive, from the last InitFC of FC_INIT1 on: the first value of each class is
/// that of the peer's first InitFC, and CREDIT_LIMIT is what the last UpdateFC that took effect says. In whole numbers, all
/// packets that were entered lie within it, and no more than 127 headers and 2047 data units of it are unused.
pub fn no_more_is_sent_than_the_peer_advertised()
    ensures headers { (ours : LaneCredits) (calls : List Call) (class : Class) → AreCalls calls → AreOfFewUnits calls →
        is_up (story_in ours calls).port.state ≡ true → CoversHeaders class (story_in ours calls) }
    ensures units { (ours : LaneCredits) (calls : List Call) (class : Class) → AreCalls calls → AreOfFewUnits calls →
        is_up (story_in ours calls).port.state ≡ true → CoversUnits class (story_in ours calls) }
{
    bytes_spell_one_dllp();
    limits_let_each_packet_go();
}
