//! What holds of a device behind its end of a link whatever calls are made, whatever its peer and the wires do.
ghost use Rattle.std.specs.Prelude.{◌≡◌, ◌++◌, ◌∷◌, [], true, false, ℕ, List, length, map};
ghost use Rattle.dllp_core.specs.declared.packet.Class.{Class};
ghost use Rattle.flow_control.specs.declared.limits.LaneCredits.{LaneCredits};
ghost use Rattle.link_replay.specs.ReceiverRuns.{AreConsecutive};
ghost use Rattle.port_core.specs.Port.{outgoing_of, outgoing_bytes};
ghost use Rattle.port_core.specs.Init.{is_up, fi1};
ghost use Rattle.port_core.specs.Runs.{IsEntered, CoversHeaders, CoversUnits, advertised_in};
ghost use Rattle.config_core.specs.SetupView.{SetupView};
ghost use Rattle.endpoint_core.specs.Runs as devices;
ghost use Rattle.linked_endpoint.specs.LinkedView.{LinkedView};
ghost use Rattle.linked_endpoint.specs.Linked.{may_act, may_enter};
ghost use Rattle.linked_endpoint.specs.Settling.{settling, settled};
ghost use Rattle.linked_endpoint.specs.Runs.{Call, AreCalls, AreTurns, run_in, story, somes, list_of, tlps_within, taken_in, cargos_of};

use endpoint_core::laws::{each_request_leaves_once, whatever_comes};
use port_core::{
    Outgoing, initialization_comes_first, no_more_is_sent_than_the_peer_advertised,
    what_is_sent_was_entered, whatever_arrives,
};

/// Whatever calls come, and whatever bytes arrive, since the link came up last: the packets that were accepted have the
/// numbers 0, 1, 2, .. modulo 4096, each once. The device took the TLP of each that is within its credits, once and in
/// order, and nothing else. Each block request of a non-posted one left its queue once, or waits, and the memory holds what
/// the block requests that acted make of the bytes that it had. The completions of what acted entered in order, each once,
/// but for one that is held. What is sent is one of them, byte by byte, under its own number, however often it is replayed.
/// The credits that are not back are those of the requests that wait.
pub fn each_accepted_request_acts_once()
    ensures numbers { (setup : SetupView) (ours : LaneCredits) (calls : List Call) → AreCalls calls →
        AreConsecutive 0 (map (λ a. a.number) (run_in setup ours calls).accepted) }
    ensures taken { (setup : SetupView) (ours : LaneCredits) (calls : List Call) → AreCalls calls →
        taken_in (run_in setup ours calls).device_calls ≡ tlps_within (run_in setup ours calls).accepted }
    ensures device { (setup : SetupView) (ours : LaneCredits) (calls : List Call) → AreCalls calls →
        (run_in setup ours calls).linked.endpoint ≡ devices.after_calls (run_in setup ours calls).start (run_in setup ours calls).device_calls }
    ensures requests { (setup : SetupView) (ours : LaneCredits) (calls : List Call) → AreCalls calls →
        devices.all_coming (run_in setup ours calls).device_calls ≡
        devices.all_leaving (run_in setup ours calls).start (run_in setup ours calls).device_calls
        ++ devices.blocks_waiting (run_in setup ours calls).linked.endpoint }
    ensures bytes { (setup : SetupView) (ours : LaneCredits) (calls : List Call) → AreCalls calls →
        (run_in setup ours calls).linked.endpoint.device.bytes ≡
        devices.bytes_by (run_in setup ours calls).start.device.bytes
        (devices.all_effects (run_in setup ours calls).start (run_in setup ours calls).device_calls) }
    ensures entered { (setup : SetupView) (ours : LaneCredits) (calls : List Call) → AreCalls calls →
        cargos_of (run_in setup ours calls).completed ≡ (story ours (run_in setup ours calls)).entered ++
        cargos_of (list_of (run_in setup ours calls).linked.held) }
    ensures sent { (setup : SetupView) (ours : LaneCredits) (calls : List Call) (number : ℕ) → AreCalls calls →
        outgoing_of (run_in setup ours calls).linked.port ≡ Outgoing.Packet number →
        IsEntered (story ours (run_in setup ours calls)).entered number (outgoing_bytes (run_in setup ours calls).linked.port) }
    ensures held { (setup : SetupView) (ours : LaneCredits) (calls : List Call) → AreCalls calls →
        somes (run_in setup ours calls).linked.needs ≡ (story ours (run_in setup ours calls)).held }
    ensures waiting { (setup : SetupView) (ours : LaneCredits) (calls : List Call) → AreCalls calls →
        length (run_in setup ours calls).linked.needs ≡ length (run_in setup ours calls).linked.endpoint.waiting }
{
    each_request_leaves_once();
    whatever_comes();
    whatever_arrives();
    what_is_sent_was_entered();
}

/// Whatever calls come, and whatever bytes arrive: a device keeps to its peer's credits. From the last InitFC of FC_INIT1 on,
/// which is when the link is in DL_Up, CREDIT_LIMIT is what the last UpdateFC that took effect says. In whole numbers, all
/// completions that entered lie within it.
pub fn no_more_is_completed_than_the_peer_advertised()
    ensures headers { (setup : SetupView) (ours : LaneCredits) (calls : List Call) (class : Class) → AreCalls calls →
        is_up (run_in setup ours calls).linked.port.state ≡ true → CoversHeaders class (story ours (run_in setup ours calls)) }
    ensures units { (setup : SetupView) (ours : LaneCredits) (calls : List Call) (class : Class) → AreCalls calls →
        is_up (run_in setup ours calls).linked.port.state ≡ true → CoversUnits class (story ours (run_in setup ours calls)) }
    ensures up { (setup : SetupView) (ours : LaneCredits) (calls : List Call) → AreCalls calls →
        is_up (run_in setup ours calls).linked.port.state ≡ fi1 (advertised_in (story ours (run_in setup ours calls)).heard) }
{
    initialization_comes_first();
    no_more_is_sent_than_the_peer_advertised();
}

/// Where a device has [settled](crate::LinkedEndpoint::settle), no request may act, and no completion that is held may enter the
/// replay buffer. On the way there requests act and completions enter, and nothing else happens.
pub fn a_settled_device_is_at_rest()
    ensures acts { (l : LinkedView) → may_act (settled l) ≡ false }
    ensures enters { (l : LinkedView) → may_enter (settled l) ≡ false }
    ensures turns { (l : LinkedView) → AreTurns (settling l) }
{}
