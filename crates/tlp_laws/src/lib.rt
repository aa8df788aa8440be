//! What `tlp` and a fabric answer to the same requests.
#![tactic(auto)]

ghost use Rattle.std.specs.Prelude.{◌≡◌, ◌*◌, ◌++◌, List, Some, ℕ};
ghost use Rattle.tlp_core.specs.Ops.{Op};
ghost use Rattle.tlp_core.specs.Operation.{op_of};
ghost use Rattle.tlp_core.specs.TlpView.{TlpView};
ghost use Rattle.history_words.specs.Records.{Record};
ghost use Rattle.fabric_steps.specs.Fabric.{Fabric, whole_of};
ghost use Rattle.fabric_steps.specs.Trace.{Belongs};
ghost use Rattle.fabric_steps.specs.declared.event.EventOf.TheVariants.{Submit};
ghost use Rattle.fabric_steps.specs.Event.{Seen};
ghost use Rattle.fabric_core.specs.Answers.{Happens};
ghost use Rattle.fabric_core.specs.Kept.{IsSoundFabric};
ghost use Rattle.fabric_core.specs.Quiet.{IsQuiet, AreShort, HaveTags};
ghost use Rattle.fabric_settle.specs.Rounds.{settlement};
ghost use Rattle.packet_engine.specs.Tlp.{answer_packet, with_history};
ghost use Rattle.tlp_laws.specs.Alone.{IsAlone, IsAnswered, by_tlp};

use fabric_core::laws::{
    a_quiet_fabric_has_every_submission, a_run_keeps_its_trace, each_event_happens_by_its_parts,
    each_event_keeps_it_sound, each_request_is_answered_at_rest,
};
use fabric_settle::rest_laws::every_fabric_comes_to_rest;
use fabric_settle_laws::what_settles_happens;
use fabric_steps::laws::{quiet_is_all_acted, the_trace_belongs};
use seq_memory::laws::replies_stay;

/// A fabric answers one request after another as one memory does, whatever its links lose: if a fabric at rest is given a
/// request, and comes to rest again by events that submit nothing, its history has the request as its one entry more. If
/// the request isn't posted, it is answered, with the reply of the sequential memory.
pub fn a_lone_request_is_answered_by_the_memory()
    ensures { (f g : Fabric) (records told : List Record) (port : ℕ) (op : Op) → IsAlone f records port op told g →
        IsAnswered f.memory port op (records ++ told) g.memory }
{
    a_quiet_fabric_has_every_submission();
    a_run_keeps_its_trace();
    each_event_happens_by_its_parts();
    each_event_keeps_it_sound();
    each_request_is_answered_at_rest();
    quiet_is_all_acted();
    replies_stay();
    the_trace_belongs();
}

/// A settlement submits nothing, so a request that is submitted to a fabric at rest, which is then settled, is alone in it.
/// The wires are short and the requesters have 256 tags, as those of every [`Fabric`](fabric_core::Fabric) are.
pub fn a_settlement_leaves_a_request_alone()
    ensures { (f f' : Fabric) (records : List Record) (port : ℕ) (op : Op) (what : Seen) → IsSoundFabric f → Belongs (whole_of f) records → IsQuiet f →
        Happens f (Submit port op) what f' → AreShort f' → HaveTags f' → (told : List Record) × IsAlone f records port op told (settlement f').fabric }
{
    each_event_keeps_it_sound();
    every_fabric_comes_to_rest();
    what_settles_happens();
}

/// `tlp` answers, request by request, what a fabric does: if its memory is that of the fabric at rest, then to a packet that
/// asks for the same operation under the requester's ID it prints the completion with the reply of the sequential memory,
/// which is the fabric's answer, or `-` if the request is posted; and its memory is that of the fabric after it.
pub fn tlp_answers_what_a_fabric_does()
    ensures { (f g : Fabric) (records told : List Record) (port : ℕ) (op : Op) (t : TlpView) → IsAlone f records port op told g → op_of t ≡ Some op →
        t.requester ≡ port * 256 →
        answer_packet with_history f.memory t ≡ by_tlp f.memory t op g.memory }
{
    a_lone_request_is_answered_by_the_memory();
}
