//! The duty of each event: what it is by the parts that its seat holds, why it is refused, and what may be concluded of
//! both.
ghost use Rattle.hall_laws.specs.Duties.{TransmitOwes, DeliverOwes, SendDllpOwes, DeliverDllpOwes, TimerOwes, RetrainedOwes, ForwardUpOwes, ForwardOutOwes, ServeOwes, SubmitOwes, CollectOwes};
ghost use Rattle.hall_laws.specs.Causes.{TransmitIsRefused, SenderHasNothing, DeliverIsRefused, WireHasNothing, SendDllpIsRefused, DeliverDllpIsRefused, BackHasNothing, TimerIsRefused, RetrainedIsRefused, UpHasNoWay, UpIsKept, OutHasNoWay, OutHasNoLane, OutIsKept, ServeIsRefused, InHasNothing, SubmitIsRefused, CollectIsRefused};
ghost use Rattle.hall_laws.specs.Telling.{SubmissionTells, CollectionTells, LookTells, MeetingTells, EventShows};

use fabric_core::laws::each_event_keeps_it_sound;
use fabric_steps::laws::{packets_keep_their_ports, the_trace_belongs};

/// A transmission over a sender's end and its forward wire is that event of the fabric, which shows what is seen of it;
/// where the parts refuse it, so does the fabric, and so it does where the sender's end alone has nothing to send.
pub fn transmitting()
    ensures owes { TransmitOwes }
    ensures refused { TransmitIsRefused }
    ensures nothing { SenderHasNothing }
    ensures shown { EventShows }
{}

/// A delivery over a forward wire and its receiver's end is that event of the fabric, which shows what is seen of it;
/// where the parts refuse it, so does the fabric, and so it does where the wire alone is known to be empty.
pub fn delivering()
    ensures owes { DeliverOwes }
    ensures refused { DeliverIsRefused }
    ensures nothing { WireHasNothing }
    ensures shown { EventShows }
{}

/// A DLLP that is sent, over a receiver's end and its back wire, is that event of the fabric, which shows what is seen
/// of it; where the parts refuse it, so does the fabric.
pub fn sending_a_dllp()
    ensures owes { SendDllpOwes }
    ensures refused { SendDllpIsRefused }
    ensures shown { EventShows }
{}

/// A DLLP that is delivered, over a back wire and its sender's end, is that event of the fabric, which shows what is
/// seen of it; where the parts refuse it, so does the fabric, and so it does where the wire alone is known to be empty.
pub fn delivering_a_dllp()
    ensures owes { DeliverDllpOwes }
    ensures refused { DeliverDllpIsRefused }
    ensures nothing { BackHasNothing }
    ensures shown { EventShows }
{}

/// A replay timer that expires, over its sender's end, is that event of the fabric, which shows what is seen of it;
/// where the parts refuse it, so does the fabric.
pub fn expiring()
    ensures owes { TimerOwes }
    ensures refused { TimerIsRefused }
    ensures shown { EventShows }
{}

/// A retraining over its sender's end is that event of the fabric, which shows what is seen of it; where the parts
/// refuse it, so does the fabric.
pub fn retraining()
    ensures owes { RetrainedOwes }
    ensures refused { RetrainedIsRefused }
    ensures shown { EventShows }
{}

/// A packet that goes from an `up` lane into `in`, over the receiver's end and the next sender's, is that event of the
/// fabric, which shows what is seen of it; where the parts refuse it, so does the fabric.
pub fn forwarding_up()
    ensures owes { ForwardUpOwes }
    ensures no_way { UpHasNoWay }
    ensures kept { UpIsKept }
    ensures shown { EventShows }
{}

/// A packet that goes from `out` into a `down` lane, over the receiver's end and the next sender's, is that event of
/// the fabric, which shows what is seen of it; where the parts refuse it, so does the fabric.
pub fn forwarding_out()
    ensures owes { ForwardOutOwes }
    ensures no_way { OutHasNoWay }
    ensures no_lane { OutHasNoLane }
    ensures kept { OutIsKept }
    ensures shown { EventShows }
{}

/// A request that acts, over the receiver's end of `in`, the memory and the sender's end of `out`, is that event of the
/// fabric, which shows what is seen of it; where the parts refuse it, so does the fabric, and so it does where the
/// receiver's end alone shows that no request may be taken from the place.
pub fn serving()
    ensures owes { ServeOwes }
    ensures refused { ServeIsRefused }
    ensures nothing { InHasNothing }
    ensures shown { EventShows }
{}

/// A submission over the requester and the sender's end of its `up` lane is that event of the fabric; where the parts
/// refuse it, so does the fabric. By the history of the memory it tells the seat where the request stands.
pub fn submitting()
    ensures owes { SubmitOwes }
    ensures refused { SubmitIsRefused }
    ensures tells { SubmissionTells }
{
    each_event_keeps_it_sound();
    the_trace_belongs();
    packets_keep_their_ports();
}

/// A collection over the requester and the receiver's end of its `down` lane is that event of the fabric; where the
/// parts refuse it, so does the fabric. By the history of the memory it tells the seat at which point the request
/// acted.
pub fn collecting()
    ensures owes { CollectOwes }
    ensures refused { CollectIsRefused }
    ensures tells { CollectionTells }
    ensures looked { LookTells }
{
    each_event_keeps_it_sound();
    the_trace_belongs();
    packets_keep_their_ports();
}

/// Two seats of which one holds the memory may both have seen its history.
pub fn meeting()
    ensures { MeetingTells }
{
    the_trace_belongs();
}
