//! What can happen to a fabric, and what is seen of it. How an operation or an answer is kept is a parameter.
use dllp_core::Dllp;
use lane_core::{Arrival, DllpKind, DllpSeen, Fate};
use requester_core::Answer;
use seq12::Seq12;
use tlp_core::Op;

/// A lane of the fabric.
#[derive(Clone, Copy, Debug, PartialEq)]
pub enum LaneName {
    /// From the requester at this port, 1 to 7, to the switch.
    Up(u8),
    /// From the switch to the requester at this port, 1 to 7.
    Down(u8),
    /// From the switch to the memory.
    Inward,
    /// From the memory to the switch.
    Outward,
}

/// A call of a link.
#[derive(Clone, Copy)]
pub enum LinkEvent {
    /// The sender's next packet goes onto the forward wire.
    Transmit,
    /// The oldest packet of the forward wire reaches the receiver, or doesn't.
    Deliver(Fate),
    /// The receiver puts a DLLP on the back wire.
    SendDllp(DllpKind),
    /// The oldest DLLP of the back wire reaches the sender, or doesn't.
    DeliverDllp(Fate),
    /// The sender's replay timer expires.
    Timer,
    /// The link was retrained, after the sender had stopped.
    Retrained,
}

/// What happens to a fabric, with its operation kept as an `O`.
#[derive(PartialEq, Drop)]
pub enum EventOf<O> {
    /// The requester at this port submits an operation.
    Submit(u8, O),
    /// The sender's next packet goes onto the lane's forward wire.
    Transmit(LaneName),
    /// The oldest packet of the lane's forward wire reaches the receiver, or doesn't.
    Deliver(LaneName, Fate),
    /// The lane's receiver puts a DLLP on the back wire.
    SendDllp(LaneName, DllpKind),
    /// The oldest DLLP of the lane's back wire reaches the sender, or doesn't.
    DeliverDllp(LaneName, Fate),
    /// The replay timer of the lane's sender expires.
    Timer(LaneName),
    /// The lane's link was retrained, after its sender had stopped.
    Retrained(LaneName),
    /// The packet at this place of an `up` lane's queue, or of that of `out`, goes on to its port. Places count from 0,
    /// the oldest packet first.
    Forward(LaneName, usize),
    /// The request at this place of the queue of `in` acts on the memory, and its completion enters `out`.
    Serve(usize),
    /// The requester at this port takes its oldest completion.
    Collect(u8),
}

/// What happens to a fabric, with an operation of its own.
pub type Event = EventOf<Op>;

/// What is seen of an event, with its answer kept as an `A`.
#[derive(PartialEq, Drop)]
pub enum SeenOf<A> {
    /// The number of the request.
    Submitted(u32),
    /// The sequence number of the packet that was sent.
    Sent(Seq12),
    /// What became of the packet.
    Delivered(Arrival),
    /// The DLLP that was sent.
    SentDllp(Dllp),
    /// What became of the DLLP.
    SeenDllp(DllpSeen),
    /// By how many places the sender moved back, at least 1.
    Back(usize),
    /// The sender is no longer stopped.
    Retrained,
    /// The port that the packet went to, 0 to 7.
    To(u8),
    /// The place of the request in the history.
    At(usize),
    /// The number of the request, and the reply.
    Collected(A),
}

/// What is seen of an event, with an answer of its own.
pub type Seen = SeenOf<Answer>;
