//! Faults of a device at one request.

/// What a device does with a request. A request of its own is the first one of a requester that the log hasn't, and
/// so it keeps no order with others.
#[derive(Clone, Copy, PartialEq)]
pub enum FaultKind {
    /// It changes nothing: a write is a read of no bytes, an AtomicOp is a read of its bytes.
    Lost,
    /// It swaps whatever it finds, where it is a CAS.
    Swapped,
    /// It writes all bytes of its first DW.
    First,
    /// It writes all bytes of its last DW.
    Last,
    /// It is done a second time, as a request of this requester.
    Twice(u8),
    /// It is a request of this requester's own, and so is its answer.
    Apart(u8),
    /// It is a request of this requester's own, submitted before the record there, and so is its answer.
    Early(u8, usize),
    /// It is carried out, though it isn't served: by parts that lie in a block each, as requests of this requester.
    Refused(u8),
}

/// A fault at the request that is submitted at the place.
#[derive(Clone, Copy, PartialEq)]
pub struct Fault {
    pub place: usize,
    pub kind: FaultKind,
}
