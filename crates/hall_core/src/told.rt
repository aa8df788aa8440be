//! What a call tells its seat.
use seq_memory::Reply;

/// What is told of a submission.
#[derive(Clone, Copy, PartialEq)]
pub struct Submitted {
    /// The number of the request: how many its requester had submitted before it.
    pub number: u32,
    /// The length of the history when it was submitted: the request is none of its first `n`.
    pub n: u64,
}

/// What is told of a completion.
#[derive(PartialEq, Drop)]
pub struct Answered {
    /// The number of the request.
    pub number: u32,
    /// The reply of the memory.
    pub reply: Reply,
    /// The length of the history when the completion was collected: the request is one of its first `n`.
    pub n: u64,
}
