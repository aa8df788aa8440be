//! The numbers of 32 bits that stand for what the calls of an endpoint behind its link return.
ghost use Rattle.std.specs.Prelude.{◌≡◌, ◌≤◌, ◌↔◌, Err, IsOk, IsErr};
ghost use Rattle.c_buffer.specs.declared.outcome.Failure.TheVariants as failures;
ghost use Rattle.c_linked.specs.declared.setup.NewFailure.TheVariants as news;
ghost use Rattle.pciex_c.specs.LinkCodes as spec;

use crate::codes::{NO_MEMORY, code, taken};
use c_buffer::Failure;
use c_linked::{LinkStatus, NewFailure, Sent};
use linked_endpoint::Arrived;
use port_core::{DllpReceived, DllpRefusal};

/// The code of a call that makes an endpoint.
pub(crate) fn made(outcome: Result<(), NewFailure>) -> u32
    ensures value { result ≡ spec.made_code outcome }
    ensures ok { result ≡ 0 ↔ IsOk outcome }
    ensures err { 1 ≤ result → IsErr outcome }
    ensures no_memory { result ≡ NO_MEMORY ↔ outcome ≡ Err news.NoMemory }
{
    match outcome {
        Ok(()) => 0,
        Err(NewFailure::WrongSize) => 2004,
        Err(NewFailure::WrongCredits) => 2013,
        Err(NewFailure::NoMemory) => NO_MEMORY,
    }
}

/// The code of what became of a packet, and of its TLP.
pub(crate) fn arrived(outcome: Result<Arrived, Failure>) -> u32
    ensures value { result ≡ spec.arrived_of outcome }
    ensures err { 1000 ≤ result → IsErr outcome }
    ensures no_memory { result ≡ NO_MEMORY ↔ outcome ≡ Err failures.NoMemory }
{
    match outcome {
        Ok(Arrived::Accepted(handled)) => taken(Ok(handled)),
        Ok(Arrived::Overflow) => 5,
        Ok(Arrived::Duplicate) => 6,
        Ok(Arrived::NakNow) => 7,
        Ok(Arrived::Quiet) => 8,
        Ok(Arrived::Dropped) => 9,
        Err(failure) => code(Err(failure)),
    }
}

/// The code of what became of a DLLP.
pub(crate) fn dllp_status(outcome: Result<DllpReceived, DllpRefusal>) -> u32
    ensures value { result ≡ spec.dllp_code outcome }
    ensures err { 1000 ≤ result → IsErr outcome }
{
    match outcome {
        Ok(DllpReceived::Took) => 0,
        Ok(DllpReceived::Gone) => 1,
        Err(refusal) => 1000 + u32::from(refusal.number()),
    }
}

/// The code of what is sent, which says whether it is a DLLP.
pub(crate) fn sent(outcome: Result<Sent, Failure>, is_dllp: &mut bool) -> u32
    ensures value { result ≡ spec.sent_code outcome }
    ensures flag { is_dllp.new ≡ spec.flag_after is_dllp.old outcome }
    ensures err { 1000 ≤ result → IsErr outcome }
{
    match outcome {
        Ok(sent) => {
            *is_dllp = sent.is_dllp;
            code(Ok(sent.length))
        }
        Err(failure) => code(Err(failure)),
    }
}

/// The code of the state of a link.
pub(crate) fn condition(status: LinkStatus) -> u32
    ensures { result ≡ spec.condition_code status }
{
    match status {
        LinkStatus::Inactive => 0,
        LinkStatus::Init1 => 1,
        LinkStatus::Init2 => 2,
        LinkStatus::Active => 3,
        LinkStatus::Stopped => 4,
    }
}
