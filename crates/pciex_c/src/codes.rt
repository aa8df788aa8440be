//! The numbers of 32 bits that stand for what calls return, as `c/pciex.h` documents them.
ghost use Rattle.std.specs.Prelude.{◌≡◌, ◌≤◌, ◌<◌, ◌↔◌, Err, IsOk, IsErr, true, false};
ghost use Rattle.c_buffer.specs.declared.outcome.Failure.TheVariants as failures;
ghost use Rattle.c_buffer.specs.Buffer.{has_text, is_silent};
ghost use Rattle.pciex_c.specs.Codes.{failure_code, code_of, status_of, taken_of};

use c_buffer::{Failure, Length};
use endpoint_core::Handled;

/// The code for a small buffer.
pub const SMALL_BUFFER: u32 = 2000;

/// The code for out of memory.
pub const NO_MEMORY: u32 = 2003;

/// The code for a number that no fault has.
pub const NO_FAULT: u32 = 2007;

/// The code for a size of pieces that a search doesn't have.
pub const WRONG_GRANULARITY: u32 = 2012;

/// The code of a failure.
fn failed(failure: Failure) -> u32
    ensures value { result ≡ failure_code failure }
    ensures range { 1000 ≤ result }
    ensures silent { 2000 ≤ result → has_text failure ≡ false }
    ensures no_memory { result ≡ NO_MEMORY → failure ≡ failures.NoMemory }
    ensures wrong { result ≡ WRONG_GRANULARITY → failure ≡ failures.WrongGranularity }
{
    match failure {
        Failure::Fault(number) => 1000 + u32::from(number),
        Failure::Text(length) => 1000 + u32::from(length.value()),
        Failure::SmallBuffer => SMALL_BUFFER,
        Failure::WrongBlock => 2001,
        Failure::NoRequest => 2002,
        Failure::NoMemory => NO_MEMORY,
        Failure::WrongSize => 2004,
        Failure::WrongBase => 2005,
        Failure::NoEntry => 2006,
        Failure::NoFault => NO_FAULT,
        Failure::NoLine => 2008,
        Failure::NoCompletion => 2010,
        Failure::NoRequester => 2011,
        Failure::WrongGranularity => WRONG_GRANULARITY,
    }
}

/// The code of a call that returns how many bytes its answer has.
pub(crate) fn code(outcome: Result<Length, Failure>) -> u32
    ensures value { result ≡ code_of outcome }
    ensures ok { result < 1000 → IsOk outcome }
    ensures err { 1000 ≤ result → IsErr outcome }
    ensures silent { 2000 ≤ result → is_silent outcome ≡ true }
    ensures no_memory { result ≡ NO_MEMORY ↔ outcome ≡ Err failures.NoMemory }
{
    match outcome {
        Ok(length) => u32::from(length.value()),
        Err(failure) => failed(failure),
    }
}

/// The code of a call that has nothing to return.
pub(crate) fn status(outcome: Result<(), Failure>) -> u32
    ensures value { result ≡ status_of outcome }
    ensures ok { result ≡ 0 ↔ IsOk outcome }
    ensures err { 1 ≤ result → IsErr outcome }
    ensures silent { 2000 ≤ result → is_silent outcome ≡ true }
    ensures no_memory { result ≡ NO_MEMORY ↔ outcome ≡ Err failures.NoMemory }
{
    match outcome {
        Ok(()) => 0,
        Err(failure) => failed(failure),
    }
}

/// The code of a call that returns an exit status.
pub(crate) fn exit_code(outcome: Result<u8, Failure>) -> u32
    ensures value { result ≡ code_of outcome }
    ensures ok { result < 1000 → IsOk outcome }
    ensures err { 1000 ≤ result → IsErr outcome }
    ensures no_memory { result ≡ NO_MEMORY ↔ outcome ≡ Err failures.NoMemory }
    ensures wrong { result ≡ WRONG_GRANULARITY ↔ outcome ≡ Err failures.WrongGranularity }
{
    match outcome {
        Ok(status) => u32::from(status),
        Err(failure) => failed(failure),
    }
}

/// The code of what became of a TLP at an endpoint.
pub(crate) fn taken(outcome: Result<Handled, Failure>) -> u32
    ensures value { result ≡ taken_of outcome }
    ensures err { 1000 ≤ result → IsErr outcome }
    ensures no_memory { result ≡ NO_MEMORY ↔ outcome ≡ Err failures.NoMemory }
{
    match outcome {
        Ok(Handled::Waits | Handled::Done) => 0,
        Ok(Handled::Ignored) => 1,
        Ok(Handled::Unsupported) => 2,
        Ok(Handled::Unexpected) => 3,
        Ok(Handled::Malformed(_)) => 4,
        Err(failure) => failed(failure),
    }
}
