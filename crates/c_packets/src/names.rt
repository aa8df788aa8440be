//! The names of faults.
ghost use Rattle.std.specs.Prelude.{◌≡◌, ◌≤◌, ◌<◌, codes, length, Ok, Err, IsOk, IsErr};
ghost use Rattle.tlp_core.specs.declared.fault.TlpFault as faults;
ghost use Rattle.tlp_core.specs.Fault.{number_of, name_of};
ghost use Rattle.c_buffer.specs.declared.outcome.Failure.TheVariants.{SmallBuffer, NoFault};
ghost use Rattle.c_buffer.specs.Buffer.{filled};

use c_buffer::{Failure, LINE_BUFFER, Length, tell};
use tlp_core::TlpFault;

/// Puts the name of a TLP's fault to the front of `buffer`, and returns how many bytes it has.
/// `SmallBuffer` for fewer than 512 bytes, then `NoFault` for a number above 13 or 0, and then the
/// buffer stays as it was.
pub fn name_fault(number: u32, buffer: &mut [u8]) -> Result<Length, Failure>
    ensures outcome { (f : faults.TlpFault) → number ≡ number_of f → 512 ≤ length buffer.old → result ≡ Ok (length (name_of f)) }
    ensures buffer { (f : faults.TlpFault) → number ≡ number_of f → 512 ≤ length buffer.old → buffer.new ≡ filled buffer.old (name_of f) }
    ensures small { length buffer.old < 512 → result ≡ Err SmallBuffer }
    ensures unchanged { IsErr result → buffer.new ≡ buffer.old }
    ensures named { IsOk result → (f : faults.TlpFault) × (number ≡ number_of f) }
    ensures no_fault { 512 ≤ length buffer.old → ((f : faults.TlpFault) → ¬ (number ≡ number_of f)) → result ≡ Err NoFault }
{
    if buffer.len() < LINE_BUFFER {
        return Err(Failure::SmallBuffer);
    }
    let Some(fault) = TlpFault::of_number(number) else {
        return Err(Failure::NoFault);
    };
    Ok(tell(fault.name().as_bytes(), buffer))
}

/// Puts the library's version to the front of `buffer`, and returns how many bytes it has, 11.
/// `SmallBuffer` for fewer than 512 bytes, and then the buffer stays as it was.
pub fn tell_version(buffer: &mut [u8]) -> Result<Length, Failure>
    ensures outcome { 512 ≤ length buffer.old → result ≡ Ok 11 }
    ensures buffer { 512 ≤ length buffer.old → buffer.new ≡ filled buffer.old (codes "pciex 0.2.0") }
    ensures small { length buffer.old < 512 → result ≡ Err SmallBuffer }
    ensures unchanged { IsErr result → buffer.new ≡ buffer.old }
{
    if buffer.len() < LINE_BUFFER {
        return Err(Failure::SmallBuffer);
    }
    Ok(tell(b"pciex 0.2.0", buffer))
}
