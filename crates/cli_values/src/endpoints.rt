//! The size of an endpoint's memory and its IDs as values of options.
ghost use Rattle.std.specs.Prelude.{◌≡◌, ◌+◌, ◌*◌, ℕ, length, true, IfOk, IfErr, IfSome, OnErr, option_map};
ghost use Rattle.hex.specs.Hex.{decode_of};
ghost use Rattle.config_core.specs.SetupView.{is_size};
ghost use Rattle.cli_options.specs.declared.options.ValueOption.TheVariants.{EndpointSize, Id};
ghost use Rattle.cli_values.specs.Endpoints as spec;

use cli_options::{RefusedValue, ValueOption};
use hex_text::read_digits;

/// The size that the text writes.
fn size_named(text: &str) -> Option<u32>
    ensures value { result ≡ spec.size text.now }
    ensures right { IfSome result (λ n. is_size n ≡ true) }
{
    if text == "4096" {
        Some(4096)
    } else if text == "8192" {
        Some(8192)
    } else if text == "16384" {
        Some(16384)
    } else if text == "32768" {
        Some(32768)
    } else if text == "65536" {
        Some(65536)
    } else if text == "131072" {
        Some(131_072)
    } else if text == "262144" {
        Some(262_144)
    } else if text == "524288" {
        Some(524_288)
    } else if text == "1048576" {
        Some(1_048_576)
    } else {
        None
    }
}

/// The size that the text writes, 4096 where no text is given.
pub fn size_of<'a>(text: Option<&'a str>) -> Result<u32, RefusedValue<'a>>
    ensures ok { IfOk result (spec.WritesSize (option_map (λ t. t.now) text.entry)) }
    ensures right { IfOk result (λ n. is_size n ≡ true) }
    ensures err { OnErr result ((n : ℕ) → spec.WritesSize (option_map (λ t. t.now) text.entry) n → ⊥) }
    ensures refused { IfErr result (λ e. e ≡ record { option = EndpointSize; given = text.entry }) }
{
    let Some(name) = text else {
        return Ok(4096);
    };
    match size_named(name) {
        Some(size) => Ok(size),
        None => Err(RefusedValue {
            option: ValueOption::EndpointSize,
            given: text,
        }),
    }
}

/// The number of two bytes.
fn joined(high: u8, low: u8) -> u16
    ensures { result ≡ high * 256 + low }
{
    u16::from(high) * 256 + u16::from(low)
}

/// The number of four hexadecimal digits.
#[tactic(auto, using(crate::proofs::NumberLemmas::number_read, crate::proofs::NumberLemmas::number_not_read))]
fn number_of(digits: &[u8]) -> Option<u16>
    requires { length digits.now ≡ 4 }
    ensures { result ≡ spec.number (decode_of digits.now) }
{
    let mut bytes = [0; 2];
    if !read_digits(digits, &mut bytes) {
        return None;
    }
    Some(joined(bytes[0], bytes[1]))
}

/// The Vendor ID and the Device ID that the text writes.
fn ids_written(text: &[u8]) -> Option<(u16, u16)>
    ensures { result ≡ spec.ids text.now }
{
    if text.len() != 9 || text[4] != b':' {
        return None;
    }
    let vendor = number_of(&text[..4])?;
    let device = number_of(&text[5..])?;
    Some((vendor, device))
}

/// The Vendor ID and the Device ID that the text writes, 1234h and 7C1Eh where no text is given.
pub fn ids_of<'a>(text: Option<&'a str>) -> Result<(u16, u16), RefusedValue<'a>>
    ensures ok { IfOk result (spec.WritesId (option_map (λ t. t.now) text.entry)) }
    ensures err { OnErr result ((id : ℕ × ℕ) → spec.WritesId (option_map (λ t. t.now) text.entry) id → ⊥) }
    ensures refused { IfErr result (λ e. e ≡ record { option = Id; given = text.entry }) }
{
    let Some(written) = text else {
        return Ok((0x1234, 0x7C1E));
    };
    match ids_written(written.as_bytes()) {
        Some(ids) => Ok(ids),
        None => Err(RefusedValue {
            option: ValueOption::Id,
            given: text,
        }),
    }
}
