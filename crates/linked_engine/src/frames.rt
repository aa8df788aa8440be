//! Packets and DLLPs as lines have them: with the word of their check, or with their CRC.
ghost use Rattle.std.specs.Prelude.{◌≡◌, ◌≤◌, length, take, option_map, IfSome};
ghost use Rattle.linked_engine.specs.Crcs as spec;

use link_crc::{Check, Framing, check_dllp};

/// What stands behind a packet's digits.
#[derive(Clone, Copy)]
pub(crate) enum Mark {
    /// The word of its check.
    Word(Check),
    /// With CRCs, `edb` where the framing ends so, or nothing.
    Framing(Framing),
}

/// The digits before the word of a check, and the check, whatever the line is.
#[inline(never)]
fn worded_each(line: &[u8]) -> Option<(&[u8], Check)>
    ensures value { spec.worded line.now ≡ option_map (λ m. (m.0.now, m.1)) result }
    ensures shorter { IfSome result (λ m. length m.0.now ≤ length line.now) }
{
    if let Some(digits) = line.strip_suffix(b" good") {
        return Some((digits, Check::Good));
    }
    match line.strip_suffix(b" failed") {
        Some(digits) => Some((digits, Check::Failed)),
        None => None,
    }
}

/// The digits before the word of a check, and the check.
#[inline(always)]
fn worded(line: &[u8]) -> Option<(&[u8], Check)>
    ensures value { spec.worded line.now ≡ option_map (λ m. (m.0.now, m.1)) result }
    ensures shorter { IfSome result (λ m. length m.0.now ≤ length line.now) }
{
    match line {
        [digits @ .., b' ', b'g', b'o', b'o', b'd'] => Some((digits, Check::Good)),
        _ => worded_each(line),
    }
}

/// The digits of a DLLP, and the check that its word says. With CRCs there are digits alone.
pub(crate) fn marked_dllp(has_crc: bool, line: &[u8]) -> Option<(&[u8], Check)>
    ensures value { spec.marked_dllp has_crc line.now ≡ option_map (λ m. (m.0.now, m.1)) result }
    ensures shorter { IfSome result (λ m. length m.0.now ≤ length line.now) }
{
    if has_crc {
        return Some((line, Check::Good));
    }
    worded(line)
}

/// The digits before `edb`, if it stands at the end, and how the framing ends.
#[inline(always)]
fn framed(line: &[u8]) -> (&[u8], Framing)
    ensures value { spec.framed_in line.now ≡ (result.0.now, result.1) }
    ensures shorter { length result.0.now ≤ length line.now }
{
    match line.strip_suffix(b" edb") {
        Some(digits) => (digits, Framing::Edb),
        None => (line, Framing::End),
    }
}

/// The digits of a packet, and what stands behind them: the word of its check, or, with CRCs, how its framing ends.
#[inline(always)]
pub(crate) fn marked_packet(has_crc: bool, line: &[u8]) -> Option<(&[u8], Mark)>
    ensures value { spec.marked_packet has_crc line.now ≡ option_map (λ m. (m.0.now, m.1)) result }
    ensures shorter { IfSome result (λ m. length m.0.now ≤ length line.now) }
{
    if has_crc {
        let (digits, framing) = framed(line);
        return Some((digits, Mark::Framing(framing)));
    }
    match worded(line) {
        Some((digits, check)) => Some((digits, Mark::Word(check))),
        None => None,
    }
}

/// The check of a DLLP by its CRC, the last two of six bytes.
pub(crate) fn dllp_check(bytes: &[u8]) -> Check
    ensures { result ≡ spec.dllp_check bytes.now }
{
    if bytes.len() != 6 {
        return Check::Failed;
    }
    check_dllp([bytes[0], bytes[1], bytes[2], bytes[3], bytes[4], bytes[5]])
}

/// All bytes but the last four; none of fewer.
pub(crate) fn without_lcrc(bytes: &[u8]) -> &[u8]
    ensures { result.now ≡ spec.without_last 4 bytes.now }
{
    &bytes[..bytes.len().saturating_sub(4)]
}

/// The first four bytes, or all if there are fewer.
pub(crate) fn without_dllp_crc(bytes: &[u8]) -> &[u8]
    ensures { result.now ≡ take 4 bytes.now }
{
    &bytes[..bytes.len().min(4)]
}
