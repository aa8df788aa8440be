//! Which bytes a request needs and puts.
ghost use Rattle.std.specs.Prelude.{◌≡◌, ◌+◌, ◌-◌, ◌*◌, ◌/◌, ◌≤◌, IsTrue, IfSome};
ghost use Rattle.tlp_core.specs.Enables.{dw_enables};
ghost use Rattle.tlp_core.specs.Ops.{Op};
ghost use Rattle.tlp_core.specs.Operation.{address_of, count_of};
ghost use Rattle.seq_memory.specs.Step as step;
ghost use Rattle.search_effects.specs.Effects as effects;
ghost use Rattle.std.specs.Prelude.{slice_index_or, false};

use tlp_core::OpRef;

/// Bit `at` of a DW's enables.
fn is_enabled_in(enables: u8, at: usize) -> bool
    ensures { result ≡ slice_index_or (dw_enables enables) at false }
{
    match at {
        0 => enables % 2 == 1,
        1 => enables / 2 % 2 == 1,
        2 => enables / 4 % 2 == 1,
        3 => enables / 8 % 2 == 1,
        _ => false,
    }
}

/// Byte `at` of an access of so many DW is enabled.
fn is_enabled(dw: usize, first: u8, last: u8, at: usize) -> bool
    ensures { result ≡ step.is_enabled dw first last at }
{
    if dw == 1 {
        return is_enabled_in(first, at);
    }
    if at < 4 {
        return is_enabled_in(first, at);
    }
    let middle = dw.saturating_sub(2);
    let inner = at - 4;
    if inner / 4 < middle {
        return true;
    }
    is_enabled_in(last, inner - 4 * middle)
}

/// The byte at that place in the operation's range is in the data of its reply.
pub fn is_needed(op: &OpRef<'_>, at: usize) -> bool
    ensures { result ≡ effects.is_needed op.now at }
{
    match op {
        OpRef::Read {
            dw,
            first,
            last,
            ..
        } => is_enabled(usize::from(*dw), *first, *last, at),
        OpRef::Write { .. } => false,
        _ => true,
    }
}

/// The operation writes the byte at that place in its range.
pub fn is_put(op: &OpRef<'_>, at: usize) -> bool
    ensures { result ≡ effects.is_put op.now at }
{
    match op {
        OpRef::Read { .. } => false,
        OpRef::Write {
            first,
            last,
            bytes,
            ..
        } => is_enabled(bytes.as_slice().len() / 4, *first, *last, at),
        _ => true,
    }
}

/// The operations have no address in common.
pub fn are_apart(one: &OpRef<'_>, other: &OpRef<'_>) -> bool
    ensures { IsTrue result → effects.AreApart one.now other.now }
{
    lie_apart((one.address(), one.size()), (other.address(), other.size()))
}

/// Of two ranges, each with its first address and its number of bytes, no address is in both.
#[inline(always)]
pub fn lie_apart(one: (u64, u32), other: (u64, u32)) -> bool
    ensures { IsTrue result → (op w : Op) → address_of op ≡ one.0 → count_of op ≡ one.1 → address_of w ≡ other.0 → count_of w ≡ other.1 →
        effects.AreApart op w }
{
    if one.0 <= other.0 {
        u64::from(one.1) <= other.0 - one.0
    } else {
        u64::from(other.1) <= one.0 - other.0
    }
}

/// The place in the first range of what is at place `at` of the second.
pub(crate) fn place_in(one: &OpRef<'_>, other: &OpRef<'_>, at: usize) -> Option<usize>
    ensures { IfSome result (λ i. address_of one.now + i ≡ address_of other.now + at) }
{
    let (a, b) = (one.address(), other.address());
    if a <= b {
        at.checked_add((b - a) as usize)
    } else {
        at.checked_sub((a - b) as usize)
    }
}

/// The index of what is at place `at` of the range, in the memory whose bytes begin at `base`.
pub(crate) fn index_of(base: u64, op: &OpRef<'_>, at: usize) -> Option<usize>
    ensures { IfSome result (λ k. (base ≤ address_of op.now) × (k ≡ address_of op.now - base + at)) }
{
    let a = op.address();
    if a < base {
        return None;
    }
    at.checked_add((a - base) as usize)
}
