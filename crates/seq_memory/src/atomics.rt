//! AtomicOps (PCI Express Base 4.0, section 6.15): what each leaves at its location.
//!
//! An operand has 4, 8 or 16 bytes, by its [`Width`]; numbers are unsigned. Each operation answers
//! the original value, which is for the memory to do: [`apply`] gives the new one.
ghost use Rattle.std.specs.Prelude.{◌≡◌, ◌*◌, ◌^◌, ◌<◌};
ghost use Rattle.tlp_core.specs.Operation.{size_of};
ghost use Rattle.seq_memory.specs.NewValue.{FitsWidth, new_value};

use tlp_core::Width;

/// An AtomicOp with its operands.
#[derive(Clone, Copy)]
pub enum AtomicOp {
    /// Adds the operand; what goes past the width is dropped. PCI Express has it at 4 and 8 bytes.
    FetchAdd(u128),
    /// Writes the operand. PCI Express has it at 4 and 8 bytes.
    Swap(u128),
    /// Compare and swap: the compare value, then the swap value, which is written if the location
    /// holds the compare value.
    Cas(u128, u128),
}

fn sum(old: u128, operand: u128, width: Width) -> u128
    requires old { old < 2 ^ (8 * size_of width) }
    requires operand { operand < 2 ^ (8 * size_of width) }
    ensures { result ≡ new_value (AtomicOp.FetchAdd operand) width old }
{
    match width {
        Width::Four => (old + operand) % (1 << 32),
        Width::Eight => (old + operand) % (1 << 64),
        Width::Sixteen => old.wrapping_add(operand),
    }
}

/// The value that the operation leaves at a location that holds `old`.
pub fn apply(op: AtomicOp, old: u128, width: Width) -> u128
    requires operands { FitsWidth op width }
    requires old { old < 2 ^ (8 * size_of width) }
    ensures value { result ≡ new_value op width old }
    ensures range { result < 2 ^ (8 * size_of width) }
{
    match op {
        AtomicOp::FetchAdd(operand) => sum(old, operand, width),
        AtomicOp::Swap(operand) => operand,
        AtomicOp::Cas(compare, swap) => { if old == compare { swap } else { old } }
    }
}
