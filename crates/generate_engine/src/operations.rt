//! The operations of a storm.
ghost use Rattle.std.specs.Prelude.{◌≤◌, ◌<◌, ◌*◌};
ghost use Rattle.script_text.specs.Spelled.{AreEnables, IsData, IsOperand, IsInRange};

use crate::draws::Draws;
use arrayvec::ArrayVec;
use tlp_core::{MAX_PAYLOAD, Op, Width};

/// Where the operations of all requesters meet: aligned for each width, and from two of them 5 or 6 DW reach over a
/// bound of 64 bytes.
const PLACES: [u64; 4] = [0, 48, 1024, 4080];

/// An address outside of the memory.
const OUTSIDE: u64 = 8192;

/// The DW that a read or a write has at most.
const MOST_DW: u32 = 6;

fn address(draws: &mut Draws) -> u64 {
    if draws.chance(32) {
        return OUTSIDE;
    }
    PLACES[draws.below(4) as usize]
}

/// How many DW a read or a write has: few more often than many.
fn dw(draws: &mut Draws) -> u16
    ensures { (1 ≤ result) × (result ≤ 6) }
{
    let most = draws.below(MOST_DW) + 1;
    draws.below(most) as u16 + 1
}

/// The byte enables of so many DW: all bytes, and now and then some of a single DW.
fn enables(draws: &mut Draws, dw: u16) -> (u8, u8)
    ensures { AreEnables result.0 result.1 }
{
    if dw > 1 {
        return (15, 15);
    }
    if draws.chance(4) {
        return (draws.below(16) as u8, 0);
    }
    (15, 0)
}

/// So many DW of data.
fn data(draws: &mut Draws, dw: u16) -> ArrayVec<u8, MAX_PAYLOAD>
    requires { (1 ≤ dw) × (dw ≤ 6) }
    ensures { IsData result.items }
{
    let mut bytes = ArrayVec::new();
    for _byte in 0..4 * dw {
        bytes.push(draws.below(256) as u8);
    }
    bytes
}

/// An operand: small numbers are frequent, so that compare values are met.
fn operand(draws: &mut Draws, width: Width) -> u128
    ensures { IsOperand width result }
{
    if draws.chance(2) {
        return u128::from(draws.below(4));
    }
    let low = u128::from(draws.word());
    match width {
        Width::Four => low,
        Width::Eight | Width::Sixteen => u128::from(draws.word()) << 32 | low,
    }
}

/// A width that an operation with one operand has.
fn narrow(draws: &mut Draws) -> Width {
    if draws.chance(2) {
        Width::Four
    } else {
        Width::Eight
    }
}

/// A width that a CAS has.
fn wide(draws: &mut Draws) -> Width {
    if draws.chance(3) {
        Width::Sixteen
    } else {
        narrow(draws)
    }
}

fn read(draws: &mut Draws) -> Op
    ensures { IsInRange result }
{
    let dw = dw(draws);
    let (first, last) = enables(draws, dw);
    Op::Read {
        address: address(draws),
        dw,
        first,
        last,
    }
}

fn write(draws: &mut Draws) -> Op
    ensures { IsInRange result }
{
    let dw = dw(draws);
    let (first, last) = enables(draws, dw);
    Op::Write {
        address: address(draws),
        first,
        last,
        bytes: data(draws, dw),
    }
}

fn fetch_add(draws: &mut Draws) -> Op
    ensures { IsInRange result }
{
    let width = narrow(draws);
    Op::FetchAdd {
        address: address(draws),
        width,
        operand: operand(draws, width),
    }
}

fn swap(draws: &mut Draws) -> Op
    ensures { IsInRange result }
{
    let width = narrow(draws);
    Op::Swap {
        address: address(draws),
        width,
        operand: operand(draws, width),
    }
}

fn cas(draws: &mut Draws) -> Op
    ensures { IsInRange result }
{
    let width = wide(draws);
    Op::Cas {
        address: address(draws),
        width,
        compare: operand(draws, width),
        swap: operand(draws, width),
    }
}

/// An operation of any kind.
pub(crate) fn operation(draws: &mut Draws) -> Op
    ensures { IsInRange result }
{
    match draws.below(5) {
        0 => read(draws),
        1 => write(draws),
        2 => fetch_add(draws),
        3 => swap(draws),
        _ => cas(draws),
    }
}
