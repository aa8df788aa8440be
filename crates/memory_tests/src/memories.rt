//! What memories hold, answer and refuse.
use arrayvec::ArrayVec;
use seq_memory::{Counted, Entry, Extent, Keeper, Memory, Reply};
use std::alloc::{AllocError, Global};
use tlp_core::{MAX_PAYLOAD, Op, Width};

/// An operation, by what the rows tell of it.
#[derive(Clone, Copy)]
enum Access {
    /// So many DW from an address on, with all their bytes.
    Read(u64, u16),
    /// The same with these first and last enables.
    ReadSome(u64, u16, u8, u8),
    /// These bytes from an address on, with these first and last enables.
    Write(u64, u8, u8, &'static [u8]),
    /// An operand of 4 bytes for the sum at 40h.
    Add(u128),
    /// An operand of 8 bytes for 40h.
    Swap(u128),
    /// 16 bytes at an address, compared with the first and set to the second.
    Cas(u64, u128, u128),
}

fn bytes_of(bytes: &[u8]) -> ArrayVec<u8, MAX_PAYLOAD> {
    let mut data = ArrayVec::new();
    let _ = data.try_extend_from_slice(bytes);
    data
}

fn read(address: u64, dw: u16) -> Op {
    let last = if dw == 1 { 0 } else { 15 };
    Op::Read {
        address,
        dw,
        first: 15,
        last,
    }
}

fn op_of(access: Access) -> Op {
    match access {
        Access::Read(address, dw) => read(address, dw),
        Access::ReadSome(address, dw, first, last) => Op::Read {
            address,
            dw,
            first,
            last,
        },
        Access::Write(address, first, last, bytes) => Op::Write {
            address,
            first,
            last,
            bytes: bytes_of(bytes),
        },
        Access::Add(operand) => Op::FetchAdd {
            address: 0x40,
            width: Width::Four,
            operand,
        },
        Access::Swap(operand) => Op::Swap {
            address: 0x40,
            width: Width::Eight,
            operand,
        },
        Access::Cas(address, compare, swap) => Op::Cas {
            address,
            width: Width::Sixteen,
            compare,
            swap,
        },
    }
}

fn act<K: Keeper>(memory: &mut Memory<K>, access: Access) -> Result<Reply, AllocError> {
    memory.act(Entry {
        requester: 1,
        number: 0,
        op: op_of(access),
    })
}

fn small<K: Keeper>(alloc: Global) -> Result<Memory<K>, AllocError> {
    Memory::with_keeper(alloc, Extent::new(0, 4096, 64).unwrap())
}

/// What a memory answers.
#[derive(Clone, Copy)]
enum Want {
    Done,
    Data(&'static [u8]),
    Unsupported,
    Aborted,
}

/// Whether the reply is the wanted one.
fn is_wanted(reply: &Reply, want: Want) -> bool {
    match (reply, want) {
        (Reply::Data(data), Want::Data(bytes)) => data.as_slice() == bytes,
        (Reply::Done, Want::Done)
        | (Reply::Unsupported, Want::Unsupported)
        | (Reply::Aborted, Want::Aborted) => true,
        _ => false,
    }
}

/// Whether the operation is answered so.
fn answers(memory: &mut Memory, access: Access, want: Want) -> Result<bool, AllocError> {
    let reply = act(memory, access)?;
    Ok(is_wanted(&reply, want))
}

/// Whether there are so many entries, and this byte is at 40h.
fn holds(memory: &Memory, entries: usize, byte: u8) -> bool {
    memory.entries().len() == entries && memory.bytes().get(0x40) == Some(&byte)
}

/// Adds 1; whether there was memory for it.
fn adds_one<K: Keeper>(memory: &mut Memory<K>) -> bool {
    act(memory, Access::Add(1)).is_ok()
}

/// Adds 1 to that; where memory is wanted all is as before, and the same succeeds.
fn counts_on(memory: &mut Memory, count: u8) -> bool {
    let before = usize::from(count);
    let added = adds_one(memory) || holds(memory, before, count) && adds_one(memory);
    added && holds(memory, before.saturating_add(1), count.wrapping_add(1))
}

fn counts(memory: &mut Memory) -> bool {
    let mut right = true;
    for count in 0..20u8 {
        right &= counts_on(memory, count);
    }
    right
}

fn new_counts(alloc: Global) -> Result<bool, AllocError> {
    let mut memory: Memory = small(alloc)?;
    Ok(counts(&mut memory))
}

#[test]
fn a_refused_growth_changes_nothing(rt: HostRuntime) {
    assert!(rt; matches!(new_counts(rt.alloc()), Ok(true)));
}

/// Whether a memory that counts its entries has none of them, and the bytes that they make.
fn counts_alone(alloc: Global) -> Result<bool, AllocError> {
    let mut memory: Memory<Counted> = small(alloc)?;
    let added = adds_one(&mut memory) && adds_one(&mut memory);
    let is_there = memory.bytes().get(0x40) == Some(&2);
    Ok(added && memory.count() == 2 && memory.list().is_none() && is_there)
}

#[test]
fn a_memory_may_count_its_entries_alone(rt: HostRuntime) {
    assert!(rt; matches!(counts_alone(rt.alloc()), Ok(true)));
}
