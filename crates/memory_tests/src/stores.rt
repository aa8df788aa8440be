//! Traces and histories that are put in as they are lent.
use history_check::check;
use seq_memory::{Extent, ReplyRef};
use std::alloc::{AllocError, Global};
use tlp_core::{OpRef, PayloadRef, Width};
use trace_store::TraceStore;

/// How many operations there are.
const OPS: u8 = 11;

/// Operations, no two of them the same. The first seven are served at 40h, the others aren't. The last two have
/// operands that are too great for their widths.
fn op(which: u8) -> OpRef<'static> {
    let address = 0x40;
    match which {
        0 => OpRef::Read {
            address,
            dw: 1,
            first: 15,
            last: 0,
        },
        1 => OpRef::Write {
            address,
            first: 15,
            last: 0,
            bytes: PayloadRef::new(&[1, 2, 3, 4]),
        },
        2 => OpRef::FetchAdd {
            address,
            width: Width::Four,
            operand: 1,
        },
        3 => OpRef::FetchAdd {
            address,
            width: Width::Eight,
            operand: 1,
        },
        4 => OpRef::Swap {
            address,
            width: Width::Four,
            operand: 1,
        },
        5 => OpRef::Cas {
            address,
            width: Width::Four,
            compare: 1,
            swap: 0x08070605,
        },
        6 => OpRef::Cas {
            address,
            width: Width::Four,
            compare: 1,
            swap: 0x09070605,
        },
        7 => OpRef::Swap {
            address,
            width: Width::Sixteen,
            operand: 0,
        },
        8 => OpRef::Read {
            address: 4096,
            dw: 1,
            first: 15,
            last: 0,
        },
        9 => OpRef::Swap {
            address,
            width: Width::Four,
            operand: 0x1_0000_0001,
        },
        _ => OpRef::Cas {
            address,
            width: Width::Eight,
            compare: 1,
            swap: 0x1_0000_0000_0000_0001,
        },
    }
}

/// What a memory of zeros answers to them, one after the other.
fn reply(which: u8) -> ReplyRef<'static> {
    match which {
        0 => ReplyRef::Data(PayloadRef::new(&[0, 0, 0, 0])),
        1 => ReplyRef::Done,
        2 => ReplyRef::Data(PayloadRef::new(&[1, 2, 3, 4])),
        3 => ReplyRef::Data(PayloadRef::new(&[2, 2, 3, 4, 0, 0, 0, 0])),
        4 => ReplyRef::Data(PayloadRef::new(&[3, 2, 3, 4])),
        5 => ReplyRef::Data(PayloadRef::new(&[1, 0, 0, 0])),
        6 => ReplyRef::Data(PayloadRef::new(&[5, 6, 7, 8])),
        8 => ReplyRef::Unsupported,
        _ => ReplyRef::Aborted,
    }
}

/// Submits them, and puts them into the history.
fn submit(store: &mut TraceStore) -> Result<(), AllocError> {
    for which in 0..OPS {
        store.submitted(1, u32::from(which), 0, &op(which))?;
        store.acted(1, u32::from(which), &op(which))?;
    }
    Ok(())
}

/// Answers them from one on, of which the second is posted.
fn answer_from(store: &mut TraceStore, from: u8) -> Result<(), AllocError> {
    for which in from..OPS {
        store.answered(1, u32::from(which), 11, &reply(which))?;
    }
    Ok(())
}

/// A store of all, with the answers from one on, over 4096 bytes from 0 on.
fn filled(alloc: Global, from: u8) -> Result<TraceStore, AllocError> {
    let mut store = TraceStore::new(alloc, Extent::new(0, 128, 64).unwrap());
    store.set_extent(Extent::new(0, 4096, 64).unwrap());
    submit(&mut store)?;
    answer_from(&mut store, from)?;
    Ok(store)
}

/// Whether the checker says ok to what the store holds.
fn is_owned_checked(alloc: Global) -> Result<bool, AllocError> {
    let (trace, history) = filled(alloc, 2)?.to_owned(alloc)?;
    Ok(check(alloc, &trace, &history).is_ok())
}

#[test]
fn a_store_has_an_owned_form(rt: HostRuntime) {
    assert!(rt; matches!(is_owned_checked(rt.alloc()), Ok(true)));
}
