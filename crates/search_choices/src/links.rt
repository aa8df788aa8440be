//! Which requests may be alike. Nothing rests on what this says.
use log_runs::{Event, Log};
use search_others::Others;
use seq_memory::ReplyRef;
use std::alloc::{AllocError, Global};
use std::collections::HashMap;
use tlp_core::OpRef;

/// Of each request the one before it of those that seem to be alike.
#[derive(Drop)]
pub struct Links {
    before: Vec<u32>,
}

/// No request.
const NONE: u32 = u32::MAX;

/// A number that depends on two.
fn mix(mark: u64, number: u64) -> u64 {
    let product = (mark ^ number).wrapping_mul(0x9E37_79B9_7F4A_7C15);
    product ^ product >> 29
}

fn mix_wide(mark: u64, number: u128) -> u64 {
    mix(
        mix(mark, (number % (1 << 64)) as u64),
        (number >> 64) as u64,
    )
}

/// A number that depends on the operation; None if it isn't an AtomicOp.
fn mark_of(op: &OpRef<'_>) -> Option<u64> {
    match op {
        OpRef::Read { .. } | OpRef::Write { .. } => None,
        OpRef::FetchAdd {
            address,
            operand,
            ..
        } => Some(mix_wide(mix(1, *address), *operand)),
        OpRef::Swap {
            address,
            operand,
            ..
        } => Some(mix_wide(mix(2, *address), *operand)),
        OpRef::Cas {
            address,
            compare,
            swap,
            ..
        } => Some(mix_wide(mix_wide(mix(3, *address), *compare), *swap)),
    }
}

/// A number that depends on the first mark and on the reply.
fn mark_with(mark: u64, reply: Option<&ReplyRef<'_>>) -> u64 {
    match reply {
        Some(ReplyRef::Data(data)) => {
            let mut mark = mix(mark, 1);
            for byte in data.as_slice() {
                mark = mix(mark, u64::from(*byte));
            }
            mark
        }
        _ => mark,
    }
}

/// A number that depends on what the request asks for, and was answered; None if it isn't an AtomicOp.
fn mark_at(log: &Log, b: usize) -> Option<u64> {
    match log.event(b) {
        Some(Event::Sub { op, reply, .. }) => Some(mark_with(mark_of(&op)?, reply.as_ref())),
        _ => None,
    }
}

/// Links request `b` to the newest with its mark.
fn link(
    before: &mut [u32],
    newest: &mut HashMap<u64, u32>,
    log: &Log,
    b: usize,
) -> Result<(), AllocError> {
    let (Some(mark), Ok(number)) = (mark_at(log, b), u32::try_from(b)) else {
        return Ok(());
    };
    if b < before.len()
        && let Some(p) = newest.insert(mark, number)?
    {
        before[b] = p;
    }
    Ok(())
}

impl Links {
    /// None.
    pub fn none(alloc: Global) -> Links {
        Links {
            before: Vec::new(alloc),
        }
    }

    /// Those of the log: requests in the order in which they are due, and then those that aren't.
    pub fn of(alloc: Global, log: &Log, others: &Others) -> Result<Links, AllocError> {
        let mut before = vec![in alloc; NONE; log.len()]?;
        let mut newest = HashMap::new(alloc);
        for at in 0..log.len() {
            if let Some(Event::Due { request }) = log.event(at) {
                link(&mut before, &mut newest, log, request)?;
            }
        }
        for b in 0..log.len() {
            if others.due_from(b) >= log.len() {
                link(&mut before, &mut newest, log, b)?;
            }
        }
        Ok(Links { before })
    }

    /// The request before that one.
    pub(crate) fn before(&self, b: usize) -> Option<usize> {
        match self.before.get(b) {
            Some(p) => if *p == NONE { None } else { Some(*p as usize) },
            None => None,
        }
    }
}
