//! What is looked at often of a request, in a table. Nothing rests on what it says.

use crate::losses::four;
use log_runs::{Event, Log};
use search_effects::is_needed;
use search_rules::is_quiet;
use seq_memory::ReplyRef;
use std::alloc::{AllocError, Global};
use tlp_core::OpRef;

/// What is looked at often of an event, in 20 bytes.
#[derive(Clone, Copy)]
pub(crate) struct Sketch {
    /// Where in the memory the bytes begin that the request names, and how many there are.
    from: u32,
    count: u16,
    /// Which of the first four bytes it needs, a bit for each.
    needs: u8,
    is_posted: bool,
    /// Those that it needs.
    need: u32,
    /// Bits for the words that it names and for its requester.
    pub(crate) marks: u32,
    /// From this place of the log on no request needs what it leaves, as far as that is known. No place if
    /// it changes nothing.
    pub(crate) calm: u32,
}

/// The event is no request.
const NOTHING: Sketch = Sketch {
    from: 0,
    count: 0,
    needs: 0,
    is_posted: false,
    need: 0,
    marks: 0,
    calm: u32::MAX,
};

impl Sketch {
    /// They have no byte in common.
    pub(crate) fn is_apart(self, other: Sketch) -> bool {
        if self.from <= other.from {
            u32::from(self.count) <= other.from - self.from
        } else {
            u32::from(other.count) <= self.from - other.from
        }
    }

    /// It needs none of the first four bytes.
    pub(crate) fn needs_nothing(self) -> bool {
        self.needs == 0
    }

    /// It may change bytes, and as far as is known no request from place `event` on needs what it leaves.
    pub(crate) fn may_be_calm(self, event: usize) -> bool {
        self.calm as usize <= event && !self.is_quiet()
    }

    /// It changes nothing.
    pub(crate) fn is_quiet(self) -> bool {
        self.calm == u32::MAX
    }

    /// The bit for its requester.
    pub(crate) fn requester(self) -> u32 {
        self.marks & !WORDS
    }

    /// The bits of what is no longer in the way of other requests once it acted.
    pub(crate) fn frees(self) -> u32 {
        if self.is_posted {
            self.marks
        } else {
            self.marks & WORDS
        }
    }

    /// The bit for its requester, if it is a posted write, which the requester's later requests wait for.
    pub(crate) fn writer(self) -> u32 {
        if self.is_posted { self.requester() } else { 0 }
    }

    /// The first bytes that it needs are there, in the bytes of the memory.
    pub(crate) fn may_fit(self, bytes: &[u8]) -> bool {
        if self.needs_nothing() {
            return true;
        }
        match four(bytes, self.from as usize) {
            Some(found) => (found ^ self.need) & masked(self.needs) == 0,
            None => true,
        }
    }
}

/// The bits of those of four bytes that have a bit each.
fn masked(bytes: u8) -> u32 {
    // Each bit goes to the first of its byte, and from there to all eight.
    (u32::from(bytes).wrapping_mul(0x0020_4081) & 0x0101_0101).wrapping_mul(0xFF)
}

/// The bits for words.
const WORDS: u32 = (1 << 24) - 1;

/// The bit for a word, one of 24.
fn bit(word: u64) -> u32 {
    1 << ((word ^ word / 16) % 24) as u32
}

/// The bit for a requester, one of the other 8.
fn bit_for(requester: u8) -> u32 {
    1 << (24 + u32::from(requester) % 8)
}

/// Bits for the words that the operation names.
fn words_of(op: &OpRef<'_>) -> u32 {
    let first = op.address() / 4;
    let mut words = 0;
    for k in 0..(u64::from(op.size()) + 3) / 4 {
        words |= bit(first.wrapping_add(k));
    }
    words
}

/// The first four bytes that the operation needs to be answered with the data, and which they are.
fn need_of(op: &OpRef<'_>, data: &[u8]) -> (u32, u8) {
    let mut need = [0u8; 4];
    let mut needs = 0u8;
    for i in 0..4usize {
        if i < data.len() && is_needed(op, i) {
            need[i] = data[i];
            needs |= 1 << i;
        }
    }
    (u32::from_le_bytes(need), needs)
}

/// What the request needs, if it was answered so.
fn needed(op: &OpRef<'_>, reply: Option<&ReplyRef<'_>>) -> (u32, u8) {
    match reply {
        Some(ReplyRef::Data(data)) => need_of(op, data.as_slice()),
        _ => (0, 0),
    }
}

/// The place from where on nobody needs what the request leaves, before one is known: the first, or none if it
/// changes nothing.
fn first_calm(log: &Log, op: &OpRef<'_>, reply: Option<&ReplyRef<'_>>) -> u32 {
    if is_quiet(log, op, reply) {
        u32::MAX
    } else {
        0
    }
}

/// The sketch of the event at that place.
fn sketch_of(log: &Log, at: usize) -> Sketch {
    let Some(
        Event::Sub {
            requester,
            op,
            reply,
        },
    ) = log.event(at)
    else {
        return NOTHING;
    };
    let (need, needs) = needed(&op, reply.as_ref());
    let from = op.address().wrapping_sub(log.extent().base());
    Sketch {
        from: u32::try_from(from).unwrap_or(u32::MAX),
        count: u16::try_from(op.size()).unwrap_or(u16::MAX),
        needs,
        is_posted: op.is_posted(),
        need,
        marks: words_of(&op) | bit_for(requester),
        calm: first_calm(log, &op, reply.as_ref()),
    }
}

/// The sketches of a log's events.
pub(crate) fn sketches_of(alloc: Global, log: &Log) -> Result<Vec<Sketch>, AllocError> {
    let mut sketches = Vec::with_capacity(alloc, log.len())?;
    for at in 0..log.len() {
        sketches.push(sketch_of(log, at))?;
    }
    Ok(sketches)
}
