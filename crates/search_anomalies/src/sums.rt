//! What additions make of the zeros at the start.
use crate::tallies::Question;
use log_events::LogRequest;
use search_effects::{are_apart, is_needed, is_quiet};
use seq_memory::{ReplyRef, refusal_lent};
use tlp_core::{OpRef, Width};

/// What additions make, which is not what an answer shows.
#[derive(Clone, Copy, PartialEq)]
pub enum Bound {
    /// All that were submitted before the record make that, which is less.
    Most(u64, usize),
    /// Those that were answered before the record make that, which is more.
    Least(u64, usize),
}

/// A number that additions don't make.
#[derive(Clone, Copy, PartialEq)]
pub struct Sum {
    pub address: u64,
    /// How many bytes it has: 4 or 8.
    pub bytes: usize,
    /// What an answer shows.
    pub value: u64,
    pub bound: Bound,
}

/// Bytes of the memory that an answer shows, as many as an addition may have.
#[derive(Clone, Copy)]
struct Cell {
    address: u64,
    width: Width,
    value: u64,
}

/// The number that the bytes are, the least significant one first.
fn number_of(bytes: &[u8]) -> u64 {
    let mut number = 0u64;
    let mut scale = 1u64;
    for byte in bytes {
        number = number.saturating_add(scale.saturating_mul(u64::from(*byte)));
        scale = scale.saturating_mul(256);
    }
    number
}

/// The bytes that the answer shows from a place of its data on.
fn cell_at(question: &Question<'_>, place: usize, width: Width) -> Option<Cell> {
    let ReplyRef::Data(data) = &question.reply else {
        return None;
    };
    let count = usize::from(width.size());
    for at in 0..count {
        if !is_needed(&question.op, place.saturating_add(at)) {
            return None;
        }
    }
    let shown = data.as_slice().get(place..place.saturating_add(count))?;
    Some(Cell {
        address: question.op.address().saturating_add(place as u64),
        width,
        value: number_of(shown),
    })
}

impl Cell {
    /// The read of its bytes.
    fn read(&self) -> OpRef<'static> {
        let is_wide = self.width == Width::Eight;
        OpRef::Read {
            address: self.address,
            dw: if is_wide { 2 } else { 1 },
            first: 15,
            last: if is_wide { 15 } else { 0 },
        }
    }

    /// What the operation adds, if it is an addition to these bytes.
    fn addend(&self, op: &OpRef<'_>) -> Option<u64> {
        match op {
            OpRef::FetchAdd {
                address,
                width,
                operand,
            } if *address == self.address && *width == self.width => u64::try_from(*operand).ok(),
            _ => None,
        }
    }

    /// The greatest number that it has bytes for.
    fn greatest(&self) -> u64 {
        if self.width == Width::Four {
            u64::from(u32::MAX)
        } else {
            u64::MAX - 1
        }
    }
}

/// What the additions make that can have acted before a request, and those that had acted before it.
#[derive(Clone, Copy)]
struct Sums {
    most: u64,
    least: u64,
}

impl<'a> Question<'a> {
    /// The request may change bytes that the read reads.
    fn may_change(&self, read: &OpRef<'_>, request: &LogRequest, op: &OpRef<'_>) -> bool {
        let extent = self.requests.extent;
        if are_apart(op, read)
            || is_quiet(extent.block(), op, self.requests.reply(request).as_ref())
        {
            return false;
        }
        refusal_lent(extent.base(), extent.block(), extent.size(), op).is_none()
    }

    /// Takes a request into account; false if it may change the bytes otherwise than by an addition to them.
    fn add(&self, cell: &Cell, read: &OpRef<'_>, request: &LogRequest, sums: &mut Sums) -> bool {
        let Some(op) = self.requests.op(request) else {
            return false;
        };
        if !self.may_change(read, request, &op) {
            return true;
        }
        let Some(addend) = cell.addend(&op) else {
            return false;
        };
        sums.most = sums.most.saturating_add(addend);
        if self.is_before(request, false) {
            sums.least = sums.least.saturating_add(addend);
        }
        true
    }

    /// The sums of the additions, if nothing else may change the bytes and they can't become too great for them.
    fn sums(&self, cell: &Cell) -> Option<Sums> {
        let read = cell.read();
        let mut sums = Sums { most: 0, least: 0 };
        for request in self.requests.all.as_slice() {
            let is_own = request.submission == self.asked.submission;
            if !is_own && self.is_submitted(request) && !self.add(cell, &read, request, &mut sums) {
                return None;
            }
        }
        if sums.most <= cell.greatest() {
            Some(sums)
        } else {
            None
        }
    }

    /// What the additions make, if it isn't what the answer shows from a place of its data on.
    fn wrong_sum_at(&self, place: usize, width: Width) -> Option<Sum> {
        let cell = cell_at(self, place, width)?;
        let sums = self.sums(&cell)?;
        let bound = if cell.value > sums.most {
            Bound::Most(sums.most, self.asked.answer?)
        } else if cell.value < sums.least {
            Bound::Least(sums.least, self.asked.submission)
        } else {
            return None;
        };
        Some(Sum {
            address: cell.address,
            bytes: usize::from(width.size()),
            value: cell.value,
            bound,
        })
    }
}

/// What the additions to some bytes make, if it isn't what the answer shows.
pub(crate) fn wrong_sum(question: &Question<'_>) -> Option<Sum> {
    for dw in 0..question.op.size() as usize / 4 {
        for width in [Width::Four, Width::Eight] {
            if let Some(sum) = question.wrong_sum_at(4 * dw, width) {
                return Some(sum);
            }
        }
    }
    None
}
