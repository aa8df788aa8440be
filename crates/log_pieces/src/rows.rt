//! What each requester has submitted, with the numbers of the pieces.
ghost use Rattle.std.specs.Prelude.{◌≡◌, ◌+◌, ◌++◌, ◌∷◌, ◌==◌, [], IfOk, IfSome, OnOk, length, option_map, replicate, slice_get};
ghost use Rattle.log_pieces.specs.InPieces.{next_number};

use std::alloc::{AllocError, Global};
use std::marker::Model;
use tlp_core::OpRef;

/// A request, and the number of its first piece.
#[derive(Drop)]
pub(crate) struct Request<'a> {
    pub(crate) number: u32,
    pub(crate) op: OpRef<'a>,
}

/// What one requester has submitted.
#[derive(Drop)]
pub(crate) struct Row<'a> {
    next: u32,
    requests: Vec<Request<'a>>,
}

impl<'a> Model for Row<'a> {
    ghost use Rattle.std.specs.Prelude.{map};
    ghost use Rattle.log_pieces.specs.RowView.{RowView};

    ghost Value = { RowView };

    ghost view = { λ m. record { next = m.next; requests = map (λ r. (r.number, r.op)) m.requests.items } };
}

impl<'a> Row<'a> {
    fn new(alloc: Global) -> Row<'a>
        ensures { result ≡ record { next = 0; requests = [] } }
    {
        Row {
            next: 0,
            requests: Vec::new(alloc),
        }
    }

    /// The number of the next piece.
    pub(crate) fn next(&self) -> u32
        ensures { result ≡ self.now.next }
    {
        self.next
    }

    /// The number of the first piece of what is submitted under that number; none where it doesn't fit.
    pub(crate) fn start(&self, number: u32) -> Option<u32>
        ensures { IfSome result (λ k. k ≡ next_number (number == length self.now.requests) self.now.next) }
    {
        if number as usize == self.requests.len() {
            return Some(self.next);
        }
        self.next.checked_add(1)
    }

    /// The request of that number.
    pub(crate) fn request(&self, number: u32) -> Option<&Request<'a>>
        ensures { option_map (λ r. (r.now.number, r.now.op)) result ≡ slice_get self.now.requests number }
    {
        self.requests.get(number as usize)
    }

    /// One request more, in so many pieces.
    pub(crate) fn add(&mut self, op: OpRef<'a>, count: usize) -> Result<(), AllocError>
        ensures { OnOk result (self.new ≡ record { next = self.old.next + count; requests = self.old.requests ++ (self.old.next, op.entry) ∷ [] }) }
    {
        let Ok(count) = u32::try_from(count) else {
            return Err(AllocError);
        };
        let Some(next) = self.next.checked_add(count) else {
            return Err(AllocError);
        };
        self.requests.push(Request {
            number: self.next,
            op,
        })?;
        self.next = next;
        Ok(())
    }
}

/// A row for each requester there may be.
pub(crate) fn rows<'a>(alloc: Global) -> Result<Vec<Row<'a>>, AllocError>
    ensures { IfOk result (λ v. v.items ≡ replicate 256 (record { next = 0; requests = [] })) }
{
    let mut rows = Vec::with_capacity(alloc, 256)?;
    for turn in 0..256usize {
        rows.push(Row::new(alloc))?;
    }
    Ok(rows)
}
