//! What is wrong with a trace and a history.
ghost use Rattle.std.specs.Prelude.{◌≡◌};
ghost use Rattle.history_words.specs.Names.{number_of, name_of};

use std::fmt;
use thiserror::Error;

/// The flaws, in the order of their numbers. `Numbering` is looked for in all submissions first,
/// then `Stranger` to `Order` at each index of the history, then `Unasked` to `Stale` at each
/// answer, and last, if it is asked for, `Clock` at each record; at one place the lowest number is
/// told.
#[derive(Clone, Copy, Debug, PartialEq)]
pub enum FlawKind {
    /// The numbers of a requester's submissions are not 0, 1, 2 and so on in order.
    Numbering,
    /// The entry's request was never submitted, or with another operation.
    Stranger,
    /// The request stands at an earlier index.
    Twice,
    /// An earlier submitted posted write of the same requester does not stand before it.
    Order,
    /// No earlier submission of a non-posted request has that number.
    Unasked,
    /// It was answered before.
    Again,
    /// The request is not in the history.
    Absent,
    /// Its index is below the `n` of its submission.
    Early,
    /// Its index is not below the `n` of its answer.
    Late,
    /// The sequential memory answers otherwise at that index.
    Reply,
    /// Its index is not above the index of every answer that the requester had before it submitted
    /// the request.
    Stale,
    /// An allocation failed, or there are more than 4,294,967,295 records or entries: nothing is known of the trace.
    Memory,
    /// The record's `n` is below that of a record before, above the history's length, or above the
    /// index of the request that the record submits.
    Clock,
}

impl fmt::Display for FlawKind {
    fn fmt<W: fmt::Write>(&self, f: &mut fmt::Formatter<W>) -> fmt::Result {
        f.write_str(self.name())
    }
}

impl std::error::Error for FlawKind {}

impl FlawKind {
    /// The number under which the flaw is told, 1 to 13.
    pub fn number(self) -> u8
        ensures { result ≡ number_of self }
    {
        match self {
            FlawKind::Numbering => 1,
            FlawKind::Stranger => 2,
            FlawKind::Twice => 3,
            FlawKind::Order => 4,
            FlawKind::Unasked => 5,
            FlawKind::Again => 6,
            FlawKind::Absent => 7,
            FlawKind::Early => 8,
            FlawKind::Late => 9,
            FlawKind::Reply => 10,
            FlawKind::Stale => 11,
            FlawKind::Memory => 12,
            FlawKind::Clock => 13,
        }
    }

    /// The name under which the flaw is told, as `Display` writes it.
    pub fn name(self) -> &'static str
        ensures { result.now ≡ name_of self }
    {
        match self {
            FlawKind::Numbering => "Numbering",
            FlawKind::Stranger => "Stranger",
            FlawKind::Twice => "Twice",
            FlawKind::Order => "Order",
            FlawKind::Unasked => "Unasked",
            FlawKind::Again => "Again",
            FlawKind::Absent => "Absent",
            FlawKind::Early => "Early",
            FlawKind::Late => "Late",
            FlawKind::Reply => "Reply",
            FlawKind::Stale => "Stale",
            FlawKind::Memory => "Memory",
            FlawKind::Clock => "Clock",
        }
    }
}

/// The first flaw, and where it is: the place of a record for `Numbering` and from `Unasked` on, an
/// index of the history for `Stranger` to `Order`, from 0; 0 for `Memory`.
#[derive(Clone, Copy, Debug, PartialEq, Error)]
#[error("{kind} at {place}")]
pub struct Flaw {
    pub kind: FlawKind,
    pub place: usize,
}
