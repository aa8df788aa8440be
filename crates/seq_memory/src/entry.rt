//! A request in the history, with an operation of its own or lent.
ghost use Rattle.std.specs.Prelude.{◌≡◌};

use tlp_core::{Op, OpRef};

/// A request in the history, with its operation kept as an `O`.
#[derive(PartialEq, Drop)]
pub struct EntryOf<O> {
    /// The port of its requester.
    pub requester: u8,
    /// Its number among the requests of its requester.
    pub number: u32,
    pub op: O,
}

/// An entry with an operation of its own.
pub type Entry = EntryOf<Op>;

/// An entry whose operation is lent. Its value is that of an [`Entry`].
pub type EntryRef<'a> = EntryOf<OpRef<'a>>;

impl EntryOf<Op> {
    /// The same entry, which lends its operation.
    #[inline(always)]
    pub fn lend(&self) -> EntryRef<'_>
        ensures { result ≡ self.now }
    {
        EntryRef {
            requester: self.requester,
            number: self.number,
            op: self.op.lend(),
        }
    }
}

impl<'a> EntryOf<OpRef<'a>> {
    /// The entry with an operation of its own. Takes no memory.
    #[inline(always)]
    pub fn to_owned(&self) -> Entry
        ensures { result ≡ self.now }
    {
        Entry {
            requester: self.requester,
            number: self.number,
            op: self.op.to_owned(),
        }
    }
}
