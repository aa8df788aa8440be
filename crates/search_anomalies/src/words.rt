//! Bytes of the memory that an answer shows.
use search_effects::{is_needed, is_put};
use seq_memory::ReplyRef;
use tlp_core::{OpRef, PayloadRef};

/// Bytes of one DW of the memory, as many of them as are looked at.
#[derive(Clone, Copy, PartialEq)]
pub struct Word {
    /// A multiple of 4.
    pub address: u64,
    pub bytes: [Option<u8>; 4],
}

impl Word {
    /// What the data of a reply show of the DW at that offset: the bytes that the operation needs.
    pub(crate) fn shown_by(op: &OpRef<'_>, data: &[u8], offset: usize) -> Word {
        let mut bytes = [None; 4];
        for place in 0..4usize {
            let at = offset.saturating_add(place);
            if is_needed(op, at) {
                bytes[place] = data.get(at).copied();
            }
        }
        Word {
            address: op.address().saturating_add(offset as u64),
            bytes,
        }
    }

    /// What the operation leaves of the DW at that offset of its range, where these bytes are there behind it: the bytes that
    /// it writes.
    pub(crate) fn put_by(op: &OpRef<'_>, bytes: &[u8], offset: usize) -> Word {
        let mut put = [None; 4];
        for place in 0..4usize {
            let at = offset.saturating_add(place);
            if is_put(op, at) {
                put[place] = bytes.get(at).copied();
            }
        }
        Word {
            address: op.address().saturating_add(offset as u64),
            bytes: put,
        }
    }

    /// Whether a byte is looked at.
    pub(crate) fn is_some(&self) -> bool {
        self.bytes != [None; 4]
    }

    /// Whether all bytes that are looked at are 0.
    pub(crate) fn is_zero(&self) -> bool {
        let mut zero = true;
        for place in 0..4usize {
            zero &= self.bytes[place].unwrap_or(0) == 0;
        }
        zero
    }

    /// The bytes, 00 for those that aren't looked at.
    pub fn shown(&self) -> [u8; 4] {
        let mut bytes = [0u8; 4];
        for place in 0..4usize {
            bytes[place] = self.bytes[place].unwrap_or(0);
        }
        bytes
    }

    /// The enables of the bytes that are looked at.
    fn enables(&self) -> u8 {
        let [a, b, c, d] = self.bytes;
        u8::from(a.is_some())
            | u8::from(b.is_some()) << 1
            | u8::from(c.is_some()) << 2
            | u8::from(d.is_some()) << 3
    }

    /// The read that looks at the bytes.
    fn read(&self) -> OpRef<'static> {
        OpRef::Read {
            address: self.address,
            dw: 1,
            first: self.enables(),
            last: 0,
        }
    }
}

/// A word, as a read and the reply that the memory gives to it where the word is there.
#[derive(Drop)]
pub(crate) struct Sight {
    pub(crate) word: Word,
    pub(crate) read: OpRef<'static>,
    /// The bytes that it shows.
    shown: [u8; 4],
}

impl Sight {
    pub(crate) fn of(word: Word) -> Sight {
        Sight {
            word,
            read: word.read(),
            shown: word.shown(),
        }
    }

    /// The reply to the read where the word is there.
    pub(crate) fn reply(&self) -> ReplyRef<'_> {
        ReplyRef::Data(PayloadRef::new(&self.shown))
    }
}
