//! What the memory answers, with data of its own or lent.
ghost use Rattle.std.specs.Prelude.{◌≡◌};

use tlp_core::{Payload, PayloadRef};

/// What the memory answers to one operation, with the data kept as a `B`.
#[derive(Debug, PartialEq, Drop)]
pub enum ReplyOf<B> {
    /// A write was done.
    Done,
    /// The bytes of a read's DW, 00 where they are not enabled, or the original bytes of an
    /// AtomicOp's operand, in rising address order.
    Data(B),
    /// See [`Refusal::Unsupported`](crate::Refusal::Unsupported).
    Unsupported,
    /// See [`Refusal::Aborted`](crate::Refusal::Aborted).
    Aborted,
}

/// A reply with data of its own.
pub type Reply = ReplyOf<Payload>;

/// A reply whose data is lent. Its value is that of a [`Reply`].
pub type ReplyRef<'a> = ReplyOf<PayloadRef<'a>>;

impl ReplyOf<Payload> {
    /// The same reply, which lends its data.
    #[inline(always)]
    pub fn lend(&self) -> ReplyRef<'_>
        ensures { result ≡ self.now }
    {
        match self {
            Reply::Done => ReplyRef::Done,
            Reply::Data(bytes) => ReplyRef::Data(PayloadRef::of(bytes)),
            Reply::Unsupported => ReplyRef::Unsupported,
            Reply::Aborted => ReplyRef::Aborted,
        }
    }
}

impl<'a> ReplyOf<PayloadRef<'a>> {
    /// The reply with data of its own. Takes no memory.
    #[inline(always)]
    pub fn to_owned(&self) -> Reply
        ensures { result ≡ self.now }
    {
        match self {
            ReplyRef::Done => Reply::Done,
            ReplyRef::Data(bytes) => Reply::Data(bytes.to_owned()),
            ReplyRef::Unsupported => Reply::Unsupported,
            ReplyRef::Aborted => Reply::Aborted,
        }
    }
}
