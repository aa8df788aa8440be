//! What a completion tells its requester, with a reply of its own or lent.
ghost use Rattle.std.specs.Prelude.{◌≡◌};

use seq_memory::{Reply, ReplyRef};

/// What a completion tells its requester, with the reply kept as an `R`.
#[derive(PartialEq, Drop)]
pub struct AnswerOf<R> {
    /// The number of the request.
    pub number: u32,
    /// What the memory replied.
    pub reply: R,
}

/// An answer with a reply of its own.
pub type Answer = AnswerOf<Reply>;

/// An answer whose reply is lent. Its value is that of an [`Answer`].
pub type AnswerRef<'a> = AnswerOf<ReplyRef<'a>>;

impl AnswerOf<Reply> {
    /// The same answer, which lends its reply.
    #[inline(always)]
    pub fn lend(&self) -> AnswerRef<'_>
        ensures { result ≡ self.now }
    {
        AnswerRef {
            number: self.number,
            reply: self.reply.lend(),
        }
    }
}

impl<'a> AnswerOf<ReplyRef<'a>> {
    /// The answer with a reply of its own. Takes no memory.
    #[inline(always)]
    pub fn to_owned(&self) -> Answer
        ensures { result ≡ self.now }
    {
        Answer {
            number: self.number,
            reply: self.reply.to_owned(),
        }
    }
}
