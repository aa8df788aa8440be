//! Replies that no memory gives.
ghost use Rattle.std.specs.Prelude.{ℕ, ◌≡◌, List, Some, None, false, IfSome, length};
ghost use Rattle.seq_memory.specs.Entries.{Reply};
ghost use Rattle.seq_memory.specs.Step.{answer, answer_by, refusal};
ghost use Rattle.search_reasons.specs.Reasons.{IsMisreply};

use search_effects::{is_needed, never_gives};
use seq_memory::{Extent, Refusal, ReplyRef, refusal_lent};
use tlp_core::OpRef;

/// What is wrong with a reply that no memory gives.
#[derive(Clone, Copy, PartialEq)]
pub enum Misreply {
    /// The access at this address isn't served: UR.
    Unsupported(u64),
    /// The access at this address isn't served: CA.
    Aborted(u64),
    /// The access at this address is served, with data of so many bytes.
    Served(u64, usize),
    /// The byte of the data isn't enabled, and so is 00.
    Disabled(usize),
}

/// A request that is refused so is answered so.
fn is_refusal(refused: Refusal, reply: &ReplyRef<'_>) -> bool
    ensures { result ≡ false → (made : Reply) → answer_by (Some refused) made ≡ reply.now → ⊥ }
{
    match refused {
        Refusal::Aborted => matches!(reply, ReplyRef::Aborted),
        Refusal::Unsupported => matches!(reply, ReplyRef::Unsupported),
    }
}

/// The operation isn't served.
fn refused_so(refused: Refusal, op: &OpRef<'_>) -> Misreply {
    match refused {
        Refusal::Aborted => Misreply::Aborted(op.address()),
        Refusal::Unsupported => Misreply::Unsupported(op.address()),
    }
}

/// The operation is served, with other data than these.
fn wrong_data(op: &OpRef<'_>, data: &[u8]) -> Misreply {
    if data.len() == op.size() as usize {
        for place in 0..data.len() {
            if data[place] != 0 && !is_needed(op, place) {
                return Misreply::Disabled(place);
            }
        }
    }
    served(op)
}

/// The operation is served.
fn served(op: &OpRef<'_>) -> Misreply {
    Misreply::Served(op.address(), op.size() as usize)
}

/// Why the operation isn't answered so where it is served, if it isn't.
fn served_misreply(op: &OpRef<'_>, reply: &ReplyRef<'_>) -> Option<Misreply>
    ensures { IfSome result (λ c. (base block : ℕ) (m : List ℕ) → refusal base (length m) block op.now ≡ None → answer base block m op.now ≡ reply.now → ⊥) }
{
    match reply {
        ReplyRef::Data(data) => if never_gives(op, data.as_slice()) {
            Some(wrong_data(op, data.as_slice()))
        } else {
            None
        },
        ReplyRef::Done => None,
        ReplyRef::Unsupported => Some(served(op)),
        ReplyRef::Aborted => Some(served(op)),
    }
}

/// Why no memory that lies there answers the operation so, if none does.
pub(crate) fn misreply_of(extent: Extent, op: &OpRef<'_>, reply: &ReplyRef<'_>) -> Option<Misreply>
    ensures { IfSome result (λ c. IsMisreply extent op.now reply.now) }
{
    match refusal_lent(extent.base(), extent.block(), extent.size(), op) {
        Some(refused) => if is_refusal(refused, reply) {
            None
        } else {
            Some(refused_so(refused, op))
        },
        None => served_misreply(op, reply),
    }
}
