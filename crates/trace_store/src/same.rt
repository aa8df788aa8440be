//! Whether two operations or two replies are the same.
ghost use Rattle.std.specs.Prelude.{◌≡◌, bytes_eq};
ghost use Rattle.history_words.specs.Flaws as flaw;
ghost use Rattle.trace_store.specs.Kept.{op_in, HasOp};

use crate::kept::{Fields, OpKind, bytes_of, operand_in, operands_in};
use seq_memory::ReplyRef;

/// The same bytes. Of one DW, as most data, that is no call.
#[inline(always)]
fn are_same(left: &[u8], right: &[u8]) -> bool
    ensures { result ≡ bytes_eq left.now right.now }
{
    match (left, right) {
        ([a, b, c, d], [e, f, g, h]) => a == e && b == f && c == g && d == h,
        (left, right) => left == right,
    }
}

/// An operation as it is kept.
#[derive(Clone, Copy)]
pub(crate) struct KeptOp<'a> {
    pub bytes: &'a [u8],
    pub kind: OpKind,
    pub fields: &'a Fields,
}

/// The same operation, as both are kept.
#[inline(always)]
pub(crate) fn is_same_op(left: KeptOp<'_>, right: KeptOp<'_>) -> bool
    requires left { HasOp left.bytes.now left.kind left.fields.now }
    requires right { HasOp right.bytes.now right.kind right.fields.now }
    ensures { result ≡ flaw.same_op (op_in left.entry.bytes.now left.entry.kind left.entry.fields.now)
        (op_in right.entry.bytes.now right.entry.kind right.entry.fields.now) }
{
    let fields = left.fields;
    let others = right.fields;
    let is_there = fields.address == others.address;
    match (left.kind, right.kind) {
        (OpKind::Read, OpKind::Read) => {
            is_there
                && fields.count == others.count
                && fields.first == others.first
                && fields.last == others.last
        }
        (OpKind::Write, OpKind::Write) => {
            is_there
                && fields.first == others.first
                && fields.last == others.last
                && are_same(bytes_of(left.bytes, fields), bytes_of(right.bytes, others))
        }
        (OpKind::FetchAdd(width), OpKind::FetchAdd(size))
        | (OpKind::Swap(width), OpKind::Swap(size)) => {
            is_there
                && width.size() == size.size()
                && operand_in(left.bytes, fields) == operand_in(right.bytes, others)
        }
        (OpKind::Cas(width), OpKind::Cas(size)) => {
            let (compare, swap) = operands_in(left.bytes, fields);
            let (expected, put) = operands_in(right.bytes, others);
            is_there && width.size() == size.size() && compare == expected && swap == put
        }
        _ => false,
    }
}

/// The same reply.
#[inline(always)]
pub(crate) fn is_same_reply(left: &ReplyRef<'_>, right: &ReplyRef<'_>) -> bool
    ensures { result ≡ flaw.same_reply left.now right.now }
{
    match (left, right) {
        (ReplyRef::Done, ReplyRef::Done) => true,
        (ReplyRef::Data(bytes), ReplyRef::Data(made)) => are_same(
            bytes.as_slice(),
            made.as_slice(),
        ),
        (ReplyRef::Unsupported, ReplyRef::Unsupported) => true,
        (ReplyRef::Aborted, ReplyRef::Aborted) => true,
        _ => false,
    }
}
