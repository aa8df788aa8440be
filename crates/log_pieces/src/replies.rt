//! A reply in parts, one for each piece of its request.
ghost use Rattle.std.specs.Prelude.{◌≡◌, min};
ghost use Rattle.op_pieces.specs.Pieces as spec;

use seq_memory::ReplyRef;
use tlp_core::PayloadRef;

/// The lesser of the two.
fn within(count: usize, all: usize) -> usize
    ensures { result ≡ min count all }
{
    if count < all { count } else { all }
}

/// The first so many bytes of data, or else the reply.
pub(crate) fn front_of<'a>(count: usize, reply: &ReplyRef<'a>) -> ReplyRef<'a>
    ensures { result ≡ spec.front_of count reply.now }
{
    match reply {
        ReplyRef::Data(bytes) => {
            let bytes = bytes.as_slice();
            let end = within(count, bytes.len());
            ReplyRef::Data(PayloadRef::new(&bytes[..end]))
        }
        ReplyRef::Done => ReplyRef::Done,
        ReplyRef::Unsupported => ReplyRef::Unsupported,
        ReplyRef::Aborted => ReplyRef::Aborted,
    }
}

/// All but the first so many bytes of data, or else the reply.
pub(crate) fn back_of<'a>(count: usize, reply: &ReplyRef<'a>) -> ReplyRef<'a>
    ensures { result ≡ spec.back_of count reply.now }
{
    match reply {
        ReplyRef::Data(bytes) => {
            let bytes = bytes.as_slice();
            let end = within(count, bytes.len());
            ReplyRef::Data(PayloadRef::new(&bytes[end..]))
        }
        ReplyRef::Done => ReplyRef::Done,
        ReplyRef::Unsupported => ReplyRef::Unsupported,
        ReplyRef::Aborted => ReplyRef::Aborted,
    }
}
