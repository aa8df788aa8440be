//! Block requests with addresses that count from the memory's first byte.
ghost use Rattle.std.specs.Prelude.{◌≡◌, ◌≤◌};
ghost use Rattle.tlp_core.specs.Operation.{address_of};
ghost use Rattle.endpoint_core.specs.Steps as device;
ghost use Rattle.endpoint_log.specs.Steps as spec;

use endpoint_core::dw_in_front;
use op_pieces::front;
use seq_memory::ReplyRef;
use tlp_core::{Kind, OpRef, PayloadRef, TlpRef};

/// The operation with an address that counts from the memory's first byte.
pub(crate) fn moved<'a>(base: u64, op: &OpRef<'a>) -> OpRef<'a>
    requires { base ≤ address_of op.now }
    ensures { result ≡ spec.moved base op.now }
{
    op.at(op.address() - base)
}

/// The first of a request's block requests, with an address that counts from the memory's first byte.
#[tactic(auto, using(crate::proofs::Blocks::front_address, crate::proofs::Blocks::in_front_fewer))]
pub(crate) fn first_moved<'a>(base: u64, op: &OpRef<'a>) -> OpRef<'a>
    requires { base ≤ address_of op.now }
    ensures { result ≡ spec.moved base (device.first_block op.now) }
{
    match dw_in_front(op) {
        0 => moved(base, op),
        dw => moved(base, &front(dw, op)),
    }
}

/// What a completion says of the memory.
pub(crate) fn reply_in<'a>(completion: &TlpRef<'a>) -> ReplyRef<'a>
    ensures { result ≡ spec.reply_in completion.now }
{
    match completion.header.kind {
        Kind::CompletionData => ReplyRef::Data(PayloadRef::new(completion.payload)),
        _ => ReplyRef::Unsupported,
    }
}
