//! Non-posted requests that wait.
ghost use Rattle.std.specs.Prelude.{◌≡◌, ◌≤◌, length};
ghost use Rattle.endpoint_core.specs.Steps as spec;
ghost use Rattle.endpoint_core.specs.Blocks as blocks;

use crate::Descriptor;
use crate::requests::body_behind;
use arrayvec::ArrayVec;
use config_core::{CfgRequest, Noted};
use std::marker::Model;
use tlp_core::{Header, TlpRef};

/// A memory read, or what is left of one, or an AtomicOp.
#[derive(Drop)]
pub struct MemoryRequest {
    header: Header,
    /// The payload: the operands of an AtomicOp, 32 bytes at most.
    operands: ArrayVec<u8, 32>,
}

impl Model for MemoryRequest {
    ghost use Rattle.tlp_core.specs.TlpView.{TlpView, IsPacket};

    ghost Value = { TlpView };

    ghost view = { λ r. record {
      kind = r.header.kind;
      tc = r.header.tc;
      attr = r.header.attr;
      length = r.header.length;
      requester = r.header.requester;
      tag = r.header.tag;
      body = r.header.body;
      payload = r.operands.items;
    } };

    ghost invariant = { λ r. IsPacket (record {
      kind = r.header.kind;
      tc = r.header.tc;
      attr = r.header.attr;
      length = r.header.length;
      requester = r.header.requester;
      tag = r.header.tag;
      body = r.header.body;
      payload = r.operands.items;
    }) };
}

/// A non-posted request that waits until its completion can be sent.
#[derive(Drop)]
pub enum Waiting {
    /// A memory read, or what is left of one, or an AtomicOp.
    Memory(MemoryRequest),
    /// A configuration request.
    Configuration(CfgRequest),
    /// A poisoned AtomicOp, which doesn't act.
    Poisoned(MemoryRequest),
    /// Another request that is not supported or poisoned, with the error to report.
    Refused(Descriptor, Noted),
}

/// So many bytes, of their own.
#[inline(always)]
fn operands_of(bytes: &[u8]) -> ArrayVec<u8, 32>
    requires { length bytes.now ≤ 32 }
    ensures { result.items ≡ bytes.now }
{
    let mut operands = ArrayVec::new();
    let _ = operands.try_extend_from_slice(bytes);
    operands
}

/// The first so many DW of a read are done.
pub(crate) fn go_on(request: &mut Waiting, dw: u16)
    requires { blocks.CanGoOn dw request.old }
    ensures { request.new ≡ blocks.gone_on dw request.old }
{
    if let Waiting::Memory(read) = request {
        read.advance(dw);
    }
}

impl MemoryRequest {
    /// The non-posted request, with a payload of its own.
    #[inline(always)]
    #[tactic(auto, using(crate::proofs::Parts::few_operands))]
    pub(crate) fn of(request: &TlpRef<'_>) -> MemoryRequest
        requires { blocks.IsNonPosted request.now.kind }
        ensures { result ≡ request.now }
    {
        MemoryRequest {
            header: request.header,
            operands: operands_of(request.payload),
        }
    }

    /// The request, which lends its payload.
    #[inline(always)]
    pub(crate) fn lend(&self) -> TlpRef<'_>
        ensures { result ≡ self.now }
    {
        TlpRef {
            header: self.header,
            payload: self.operands.as_slice(),
        }
    }

    /// The first so many DW of a read are done.
    #[inline(always)]
    pub(crate) fn advance(&mut self, dw: u16)
        requires { blocks.IsCut dw self.old }
        ensures { self.new ≡ spec.behind dw self.old }
    {
        let header = self.header;
        self.header = Header {
            length: header.length - dw,
            body: body_behind(dw, header.length, header.body),
            ..header
        };
    }
}
