//! What a request asks of the memory.

ghost use Rattle.std.specs.Prelude.{◌≡◌, ◌≤◌, ◌<◌, ◌^◌, ◌↔◌, None, IsNone, IfSome, IsTrue};
ghost use Rattle.tlp_core.specs.Operation as spec;

use crate::fault::TlpFault;
use crate::lent::{OpRef, op_lent};
use crate::packet::Tlp;
use crate::payload::{Payload, PayloadRef};

/// The size of an AtomicOp's operand (section 6.15).
#[derive(Clone, Copy, PartialEq)]
pub enum Width {
    /// 4 bytes.
    Four,
    /// 8 bytes.
    Eight,
    /// 16 bytes, for CAS alone.
    Sixteen,
}

impl Width {
    /// In bytes.
    pub fn size(self) -> u8
        ensures value { result ≡ spec.size_of self }
        ensures range { result ≤ 16 }
    {
        match self {
            Width::Four => 4,
            Width::Eight => 8,
            Width::Sixteen => 16,
        }
    }
}

/// An operation on the memory, with the bytes of a write kept as a `B`. Not each is one that a request can ask for:
/// [`op_fault`] tells.
#[derive(PartialEq, Drop)]
pub enum OpOf<B> {
    /// Reads `dw` DW from `address` on; `first` and `last` enable bytes of the first and last DW.
    Read {
        address: u64,
        dw: u16,
        first: u8,
        last: u8,
    },
    /// Writes the enabled ones of `bytes` from `address` on.
    Write {
        address: u64,
        first: u8,
        last: u8,
        bytes: B,
    },
    /// Adds the operand.
    FetchAdd {
        address: u64,
        width: Width,
        operand: u128,
    },
    /// Writes the operand.
    Swap {
        address: u64,
        width: Width,
        operand: u128,
    },
    /// Writes `swap` if the memory holds `compare`.
    Cas {
        address: u64,
        width: Width,
        compare: u128,
        swap: u128,
    },
}

/// An operation with bytes of its own.
pub type Op = OpOf<Payload>;

impl OpOf<Payload> {
    /// The same operation, which lends the bytes of a write.
    #[inline(always)]
    pub fn lend(&self) -> OpRef<'_>
        ensures { result ≡ self.now }
    {
        match self {
            Op::Read {
                address,
                dw,
                first,
                last,
            } => OpRef::Read {
                address: *address,
                dw: *dw,
                first: *first,
                last: *last,
            },
            Op::Write {
                address,
                first,
                last,
                bytes,
            } => OpRef::Write {
                address: *address,
                first: *first,
                last: *last,
                bytes: PayloadRef::of(bytes),
            },
            Op::FetchAdd {
                address,
                width,
                operand,
            } => OpRef::FetchAdd {
                address: *address,
                width: *width,
                operand: *operand,
            },
            Op::Swap {
                address,
                width,
                operand,
            } => OpRef::Swap {
                address: *address,
                width: *width,
                operand: *operand,
            },
            Op::Cas {
                address,
                width,
                compare,
                swap,
            } => OpRef::Cas {
                address: *address,
                width: *width,
                compare: *compare,
                swap: *swap,
            },
        }
    }

    /// The first address of the place that the operation names.
    #[inline(always)]
    pub fn address(&self) -> u64
        ensures { result ≡ spec.address_of self.now }
    {
        self.lend().address()
    }

    /// How many bytes the place has, whatever the byte enables: those of all DW named, or of the
    /// operand.
    #[inline(always)]
    pub fn size(&self) -> u32
        ensures value { result ≡ spec.count_of self.now }
        ensures range { result < 2 ^ 20 }
    {
        self.lend().size()
    }

    /// Whether its request is posted (section 2.4): that of a write is, and has no completion.
    #[inline(always)]
    pub fn is_posted(&self) -> bool
        ensures { result ≡ spec.is_posted self.now }
    {
        matches!(self, Op::Write { .. })
    }
}

/// The same operation. Takes no memory.
pub fn copy_of(op: &Op) -> Op
    ensures { result ≡ op.now }
{
    op.lend().to_owned()
}

/// The first fault that keeps an operation from being a request, in the order of [`TlpFault`]:
/// `LengthMismatch` for a read of 0 or more than 1024 DW or a write of no bytes or of a part of a
/// DW, `ByteEnables`, `OperandSize` for an operand of 16 bytes in FetchAdd or Swap or one that is
/// too great for its width, `Unaligned`. Takes no memory.
pub fn op_fault(op: &Op) -> Option<TlpFault>
    ensures { result ≡ spec.op_fault op.now }
{
    op.lend().fault()
}

/// The operation that the packet asks for, none where it is a completion. Takes no memory.
#[inline(always)]
pub fn op_of(tlp: &Tlp) -> Option<Op>
    ensures value { result ≡ spec.op_of tlp.now }
    ensures none { IsNone result ↔ IsTrue (spec.is_completion tlp.now.kind) }
    ensures sound { IfSome result (λ op. spec.op_fault op ≡ None) }
{
    let op = op_lent(&tlp.lend())?;
    Some(op.to_owned())
}
