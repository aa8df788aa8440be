//! Operations whose bytes stand where they were read.

ghost use Rattle.std.specs.Prelude.{◌≡◌, ◌*◌, ◌^◌, ◌<◌, ◌↔◌, false, length, None, IsNone, IfSome, IsTrue};
ghost use Rattle.tlp_core.specs.Operation as spec;
ghost use Rattle.tlp_core.specs.Bits.{IsBytes};
ghost use Rattle.tlp_core.specs.Operands.{number_of, IsOperand};

use crate::decoding::keeps_enables;
use crate::fault::TlpFault;
use crate::operation::{Op, OpOf, Width};
use crate::packet::{Body, Kind, TlpRef};
use crate::payload::PayloadRef;
use byteorder::{ByteOrder, LittleEndian};

/// An operation whose bytes are lent. Its value is that of an [`Op`].
pub type OpRef<'a> = OpOf<PayloadRef<'a>>;

#[inline(always)]
fn fits(width: Width, number: u128) -> bool
    ensures { result ≡ spec.fits width number }
{
    match width {
        Width::Four => number < 1 << 32,
        Width::Eight => number < 1 << 64,
        Width::Sixteen => true,
    }
}

#[inline(always)]
fn wrong_length(op: &OpRef<'_>) -> bool
    ensures { result ≡ spec.wrong_length op.now }
{
    match op {
        OpRef::Read { dw, .. } => *dw == 0 || *dw > 1024,
        OpRef::Write { bytes, .. } => {
            let len = bytes.as_slice().len();
            len == 0 || len % 4 != 0
        },
        _ => false,
    }
}

#[inline(always)]
fn wrong_enables(op: &OpRef<'_>) -> bool
    requires { spec.wrong_length op.now ≡ false }
    ensures { result ≡ spec.wrong_enables op.now }
{
    match op {
        OpRef::Read {
            address,
            dw,
            first,
            last,
        } => *first > 15 || *last > 15 || !keeps_enables(*dw, *address, *first, *last),
        OpRef::Write {
            address,
            first,
            last,
            bytes,
        } => {
            *first > 15
                || *last > 15
                || !keeps_enables((bytes.as_slice().len() / 4) as u16, *address, *first, *last)
        }
        _ => false,
    }
}

#[inline(always)]
fn wrong_operand(op: &OpRef<'_>) -> bool
    ensures { result ≡ spec.wrong_operand op.now }
{
    match op {
        OpRef::FetchAdd { width, operand, .. } | OpRef::Swap { width, operand, .. } => {
            *width == Width::Sixteen || !fits(*width, *operand)
        }
        OpRef::Cas {
            width,
            compare,
            swap,
            ..
        } => !fits(*width, *compare) || !fits(*width, *swap),
        _ => false,
    }
}

#[inline(always)]
fn wrong_address(op: &OpRef<'_>) -> bool
    ensures { result ≡ spec.wrong_address op.now }
{
    match op {
        OpRef::Read { address, .. } | OpRef::Write { address, .. } => address % 4 != 0,
        OpRef::FetchAdd { address, width, .. }
        | OpRef::Swap { address, width, .. }
        | OpRef::Cas { address, width, .. } => address % u64::from(width.size()) != 0,
    }
}

impl<'a> OpOf<PayloadRef<'a>> {
    /// The first address of the place that the operation names.
    #[inline(always)]
    pub fn address(&self) -> u64
        ensures { result ≡ spec.address_of self.now }
    {
        match self {
            OpRef::Read { address, .. }
            | OpRef::Write { address, .. }
            | OpRef::FetchAdd { address, .. }
            | OpRef::Swap { address, .. }
            | OpRef::Cas { address, .. } => *address,
        }
    }

    /// How many bytes the place has, as [`Op::size`] says.
    #[inline(always)]
    pub fn size(&self) -> u32
        ensures value { result ≡ spec.count_of self.now }
        ensures range { result < 2 ^ 20 }
    {
        match self {
            OpRef::Read { dw, .. } => 4 * u32::from(*dw),
            OpRef::Write { bytes, .. } => bytes.as_slice().len() as u32,
            OpRef::FetchAdd { width, .. } | OpRef::Swap { width, .. } | OpRef::Cas { width, .. } =>
                { u32::from(width.size()) }
        }
    }

    /// Whether its request is posted (section 2.4), as [`Op::is_posted`] says.
    #[inline(always)]
    pub fn is_posted(&self) -> bool
        ensures { result ≡ spec.is_posted self.now }
    {
        matches!(self, OpRef::Write { .. })
    }

    /// Its first fault, as [`op_fault`](crate::op_fault) tells.
    #[inline(always)]
    pub fn fault(&self) -> Option<TlpFault>
        ensures { result ≡ spec.op_fault self.now }
    {
        if wrong_length(self) {
            return Some(TlpFault::LengthMismatch);
        }
        if wrong_enables(self) {
            return Some(TlpFault::ByteEnables);
        }
        if wrong_operand(self) {
            return Some(TlpFault::OperandSize);
        }
        if wrong_address(self) {
            return Some(TlpFault::Unaligned);
        }
        None
    }

    /// The same operation at another address. The bytes of a write stay borrowed.
    #[inline(always)]
    pub fn at(&self, address: u64) -> OpRef<'a>
        ensures { result ≡ spec.at_address address self.now }
    {
        match self {
            OpRef::Read {
                dw,
                first,
                last,
                ..
            } => OpRef::Read {
                address,
                dw: *dw,
                first: *first,
                last: *last,
            },
            OpRef::Write {
                first,
                last,
                bytes,
                ..
            } => OpRef::Write {
                address,
                first: *first,
                last: *last,
                bytes: PayloadRef::new(bytes.as_slice()),
            },
            OpRef::FetchAdd { width, operand, .. } => OpRef::FetchAdd {
                address,
                width: *width,
                operand: *operand,
            },
            OpRef::Swap { width, operand, .. } => OpRef::Swap {
                address,
                width: *width,
                operand: *operand,
            },
            OpRef::Cas {
                width,
                compare,
                swap,
                ..
            } => OpRef::Cas {
                address,
                width: *width,
                compare: *compare,
                swap: *swap,
            },
        }
    }

    /// The same operation again. The bytes of a write stay borrowed.
    #[inline(always)]
    pub fn again(&self) -> OpRef<'a>
        ensures { result ≡ self.now }
    {
        self.at(self.address())
    }

    /// The operation with bytes of its own. Takes no memory.
    #[inline(always)]
    pub fn to_owned(&self) -> Op
        ensures { result ≡ self.now }
    {
        match self {
            OpRef::Read {
                address,
                dw,
                first,
                last,
            } => Op::Read {
                address: *address,
                dw: *dw,
                first: *first,
                last: *last,
            },
            OpRef::Write {
                address,
                first,
                last,
                bytes,
            } => Op::Write {
                address: *address,
                first: *first,
                last: *last,
                bytes: bytes.to_owned(),
            },
            OpRef::FetchAdd {
                address,
                width,
                operand,
            } => Op::FetchAdd {
                address: *address,
                width: *width,
                operand: *operand,
            },
            OpRef::Swap {
                address,
                width,
                operand,
            } => Op::Swap {
                address: *address,
                width: *width,
                operand: *operand,
            },
            OpRef::Cas {
                address,
                width,
                compare,
                swap,
            } => Op::Cas {
                address: *address,
                width: *width,
                compare: *compare,
                swap: *swap,
            },
        }
    }
}

/// The width and the number of an operand's bytes, of which there are 4, 8 or 16.
#[inline(always)]
pub fn operand_of(bytes: &[u8]) -> (Width, u128)
    requires { IsOperand bytes.now }
    ensures width { result.0 ≡ spec.width_of (length bytes.now) }
    ensures number { result.1 ≡ number_of bytes.now }
    ensures range { result.1 < 2 ^ (8 * spec.size_of result.0) }
{
    match bytes.len() {
        4 => (Width::Four, u128::from(LittleEndian::read_u32(bytes))),
        8 => (Width::Eight, u128::from(LittleEndian::read_u64(bytes))),
        _ => (Width::Sixteen, LittleEndian::read_u128(bytes)),
    }
}

/// The numbers of a slice are below 256: a clause for its callers. Does nothing when it runs.
#[inline(always)]
fn slice_holds_bytes(bytes: &[u8])
    ensures { IsBytes bytes.now }
{
    let _ = bytes.len();
}

/// As [`op_of`](crate::op_of), but the operation's bytes are those of the packet's payload.
#[inline(always)]
#[tactic(auto, using(crate::proofs::Room::fits_room))]
pub fn op_lent<'a>(tlp: &TlpRef<'a>) -> Option<OpRef<'a>>
    ensures value { result ≡ spec.op_of tlp.now }
    ensures none { IsNone result ↔ IsTrue (spec.is_completion tlp.now.kind) }
    ensures sound { IfSome result (λ op. spec.op_fault op ≡ None) }
{
    let Body::Request {
        address,
        first,
        last,
    } = tlp.header.body
    else {
        return None;
    };
    let bytes = tlp.payload;
    slice_holds_bytes(bytes);
    match tlp.header.kind {
        Kind::MemoryRead => Some(OpRef::Read {
            address,
            dw: tlp.header.length,
            first,
            last,
        }),
        Kind::MemoryWrite => Some(OpRef::Write {
            address,
            first,
            last,
            bytes: PayloadRef::new(bytes),
        }),
        Kind::FetchAdd => {
            let (width, operand) = operand_of(bytes);
            Some(OpRef::FetchAdd {
                address,
                width,
                operand,
            })
        }
        Kind::Swap => {
            let (width, operand) = operand_of(bytes);
            Some(OpRef::Swap {
                address,
                width,
                operand,
            })
        }
        Kind::Cas => {
            let half = bytes.len() / 2;
            let compare = &bytes[..half];
            let swap = &bytes[half..];
            slice_holds_bytes(compare);
            slice_holds_bytes(swap);
            let (width, compare) = operand_of(compare);
            let (_, swap) = operand_of(swap);
            Some(OpRef::Cas {
                address,
                width,
                compare,
                swap,
            })
        }
        Kind::Completion | Kind::CompletionData => None,
    }
}
