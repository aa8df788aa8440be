//! What is wrong with a line of a packet's bytes.
ghost use Rattle.std.specs.Prelude.{◌≤◌, length};

use config_core::CfgFault;
use diagnostics::{Reason, digits_reason};
use hex_text::HexLine;
use packet_text::{BytesFault, decode};
use tlp_core::{TlpFault, decode_lent};

/// What the fault's name means, nothing where it depends on the bytes.
fn meaning_of(fault: TlpFault) -> &'static str {
    match fault {
        TlpFault::Prefix => "a TLP prefix stands in place of a header",
        TlpFault::Kind =>
            "the first byte, Fmt and Type, is of no memory request, AtomicOp or completion",
        TlpFault::TenBitTag => "T9 or T8 is 1, for a tag of 10 bits",
        TlpFault::Hints => "LN or TH is 1",
        TlpFault::Digest => "TD is 1, for an ECRC at the end",
        TlpFault::Poisoned => "EP is 1",
        TlpFault::Translated => "AT is not 0",
        TlpFault::ByteEnables => {
            "the byte enables break the rule for this number of DW at this address"
        }
        TlpFault::OperandSize => {
            "FetchAdd and Swap have operands of 4 or 8 bytes, CAS of 4, 8 or 16"
        }
        TlpFault::Unaligned => "an operand's address is a multiple of the operand's size",
        TlpFault::Short | TlpFault::LengthMismatch | TlpFault::PayloadTooLong => "",
    }
}

/// The bytes of the header, by Fmt.
fn header_size(code: u8) -> usize {
    if code / 32 % 2 == 1 { 16 } else { 12 }
}

/// The DW that Length asks for.
fn length_in(third: u8, fourth: u8) -> u16 {
    let dw = u16::from(third % 4) * 256 + u16::from(fourth);
    if dw == 0 { 1024 } else { dw }
}

/// Adds what Length says of the bytes.
fn put_length(bytes: &[u8], reason: &mut Reason) {
    let [code, _, third, fourth, ..] = bytes else {
        return;
    };
    let given = bytes.len().saturating_sub(header_size(*code));
    let dw = length_in(*third, *fourth);
    if code / 64 % 2 == 1 {
        let promised = u32::from(dw) * 4;
        reason.put(format_args!(
            " ({given} bytes follow the header where Length {dw} asks for {promised})"
        ));
    } else {
        reason.put(format_args!(" ({given} bytes follow the header of a packet without data)"));
    }
}

/// Why the bytes are no TLP.
fn fault_reason(fault: TlpFault, bytes: &[u8]) -> Reason {
    let mut reason = Reason::new();
    let name = fault.name();
    reason.put(format_args!(": {name}"));
    match fault {
        TlpFault::Short => {
            let given = bytes.len();
            reason.put(format_args!(
                " ({given} bytes, and a header has 12, or 16 where Fmt says so)"
            ));
        }
        TlpFault::LengthMismatch => put_length(bytes, &mut reason),
        TlpFault::PayloadTooLong => {
            reason.put(" (Max_Payload_Size is 128 bytes, a Length of 32)");
        }
        _ => {
            let meaning = meaning_of(fault);
            reason.put(format_args!(" ({meaning})"));
        }
    }
    reason
}

/// That a configuration request has other bytes or another Length than it is to have.
fn configuration_length_reason(bytes: &[u8]) -> Reason {
    let mut reason = Reason::new();
    reason.put(": LengthMismatch");
    if let [code, _, third, fourth, ..] = bytes {
        let given = bytes.len();
        let dw = length_in(*third, *fourth);
        let (kind, size) = if code / 64 % 2 == 1 {
            ("write", 16)
        } else {
            ("read", 12)
        };
        reason.put(format_args!(
            " ({given} bytes of Length {dw}, and a configuration {kind} has {size} of Length 1)"
        ));
    }
    reason
}

/// Which byte of a configuration request has a bit that has to be 0.
fn fields_reason(bytes: &[u8]) -> Reason {
    let mut reason = Reason::new();
    reason.put(": Fields");
    if let [_, first, second, _, _, _, _, seventh, ..] = bytes {
        let (place, byte, names) = if *first != 0 {
            (1, *first, "TC, T9, T8, Attr[2], LN and TH")
        } else if second / 4 != 0 {
            (2, *second, "Attr[1:0] and AT")
        } else {
            (7, *seventh, "Last DW BE")
        };
        reason.put(format_args!(
            " (byte {place} is {byte:02X}h, and a configuration request has 0 in {names})"
        ));
    }
    reason
}

/// Why bytes that begin as a configuration request are none.
fn configuration_reason(fault: CfgFault, bytes: &[u8]) -> Reason {
    match fault {
        CfgFault::Short => fault_reason(TlpFault::Short, bytes),
        CfgFault::Kind => fault_reason(TlpFault::Kind, bytes),
        CfgFault::Digest => fault_reason(TlpFault::Digest, bytes),
        CfgFault::Poisoned => fault_reason(TlpFault::Poisoned, bytes),
        CfgFault::LengthMismatch => configuration_length_reason(bytes),
        CfgFault::Fields => fields_reason(bytes),
    }
}

/// That bytes begin as no packet.
fn kind_reason() -> Reason {
    let mut reason = Reason::new();
    reason.put(
        ": Kind (the first byte, Fmt and Type, is of no memory request, AtomicOp, completion or configuration request)",
    );
    reason
}

/// Why the bytes of the line are no packet.
pub(crate) fn packet_reason(line: &[u8]) -> Reason
    requires { length line.now ≤ 512 }
{
    let mut hex = HexLine::new();
    if !hex.read(line) {
        return digits_reason(line, line);
    }
    match decode(hex.bytes()) {
        Err(BytesFault::Tlp(TlpFault::Kind)) => kind_reason(),
        Err(BytesFault::Tlp(fault)) => fault_reason(fault, hex.bytes()),
        Err(BytesFault::Configuration(fault)) => configuration_reason(fault, hex.bytes()),
        Err(BytesFault::Dllp(fault)) => {
            let mut reason = Reason::new();
            let name = fault.name();
            reason.put(format_args!(": {name} (four bytes are read as a DLLP)"));
            reason
        }
        Ok(_) => Reason::new(),
    }
}

/// Why the bytes of the line are no request that can act.
pub(crate) fn request_reason(line: &[u8]) -> Reason
    requires { length line.now ≤ 512 }
{
    let mut hex = HexLine::new();
    if !hex.read(line) {
        return digits_reason(line, line);
    }
    match decode_lent(hex.bytes()) {
        Err(fault) => fault_reason(fault, hex.bytes()),
        Ok(packet) => {
            let mut reason = Reason::new();
            if packet.header.kind.is_completion() {
                reason.put(": a completion where a request is expected");
            } else {
                reason.put(": the requester has used all 4294967295 request numbers");
            }
            reason
        }
    }
}
