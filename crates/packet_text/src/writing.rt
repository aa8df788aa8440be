//! Writing packets and faults.
ghost use Rattle.std.specs.Prelude.{◌≡◌, ◌≤◌, ◌<◌, ◌+◌, ◌*◌, ◌++◌, ◌∷◌, length, is_ok};
ghost use Rattle.arrayvec.specs.ArrayString.{array_string_len};
ghost use Rattle.operation_text.specs.Texts.{op_text};
ghost use Rattle.hex.specs.Hex.{encode_upper};
ghost use Rattle.config_core.specs.Layout as configuration;
ghost use Rattle.packet_text.specs.Packets as packets;
ghost use Rattle.packet_text.specs.Texts as texts;

use crate::bytes::of_other;
use crate::fault::{BytesFault, TextFault, configuration_number};
use crate::packet::Packet;
use arrayvec::ArrayString;
use config_core::{CfgFault, CfgRequest};
use dllp_core::{Class, Dllp, DllpFault};
use operation_text::{
    write_bytes, write_decimal, write_hexadecimal, write_octet, write_op, write_sequence,
};
use seq12::Seq12;
use tlp_core::{Body, Kind, OpRef, Status, TlpFault, TlpRef, decode_lent, op_lent};

/// Adds four digits.
fn put_id(id: u16, out: &mut ArrayString<512>)
    requires { array_string_len out.old + 4 ≤ 512 }
    ensures text { out.new.bytes ≡ out.old.bytes ++ texts.id_text id }
    ensures len { array_string_len out.new ≡ array_string_len out.old + 4 }
{
    write_octet((id / 256) as u8, out);
    write_octet((id % 256) as u8, out);
}

/// Adds a name and its number, nothing for 0.
fn put_named(name: &str, number: u8, out: &mut ArrayString<512>)
    requires name { length name.now ≤ 6 }
    requires room { array_string_len out.old + 26 ≤ 512 }
    ensures text { out.new.bytes ≡ out.old.bytes ++ texts.named name.now number }
    ensures len { array_string_len out.new ≤ array_string_len out.old + 26 }
{
    if number != 0 {
        out.push_str(name);
        write_decimal(u64::from(number), out);
    }
}

/// Adds Traffic Class and attributes.
fn put_class(tlp: &TlpRef<'_>, out: &mut ArrayString<512>)
    requires { array_string_len out.old + 52 ≤ 512 }
    ensures text { out.new.bytes ≡ out.old.bytes ++ texts.class_text tlp.now.tc tlp.now.attr }
    ensures len { array_string_len out.new ≤ array_string_len out.old + 52 }
{
    put_named(" tc ", tlp.header.tc, out);
    put_named(" attr ", tlp.header.attr, out);
}

/// Adds Requester ID and tag.
fn put_id_and_tag(requester: u16, tag: u8, out: &mut ArrayString<512>)
    requires { array_string_len out.old + 11 ≤ 512 }
    ensures text { out.new.bytes ≡ out.old.bytes ++ texts.id_and_tag_text requester tag }
    ensures len { array_string_len out.new ≡ array_string_len out.old + 11 }
{
    put_id(requester, out);
    out.push_str(" tag ");
    write_octet(tag, out);
}

/// Adds Requester ID and tag of a TLP.
fn put_origin(tlp: &TlpRef<'_>, out: &mut ArrayString<512>)
    requires { array_string_len out.old + 11 ≤ 512 }
    ensures text { out.new.bytes ≡ out.old.bytes ++ texts.origin_text tlp.now }
    ensures len { array_string_len out.new ≡ array_string_len out.old + 11 }
{
    put_id_and_tag(tlp.header.requester, tlp.header.tag, out);
}

fn put_request(tlp: &TlpRef<'_>, op: &OpRef<'_>, out: &mut ArrayString<512>)
    requires { array_string_len out.old + 400 ≤ 512 }
    ensures text { out.new.bytes ≡ out.old.bytes ++ texts.request_text tlp.now op.now }
    ensures len { array_string_len out.new ≤ array_string_len out.old + 400 }
{
    write_op(op, out);
    out.push_str(" from ");
    put_origin(tlp, out);
    put_class(tlp, out);
}

fn put_status(status: Status, out: &mut ArrayString<512>)
    requires { array_string_len out.old + 2 ≤ 512 }
    ensures text { out.new.bytes ≡ out.old.bytes ++ texts.status_text status }
    ensures len { array_string_len out.new ≡ array_string_len out.old + 2 }
{
    out.push_str(match status {
        Status::Success => "sc",
        Status::Unsupported => "ur",
        Status::Aborted => "ca",
    });
}

/// Adds the data of a completion, where its kind has data.
fn put_data(tlp: &TlpRef<'_>, out: &mut ArrayString<512>)
    requires { array_string_len out.old + 257 ≤ 512 }
    ensures text { out.new.bytes ≡ out.old.bytes ++ texts.data_text tlp.now.kind tlp.now.payload }
    ensures len { array_string_len out.new ≤ array_string_len out.old + 257 }
{
    if let Kind::CompletionData = tlp.header.kind {
        out.push_str(" ");
        write_bytes(tlp.payload, out);
    }
}

/// Adds Completer ID, Byte Count and Lower Address.
fn put_completer(completer: u16, byte_count: u16, lower: u8, out: &mut ArrayString<512>)
    requires { array_string_len out.old + 44 ≤ 512 }
    ensures text { out.new.bytes ≡ out.old.bytes ++ texts.completer_text completer byte_count lower }
    ensures len { array_string_len out.new ≤ array_string_len out.old + 44 }
{
    out.push_str(" by ");
    put_id(completer, out);
    out.push_str(" count ");
    write_decimal(u64::from(byte_count), out);
    out.push_str(" lower ");
    write_octet(lower, out);
}

fn put_completion(tlp: &TlpRef<'_>, out: &mut ArrayString<512>)
    requires { array_string_len out.old + 400 ≤ 512 }
    ensures text { out.new.bytes ≡ out.old.bytes ++ texts.completion_text tlp.now tlp.now.body }
    ensures len { array_string_len out.new ≤ array_string_len out.old + 400 }
{
    let Body::Completion {
        completer,
        status,
        byte_count,
        lower,
    } = tlp.header.body
    else {
        return;
    };
    out.push_str("completion ");
    put_status(status, out);
    put_data(tlp, out);
    out.push_str(" to ");
    put_origin(tlp, out);
    put_completer(completer, byte_count, lower, out);
    put_class(tlp, out);
}

/// Adds the text of a TLP, at most 400 bytes.
fn put_tlp(tlp: &TlpRef<'_>, out: &mut ArrayString<512>)
    requires { array_string_len out.old + 400 ≤ 512 }
    ensures text { out.new.bytes ≡ out.old.bytes ++ texts.tlp_text tlp.now }
    ensures len { array_string_len out.new ≤ array_string_len out.old + 400 }
{
    match op_lent(tlp) {
        Some(op) => put_request(tlp, &op, out),
        None => put_completion(tlp, out),
    }
}

fn credits_name(class: Class) -> &'static str
    ensures text { result.now ≡ texts.credits_text class }
    ensures len { length result.now ≤ 3 }
{
    match class {
        Class::Posted => "p",
        Class::NonPosted => "np",
        Class::Completion => "cpl",
    }
}

fn put_update(class: Class, header: u8, units: u16, out: &mut ArrayString<512>)
    requires { array_string_len out.old + 52 ≤ 512 }
    ensures text { out.new.bytes ≡ out.old.bytes ++ texts.dllp_text (Dllp.Update class header units) }
    ensures len { array_string_len out.new ≤ array_string_len out.old + 52 }
{
    out.push_str("update ");
    out.push_str(credits_name(class));
    out.push_str(" ");
    write_decimal(u64::from(header), out);
    out.push_str(" ");
    write_decimal(u64::from(units), out);
}

fn put_dllp(dllp: Dllp, out: &mut ArrayString<512>)
    requires { array_string_len out.old + 52 ≤ 512 }
    ensures text { out.new.bytes ≡ out.old.bytes ++ texts.dllp_text dllp }
    ensures len { array_string_len out.new ≤ array_string_len out.old + 52 }
{
    match dllp {
        Dllp::Ack(number) => {
            out.push_str("ack ");
            write_sequence(number, out);
        }
        Dllp::Nak(number) => {
            out.push_str("nak ");
            write_sequence(number, out);
        }
        Dllp::Update(class, header, units) => put_update(class, header, units, out),
    }
}

fn put_access(request: &CfgRequest, out: &mut ArrayString<512>)
    requires { array_string_len out.old + 9 ≤ 512 }
    ensures text { out.new.bytes ≡ out.old.bytes ++ texts.access_text request.now.writes request.now.is_type_1 }
    ensures len { array_string_len out.new ≤ array_string_len out.old + 9 }
{
    out.push_str(match (request.writes, request.is_type_1) {
        (false, false) => "cfgread",
        (false, true) => "cfgread1",
        (true, false) => "cfgwrite",
        (true, true) => "cfgwrite1",
    });
}

/// Adds bus, device and function.
fn put_function(request: &CfgRequest, out: &mut ArrayString<512>)
    requires { array_string_len out.old + 50 ≤ 512 }
    ensures text { out.new.bytes ≡ out.old.bytes ++ texts.function_text request.now.bus request.now.device request.now.function }
    ensures len { array_string_len out.new ≤ array_string_len out.old + 50 }
{
    write_hexadecimal(u64::from(request.bus), out);
    out.push_str(":");
    write_hexadecimal(u64::from(request.device), out);
    out.push_str(".");
    write_hexadecimal(u64::from(request.function), out);
}

/// Adds a register's offset, of 12 bits, and First DW BE.
fn put_register(request: &CfgRequest, out: &mut ArrayString<512>)
    requires { array_string_len out.old + 20 ≤ 512 }
    ensures text { out.new.bytes ≡ out.old.bytes ++ texts.register_text request.now.register request.now.enables }
    ensures len { array_string_len out.new ≤ array_string_len out.old + 20 }
{
    write_sequence(Seq12::new(request.register % 4096), out);
    out.push_str(" ");
    write_hexadecimal(u64::from(request.enables), out);
}

/// Adds what a write writes.
fn put_written(request: &CfgRequest, out: &mut ArrayString<512>)
    requires { array_string_len out.old + 9 ≤ 512 }
    ensures text { out.new.bytes ≡ out.old.bytes ++ texts.written_text request.now.writes request.now.value }
    ensures len { array_string_len out.new ≤ array_string_len out.old + 9 }
{
    if request.writes {
        out.push_str(" ");
        write_bytes(&request.value.to_le_bytes(), out);
    }
}

/// Adds the text of a configuration request.
fn put_configuration(request: &CfgRequest, out: &mut ArrayString<512>)
    requires { array_string_len out.old + 400 ≤ 512 }
    ensures text { out.new.bytes ≡ out.old.bytes ++ texts.configuration_text request.now }
    ensures len { array_string_len out.new ≤ array_string_len out.old + 400 }
{
    put_access(request, out);
    out.push_str(" ");
    put_function(request, out);
    out.push_str(" ");
    put_register(request, out);
    put_written(request, out);
    out.push_str(" from ");
    put_id_and_tag(request.requester, request.tag, out);
}

/// Adds the text of the packet, at most 400 bytes.
pub fn write_packet(packet: &Packet, out: &mut ArrayString<512>)
    requires { array_string_len out.old + 400 ≤ 512 }
    ensures text { out.new.bytes ≡ out.old.bytes ++ texts.packet_text packet.now }
    ensures len { array_string_len out.new ≤ array_string_len out.old + 400 }
{
    match packet {
        Packet::Tlp(tlp) => put_tlp(&tlp.lend(), out),
        Packet::Configuration(request) => put_configuration(request, out),
        Packet::Dllp(dllp) => put_dllp(*dllp, out),
    }
}

/// Adds `fault`, a number and a name.
fn put_fault(number: u8, name: &str, out: &mut ArrayString<512>)
    requires name { length name.now ≤ 14 }
    requires room { array_string_len out.old + 41 ≤ 512 }
    ensures text { out.new.bytes ≡ out.old.bytes ++ texts.fault_text number name.now }
    ensures len { array_string_len out.new ≤ array_string_len out.old + 41 }
{
    out.push_str("fault ");
    write_decimal(u64::from(number), out);
    out.push_str(" ");
    out.push_str(name);
}

fn put_tlp_fault(fault: TlpFault, out: &mut ArrayString<512>)
    requires { array_string_len out.old + 41 ≤ 512 }
    ensures text { out.new.bytes ≡ out.old.bytes ++ texts.tlp_fault_text fault }
    ensures len { array_string_len out.new ≤ array_string_len out.old + 41 }
{
    put_fault(fault.number(), fault.name(), out);
}

fn put_configuration_fault(fault: CfgFault, out: &mut ArrayString<512>)
    requires { array_string_len out.old + 41 ≤ 512 }
    ensures text { out.new.bytes ≡ out.old.bytes ++ texts.configuration_fault_text fault }
    ensures len { array_string_len out.new ≤ array_string_len out.old + 41 }
{
    put_fault(configuration_number(fault), fault.name(), out);
}

fn put_dllp_fault(fault: DllpFault, out: &mut ArrayString<512>)
    requires { array_string_len out.old + 41 ≤ 512 }
    ensures text { out.new.bytes ≡ out.old.bytes ++ texts.dllp_fault_text fault }
    ensures len { array_string_len out.new ≤ array_string_len out.old + 41 }
{
    put_fault(fault.number(), fault.name(), out);
}

/// Adds `fault`, its number and its name, at most 41 bytes.
pub fn write_bytes_fault(fault: BytesFault, out: &mut ArrayString<512>)
    requires { array_string_len out.old + 41 ≤ 512 }
    ensures text { out.new.bytes ≡ out.old.bytes ++ texts.bytes_fault_text fault }
    ensures len { array_string_len out.new ≤ array_string_len out.old + 41 }
{
    match fault {
        BytesFault::Tlp(fault) => put_tlp_fault(fault, out),
        BytesFault::Configuration(fault) => put_configuration_fault(fault, out),
        BytesFault::Dllp(fault) => put_dllp_fault(fault, out),
    }
}

/// Adds what bytes of no kind of TLP are read as, at most 400 bytes, and says whether that is a packet.
fn put_other(bytes: &[u8], out: &mut ArrayString<512>) -> bool
    requires { array_string_len out.old + 400 ≤ 512 }
    ensures value { result ≡ is_ok (packets.of_other (configuration.reading bytes.now)) }
    ensures text { out.new.bytes ≡ out.old.bytes ++ texts.decoded_text (packets.of_other (configuration.reading bytes.now)) }
    ensures len { array_string_len out.new ≤ array_string_len out.old + 400 }
{
    match of_other(bytes) {
        Ok(packet) => {
            write_packet(&packet, out);
            true
        }
        Err(fault) => {
            write_bytes_fault(fault, out);
            false
        }
    }
}

/// Adds the text of the packet that the bytes spell, at most 400 bytes, or that of the first of their
/// faults, and says whether they spell one. Four bytes are read as a DLLP, and any other number as a
/// TLP or a configuration request, as [`decode`](crate::decode) does.
pub fn write_decoded(bytes: &[u8], out: &mut ArrayString<512>) -> bool
    requires { array_string_len out.old + 400 ≤ 512 }
    ensures value { result ≡ is_ok (packets.reading bytes.now) }
    ensures text { out.new.bytes ≡ out.old.bytes ++ texts.decoded_text (packets.reading bytes.now) }
    ensures len { array_string_len out.new ≤ array_string_len out.old + 400 }
{
    if bytes.len() == 4 {
        match dllp_core::decode(bytes) {
            Ok(dllp) => {
                put_dllp(dllp, out);
                true
            }
            Err(fault) => {
                put_dllp_fault(fault, out);
                false
            }
        }
    } else {
        match decode_lent(bytes) {
            Ok(tlp) => {
                put_tlp(&tlp, out);
                true
            }
            Err(TlpFault::Kind) => put_other(bytes, out),
            Err(fault) => {
                put_tlp_fault(fault, out);
                false
            }
        }
    }
}

/// Adds `fault words`, or `fault`, the packet's fault's number and name, at most 41 bytes.
pub fn write_text_fault(fault: TextFault, out: &mut ArrayString<512>)
    requires { array_string_len out.old + 41 ≤ 512 }
    ensures text { out.new.bytes ≡ out.old.bytes ++ texts.text_fault_text fault }
    ensures len { array_string_len out.new ≤ array_string_len out.old + 41 }
{
    match fault {
        TextFault::Words => out.push_str("fault words"),
        TextFault::Packet(fault) => put_tlp_fault(fault, out),
    }
}
