//! Packets in words.
ghost use Rattle.std.specs.Prelude.{◌≡◌, ◌≤◌, length, true};
ghost use Rattle.packet_text.specs.Packets.{FitsFields, canonical};
ghost use Rattle.packet_text.specs.Texts.{packet_text, bytes_fault_text, text_fault_text};
ghost use Rattle.c_buffer.specs.declared.outcome.Failure.TheVariants.{Text};
ghost use Rattle.c_buffer.specs.Buffer.{filled, is_silent};
ghost use Rattle.c_packets.specs.Words.{in_words, in_bytes};

use arrayvec::{ArrayString, ArrayVec};
use c_buffer::{Failure, LINE_BUFFER, Length, tell, tell_fault};
use packet_text::{
    BytesFault, Packet, TextFault, decode, encode, read_packet, write_bytes_fault, write_packet,
    write_text_fault,
};

fn put_packet(packet: &Packet, buffer: &mut [u8]) -> Length
    requires { 512 ≤ length buffer.old }
    ensures length { result ≡ length (packet_text packet.now) }
    ensures buffer { buffer.new ≡ filled buffer.old (packet_text packet.now) }
{
    let mut text = ArrayString::new();
    write_packet(packet, &mut text);
    tell(text.as_bytes(), buffer)
}

fn put_bytes(packet: &Packet, buffer: &mut [u8]) -> Length
    requires fits { FitsFields packet.now }
    requires buffer { 512 ≤ length buffer.old }
    ensures length { result ≡ length (canonical packet.now) }
    ensures buffer { buffer.new ≡ filled buffer.old (canonical packet.now) }
{
    let mut bytes = ArrayVec::new();
    encode(packet, &mut bytes);
    tell(&bytes, buffer)
}

fn put_bytes_fault(fault: BytesFault, buffer: &mut [u8]) -> Failure
    requires { 512 ≤ length buffer.old }
    ensures failure { result ≡ Text (length (bytes_fault_text fault)) }
    ensures buffer { buffer.new ≡ filled buffer.old (bytes_fault_text fault) }
{
    let mut text = ArrayString::new();
    write_bytes_fault(fault, &mut text);
    tell_fault(text.as_bytes(), buffer)
}

fn put_text_fault(fault: TextFault, buffer: &mut [u8]) -> Failure
    requires { 512 ≤ length buffer.old }
    ensures failure { result ≡ Text (length (text_fault_text fault)) }
    ensures buffer { buffer.new ≡ filled buffer.old (text_fault_text fault) }
{
    let mut text = ArrayString::new();
    write_text_fault(fault, &mut text);
    tell_fault(text.as_bytes(), buffer)
}

/// Puts the words of a TLP or, of four bytes, a DLLP to the front of `buffer`, as `pciex decode`
/// writes them, and returns how many bytes they have. If the bytes have a fault, its text stands
/// there. `SmallBuffer` for fewer than 512 bytes, and then the buffer stays as it was.
pub fn tell_packet(bytes: &[u8], buffer: &mut [u8]) -> Result<Length, Failure>
    ensures outcome { result ≡ (in_words bytes.now buffer.old).outcome }
    ensures buffer { buffer.new ≡ (in_words bytes.now buffer.old).buffer }
    ensures unchanged { is_silent result ≡ true → buffer.new ≡ buffer.old }
{
    if buffer.len() < LINE_BUFFER {
        return Err(Failure::SmallBuffer);
    }
    match decode(bytes) {
        Ok(packet) => Ok(put_packet(&packet, buffer)),
        Err(fault) => Err(put_bytes_fault(fault, buffer)),
    }
}

/// Puts the canonical bytes of the packet that the line spells to the front of `buffer`, as `pciex
/// encode` writes them in digits, and returns how many they are. If the line has a fault, its text
/// stands there. `SmallBuffer` for fewer than 512 bytes, and then the buffer stays as it was.
pub fn tell_bytes(line: &[u8], buffer: &mut [u8]) -> Result<Length, Failure>
    ensures outcome { result ≡ (in_bytes line.now buffer.old).outcome }
    ensures buffer { buffer.new ≡ (in_bytes line.now buffer.old).buffer }
    ensures unchanged { is_silent result ≡ true → buffer.new ≡ buffer.old }
{
    if buffer.len() < LINE_BUFFER {
        return Err(Failure::SmallBuffer);
    }
    match read_packet(line) {
        Ok(packet) => Ok(put_bytes(&packet, buffer)),
        Err(fault) => Err(put_text_fault(fault, buffer)),
    }
}
