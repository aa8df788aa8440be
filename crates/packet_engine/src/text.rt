//! Texts of packets and of faults.
ghost use Rattle.std.specs.Prelude.{◌≡◌, ◌≤◌, ◌<◌, ◌+◌, ◌++◌, ◌∷◌, [], length};
ghost use Rattle.std.specs.Fmt.{decimal};
ghost use Rattle.arrayvec.specs.ArrayVec.{array_vec_len};
ghost use Rattle.hex.specs.Hex.{encode_upper};
ghost use Rattle.tlp_core.specs.Layout.{canonical};
ghost use Rattle.hex_text.specs.Line.{spaced};
ghost use Rattle.packet_engine.specs.Tlp.{fault_text};

use arrayvec::ArrayVec;
use hex_text::{HexText, write_both, write_bytes};
use tlp_core::{COMPLETION_HEADER, MAX_TLP, TlpFault, TlpRef, encode_lent, put_completion_header};

/// Adds the bytes.
fn put<const N: usize>(text: &mut ArrayVec<u8, N>, bytes: &[u8])
    requires { array_vec_len text.old + length bytes.now ≤ N }
    ensures items { text.new.items ≡ text.old.items ++ bytes.now }
    ensures len { array_vec_len text.new ≡ array_vec_len text.old + length bytes.now }
{
    let _ = text.try_extend_from_slice(bytes);
}

/// Writes the line of the packet's bytes, in capitals in groups of four, in place of what the text
/// was. What `room` holds counts for nothing.
#[inline(always)]
pub fn write_packet(packet: &TlpRef<'_>, room: &mut [u8; MAX_TLP], text: &mut HexText)
    ensures { text.new ≡ spaced (encode_upper (canonical packet.now)) ++ 10 ∷ [] }
{
    let mut header = [0; COMPLETION_HEADER];
    if put_completion_header(packet, &mut header) {
        write_both(&header, packet.payload, text);
        return;
    }
    let count = encode_lent(packet, room);
    write_bytes(&room[..count], text);
}

/// Adds a number below 100 in decimal.
#[tactic(auto, using(crate::proofs::TextLemmas::text_rules))]
fn put_number(number: u8, text: &mut ArrayVec<u8, 32>)
    requires small { number < 100 }
    requires room { array_vec_len text.old + 2 ≤ 32 }
    ensures items { text.new.items ≡ text.old.items ++ decimal number }
    ensures len { array_vec_len text.new ≤ array_vec_len text.old + 2 }
{
    if number < 10 {
        text.push(b'0' + number % 10);
        return;
    }
    text.push(b'0' + number / 10);
    text.push(b'0' + number % 10);
}

/// Adds the fault's number and name.
#[tactic(auto, using(crate::proofs::TextLemmas::text_rules))]
pub fn put_fault(fault: TlpFault, text: &mut ArrayVec<u8, 32>)
    requires { array_vec_len text.old ≡ 0 }
    ensures items { text.new.items ≡ text.old.items ++ fault_text fault }
    ensures len { array_vec_len text.new < 32 }
{
    put(text, b"fault ");
    put_number(fault.number(), text);
    put(text, b" ");
    put(text, fault.name().as_bytes());
}
