//! Lines that are written.
ghost use Rattle.std.specs.Prelude.{◌≡◌, ◌++◌, ◌∷◌, [], IfOk, OnErr};
ghost use Rattle.packet_text.specs.Packets.{FitsFields, reading};
ghost use Rattle.packet_text.specs.Texts.{text_fault_text};
ghost use Rattle.line_loop.specs.Run.{IsAnswer};
ghost use Rattle.packet_engine.specs.Lines.{bytes_text, decode_reading};

use arrayvec::{ArrayString, ArrayVec};
use hex_text::{HexText, write_bytes};
use line_loop::Verdict;
use packet_text::{Packet, TextFault, encode, write_decoded, write_text_fault};
use std::alloc::AllocError;

/// Adds a line that tells a fault.
pub(crate) fn tell(text: &[u8], out: &mut Vec<u8>) -> Result<Verdict, AllocError>
    ensures ok { IfOk result (λ verdict. (verdict ≡ Verdict.Fault) × (out.new.items ≡ out.old.items ++ text.now)) }
    ensures err { OnErr result (out.new.items ≡ out.old.items) }
{
    out.extend_from_slice(text)?;
    Ok(Verdict::Fault)
}

/// Adds the line of a fault of words.
pub(crate) fn tell_text_fault(fault: TextFault, out: &mut Vec<u8>) -> Result<Verdict, AllocError>
    ensures ok { IfOk result (λ verdict. (verdict ≡ Verdict.Fault) × (out.new.items ≡ out.old.items ++ (text_fault_text fault ++ 10 ∷ []))) }
    ensures err { OnErr result (out.new.items ≡ out.old.items) }
{
    let mut text = ArrayString::new();
    write_text_fault(fault, &mut text);
    text.push_str("\n");
    tell(text.as_bytes(), out)
}

/// Adds the line of what the bytes are read as: the text of a packet, or a fault. What `text` holds
/// does not count.
#[tactic(auto, using(crate::proofs::RunLemmas::decode_answer))]
pub(crate) fn tell_decoded(
    bytes: &[u8],
    text: &mut ArrayString<512>,
    out: &mut Vec<u8>,
) -> Result<Verdict, AllocError>
    ensures ok { IfOk result (λ verdict. IsAnswer tt out.old.items out.new.items verdict (decode_reading (reading bytes.now))) }
    ensures err { OnErr result (out.new.items ≡ out.old.items) }
{
    text.clear();
    let is_packet = write_decoded(bytes, text);
    text.push_str("\n");
    out.extend_from_slice(text.as_bytes())?;
    Ok(if is_packet {
        Verdict::Fine
    } else {
        Verdict::Fault
    })
}

/// Adds the line of the packet's canonical bytes.
pub(crate) fn tell_bytes(packet: &Packet, out: &mut Vec<u8>) -> Result<Verdict, AllocError>
    requires { FitsFields packet.now }
    ensures ok { IfOk result (λ verdict. (verdict ≡ Verdict.Fine) × (out.new.items ≡ out.old.items ++ (bytes_text packet.now ++ 10 ∷ []))) }
    ensures err { OnErr result (out.new.items ≡ out.old.items) }
{
    let mut bytes = ArrayVec::new();
    encode(packet, &mut bytes);
    let mut text = HexText::new();
    write_bytes(bytes.as_slice(), &mut text);
    out.extend_from_slice(text.as_slice())?;
    Ok(Verdict::Fine)
}
