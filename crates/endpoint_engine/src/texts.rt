//! The texts of answers.
ghost use Rattle.std.specs.Prelude.{◌≡◌, ◌++◌, ◌∷◌, [], codes, IfOk, OnOk, OnErr};
ghost use Rattle.hex.specs.Hex.{encode_upper};
ghost use Rattle.tlp_core.specs.Layout.{canonical};
ghost use Rattle.hex_text.specs.Line.{spaced};
ghost use Rattle.endpoint_engine.specs.Texts as spec;

use endpoint_core::{Handled, Malformed};
use hex_text::{HexText, write_both, write_bytes};
use line_loop::Verdict;
use std::alloc::AllocError;
use tlp_core::{COMPLETION_HEADER, MAX_TLP, TlpRef, encode_lent, put_completion_header};

/// Adds the line of a fault.
pub fn no_line(out: &mut Vec<u8>) -> Result<Verdict, AllocError>
    ensures ok { IfOk result (λ verdict. (verdict ≡ Verdict.Fault) × (out.new.items ≡ out.old.items ++ codes "fault Line\n")) }
    ensures err { OnErr result (out.new.items ≡ out.old.items) }
{
    out.extend_from_slice(b"fault Line\n")?;
    Ok(Verdict::Fault)
}

/// Adds both texts, or nothing.
#[inline(always)]
fn put(first: &[u8], second: &[u8], out: &mut Vec<u8>) -> Result<(), AllocError>
    ensures ok { OnOk result (out.new.items ≡ out.old.items ++ (first.now ++ second.now)) }
    ensures err { OnErr result (out.new.items ≡ out.old.items) }
{
    let before = out.len();
    out.extend_from_slice(first)?;
    if out.extend_from_slice(second).is_err() {
        out.truncate(before);
        return Err(AllocError);
    }
    Ok(())
}

/// The name of what makes a TLP malformed.
fn malformed_name(malformed: Malformed) -> &'static str
    ensures { result.now ≡ spec.malformed_name malformed }
{
    match malformed {
        Malformed::Packet(fault) => fault.name(),
        Malformed::Configuration(fault) => fault.name(),
        Malformed::Boundary => "Boundary",
    }
}

/// Adds both texts and a line feed, or nothing.
fn put_line(first: &[u8], second: &[u8], out: &mut Vec<u8>) -> Result<(), AllocError>
    ensures ok { OnOk result (out.new.items ≡ out.old.items ++ ((first.now ++ second.now) ++ 10 ∷ [])) }
    ensures err { OnErr result (out.new.items ≡ out.old.items) }
{
    let before = out.len();
    put(first, second, out)?;
    if out.extend_from_slice(b"\n").is_err() {
        out.truncate(before);
        return Err(AllocError);
    }
    Ok(())
}

/// Adds the line that says that a TLP is malformed.
fn put_malformed(malformed: Malformed, out: &mut Vec<u8>) -> Result<(), AllocError>
    ensures ok { OnOk result (out.new.items ≡ out.old.items ++ (spec.handled_text (Handled.Malformed malformed) ++ 10 ∷ [])) }
    ensures err { OnErr result (out.new.items ≡ out.old.items) }
{
    put_line(
        b"accept Malformed ",
        malformed_name(malformed).as_bytes(),
        out,
    )
}

/// Adds the line that says what became of a TLP.
pub fn put_handled(handled: Handled, out: &mut Vec<u8>) -> Result<(), AllocError>
    ensures ok { OnOk result (out.new.items ≡ out.old.items ++ (spec.handled_text handled ++ 10 ∷ [])) }
    ensures err { OnErr result (out.new.items ≡ out.old.items) }
{
    match handled {
        Handled::Waits | Handled::Done => out.extend_from_slice(b"accept\n"),
        Handled::Ignored => out.extend_from_slice(b"accept Ignored\n"),
        Handled::Unsupported => out.extend_from_slice(b"accept Unsupported\n"),
        Handled::Unexpected => out.extend_from_slice(b"accept Unexpected\n"),
        Handled::Malformed(malformed) => put_malformed(malformed, out),
    }
}

/// Writes the line of the packet's bytes, in capitals in groups of four, in place of what the text was. What the room holds
/// counts for nothing.
#[inline(always)]
fn write_packet(packet: &TlpRef<'_>, room: &mut [u8; MAX_TLP], text: &mut HexText)
    ensures { text.new ≡ spaced (encode_upper (canonical packet.now)) ++ 10 ∷ [] }
{
    let mut header = [0; COMPLETION_HEADER];
    if put_completion_header(packet, &mut header) {
        write_both(&header, packet.payload, text);
        return;
    }
    let count = encode_lent(packet, room);
    write_bytes(&room[..count], text);
}

/// Adds the line of a completion, or `-` for none. What the room and the text hold counts for nothing.
#[inline(always)]
pub(crate) fn put_completion(
    completion: &Option<TlpRef<'_>>,
    room: &mut [u8; MAX_TLP],
    text: &mut HexText,
    out: &mut Vec<u8>,
) -> Result<(), AllocError>
    ensures ok { OnOk result (out.new.items ≡ out.old.items ++ (spec.completion_text completion.now ++ 10 ∷ [])) }
    ensures err { OnErr result (out.new.items ≡ out.old.items) }
{
    let Some(completion) = completion else {
        return out.extend_from_slice(b"-\n");
    };
    write_packet(completion, room, text);
    put(b"tlp ", text.as_slice(), out)
}
