//! The texts of answers.
ghost use Rattle.std.specs.Prelude.{◌≡◌, ◌≤◌, ◌+◌, ◌*◌, ◌++◌, ◌∷◌, [], if◌then◌else◌, true, length, codes, vec_len, vec_capacity, OnOk, OnErr};
ghost use Rattle.std.specs.Fmt.{decimal};
ghost use Rattle.std.specs.Int.{w32, to_be_bytes};
ghost use Rattle.arrayvec.specs.ArrayString.{array_string_len};
ghost use Rattle.hex.specs.Hex.{encode_upper};
ghost use Rattle.hex_text.specs.Line.{spaced};
ghost use Rattle.link_crc.specs.Crc.{lcrc_of};
ghost use Rattle.operation_text.specs.Texts.{sequence_text};
ghost use Rattle.port_core.specs.Refusals.{dllp_name};
ghost use Rattle.linked_engine.specs.Texts as spec;

use arrayvec::ArrayString;
use endpoint_engine::put_handled;
use hex_text::{HexText, pair_of, write_bytes};
use link_crc::{dllp_crc, lcrc};
use linked_endpoint::{Arrived, LinkedEndpoint};
use operation_text::{write_decimal, write_sequence};
use port_core::{DllpReceived, DllpRefusal, LinkPort, LinkState, Outgoing, OutgoingEnd};
use seq12::Seq12;
use std::alloc::AllocError;

/// A line's text, before it is added as a whole.
type Text = ArrayString<512>;

/// Adds a line of this text.
fn put_text(text: &mut Text, out: &mut Vec<u8>) -> Result<(), AllocError>
    requires { array_string_len text.old + 1 ≤ 512 }
    ensures ok { OnOk result (out.new.items ≡ out.old.items ++ (text.old.bytes ++ 10 ∷ [])) }
    ensures err { OnErr result (out.new.items ≡ out.old.items) }
{
    text.push_str("\n");
    out.extend_from_slice(text.as_str().as_bytes())
}

/// Adds both texts and a line feed, or nothing.
fn put_line(first: &[u8], second: &[u8], out: &mut Vec<u8>) -> Result<(), AllocError>
    requires { length first.now + length second.now + 1 ≤ 512 }
    ensures ok { OnOk result (out.new.items ≡ out.old.items ++ ((first.now ++ second.now) ++ 10 ∷ [])) }
    ensures err { OnErr result (out.new.items ≡ out.old.items) }
{
    out.reserve(first.len() + second.len() + 1)?;
    put(first, out);
    put(second, out);
    put(b"\n", out);
    Ok(())
}

/// Adds a line of this word.
pub(crate) fn put_word(word: &str, out: &mut Vec<u8>) -> Result<(), AllocError>
    requires { length word.now + 1 ≤ 512 }
    ensures ok { OnOk result (out.new.items ≡ out.old.items ++ (word.now ++ 10 ∷ [])) }
    ensures err { OnErr result (out.new.items ≡ out.old.items) }
{
    put_line(word.as_bytes(), b"", out)
}

/// Adds the line that says what became of a packet.
pub(crate) fn put_arrived(arrived: Arrived, out: &mut Vec<u8>) -> Result<(), AllocError>
    ensures ok { OnOk result (out.new.items ≡ out.old.items ++ (spec.arrived_text arrived ++ 10 ∷ [])) }
    ensures err { OnErr result (out.new.items ≡ out.old.items) }
{
    match arrived {
        Arrived::Dropped => put_word("drop", out),
        Arrived::Duplicate => put_word("duplicate", out),
        Arrived::NakNow => put_word("nak", out),
        Arrived::Quiet => put_word("quiet", out),
        Arrived::Overflow => put_word("accept Overflow", out),
        Arrived::Accepted(handled) => put_handled(handled, out),
    }
}

/// The name of a refusal, which is short.
fn name_of(refusal: DllpRefusal) -> &'static str
    ensures name { result.now ≡ dllp_name refusal }
    ensures short { length result.now ≤ 20 }
{
    refusal.name()
}

/// Adds the line that says what became of a DLLP.
pub(crate) fn put_heard(
    heard: Result<DllpReceived, DllpRefusal>,
    out: &mut Vec<u8>,
) -> Result<(), AllocError>
    ensures ok { OnOk result (out.new.items ≡ out.old.items ++ (spec.heard_text heard ++ 10 ∷ [])) }
    ensures err { OnErr result (out.new.items ≡ out.old.items) }
{
    match heard {
        Ok(DllpReceived::Took) => out.extend_from_slice(b"took\n"),
        Ok(DllpReceived::Gone) => put_word("gone", out),
        Err(refusal) => put_line(b"error ", name_of(refusal).as_bytes(), out),
    }
}

/// Adds the bytes, for which there is room.
#[inline(always)]
fn put(bytes: &[u8], out: &mut Vec<u8>)
    requires { vec_len out.old + length bytes.now ≤ vec_capacity out.old }
    ensures items { out.new.items ≡ out.old.items ++ bytes.now }
    ensures len { vec_len out.new ≡ vec_len out.old + length bytes.now }
    ensures room { vec_capacity out.old ≤ vec_capacity out.new }
{
    let _ = out.extend_from_slice(bytes);
}

/// Adds the digits of the bytes in groups of four, with a space between each two groups.
#[tactic(auto, using(crate::proofs::Groups::length_of_groups, crate::proofs::Groups::without_line_feed))]
fn put_groups(bytes: &[u8], text: &mut HexText, out: &mut Vec<u8>)
    requires few { length bytes.now ≤ 144 }
    requires room { vec_len out.old + 3 * length bytes.now ≤ vec_capacity out.old }
    ensures items { out.new.items ≡ out.old.items ++ spaced (encode_upper bytes.now) }
    ensures len { vec_len out.new ≤ vec_len out.old + 3 * length bytes.now }
    ensures room { vec_capacity out.old ≤ vec_capacity out.new }
{
    write_bytes(bytes, text);
    let line = text.as_slice();
    put(&line[..line.len() - 1], out);
}

/// Adds the same and a line feed.
fn end_in_groups(bytes: &[u8], text: &mut HexText, out: &mut Vec<u8>)
    requires few { length bytes.now ≤ 144 }
    requires room { vec_len out.old + 3 * length bytes.now + 1 ≤ vec_capacity out.old }
    ensures { out.new.items ≡ out.old.items ++ (spaced (encode_upper bytes.now) ++ 10 ∷ []) }
{
    write_bytes(bytes, text);
    put(text.as_slice(), out);
}

/// Adds the digits of at most four bytes.
#[tactic(auto, using(crate::proofs::Groups::last_group))]
fn put_group(bytes: &[u8], text: &mut HexText, out: &mut Vec<u8>)
    requires few { length bytes.now ≤ 4 }
    requires room { vec_len out.old + 3 * length bytes.now ≤ vec_capacity out.old }
    ensures items { out.new.items ≡ out.old.items ++ encode_upper bytes.now }
    ensures len { vec_len out.new ≤ vec_len out.old + 3 * length bytes.now }
    ensures room { vec_capacity out.old ≤ vec_capacity out.new }
{
    put_groups(bytes, text, out);
}

/// Adds the digits of the bytes.
fn put_digits(bytes: &[u8], text: &mut HexText, out: &mut Vec<u8>)
    requires { vec_len out.old + 3 * length bytes.now ≤ vec_capacity out.old }
    ensures items { out.new.items ≡ out.old.items ++ encode_upper bytes.now }
    ensures len { vec_len out.new ≤ vec_len out.old + 3 * length bytes.now }
    ensures room { vec_capacity out.old ≤ vec_capacity out.new }
{
    if bytes.len() <= 4 {
        put_group(bytes, text, out);
        return;
    }
    put_group(&bytes[..4], text, out);
    put_digits(&bytes[4..], text, out);
}

/// Adds the digits of at most four bytes and a line feed.
#[tactic(auto, using(crate::proofs::Groups::last_group))]
fn end_in_group(bytes: &[u8], text: &mut HexText, out: &mut Vec<u8>)
    requires few { length bytes.now ≤ 4 }
    requires room { vec_len out.old + 13 ≤ vec_capacity out.old }
    ensures { out.new.items ≡ out.old.items ++ (encode_upper bytes.now ++ 10 ∷ []) }
{
    end_in_groups(bytes, text, out);
}

/// Adds a space, the digits of a CRC of at most four bytes, and a line feed.
fn end_in_crc(crc: &[u8], text: &mut HexText, out: &mut Vec<u8>)
    requires few { length crc.now ≤ 4 }
    requires room { vec_len out.old + 14 ≤ vec_capacity out.old }
    ensures { out.new.items ≡ out.old.items ++ (spec.crc_text true crc.now ++ 10 ∷ []) }
{
    put(b" ", out);
    end_in_group(crc, text, out);
}

/// Adds the digits of a sequence number's two bytes, or of others that are at most four.
fn put_pairs(number: &[u8], text: &mut HexText, out: &mut Vec<u8>)
    requires few { length number.now ≤ 4 }
    requires room { vec_len out.old + 3 * length number.now ≤ vec_capacity out.old }
    ensures items { out.new.items ≡ out.old.items ++ encode_upper number.now }
    ensures len { vec_len out.new ≤ vec_len out.old + 3 * length number.now }
    ensures room { vec_capacity out.old ≤ vec_capacity out.new }
{
    if number.len() != 2 {
        put_group(number, text, out);
        return;
    }
    put(pair_of(number[0]).as_bytes(), out);
    put(pair_of(number[1]).as_bytes(), out);
}

/// Adds what stands before the TLP in a packet's line: a word, and the sequence number's two bytes.
fn put_front(number: &[u8], text: &mut HexText, out: &mut Vec<u8>)
    requires few { length number.now ≤ 4 }
    requires room { vec_len out.old + 20 ≤ vec_capacity out.old }
    ensures items { out.new.items ≡ out.old.items ++ ((codes "packet " ++ encode_upper number.now) ++ 32 ∷ []) }
    ensures len { vec_len out.new ≤ vec_len out.old + 20 }
    ensures room { vec_capacity out.old ≤ vec_capacity out.new }
{
    put(b"packet ", out);
    put_pairs(number, text, out);
    put(b" ", out);
}

/// Adds the TLP of a packet that is sent, the packet's LCRC if the lines have CRCs, and a line feed.
fn end_in_tlp(has_crc: bool, packet: &[u8], tlp: &[u8], text: &mut HexText, out: &mut Vec<u8>)
    requires few { length tlp.now ≤ 144 }
    requires room { vec_len out.old + 446 ≤ vec_capacity out.old }
    ensures { out.new.items ≡ out.old.items ++ ((spaced (encode_upper tlp.now) ++ spec.crc_text has_crc (to_be_bytes w32 (lcrc_of packet.now))) ++ 10 ∷ []) }
{
    if has_crc {
        put_groups(tlp, text, out);
        end_in_crc(&lcrc(packet).to_be_bytes(), text, out);
    } else {
        end_in_groups(tlp, text, out);
    }
}

/// Adds the line of a packet that is sent.
fn put_sent_packet(
    has_crc: bool,
    bytes: &[u8],
    text: &mut HexText,
    out: &mut Vec<u8>,
) -> Result<(), AllocError>
    requires { length bytes.now ≤ 146 }
    ensures ok { OnOk result (out.new.items ≡ out.old.items ++ (spec.packet_text has_crc bytes.now ++ 10 ∷ [])) }
    ensures err { OnErr result (out.new.items ≡ out.old.items) }
{
    out.reserve(512)?;
    let number = bytes.len().min(2);
    put_front(&bytes[..number], text, out);
    end_in_tlp(has_crc, bytes, &bytes[number..], text, out);
    Ok(())
}

/// Adds a space, the digits of a DLLP's CRC, and a line feed.
fn end_in_dllp_crc(dllp: &[u8], text: &mut HexText, out: &mut Vec<u8>)
    requires { vec_len out.old + 14 ≤ vec_capacity out.old }
    ensures { out.new.items ≡ out.old.items ++ (spec.crc_text true (spec.dllp_crc_bytes dllp.now) ++ 10 ∷ []) }
{
    if dllp.len() != 4 {
        return end_in_crc(&[], text, out);
    }
    let crc = dllp_crc([dllp[0], dllp[1], dllp[2], dllp[3]]);
    end_in_crc(&crc.to_be_bytes(), text, out);
}

/// Adds a DLLP's CRC, if the lines have CRCs, and a line feed.
fn end_dllp(has_crc: bool, dllp: &[u8], text: &mut HexText, out: &mut Vec<u8>)
    requires { vec_len out.old + 14 ≤ vec_capacity out.old }
    ensures { out.new.items ≡ out.old.items ++ (spec.crc_text has_crc (spec.dllp_crc_bytes dllp.now) ++ 10 ∷ []) }
{
    if has_crc {
        end_in_dllp_crc(dllp, text, out);
    } else {
        put(b"\n", out);
    }
}

/// Adds the line of a DLLP that is sent.
fn put_sent_dllp(
    has_crc: bool,
    bytes: &[u8],
    text: &mut HexText,
    out: &mut Vec<u8>,
) -> Result<(), AllocError>
    requires { length bytes.now ≤ 146 }
    ensures ok { OnOk result (out.new.items ≡ out.old.items ++ (spec.dllp_text has_crc bytes.now ++ 10 ∷ [])) }
    ensures err { OnErr result (out.new.items ≡ out.old.items) }
{
    out.reserve(512)?;
    put(b"dllp ", out);
    if !has_crc && bytes.len() <= 4 {
        end_in_group(bytes, text, out);
        return Ok(());
    }
    put_digits(bytes, text, out);
    end_dllp(has_crc, bytes, text, out);
    Ok(())
}

/// Adds the line of what is sent next. What the text holds counts for nothing.
pub(crate) fn put_sent(
    has_crc: bool,
    sent: Outgoing,
    bytes: &[u8],
    text: &mut HexText,
    out: &mut Vec<u8>,
) -> Result<(), AllocError>
    requires { length bytes.now ≤ 146 }
    ensures ok { OnOk result (out.new.items ≡ out.old.items ++ (spec.sent_text has_crc sent bytes.now ++ 10 ∷ [])) }
    ensures err { OnErr result (out.new.items ≡ out.old.items) }
{
    match sent {
        Outgoing::Nothing => out.extend_from_slice(b"-\n"),
        Outgoing::Dllp(_) => put_sent_dllp(has_crc, bytes, text, out),
        Outgoing::Packet(_) => put_sent_packet(has_crc, bytes, text, out),
    }
}

/// Adds the line that says by how many packets a replay moved back, or that the link waits to be retrained.
pub(crate) fn put_replay(stopped: bool, moved: usize, out: &mut Vec<u8>) -> Result<(), AllocError>
    ensures ok { OnOk result (out.new.items ≡ out.old.items ++ (spec.replay_text stopped moved ++ 10 ∷ [])) }
    ensures err { OnErr result (out.new.items ≡ out.old.items) }
{
    if stopped {
        return put_word("retrain", out);
    }
    let mut text = Text::new();
    put_count("replay ", moved, &mut text);
    put_text(&mut text, out)
}

/// Adds a label and a number.
fn put_count(label: &str, count: usize, text: &mut Text)
    requires { array_string_len text.old + length label.now + 20 ≤ 512 }
    ensures text { text.new.bytes ≡ text.old.bytes ++ (label.now ++ decimal count) }
    ensures len { array_string_len text.new ≤ array_string_len text.old + length label.now + 20 }
{
    text.push_str(label);
    write_decimal(count as u64, text);
}

/// Adds a label and a sequence number.
fn put_number(label: &str, number: Seq12, text: &mut Text)
    requires { array_string_len text.old + length label.now + 3 ≤ 512 }
    ensures text { text.new.bytes ≡ text.old.bytes ++ (label.now ++ sequence_text number) }
    ensures len { array_string_len text.new ≡ array_string_len text.old + length label.now + 3 }
{
    text.push_str(label);
    write_sequence(number, text);
}

/// The state of the link.
fn condition(port: &LinkPort) -> &'static str
    ensures word { result.now ≡ spec.condition port.now.state port.now.sender.sending.stopped }
    ensures short { length result.now ≤ 8 }
{
    match port.state() {
        LinkState::Inactive => "inactive",
        LinkState::Init1 => "init1",
        LinkState::Init2 => "init2",
        LinkState::Active if port.sender().sending().stopped() => "stopped",
        LinkState::Active => "active",
    }
}

/// Adds what the sender is at.
fn put_sender(sender: &OutgoingEnd, text: &mut Text)
    requires { array_string_len text.old ≤ 30 }
    ensures text { text.new.bytes ≡ text.old.bytes ++ spec.sender_text sender.now }
    ensures len { array_string_len text.new ≤ 80 }
{
    let sending = sender.sending();
    put_number(" sends ", sending.next_transmit_seq(), text);
    put_count(" unacknowledged ", sending.len(), text);
}

/// Adds the link's state, and the number that it expects.
fn put_condition(port: &LinkPort, text: &mut Text)
    requires { array_string_len text.old ≡ 0 }
    ensures text { text.new.bytes ≡ text.old.bytes ++ spec.condition_text port.now }
    ensures len { array_string_len text.new ≤ 30 }
{
    text.push_str(condition(port));
    put_number(" expects ", port.incoming().next_rcv_seq(), text);
}

/// Adds the line of a device's and its link's state.
pub(crate) fn put_state(linked: &LinkedEndpoint, out: &mut Vec<u8>) -> Result<(), AllocError>
    ensures ok { OnOk result (out.new.items ≡ out.old.items ++ (spec.state_text linked.now ++ 10 ∷ [])) }
    ensures err { OnErr result (out.new.items ≡ out.old.items) }
{
    let mut text = Text::new();
    put_condition(linked.port(), &mut text);
    put_sender(linked.port().sender(), &mut text);
    put_count(" waiting ", linked.endpoint().waiting(), &mut text);
    put_text(&mut text, out)
}
