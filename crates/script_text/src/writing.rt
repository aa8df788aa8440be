//! Writing what is seen of an event.
ghost use Rattle.std.specs.Prelude.{◌≡◌, ◌≤◌, ◌<◌, ◌+◌, ◌/◌, ◌%◌, ◌++◌, length};
ghost use Rattle.std.specs.Fmt.{decimal};
ghost use Rattle.arrayvec.specs.ArrayString.{array_string_len};
ghost use Rattle.script_text.specs.Texts.{in_field, dllp_text, arrival_text, dllp_seen_text, port_of, seen_text, told_text, settled_text};

use arrayvec::ArrayString;
use dllp_core::{Dllp, encode};
use fabric_core::{EventRef, SeenRef};
use history_words::Record;
use lane_core::{Arrival, DllpSeen};
use link_replay::Reception;
use operation_text::{write_bytes, write_decimal, write_reply, write_sequence};

/// The DLLP with data credits below 4096.
fn fitted(dllp: Dllp) -> Dllp
    ensures { result ≡ in_field dllp }
{
    match dllp {
        Dllp::Ack(number) => Dllp::Ack(number),
        Dllp::Nak(number) => Dllp::Nak(number),
        Dllp::Update(class, header, data) => Dllp::Update(class, header, data % 4096),
    }
}

/// Adds the four bytes of a DLLP.
fn put_dllp(dllp: Dllp, out: &mut ArrayString<512>)
    requires { array_string_len out.old + 8 ≤ 512 }
    ensures text { out.new.bytes ≡ out.old.bytes ++ dllp_text dllp }
    ensures len { array_string_len out.new ≡ array_string_len out.old + 8 }
{
    write_bytes(&encode(&fitted(dllp)), out);
}

/// Adds what became of a packet.
fn put_arrival(arrival: Arrival, out: &mut ArrayString<512>)
    requires { array_string_len out.old + 9 ≤ 512 }
    ensures text { out.new.bytes ≡ out.old.bytes ++ arrival_text arrival }
    ensures len { array_string_len out.new ≤ array_string_len out.old + 9 }
{
    out.push_str(match arrival {
        Arrival::Answered(Reception::Accept) => "accept",
        Arrival::Answered(Reception::Duplicate) => "duplicate",
        Arrival::Answered(Reception::NakNow) => "nak",
        Arrival::Answered(Reception::Quiet) => "quiet",
        Arrival::Gone => "gone",
    });
}

/// Adds what became of a DLLP.
fn put_dllp_seen(seen: DllpSeen, out: &mut ArrayString<512>)
    requires { array_string_len out.old + 13 ≤ 512 }
    ensures text { out.new.bytes ≡ out.old.bytes ++ dllp_seen_text seen }
    ensures len { array_string_len out.new ≤ array_string_len out.old + 13 }
{
    match seen {
        DllpSeen::Took(dllp) => {
            out.push_str("took ");
            put_dllp(dllp, out);
        }
        DllpSeen::Gone => out.push_str("gone"),
    }
}

/// Adds a word and a number.
pub(crate) fn put_number(word: &str, number: u64, out: &mut ArrayString<512>)
    requires word { length word.now ≤ 8 }
    requires room { array_string_len out.old + 28 ≤ 512 }
    ensures text { out.new.bytes ≡ out.old.bytes ++ (word.now ++ decimal number) }
    ensures len { array_string_len out.new ≤ array_string_len out.old + 28 }
{
    out.push_str(word);
    write_decimal(number, out);
}

/// The port of the requester that the event names.
#[inline(always)]
fn port(event: &EventRef<'_>) -> u8
    ensures { result ≡ port_of event.now }
{
    match event {
        EventRef::Submit(port, _) | EventRef::Collect(port) => *port,
        _ => 0,
    }
}

/// Adds what is seen of the event, at most 320 bytes. Of the event only the port of its requester
/// counts.
pub fn write_seen(event: &EventRef<'_>, seen: &SeenRef<'_>, out: &mut ArrayString<512>)
    requires { array_string_len out.old + 320 ≤ 512 }
    ensures text { out.new.bytes ≡ out.old.bytes ++ seen_text event.now seen.now }
    ensures len { array_string_len out.new ≤ array_string_len out.old + 320 }
{
    match seen {
        SeenRef::Submitted(number) => {
            put_number("sub ", u64::from(port(event)), out);
            put_number(" ", u64::from(*number), out);
        }
        SeenRef::Sent(number) => {
            out.push_str("sent ");
            write_sequence(*number, out);
        }
        SeenRef::Delivered(arrival) => put_arrival(*arrival, out),
        SeenRef::SentDllp(dllp) => put_dllp(*dllp, out),
        SeenRef::SeenDllp(seen) => put_dllp_seen(*seen, out),
        SeenRef::Back(places) => put_number("replay ", *places as u64, out),
        SeenRef::Retrained => out.push_str("retrained"),
        SeenRef::To(port) => put_number("to ", u64::from(*port), out),
        SeenRef::At(index) => put_number("at ", *index as u64, out),
        SeenRef::Collected(answer) => {
            put_number("ans ", u64::from(port(event)), out);
            put_number(" ", u64::from(answer.number), out);
            out.push_str(" ");
            write_reply(&answer.reply, out);
        }
    }
}

/// Adds what was seen of the event of a record, at most 320 bytes.
pub fn write_told(told: &Record, out: &mut ArrayString<512>)
    requires { array_string_len out.old + 320 ≤ 512 }
    ensures text { out.new.bytes ≡ out.old.bytes ++ told_text told.now }
    ensures len { array_string_len out.new ≤ array_string_len out.old + 320 }
{
    match told {
        Record::Sub {
            requester,
            number,
            ..
        } => {
            put_number("sub ", u64::from(*requester), out);
            put_number(" ", u64::from(*number), out);
        }
        Record::Ans {
            requester,
            number,
            reply,
            ..
        } => {
            put_number("ans ", u64::from(*requester), out);
            put_number(" ", u64::from(*number), out);
            out.push_str(" ");
            write_reply(&reply.lend(), out);
        }
    }
}

/// Adds that a fabric came to rest, 7 bytes.
pub fn write_settled(out: &mut ArrayString<512>)
    requires { array_string_len out.old + 7 ≤ 512 }
    ensures text { out.new.bytes ≡ out.old.bytes ++ settled_text }
    ensures len { array_string_len out.new ≤ array_string_len out.old + 7 }
{
    out.push_str("settled");
}
