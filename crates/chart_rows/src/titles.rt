//! The titles of arrows, in plain words, for those who have a chart read out.
ghost use Rattle.std.specs.Prelude.{◌≡◌, ◌≤◌, ◌+◌, ◌++◌, [], length};
ghost use Rattle.std.specs.Fmt.{decimal};
ghost use Rattle.arrayvec.specs.ArrayString.{array_string_len};
ghost use Rattle.script_text.specs.LineTexts as lines;
ghost use Rattle.chart_rows.specs.Titles as said;
ghost use Rattle.chart_rows.specs.Words as words;

use crate::row::{Carried, DllpSent, Flying, Open, PacketSent, Replay};
use crate::words::{arrival_words, kind_name, put_replay, write_dllp};
use arrayvec::ArrayString;
use dllp_core::Dllp;
use fabric_core::LaneName;
use lane_core::{Arrival, Fate};
use operation_text::{write_decimal, write_sequence};
use seq12::Seq12;

/// Adds the name of a lane.
pub fn put_lane(lane: LaneName, text: &mut ArrayString<512>)
    requires { array_string_len text.old ≤ 200 }
    ensures text { text.new.bytes ≡ text.old.bytes ++ lines.lane_text lane }
    ensures len { array_string_len text.new ≤ array_string_len text.old + 24 }
{
    match lane {
        LaneName::Up(port) => {
            text.push_str("up");
            write_decimal(u64::from(port), text);
        }
        LaneName::Down(port) => {
            text.push_str("down");
            write_decimal(u64::from(port), text);
        }
        LaneName::Inward => text.push_str("in"),
        LaneName::Outward => text.push_str("out"),
    }
}

/// Adds on which lane it is.
pub fn put_on(lane: LaneName, text: &mut ArrayString<512>)
    requires { array_string_len text.old ≤ 190 }
    ensures text { text.new.bytes ≡ text.old.bytes ++ said.on_words lane }
    ensures len { array_string_len text.new ≤ array_string_len text.old + 28 }
{
    text.push_str(" on ");
    put_lane(lane, text);
}

fn completion_name(is_completion: bool) -> &'static str
    ensures name { result.now ≡ said.completion_words is_completion }
    ensures length { length result.now ≤ 14 }
{
    if is_completion { "completion of " } else { "" }
}

/// Adds the kind of a request, or that it is the completion of one.
fn put_what(carried: Carried, text: &mut ArrayString<512>)
    requires { array_string_len text.old ≤ 150 }
    ensures text { text.new.bytes ≡ text.old.bytes ++ said.what_words carried }
    ensures len { array_string_len text.new ≤ array_string_len text.old + 21 }
{
    text.push_str(", ");
    text.push_str(completion_name(carried.is_completion));
    text.push_str(kind_name(carried.kind));
}

/// Adds words and a number.
fn put_counted(words: &str, value: u64, text: &mut ArrayString<512>)
    requires words { length words.now ≤ 20 }
    requires text { array_string_len text.old ≤ 300 }
    ensures text { text.new.bytes ≡ text.old.bytes ++ (words.now ++ decimal value) }
    ensures len { array_string_len text.new ≤ array_string_len text.old + length words.now + 20 }
{
    text.push_str(words);
    write_decimal(value, text);
}

/// Adds the requester of a request, and its number.
fn put_whose(carried: Carried, text: &mut ArrayString<512>)
    requires { array_string_len text.old ≤ 200 }
    ensures text { text.new.bytes ≡ text.old.bytes ++ said.whose_words carried }
    ensures len { array_string_len text.new ≤ array_string_len text.old + 64 }
{
    put_counted(" of requester ", u64::from(carried.requester), text);
    put_counted(", request ", u64::from(carried.number), text);
}

/// Adds a request, or of which request it is the completion.
fn put_plain(carried: Carried, text: &mut ArrayString<512>)
    requires { array_string_len text.old ≤ 150 }
    ensures text { text.new.bytes ≡ text.old.bytes ++ said.plain_words carried }
    ensures len { array_string_len text.new ≤ array_string_len text.old + 90 }
{
    put_what(carried, text);
    put_whose(carried, text);
}

/// Adds what is carried, if that is known.
fn put_plain_known(carried: Option<Carried>, text: &mut ArrayString<512>)
    requires { array_string_len text.old ≤ 150 }
    ensures text { text.new.bytes ≡ text.old.bytes ++ said.known_words carried }
    ensures len { array_string_len text.new ≤ array_string_len text.old + 90 }
{
    if let Some(carried) = carried {
        put_plain(carried, text);
    }
}

/// Writes a packet and its lane.
fn write_packet(
    lane: LaneName,
    number: Seq12,
    carried: Option<Carried>,
    text: &mut ArrayString<512>,
)
    requires { text.old.bytes ≡ [] }
    ensures text { text.new.bytes ≡ said.packet_words lane number carried }
    ensures len { array_string_len text.new ≤ 150 }
{
    text.push_str("packet ");
    write_sequence(number, text);
    put_on(lane, text);
    put_plain_known(carried, text);
}

/// Writes a DLLP and its lane.
fn write_dllp_on(lane: LaneName, dllp: Dllp, text: &mut ArrayString<512>)
    requires { text.old.bytes ≡ [] }
    ensures text { text.new.bytes ≡ said.dllp_on_words lane dllp }
    ensures len { array_string_len text.new ≤ 85 }
{
    write_dllp(dllp, text);
    put_on(lane, text);
}

/// Writes a packet that was sent, and its lane.
fn write_packet_sent(lane: LaneName, sent: Option<PacketSent>, text: &mut ArrayString<512>)
    requires { text.old.bytes ≡ [] }
    ensures text { text.new.bytes ≡ said.packet_sent_words lane sent }
    ensures len { array_string_len text.new ≤ 150 }
{
    match sent {
        Some(sent) => write_packet(lane, sent.number, sent.carried, text),
        None => {
            text.push_str("packet");
            put_on(lane, text);
        }
    }
}

/// Writes a DLLP that was sent, and its lane.
fn write_dllp_sent(lane: LaneName, sent: Option<DllpSent>, text: &mut ArrayString<512>)
    requires { text.old.bytes ≡ [] }
    ensures text { text.new.bytes ≡ said.dllp_sent_words lane sent }
    ensures len { array_string_len text.new ≤ 85 }
{
    match sent {
        Some(sent) => write_dllp_on(lane, sent.dllp, text),
        None => {
            text.push_str("DLLP");
            put_on(lane, text);
        }
    }
}

/// What became of a packet.
fn end_words(fate: Fate, arrival: Arrival) -> &'static str
    ensures words { result.now ≡ said.end_words fate arrival }
    ensures len { length result.now ≤ 250 }
{
    let words = arrival_words(fate, arrival);
    if words.is_empty() { "accepted" } else { words }
}

/// Writes the title of a packet's arrow.
pub fn write_packet_title(
    lane: LaneName,
    sent: Option<PacketSent>,
    fate: Fate,
    arrival: Arrival,
    text: &mut ArrayString<512>,
)
    requires { text.old.bytes ≡ [] }
    ensures { text.new.bytes ≡ said.packet_title lane sent fate arrival }
{
    write_packet_sent(lane, sent, text);
    text.push_str(", ");
    text.push_str(end_words(fate, arrival));
}

/// Adds what a sender does, if it sends something once more.
fn put_then(replay: Replay, text: &mut ArrayString<512>)
    requires { array_string_len text.old ≤ 98 }
    ensures { text.new.bytes ≡ text.old.bytes ++ said.then_words replay }
{
    match replay {
        Replay::Nothing => {}
        Replay::Again(_) | Replay::Stopped(_) => {
            text.push_str(", ");
            put_replay(replay, text);
        }
    }
}

/// Adds what became of a DLLP, and what the sender does then.
fn put_dllp_end(fate: Fate, replay: Replay, text: &mut ArrayString<512>)
    requires { array_string_len text.old ≤ 85 }
    ensures { text.new.bytes ≡ text.old.bytes ++ said.dllp_end_words fate replay }
{
    match fate {
        Fate::Good => {
            text.push_str(", arrived");
            put_then(replay, text);
        }
        Fate::Failed => text.push_str(", failed"),
        Fate::Lost => text.push_str(", lost"),
    }
}

/// Writes the title of a DLLP's arrow.
pub fn write_dllp_title(
    lane: LaneName,
    sent: Option<DllpSent>,
    fate: Fate,
    replay: Replay,
    text: &mut ArrayString<512>,
)
    requires { text.old.bytes ≡ [] }
    ensures { text.new.bytes ≡ said.dllp_title lane sent fate replay }
{
    write_dllp_sent(lane, sent, text);
    put_dllp_end(fate, replay, text);
}

/// Writes what isn't seen to arrive.
fn write_flying(lane: LaneName, what: Flying, text: &mut ArrayString<512>)
    requires { text.old.bytes ≡ [] }
    ensures text { text.new.bytes ≡ said.flying_words lane what }
    ensures len { array_string_len text.new ≤ 150 }
{
    match what {
        Flying::Packet(number, carried) => write_packet(lane, number, carried, text),
        Flying::Dllp(dllp) => write_dllp_on(lane, dllp, text),
    }
}

/// Writes the title of what isn't seen to arrive.
pub fn write_open_title(of: &Open, text: &mut ArrayString<512>)
    requires { text.old.bytes ≡ [] }
    ensures { text.new.bytes ≡ said.open_title of.now }
{
    write_flying(of.lane, of.what, text);
    text.push_str(", not seen to arrive");
}

/// Writes what is said of a lane that the fabric doesn't have.
pub fn write_absent(lane: LaneName, text: &mut ArrayString<512>)
    requires { text.old.bytes ≡ [] }
    ensures { text.new.bytes ≡ words.absent_words lane }
{
    text.push_str("; the fabric lacks ");
    put_lane(lane, text);
}
