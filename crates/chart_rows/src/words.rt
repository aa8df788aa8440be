//! The words on a chart.
ghost use Rattle.std.specs.Prelude.{◌≡◌, ◌≤◌, ◌+◌, ◌++◌, [], length};
ghost use Rattle.tlp_core.specs.Limits.{max_payload};
ghost use Rattle.arrayvec.specs.ArrayString.{array_string_len};
ghost use Rattle.script_text.specs.Names as names;
ghost use Rattle.chart_rows.specs.Words as said;

use crate::row::{Carried, Kind, Replay, Said, Shown};
use arrayvec::ArrayString;
use dllp_core::{Class, Dllp};
use fabric_core::Seen;
use lane_core::{Arrival, Fate};
use link_replay::Reception;
use operation_text::{write_bytes, write_decimal, write_sequence};
use seq_memory::Reply;
use seq12::Seq12;

/// The name of a kind.
pub fn kind_name(kind: Kind) -> &'static str
    ensures name { result.now ≡ said.kind_name kind }
    ensures length { length result.now ≤ 5 }
{
    match kind {
        Kind::Read => "read",
        Kind::Write => "write",
        Kind::Add => "add",
        Kind::Swap => "swap",
        Kind::Cas => "cas",
    }
}

fn cpl_name(is_completion: bool) -> &'static str
    ensures name { result.now ≡ said.cpl_words is_completion }
    ensures length { length result.now ≤ 7 }
{
    if is_completion { "cpl of " } else { "" }
}

/// Adds a request, or which one the completion answers.
fn put_carried(carried: Carried, text: &mut ArrayString<512>)
    requires { array_string_len text.old ≤ 100 }
    ensures text { text.new.bytes ≡ text.old.bytes ++ said.carried_words carried }
    ensures len { array_string_len text.new ≤ array_string_len text.old + 54 }
{
    text.push_str(cpl_name(carried.is_completion));
    text.push_str(kind_name(carried.kind));
    text.push_str(" ");
    write_decimal(u64::from(carried.requester), text);
    text.push_str(":");
    write_decimal(u64::from(carried.number), text);
}

/// Adds what is carried after a space, if that is known.
fn put_known(carried: Option<Carried>, text: &mut ArrayString<512>)
    requires { array_string_len text.old ≤ 90 }
    ensures text { text.new.bytes ≡ text.old.bytes ++ said.known_words carried }
    ensures len { array_string_len text.new ≤ array_string_len text.old + 55 }
{
    if let Some(carried) = carried {
        text.push_str(" ");
        put_carried(carried, text);
    }
}

/// Writes a sequence number and what its packet carries.
pub fn write_sent(number: Seq12, carried: Option<Carried>, text: &mut ArrayString<512>)
    requires { text.old.bytes ≡ [] }
    ensures text { text.new.bytes ≡ said.sent_words number carried }
    ensures len { array_string_len text.new ≤ 250 }
{
    write_sequence(number, text);
    put_known(carried, text);
}

/// What is said of a packet that was accepted, dropped or lost.
pub fn arrival_words(fate: Fate, arrival: Arrival) -> &'static str
    ensures words { result.now ≡ said.arrival_words fate arrival }
    ensures len { length result.now ≤ 250 }
{
    match (fate, arrival) {
        (Fate::Lost, _) => "lost",
        (Fate::Failed, Arrival::Answered(Reception::NakNow)) => "failed, Nak due",
        (Fate::Failed, _) => "failed",
        (Fate::Good, Arrival::Answered(Reception::Duplicate)) => "duplicate, dropped",
        (Fate::Good, Arrival::Answered(Reception::NakNow)) => "out of order, Nak due",
        (Fate::Good, Arrival::Answered(Reception::Quiet)) => "out of order, dropped",
        (Fate::Good, _) => "",
    }
}

fn class_name(class: Class) -> &'static str
    ensures name { result.now ≡ names.class_name class }
    ensures len { length result.now ≤ 3 }
{
    match class {
        Class::Posted => "P",
        Class::NonPosted => "NP",
        Class::Completion => "Cpl",
    }
}

/// Writes an UpdateFC.
fn put_update(class: Class, headers: u8, units: u16, text: &mut ArrayString<512>)
    requires { text.old.bytes ≡ [] }
    ensures text { text.new.bytes ≡ said.dllp_words (Dllp.Update class headers units) }
    ensures len { array_string_len text.new ≤ 55 }
{
    text.push_str("UpdateFC ");
    text.push_str(class_name(class));
    text.push_str(" ");
    write_decimal(u64::from(headers), text);
    text.push_str(" ");
    write_decimal(u64::from(units), text);
}

/// Writes a DLLP.
pub fn write_dllp(dllp: Dllp, text: &mut ArrayString<512>)
    requires { text.old.bytes ≡ [] }
    ensures text { text.new.bytes ≡ said.dllp_words dllp }
    ensures len { array_string_len text.new ≤ 55 }
{
    match dllp {
        Dllp::Ack(number) => {
            text.push_str("Ack ");
            write_sequence(number, text);
        }
        Dllp::Nak(number) => {
            text.push_str("Nak ");
            write_sequence(number, text);
        }
        Dllp::Update(class, headers, units) => put_update(class, headers, units, text),
    }
}

/// Adds how many packets go once more.
fn put_again(places: u64, text: &mut ArrayString<512>)
    requires { array_string_len text.old ≤ 100 }
    ensures text { text.new.bytes ≡ text.old.bytes ++ said.again_words places }
    ensures len { array_string_len text.new ≤ array_string_len text.old + 27 }
{
    text.push_str("replay ");
    write_decimal(places, text);
}

/// Adds what a sender does.
pub(crate) fn put_replay(replay: Replay, text: &mut ArrayString<512>)
    requires { array_string_len text.old ≤ 100 }
    ensures text { text.new.bytes ≡ text.old.bytes ++ said.replay_words replay }
    ensures len { array_string_len text.new ≤ array_string_len text.old + 39 }
{
    match replay {
        Replay::Nothing => {}
        Replay::Again(places) => put_again(places, text),
        Replay::Stopped(places) => {
            put_again(places, text);
            text.push_str(", link stops");
        }
    }
}

/// Writes what is said of a DLLP that arrived or was lost.
pub fn write_dllp_arrival(fate: Fate, replay: Replay, text: &mut ArrayString<512>)
    requires { text.old.bytes ≡ [] }
    ensures text { text.new.bytes ≡ said.dllp_arrival_words fate replay }
    ensures len { array_string_len text.new ≤ 250 }
{
    match fate {
        Fate::Good => put_replay(replay, text),
        Fate::Failed => text.push_str("failed"),
        Fate::Lost => text.push_str("lost"),
    }
}

/// Writes what is said of a submission.
pub fn write_submitted(carried: Carried, text: &mut ArrayString<512>)
    requires { text.old.bytes ≡ [] }
    ensures text { text.new.bytes ≡ said.submitted_words carried }
    ensures len { array_string_len text.new ≤ 250 }
{
    text.push_str("submit ");
    put_carried(carried, text);
}

/// Writes what is said of a replay timer that expired.
pub fn write_expired(replay: Replay, text: &mut ArrayString<512>)
    requires { text.old.bytes ≡ [] }
    ensures text { text.new.bytes ≡ said.expired_words replay }
    ensures len { array_string_len text.new ≤ 250 }
{
    text.push_str("timer: ");
    put_replay(replay, text);
}

/// Writes what is said of a packet that the switch passed on.
pub fn write_forwarded(carried: Option<Carried>, text: &mut ArrayString<512>)
    requires { text.old.bytes ≡ [] }
    ensures text { text.new.bytes ≡ said.forwarded_words carried }
    ensures len { array_string_len text.new ≤ 250 }
{
    text.push_str("forward");
    put_known(carried, text);
}

/// Writes what is said of a request that acted on the memory.
pub fn write_served(carried: Option<Carried>, index: usize, text: &mut ArrayString<512>)
    requires { text.old.bytes ≡ [] }
    ensures text { text.new.bytes ≡ said.served_words carried index }
    ensures len { array_string_len text.new ≤ 250 }
{
    text.push_str("serve");
    put_known(carried, text);
    text.push_str(", history ");
    write_decimal(index as u64, text);
}

/// Adds data: up to 16 bytes, or the first eight of more and how many there are.
fn put_data(bytes: &[u8], text: &mut ArrayString<512>)
    requires few { length bytes.now ≤ max_payload }
    requires room { array_string_len text.old ≤ 100 }
    ensures text { text.new.bytes ≡ text.old.bytes ++ said.data_words bytes.now }
    ensures len { array_string_len text.new ≤ array_string_len text.old + 50 }
{
    text.push_str("data ");
    if bytes.len() <= 16 {
        write_bytes(bytes, text);
        return;
    }
    write_bytes(&bytes[..8], text);
    text.push_str(".. (");
    write_decimal(bytes.len() as u64, text);
    text.push_str(")");
}

/// Adds a reply, with its data cut where there is much.
pub(crate) fn put_reply(reply: &Reply, text: &mut ArrayString<512>)
    requires { array_string_len text.old ≤ 100 }
    ensures text { text.new.bytes ≡ text.old.bytes ++ said.brief_reply reply.now }
    ensures len { array_string_len text.new ≤ array_string_len text.old + 50 }
{
    match reply {
        Reply::Done => text.push_str("done"),
        Reply::Data(bytes) => put_data(bytes.as_slice(), text),
        Reply::Unsupported => text.push_str("ur"),
        Reply::Aborted => text.push_str("ca"),
    }
}

/// Adds the reply that an event brought, if it brought one.
fn put_reply_of(seen: &Seen, text: &mut ArrayString<512>)
    requires { array_string_len text.old ≤ 90 }
    ensures text { text.new.bytes ≡ text.old.bytes ++ said.seen_reply seen.now }
    ensures len { array_string_len text.new ≤ array_string_len text.old + 52 }
{
    match seen {
        Seen::Collected(answer) => {
            text.push_str(": ");
            put_reply(&answer.reply, text);
        }
        _ => {}
    }
}

/// Adds the reply that the event of a row brought, if it brought one.
fn put_reply_in(row: &Said, text: &mut ArrayString<512>)
    requires { array_string_len text.old ≤ 90 }
    ensures text { text.new.bytes ≡ text.old.bytes ++ said.reply_in row.now }
    ensures len { array_string_len text.new ≤ array_string_len text.old + 52 }
{
    match row {
        Said::Event(_, Ok(seen)) => put_reply_of(seen, text),
        Said::Event(_, Err(_)) | Said::Settle => {}
    }
}

/// Writes what is said of a completion that a requester took, in a row of that event.
pub fn write_collected(carried: Option<Carried>, row: &Said, text: &mut ArrayString<512>)
    requires { text.old.bytes ≡ [] }
    ensures text { text.new.bytes ≡ said.collected_words carried row.now }
    ensures len { array_string_len text.new ≤ 250 }
{
    text.push_str("collect");
    put_known(carried, text);
    put_reply_in(row, text);
}

/// Writes the name of the requester at a port.
pub fn write_requester(port: u8, text: &mut ArrayString<512>)
    requires { text.old.bytes ≡ [] }
    ensures { text.new.bytes ≡ said.requester_words port }
{
    text.push_str("requester ");
    write_decimal(u64::from(port), text);
}

/// Writes which rows are shown.
fn write_rows(shown: Shown, text: &mut ArrayString<512>)
    requires { text.old.bytes ≡ [] }
    ensures text { text.new.bytes ≡ said.rows_words shown }
    ensures len { array_string_len text.new ≤ 60 }
{
    text.push_str("rows ");
    write_decimal(shown.first, text);
    text.push_str(" to ");
    write_decimal(shown.last, text);
}

/// Writes which rows of how many are shown.
pub fn write_shown(shown: Shown, text: &mut ArrayString<512>)
    requires { text.old.bytes ≡ [] }
    ensures { text.new.bytes ≡ said.shown_words shown }
{
    write_rows(shown, text);
    text.push_str(" of ");
    write_decimal(shown.all, text);
    text.push_str("; --from and --to choose others");
}

/// Writes how many events are left out, as they tell nothing new.
pub fn write_omitted(count: u64, text: &mut ArrayString<512>)
    requires { text.old.bytes ≡ [] }
    ensures { text.new.bytes ≡ said.omitted_words count }
{
    if count == 1 {
        text.push_str("1 Ack or credit update that tells nothing new is left out; --all shows it");
        return;
    }
    write_decimal(count, text);
    text.push_str(" Acks and credit updates that tell nothing new are left out; --all shows them");
}
