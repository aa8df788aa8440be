//! Writing the lines of scripts.
ghost use Rattle.std.specs.Prelude.{◌≡◌, ◌≤◌, ◌+◌, ◌++◌, ◌∷◌, length};
ghost use Rattle.arrayvec.specs.ArrayString.{array_string_len};
ghost use Rattle.script_text.specs.LineTexts.{lane_text, fate_text, kind_text, credits_text, event_line, fabric_line};

use crate::writing::put_number;
use arrayvec::ArrayString;
use dllp_core::Class;
use fabric_core::{Config, EventRef, LaneName};
use flow_control::LaneCredits;
use lane_core::{DllpKind, Fate};
use operation_text::{write_hexadecimal, write_op};

/// Adds the lane's name.
fn put_lane(lane: LaneName, out: &mut ArrayString<512>)
    requires { array_string_len out.old + 28 ≤ 512 }
    ensures text { out.new.bytes ≡ out.old.bytes ++ lane_text lane }
    ensures len { array_string_len out.new ≤ array_string_len out.old + 28 }
{
    match lane {
        LaneName::Up(port) => put_number("up", u64::from(port), out),
        LaneName::Down(port) => put_number("down", u64::from(port), out),
        LaneName::Inward => out.push_str("in"),
        LaneName::Outward => out.push_str("out"),
    }
}

/// Adds a word, a space and the lane's name.
fn put_on_lane(word: &str, lane: LaneName, out: &mut ArrayString<512>)
    requires word { length word.now ≤ 12 }
    requires room { array_string_len out.old + 41 ≤ 512 }
    ensures text { out.new.bytes ≡ out.old.bytes ++ (word.now ++ 32 ∷ lane_text lane) }
    ensures len { array_string_len out.new ≤ array_string_len out.old + 41 }
{
    out.push_str(word);
    out.push_str(" ");
    put_lane(lane, out);
}

/// Adds a space and what becomes of a packet or DLLP.
fn put_fate(fate: Fate, out: &mut ArrayString<512>)
    requires { array_string_len out.old + 7 ≤ 512 }
    ensures text { out.new.bytes ≡ out.old.bytes ++ 32 ∷ fate_text fate }
    ensures len { array_string_len out.new ≤ array_string_len out.old + 7 }
{
    out.push_str(match fate {
        Fate::Good => " good",
        Fate::Failed => " failed",
        Fate::Lost => " lost",
    });
}

/// Adds a space and the kind of a DLLP.
fn put_kind(kind: DllpKind, out: &mut ArrayString<512>)
    requires { array_string_len out.old + 7 ≤ 512 }
    ensures text { out.new.bytes ≡ out.old.bytes ++ 32 ∷ kind_text kind }
    ensures len { array_string_len out.new ≤ array_string_len out.old + 7 }
{
    out.push_str(match kind {
        DllpKind::Answer => " ack",
        DllpKind::Update(Class::Posted) => " p",
        DllpKind::Update(Class::NonPosted) => " np",
        DllpKind::Update(Class::Completion) => " cpl",
    });
}

/// Adds the event's line, at most 352 bytes, without what ends it.
pub fn write_event(event: &EventRef<'_>, out: &mut ArrayString<512>)
    requires { array_string_len out.old + 352 ≤ 512 }
    ensures text { out.new.bytes ≡ out.old.bytes ++ event_line event.now }
    ensures len { array_string_len out.new ≤ array_string_len out.old + 352 }
{
    match event {
        EventRef::Submit(port, op) => {
            put_number("submit ", u64::from(*port), out);
            out.push_str(" ");
            write_op(op, out);
        }
        EventRef::Transmit(lane) => put_on_lane("transmit", *lane, out),
        EventRef::Deliver(lane, fate) => {
            put_on_lane("deliver", *lane, out);
            put_fate(*fate, out);
        }
        EventRef::SendDllp(lane, kind) => {
            put_on_lane("dllp", *lane, out);
            put_kind(*kind, out);
        }
        EventRef::DeliverDllp(lane, fate) => {
            put_on_lane("deliver-dllp", *lane, out);
            put_fate(*fate, out);
        }
        EventRef::Timer(lane) => put_on_lane("timer", *lane, out),
        EventRef::Retrained(lane) => put_on_lane("retrained", *lane, out),
        EventRef::Forward(lane, place) => {
            put_on_lane("forward", *lane, out);
            put_number(" ", *place as u64, out);
        }
        EventRef::Serve(place) => put_number("serve ", *place as u64, out),
        EventRef::Collect(port) => put_number("collect ", u64::from(*port), out),
    }
}

/// Adds the six credits, a space between each two.
fn put_credits(credits: &LaneCredits, out: &mut ArrayString<512>)
    requires { array_string_len out.old + 168 ≤ 512 }
    ensures text { out.new.bytes ≡ out.old.bytes ++ credits_text credits.now }
    ensures len { array_string_len out.new ≤ array_string_len out.old + 168 }
{
    put_number("", u64::from(credits.ph), out);
    put_number(" ", u64::from(credits.pd), out);
    put_number(" ", u64::from(credits.nph), out);
    put_number(" ", u64::from(credits.npd), out);
    put_number(" ", u64::from(credits.cplh), out);
    put_number(" ", u64::from(credits.cpld), out);
}

/// Adds the line that makes a fabric, at most 270 bytes, without what ends it.
pub fn write_fabric(config: &Config, out: &mut ArrayString<512>)
    requires { array_string_len out.old + 270 ≤ 512 }
    ensures text { out.new.bytes ≡ out.old.bytes ++ fabric_line config.now }
    ensures len { array_string_len out.new ≤ array_string_len out.old + 270 }
{
    put_number("fabric ", u64::from(config.requesters), out);
    out.push_str(" ");
    write_hexadecimal(config.base, out);
    put_number(" ", config.size as u64, out);
    out.push_str(" ");
    put_credits(&config.credits, out);
    put_number(" block ", u64::from(config.block), out);
}
