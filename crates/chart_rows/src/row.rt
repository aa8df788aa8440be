//! What a chart shows.
ghost use Rattle.std.specs.Prelude.{◌≡◌, ◌+◌};
ghost use Rattle.chart_rows.specs.Words as said;

use crate::layout::Frame;
use dllp_core::Dllp;
use fabric_core::{Event, LaneName, Refusal, Seen};
use lane_core::{Arrival, Fate};
use seq12::Seq12;
use std::marker::Model;
use tlp_core::Op;

/// The kind of an operation.
#[derive(Clone, Copy)]
pub enum Kind {
    Read,
    Write,
    Add,
    Swap,
    Cas,
}

/// A request, or its completion.
#[derive(Clone, Copy)]
pub struct Carried {
    /// The port of the requester.
    pub requester: u8,
    /// The number of the request.
    pub number: u32,
    pub kind: Kind,
    pub is_completion: bool,
}

/// What a sender sends once more after a replay timer expired or a Nak came.
#[derive(Clone, Copy)]
pub enum Replay {
    /// Nothing: all that was sent is acknowledged.
    Nothing,
    /// So many packets.
    Again(u64),
    /// So many packets, once the link was retrained: REPLAY_NUM has rolled over.
    Stopped(u64),
}

/// A packet on its way: its sequence number, what it carries, and the row in which it was sent. Rows count from 0; None
/// is a row that isn't shown.
#[derive(Clone, Copy)]
pub struct PacketSent {
    pub number: Seq12,
    pub carried: Option<Carried>,
    pub row: Option<u16>,
}

/// A DLLP on its way back, and the row in which it was sent.
#[derive(Clone, Copy)]
pub struct DllpSent {
    pub dllp: Dllp,
    pub row: Option<u16>,
}

/// What is drawn of an event. What was sent is None if nothing is known of it.
#[derive(Clone, Copy)]
pub enum Deed {
    /// Nothing but its row: it was refused.
    Nothing,
    /// Nothing but its row: it is a `settle`, whose events follow.
    Settles,
    /// The requester at this port submitted it.
    Submitted(u8, Carried),
    /// The packet with this number went onto the lane.
    Sent(LaneName, Seq12, Option<Carried>),
    /// The packet arrived so, or was lost.
    Arrived(LaneName, Fate, Arrival, Option<PacketSent>),
    /// The DLLP went onto the wire back.
    SentDllp(LaneName, Dllp),
    /// The DLLP arrived or was lost, and the sender does this.
    ArrivedDllp(LaneName, Fate, Option<DllpSent>, Replay),
    /// The replay timer of the lane's sender expired.
    Expired(LaneName, Replay),
    /// The lane's link was retrained.
    Retrained(LaneName),
    /// The switch passed it on.
    Forwarded(Option<Carried>),
    /// The request acted on the memory, at this place of the history.
    Served(Option<Carried>, usize),
    /// The requester at this port took a completion.
    Collected(u8, Option<Carried>),
}

/// What a row is of: a `settle`, whose events follow, or an event, and what was seen of it or why it was refused.
#[derive(Drop)]
pub enum Said {
    Settle,
    Event(Event, Result<Seen, Refusal>),
}

/// What a row is of, its line of the script, and what is drawn of it.
#[derive(Drop)]
pub struct Row {
    pub line: u64,
    pub said: Said,
    pub deed: Deed,
}

/// A packet, as its sequence number and what it carries, or a DLLP.
#[derive(Clone, Copy)]
pub enum Flying {
    Packet(Seq12, Option<Carried>),
    Dllp(Dllp),
}

/// What was sent in a row that is shown, and isn't seen to arrive.
#[derive(Clone, Copy)]
pub struct Open {
    pub lane: LaneName,
    pub what: Flying,
    pub row: u16,
}

/// What a chart shows, and how many rows it leaves out before its rows and after them, and how many of them tell nothing
/// new.
#[derive(Drop)]
pub struct Page {
    pub frame: Frame,
    /// How many letters the longest result has that stands at the left, 44 at most, and 16 at least.
    pub letters: usize,
    pub rows: Vec<Row>,
    pub opens: Vec<Open>,
    pub before: u64,
    pub after: u64,
    pub omitted: u64,
}

impl Model for Page {
    ghost use Rattle.chart_rows.specs.PageView.{PageView};

    ghost Value = { PageView };

    ghost view = { λ p. record { frame = p.frame; letters = p.letters; rows = p.rows.items; opens = p.opens.items; before = p.before; after = p.after; omitted = p.omitted } };
}

/// Which rows are shown, of how many: numbers from 1 on.
#[derive(Clone, Copy)]
pub struct Shown {
    pub first: u64,
    pub last: u64,
    pub all: u64,
}

/// The sum, as a number of 64 bits.
fn capped_sum(one: u64, other: u64) -> u64
    ensures { result ≡ said.capped (one + other) }
{
    one.saturating_add(other)
}

/// Which rows are shown, if so many come before these, and so many after them.
pub fn shown_of(before: u64, rows: u64, after: u64) -> Shown
    ensures { result ≡ said.shown_of before rows after }
{
    let last = capped_sum(before, rows);
    Shown {
        first: capped_sum(before, 1),
        last,
        all: capped_sum(last, after),
    }
}

/// The kind of an operation.
pub fn kind_of(op: &Op) -> Kind
    ensures { result ≡ said.kind_of op.now }
{
    match op {
        Op::Read { .. } => Kind::Read,
        Op::Write { .. } => Kind::Write,
        Op::FetchAdd { .. } => Kind::Add,
        Op::Swap { .. } => Kind::Swap,
        Op::Cas { .. } => Kind::Cas,
    }
}
