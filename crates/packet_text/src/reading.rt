//! The packet that a line spells.
ghost use Rattle.std.specs.Prelude.{◌≡◌, ◌<◌, take, codes, bytes_eq, option_map, Ok, Err, IfOk, IfErr};
ghost use Rattle.std.specs.Result.{result_ok};
ghost use Rattle.config_core.specs.Canonical.{FitsFields};
ghost use Rattle.dllp_core.specs.Layout as dllps;
ghost use Rattle.operation_text.specs.Words.{words, words_behind};
ghost use Rattle.packet_text.specs.Packets as packets;
ghost use Rattle.packet_text.specs.Faults.{fault_of};
ghost use Rattle.packet_text.specs.Forms as forms;

use crate::completion::completion;
use crate::configuration::{access_in, configuration};
use crate::fault::{TextFault, Unread};
use crate::fields::{credits, sequence};
use crate::origin::{FROM, id_and_tag, origin_with};
use crate::packet::Packet;
use config_core::CfgRequest;
use dllp_core::Dllp;
use operation_text::{Expected, LINE_END, Misfit, OPERATION, alone, number, read_op, split_word};
use requester_core::{Origin, request_with};
use seq12::Seq12;
use tlp_core::{MAX_PAYLOAD, Tlp, TlpFault};

/// A packet, by the first word of its line.
const PACKET: Expected = Expected::Of(
    "a packet",
    "read, write, add, swap, cas, completion, ack, nak, update",
);

/// The same, where that word begins as a configuration request's.
const CONFIGURATION: Expected = Expected::Of("a packet", "cfgread, cfgread1, cfgwrite, cfgwrite1");

const HEADERS: Expected = Expected::Between("HdrFC", 0, 255);

const DATA: Expected = Expected::Between("DataFC", 0, 4095);

/// Whether the line begins with ` from `.
fn begins(line: &[u8]) -> bool
    ensures { result ≡ bytes_eq (take 6 line.now) (codes " from ") }
{
    &line[..line.len().min(6)] == b" from ".as_slice()
}

/// The text before the last ` from `, and the text behind it.
fn cut_from(line: &[u8]) -> Option<(&[u8], &[u8])>
    ensures { forms.cut_from line.now ≡ option_map (λ s. (s.0.now, s.1.now)) result }
{
    let mut at = line.len();
    while at > 0 {
        at -= 1;
        if begins(&line[at..]) {
            return Some((&line[..at], &line[at + 6..]));
        }
    }
    None
}

/// Whose request it is, by the text behind ` from `.
#[inline(always)]
fn origin(text: &[u8]) -> Result<Origin, Misfit>
    ensures value { result_ok result ≡ forms.origin (words text.now) }
    ensures range { IfOk result (λ o. (o.tc < 8) × (o.attr < 8)) }
{
    let (requester, tag, rest) = id_and_tag(Some(text))?;
    origin_with(requester, tag, rest)
}

/// What is expected at the front of a line that has the name of no packet.
fn packet_expected(line: &[u8]) -> Expected {
    if line.starts_with(b"cfg") {
        CONFIGURATION
    } else {
        PACKET
    }
}

/// The misfit of an operation at the front of a line, which has `behind` bytes more: the operation is a packet's, and
/// ends before ` from `.
fn in_request(misfit: Misfit, line: &[u8], behind: usize) -> Misfit {
    let expected = if misfit.expected == LINE_END {
        FROM
    } else if misfit.expected == OPERATION {
        packet_expected(line)
    } else {
        misfit.expected
    };
    let left = match misfit.left {
        Some(left) => Some(left.saturating_add(behind)),
        None if behind > 0 => Some(behind - 1),
        None => None,
    };
    Misfit { expected, left }
}

/// What doesn't fit in a line without ` from `.
fn without_origin(line: &[u8]) -> Misfit {
    match read_op(line, &mut [0; MAX_PAYLOAD]) {
        Ok(_) => FROM.at(None),
        Err(misfit) => in_request(misfit, line, 0),
    }
}

/// The request that the line spells, or what keeps it from being one.
#[inline(always)]
fn request_of(line: &[u8]) -> Result<Result<Tlp, TlpFault>, Misfit>
    ensures { result_ok result ≡ forms.request_of line.now }
{
    let Some((text, behind)) = cut_from(line) else {
        return Err(without_origin(line));
    };
    match read_op(text, &mut [0; MAX_PAYLOAD]) {
        Ok(op) => {
            let origin = origin(behind)?;
            Ok(request_with(&op, origin))
        }
        Err(misfit) => {
            let behind = line.len().saturating_sub(text.len());
            Err(in_request(misfit, line, behind))
        }
    }
}

fn ack(rest: Option<&[u8]>) -> Result<Dllp, Misfit>
    ensures value { result_ok result ≡ forms.ack_of (words_behind rest.entry) }
    ensures range { IfOk result dllps.FitsDataFC }
{
    let (number, rest) = sequence(rest)?;
    alone(Dllp::Ack(Seq12::new(number)), rest)
}

fn nak(rest: Option<&[u8]>) -> Result<Dllp, Misfit>
    ensures value { result_ok result ≡ forms.nak_of (words_behind rest.entry) }
    ensures range { IfOk result dllps.FitsDataFC }
{
    let (number, rest) = sequence(rest)?;
    alone(Dllp::Nak(Seq12::new(number)), rest)
}

fn update(rest: Option<&[u8]>) -> Result<Dllp, Misfit>
    ensures value { result_ok result ≡ forms.update_of (words_behind rest.entry) }
    ensures range { IfOk result dllps.FitsDataFC }
{
    let (class, rest) = credits(rest)?;
    let (header, rest) = number(rest, 10, 255, HEADERS)?;
    let (units, rest) = number(rest, 10, 4095, DATA)?;
    alone(Dllp::Update(class, header as u8, units as u16), rest)
}

fn told_dllp(read: &Result<Dllp, Misfit>) -> Result<Packet, Unread>
    ensures ok { IfOk result (λ p. forms.dllp_read (result_ok read.now) ≡ Ok p) }
    ensures err { IfErr result (λ e. forms.dllp_read (result_ok read.now) ≡ Err (fault_of e)) }
    ensures in_range { IfOk read.now dllps.FitsDataFC → IfOk result packets.FitsFields }
{
    match read {
        Ok(dllp) => Ok(Packet::Dllp(*dllp)),
        Err(misfit) => Err(Unread::Words(*misfit)),
    }
}

#[inline(always)]
fn told_tlp(read: Result<Result<Tlp, TlpFault>, Misfit>) -> Result<Packet, Unread>
    ensures ok { IfOk result (λ p. forms.tlp_read (result_ok read) ≡ Ok p) }
    ensures err { IfErr result (λ e. forms.tlp_read (result_ok read) ≡ Err (fault_of e)) }
    ensures in_range { IfOk result packets.FitsFields }
{
    match read {
        Ok(Ok(tlp)) => Ok(Packet::Tlp(tlp)),
        Ok(Err(fault)) => Err(Unread::Packet(fault)),
        Err(misfit) => Err(Unread::Words(misfit)),
    }
}

fn told_configuration(read: &Result<CfgRequest, Misfit>) -> Result<Packet, Unread>
    ensures ok { IfOk result (λ p. forms.configuration_read (result_ok read.now) ≡ Ok p) }
    ensures err { IfErr result (λ e. forms.configuration_read (result_ok read.now) ≡ Err (fault_of e)) }
    ensures in_range { IfOk read.now FitsFields → IfOk result packets.FitsFields }
{
    match read {
        Ok(request) => Ok(Packet::Configuration(*request)),
        Err(misfit) => Err(Unread::Words(*misfit)),
    }
}

/// The packet that the line spells, or what keeps it from spelling one. Takes no memory.
pub fn read_words(line: &[u8]) -> Result<Packet, Unread>
    ensures ok { IfOk result (λ p. forms.text_reading line.now ≡ Ok p) }
    ensures err { IfErr result (λ e. forms.text_reading line.now ≡ Err (fault_of e)) }
    ensures in_range { IfOk result packets.FitsFields }
{
    let (kind, rest) = split_word(line);
    if kind == b"completion".as_slice() {
        told_tlp(completion(rest))
    } else if kind == b"ack".as_slice() {
        told_dllp(&ack(rest))
    } else if kind == b"nak".as_slice() {
        told_dllp(&nak(rest))
    } else if kind == b"update".as_slice() {
        told_dllp(&update(rest))
    } else if let Some(access) = access_in(kind) {
        told_configuration(&configuration(access, rest))
    } else {
        told_tlp(request_of(line))
    }
}

/// The packet that the line spells: `Words` for a line of no known form, and the fault of an
/// operation or of data of which the grammar has no packet. Takes no memory.
pub fn read_packet(line: &[u8]) -> Result<Packet, TextFault>
    ensures value { result ≡ forms.text_reading line.now }
    ensures in_range { IfOk result packets.FitsFields }
{
    match read_words(line) {
        Ok(packet) => Ok(packet),
        Err(unread) => Err(unread.fault()),
    }
}
