//! The lines of a script.
ghost use Rattle.std.specs.Prelude.{◌≡◌, option_map};
ghost use Rattle.std.specs.Result.{result_ok};
ghost use Rattle.operation_text.specs.Words.{words, words_behind};
ghost use Rattle.script_text.specs.Forms as forms;
ghost use Rattle.script_text.specs.declared.line.Line.TheVariants as lines;

use crate::events::{
    EVENT, collect, deliver, deliver_dllp, dllp, event_by, forward, serve, submit, transmit,
};
use crate::fabric::{FABRIC, fabric, misfit_of};
use fabric_core::{Config, EventRef};
use operation_text::{Misfit, alone, split_word};
use tlp_core::MAX_PAYLOAD;

/// What a line of a script asks for: the operation of its event is lent.
#[derive(Drop)]
pub enum Line<'a> {
    /// A fabric is made.
    Fabric(Config),
    /// An event happens to it.
    Event(EventRef<'a>),
    /// It is run until nothing moves.
    Settle,
}

/// The line that the text spells, whatever its first word is.
#[inline(never)]
fn any_line<'r>(text: &[u8], room: &'r mut [u8; MAX_PAYLOAD]) -> Result<Line<'r>, Misfit>
    ensures { result_ok result ≡ forms.line_of (words text.now) }
{
    let (kind, rest) = split_word(text);
    if kind == b"fabric".as_slice() {
        return Ok(Line::Fabric(fabric(rest)?));
    }
    if kind == b"settle".as_slice() {
        return alone(Line::Settle, rest);
    }
    Ok(Line::Event(event_by(kind, rest, text, room)?))
}

/// The line of an event.
#[inline(always)]
fn event_line<'r>(event: Result<EventRef<'r>, Misfit>) -> Result<Line<'r>, Misfit>
    ensures { result_ok result ≡ option_map lines.Event (result_ok event.entry) }
{
    Ok(Line::Event(event?))
}

/// The line that the text spells, that of a requester's event first.
#[inline(always)]
fn requester_line<'r>(text: &[u8], room: &'r mut [u8; MAX_PAYLOAD]) -> Result<Line<'r>, Misfit>
    ensures { result_ok result ≡ forms.line_of (words text.now) }
{
    match text {
        [b's', b'u', b'b', b'm', b'i', b't', b' ', rest @ ..] => event_line(submit(
            Some(rest),
            room,
        )),
        [b'c', b'o', b'l', b'l', b'e', b'c', b't', b' ', rest @ ..] => event_line(collect(Some(
            rest,
        ))),
        _ => any_line(text, room),
    }
}

/// The line that the text spells, that of the switch's or the memory's event first.
#[inline(always)]
fn switch_line<'r>(text: &[u8], room: &'r mut [u8; MAX_PAYLOAD]) -> Result<Line<'r>, Misfit>
    ensures { result_ok result ≡ forms.line_of (words text.now) }
{
    match text {
        [b's', b'e', b'r', b'v', b'e', b' ', rest @ ..] => event_line(serve(Some(rest))),
        [b'f', b'o', b'r', b'w', b'a', b'r', b'd', b' ', rest @ ..] => event_line(forward(Some(
            rest,
        ))),
        _ => requester_line(text, room),
    }
}

/// The line that the text spells, that of a DLLP first.
#[inline(always)]
fn dllp_line<'r>(text: &[u8], room: &'r mut [u8; MAX_PAYLOAD]) -> Result<Line<'r>, Misfit>
    ensures { result_ok result ≡ forms.line_of (words text.now) }
{
    match text {
        [b'd', b'l', b'l', b'p', b' ', rest @ ..] => event_line(dllp(Some(rest))),
        [
            b'd',
            b'e',
            b'l',
            b'i',
            b'v',
            b'e',
            b'r',
            b'-',
            b'd',
            b'l',
            b'l',
            b'p',
            b' ',
            rest @ ..,
        ] => event_line(deliver_dllp(Some(rest))),
        _ => switch_line(text, room),
    }
}

/// The line that the text spells, which is given without what ends it. If it has no known form, or a
/// number is above the range of its field, the misfit says where and what was expected: the ranges of
/// a configuration and the parts of a fabric are not looked at. The bytes of a write are put into the
/// room, whose content doesn't count.
pub fn read_line<'r>(text: &[u8], room: &'r mut [u8; MAX_PAYLOAD]) -> Result<Line<'r>, Misfit>
    ensures { result_ok result ≡ forms.line_of (words text.now) }
{
    match text {
        [b'd', b'e', b'l', b'i', b'v', b'e', b'r', b' ', rest @ ..] => event_line(deliver(Some(
            rest,
        ))),
        [
            b't',
            b'r',
            b'a',
            b'n',
            b's',
            b'm',
            b'i',
            b't',
            b' ',
            rest @ ..,
        ] => event_line(transmit(Some(rest))),
        _ => dllp_line(text, room),
    }
}

/// Why a script's line says nothing that can be done: the first line makes a fabric, no later one does,
/// and of the configuration that it tells there is a fabric. None if none of that is broken.
pub fn script_misfit(text: &[u8], has_fabric: bool) -> Option<Misfit> {
    match (split_word(text).0 == b"fabric".as_slice(), has_fabric) {
        (false, false) => return Some(FABRIC.at(Some(text))),
        (true, true) => return Some(EVENT.at(Some(text))),
        _ => {}
    }
    match read_line(text, &mut [0; MAX_PAYLOAD]) {
        Err(misfit) => Some(misfit),
        Ok(Line::Fabric(config)) => misfit_of(text, &config),
        Ok(_) => None,
    }
}
