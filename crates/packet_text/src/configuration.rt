//! The text of configuration requests.
ghost use Rattle.std.specs.Prelude.{◌≡◌, ◌<◌, ◌≤◌, ◌%◌, IfSome, IfOk, option_map};
ghost use Rattle.std.specs.Result.{result_ok};
ghost use Rattle.config_core.specs.Canonical.{FitsFields, is_written};
ghost use Rattle.operation_text.specs.Words.{words_behind, first_field};
ghost use Rattle.packet_text.specs.Forms as forms;

use crate::fields::{digit, keyword, octet_in, sequence_in};
use crate::origin::{FROM, id_and_tag};
use byteorder::{ByteOrder, LittleEndian};
use config_core::CfgRequest;
use operation_text::{Expected, Misfit, alone, bytes_in, number, word};

const FUNCTION: Expected = Expected::Of(
    "a function",
    "bus:device.function, hexadecimal, 0:0.0 to FF:1F.7, without leading zeros",
);

const REGISTER: Expected = Expected::Of(
    "a register's offset",
    "three hexadecimal digits, a multiple of 4",
);

const ENABLES: Expected = Expected::Of("the First DW BE", "0 to F");

const DATA: Expected = Expected::Of("the data", "two hexadecimal digits a byte, 4 bytes");

/// Which of the four configuration requests it is.
#[derive(Clone, Copy)]
pub(crate) struct Access {
    pub writes: bool,
    pub is_type_1: bool,
}

/// The configuration requests of that name.
pub(crate) fn access_in(word: &[u8]) -> Option<Access>
    ensures { result ≡ forms.access word.now }
{
    let (writes, is_type_1) = if word == b"cfgread".as_slice() {
        (false, false)
    } else if word == b"cfgread1".as_slice() {
        (false, true)
    } else if word == b"cfgwrite".as_slice() {
        (true, false)
    } else if word == b"cfgwrite1".as_slice() {
        (true, true)
    } else {
        return None;
    };
    Some(Access { writes, is_type_1 })
}

/// A number of one or two digits, without a leading zero.
fn short_in(word: &[u8], most: u8) -> Option<u8>
    ensures value { result ≡ forms.short most word.now }
    ensures range { IfSome result (λ n. n ≤ most) }
{
    let number = match word {
        [one] => digit(*one)?,
        [b'0', _] => return None,
        _ => octet_in(word)?,
    };
    if number > most { None } else { Some(number) }
}

/// The one or two bytes before the mark, and what is behind it.
fn cut_at(word: &[u8], mark: u8) -> Option<(&[u8], &[u8])>
    ensures { option_map (λ s. (s.0.now, s.1.now)) result ≡ forms.cut_at mark word.now }
{
    match word {
        [_, second, rest @ ..] if *second == mark => Some((&word[..1], rest)),
        [_, _, third, rest @ ..] if *third == mark => Some((&word[..2], rest)),
        _ => None,
    }
}

/// Bus, device and function.
fn function_in(word: &[u8]) -> Option<(u8, u8, u8)>
    ensures value { result ≡ forms.function word.now }
    ensures range { IfSome result (λ f. (f.1 < 32) × (f.2 < 8)) }
{
    let (bus, behind) = cut_at(word, b':')?;
    let (device, function) = cut_at(behind, b'.')?;
    Some((
        short_in(bus, 255)?,
        short_in(device, 31)?,
        short_in(function, 7)?,
    ))
}

fn function(rest: Option<&[u8]>) -> Result<((u8, u8, u8), Option<&[u8]>), Misfit>
    ensures value { first_field forms.function (words_behind rest.entry) ≡ option_map (λ s. (s.0, words_behind s.1)) (result_ok result) }
    ensures range { IfOk result (λ s. (s.0.1 < 32) × (s.0.2 < 8)) }
{
    let (word, behind) = word(rest, FUNCTION)?;
    let function = function_in(word).ok_or(FUNCTION.at(rest))?;
    Ok((function, behind))
}

/// A register's offset.
fn register(rest: Option<&[u8]>) -> Result<(u16, Option<&[u8]>), Misfit>
    ensures value { first_field forms.register (words_behind rest.entry) ≡ option_map (λ s. (s.0, words_behind s.1)) (result_ok result) }
    ensures range { IfOk result (λ s. (s.0 < 4096) × (s.0 % 4 ≡ 0)) }
{
    let (word, behind) = word(rest, REGISTER)?;
    let register = sequence_in(word).ok_or(REGISTER.at(rest))?;
    if register % 4 != 0 {
        return Err(REGISTER.at(rest));
    }
    Ok((register, behind))
}

/// First DW BE.
fn enables(rest: Option<&[u8]>) -> Result<(u8, Option<&[u8]>), Misfit>
    ensures value { first_field forms.enables (words_behind rest.entry) ≡ option_map (λ s. (s.0, words_behind s.1)) (result_ok result) }
    ensures range { IfOk result (λ s. s.0 < 16) }
{
    let (enables, behind) = number(rest, 16, 15, ENABLES)?;
    Ok((enables as u8, behind))
}

fn dw_in(word: &[u8]) -> Option<u32>
    ensures { result ≡ forms.dw word.now }
{
    let bytes = bytes_in(word)?;
    if bytes.len() != 4 {
        return None;
    }
    Some(LittleEndian::read_u32(&bytes))
}

/// What a write writes; a read has no such word.
fn written(writes: bool, rest: Option<&[u8]>) -> Result<(u32, Option<&[u8]>), Misfit>
    ensures value { forms.written writes (words_behind rest.entry) ≡ option_map (λ s. (s.0, words_behind s.1)) (result_ok result) }
    ensures range { IfOk result (λ s. is_written writes s.0) }
{
    if !writes {
        return Ok((0, rest));
    }
    let (word, behind) = word(rest, DATA)?;
    let value = dw_in(word).ok_or(DATA.at(rest))?;
    Ok((value, behind))
}

/// The configuration request that the rest of a line spells.
pub(crate) fn configuration(access: Access, rest: Option<&[u8]>) -> Result<CfgRequest, Misfit>
    ensures value { result_ok result ≡ forms.configuration_of access (words_behind rest.entry) }
    ensures range { IfOk result FitsFields }
{
    let ((bus, device, function), rest) = function(rest)?;
    let (register, rest) = register(rest)?;
    let (enables, rest) = enables(rest)?;
    let (value, rest) = written(access.writes, rest)?;
    let rest = keyword(rest, b"from", FROM)?;
    let (requester, tag, rest) = id_and_tag(rest)?;
    let request = CfgRequest {
        writes: access.writes,
        is_type_1: access.is_type_1,
        requester,
        tag,
        bus,
        device,
        function,
        register,
        enables,
        value,
    };
    alone(request, rest)
}
