//! The text of completions.
ghost use Rattle.std.specs.Prelude.{◌≡◌, ◌<◌, ◌≤◌, ◌%◌, None, IfOk, option_map, length};
ghost use Rattle.std.specs.Result.{result_ok};
ghost use Rattle.operation_text.specs.Words.{words_behind};
ghost use Rattle.packet_text.specs.Forms as forms;

use crate::fields::{byte_count, id, keyword, lower, status};
use crate::origin::{id_and_tag, origin_with};
use arrayvec::ArrayVec;
use operation_text::{BYTES, Expected, Misfit, bytes_in, word};
use requester_core::Origin;
use tlp_core::{Body, Kind, MAX_PAYLOAD, Status, Tlp, TlpFault};

const TO: Expected = Expected::Named("'to'");

const BY: Expected = Expected::Named("'by'");

const COUNT_WORD: Expected = Expected::Named("'count'");

const LOWER_WORD: Expected = Expected::Named("'lower'");

/// Completer ID, Byte Count and Lower Address.
#[derive(Clone, Copy)]
pub(crate) struct Completer {
    pub completer: u16,
    /// 1 to 4096.
    pub byte_count: u16,
    /// Below 128.
    pub lower: u8,
}

/// The data of a completion, none where its kind has none.
type Data = Option<ArrayVec<u8, MAX_PAYLOAD>>;

/// The bytes of data, if they are there, and what is behind the word `to`.
fn data_to(rest: Option<&[u8]>) -> Result<(Data, Option<&[u8]>), Misfit>
    ensures { forms.data_to (words_behind rest.entry) ≡ option_map (λ s. (option_map (λ b. b.items) s.0, words_behind s.1)) (result_ok result) }
{
    let (word, behind) = word(rest, BYTES)?;
    if word == b"to".as_slice() {
        return Ok((None, behind));
    }
    let bytes = bytes_in(word).ok_or(BYTES.at(rest))?;
    let rest = keyword(behind, b"to", TO)?;
    Ok((Some(bytes), rest))
}

fn completer_of(rest: Option<&[u8]>) -> Result<(Completer, Option<&[u8]>), Misfit>
    ensures value { forms.completer (words_behind rest.entry) ≡ option_map (λ s. (s.0, words_behind s.1)) (result_ok result) }
    ensures count { IfOk result (λ s. (1 ≤ s.0.byte_count) × (s.0.byte_count ≤ 4096)) }
    ensures lower { IfOk result (λ s. s.0.lower < 128) }
{
    let rest = keyword(rest, b"by", BY)?;
    let (completer, rest) = id(rest)?;
    let rest = keyword(rest, b"count", COUNT_WORD)?;
    let (byte_count, rest) = byte_count(rest)?;
    let rest = keyword(rest, b"lower", LOWER_WORD)?;
    let (lower, rest) = lower(rest)?;
    let completer = Completer {
        completer,
        byte_count,
        lower,
    };
    Ok((completer, rest))
}

/// What keeps data from being those of a completion.
fn data_fault(given: &Data) -> Option<TlpFault>
    ensures { result ≡ forms.data_fault (option_map (λ b. b.items) given.now) }
{
    match given {
        Some(bytes) if bytes.is_empty() || bytes.len() % 4 != 0 => Some(TlpFault::LengthMismatch),
        _ => None,
    }
}

/// The completion with that status and that data.
fn completion_with(status: Status, given: Data, completer: Completer, origin: Origin) -> Tlp
    requires sound { forms.data_fault (option_map (λ b. b.items) given) ≡ None }
    requires some { 1 ≤ completer.byte_count }
    requires few { completer.byte_count ≤ 4096 }
    requires lower { completer.lower < 128 }
    requires tc { origin.tc < 8 }
    requires attr { origin.attr < 8 }
    ensures { result ≡ forms.completion status (option_map (λ b. b.items) given) completer origin }
{
    let (kind, payload) = match given {
        Some(bytes) => (Kind::CompletionData, bytes),
        None => (Kind::Completion, ArrayVec::new()),
    };
    Tlp {
        kind,
        tc: origin.tc,
        attr: origin.attr,
        length: (payload.len() / 4) as u16,
        requester: origin.requester,
        tag: origin.tag,
        body: Body::Completion {
            completer: completer.completer,
            status,
            byte_count: completer.byte_count,
            lower: completer.lower,
        },
        payload,
    }
}

/// The completion with that status and that data that the rest of a line spells, or what keeps it
/// from being one.
fn completion_to(
    status: Status,
    given: Data,
    rest: Option<&[u8]>,
) -> Result<Result<Tlp, TlpFault>, Misfit>
    ensures { result_ok result ≡ forms.completion_to status (option_map (λ b. b.items) given) (words_behind rest.entry) }
{
    let (requester, tag, rest) = id_and_tag(rest)?;
    let (completer, rest) = completer_of(rest)?;
    let origin = origin_with(requester, tag, rest)?;
    if let Some(fault) = data_fault(&given) {
        return Ok(Err(fault));
    }
    Ok(Ok(completion_with(status, given, completer, origin)))
}

/// The completion that the rest of a line spells, or what keeps it from being one.
pub(crate) fn completion(rest: Option<&[u8]>) -> Result<Result<Tlp, TlpFault>, Misfit>
    ensures { result_ok result ≡ forms.completion_of (words_behind rest.entry) }
{
    let (status, rest) = status(rest)?;
    let (given, rest) = data_to(rest)?;
    completion_to(status, given, rest)
}
