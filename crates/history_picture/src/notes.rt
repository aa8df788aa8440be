//! What is wrong, in words.
ghost use Rattle.std.specs.Prelude.{◌≡◌, ◌++◌, option_map, OnOk};
ghost use Rattle.svg_text.specs.Shapes.{shapes_text};
ghost use Rattle.history_picture.specs.Notes as spec;

use crate::flaws::Finding;
use arrayvec::ArrayString;
use history_bars::bar_texts::shown;
use history_bars::marks::{View, plain_label};
use history_words::{Flaw, FlawKind, Record};
use operation_text::{write_decimal, write_reply};
use seq_memory::Reply;
use std::alloc::{AllocError, Global};
use svg_text::put_label;

/// What a flaw says of a request.
fn meaning(kind: FlawKind) -> &'static [u8]
    ensures { result.now ≡ spec.meaning kind }
{
    match kind {
        FlawKind::Numbering => b" has another number than the requester's next one",
        FlawKind::Stranger => b" is in the history, and was not submitted so",
        FlawKind::Twice => b" is in the history a second time",
        FlawKind::Order => b" is in the history before an earlier write of its requester",
        FlawKind::Unasked => b" is answered, and has asked for no answer before",
        FlawKind::Again => b" is answered a second time",
        FlawKind::Absent => b" is answered, and is not in the history",
        FlawKind::Early => b" is in the history before it was submitted",
        FlawKind::Late => b" is in the history after its answer",
        FlawKind::Reply => b" is answered otherwise than the memory replies",
        FlawKind::Stale => b" is in the history before what was answered when it was submitted",
        FlawKind::Clock => b" has a count that the history had not",
        FlawKind::Memory => b"",
    }
}

/// Adds a reply's text.
fn put_reply(reply: &Reply, out: &mut Vec<u8>) -> Result<(), AllocError>
    ensures { OnOk result (out.new.items ≡ out.old.items ++ spec.reply_words reply.now) }
{
    let mut text = ArrayString::new();
    write_reply(&reply.lend(), &mut text);
    out.extend_from_slice(text.as_bytes())
}

/// Adds the reply that a record tells, if it tells one.
fn put_told(answer: Option<&Record>, out: &mut Vec<u8>) -> Result<(), AllocError>
    ensures { OnOk result (out.new.items ≡ out.old.items ++ spec.told_by (option_map (λ r. r.now) answer.entry)) }
{
    match answer {
        Some(Record::Ans { reply, .. }) => put_reply(reply, out),
        _ => Ok(()),
    }
}

/// Adds which reply is expected.
fn put_instead(other: &Reply, out: &mut Vec<u8>) -> Result<(), AllocError>
    ensures { OnOk result (out.new.items ≡ out.old.items ++ spec.instead other.now) }
{
    out.extend_from_slice(b" where ")?;
    put_reply(other, out)?;
    out.extend_from_slice(b" is expected")
}

/// Adds the reply that a record tells, and which one is expected.
fn put_replies(answer: Option<&Record>, other: &Reply, out: &mut Vec<u8>) -> Result<(), AllocError>
    ensures { OnOk result (out.new.items ≡ out.old.items ++ spec.replies (option_map (λ r. r.now) answer.entry) other.now) }
{
    out.extend_from_slice(b": ")?;
    put_told(answer, out)?;
    put_instead(other, out)
}

/// Adds what is wrong with a request.
fn put_why(
    expected: Option<&Reply>,
    records: &[Record],
    flaw: Flaw,
    out: &mut Vec<u8>,
) -> Result<(), AllocError>
    ensures { OnOk result (out.new.items ≡ out.old.items ++ spec.why (option_map (λ r. r.now) expected.entry) records.now flaw) }
{
    match expected {
        None => out.extend_from_slice(meaning(flaw.kind)),
        Some(other) => put_replies(records.get(flaw.place), other, out),
    }
}

/// Adds which request it is.
fn put_request(request: (u8, u32), out: &mut Vec<u8>) -> Result<(), AllocError>
    ensures { OnOk result (out.new.items ≡ out.old.items ++ spec.request_said request) }
{
    let mut text = ArrayString::new();
    text.push_str("request ");
    write_decimal(u64::from(request.1), &mut text);
    text.push_str(" of requester ");
    write_decimal(u64::from(request.0), &mut text);
    out.extend_from_slice(text.as_bytes())
}

/// Adds which request it is, and what is wrong with it.
fn put_words(
    view: &View,
    records: &[Record],
    flaw: Flaw,
    out: &mut Vec<u8>,
) -> Result<(), AllocError>
    ensures { OnOk result (out.new.items ≡ out.old.items ++ spec.note_words view.now records.now flaw) }
{
    let Some(request) = view.flawed else {
        return Ok(());
    };
    put_request(request, out)?;
    put_why(view.expected.as_ref(), records, flaw, out)
}

/// Adds the first words.
#[tactic(auto, unfolding(svg_text::specs::Shapes::shapes_text))]
fn put_line(words: &[u8], out: &mut Vec<u8>) -> Result<(), AllocError>
    ensures { OnOk result (out.new.items ≡ out.old.items ++ shapes_text (spec.note_line words.now)) }
{
    put_label(&plain_label(10, 42), shown(110, words), out)
}

/// Adds what is wrong.
fn put_note_of(
    alloc: Global,
    view: &View,
    records: &[Record],
    flaw: Flaw,
    out: &mut Vec<u8>,
) -> Result<(), AllocError>
    ensures { OnOk result (out.new.items ≡ out.old.items ++ shapes_text (spec.note_line (spec.note_words view.now records.now flaw))) }
{
    let mut words = Vec::new(alloc);
    put_words(view, records, flaw, &mut words)?;
    put_line(words.as_slice(), out)?;
    Ok(())
}

/// Adds what is wrong, if anything is.
#[tactic(auto, unfolding(svg_text::specs::Shapes::shapes_text))]
pub(crate) fn put_note(
    alloc: Global,
    view: &View,
    records: &[Record],
    finding: Option<Finding>,
    out: &mut Vec<u8>,
) -> Result<(), AllocError>
    ensures { OnOk result (out.new.items ≡ out.old.items ++ shapes_text (spec.note_shapes view.now records.now finding)) }
{
    match finding {
        None => Ok(()),
        Some(finding) => put_note_of(alloc, view, records, finding.flaw, out),
    }
}
