//! What is said at a bar.
ghost use Rattle.std.specs.Prelude.{◌≡◌, ◌≤◌, ◌++◌, [], option_map, take, OnOk};
ghost use Rattle.operation_text.specs.Texts.{op_text, reply_text};
ghost use Rattle.history_bars.specs.Said as spec;

use crate::marks::View;
use crate::words::{Request, answer_at};
use arrayvec::ArrayString;
use history_words::Record;
use operation_text::{write_bytes, write_op, write_reply};
use seq_memory::Reply;
use std::alloc::{AllocError, Global};
use std::marker::Model;
use tlp_core::Op;

/// What was asked, and what was answered, as far as it is shown.
#[derive(Drop)]
pub struct Texts {
    pub asked: Vec<u8>,
    pub answered: Vec<u8>,
    /// Another reply is expected.
    pub is_wrong: bool,
}

impl Model for Texts {
    ghost use Rattle.history_bars.specs.Said.{Said};

    ghost Value = { Said };

    ghost view = { λ t. record { asked = t.asked.items; answered = t.answered.items; is_wrong = t.is_wrong } };
}

/// The first ones of the bytes.
pub fn shown(room: usize, bytes: &[u8]) -> &[u8]
    ensures { result.now ≡ take room bytes.now }
{
    &bytes[..bytes.len().min(room)]
}

/// Adds the first ones of the bytes.
fn put_first(room: usize, bytes: &[u8], out: &mut Vec<u8>) -> Result<(), AllocError>
    ensures { OnOk result (out.new.items ≡ out.old.items ++ take room bytes.now) }
{
    out.extend_from_slice(shown(room, bytes))
}

/// Adds the first characters of an operation.
fn put_asked(op: &Op, out: &mut Vec<u8>) -> Result<(), AllocError>
    ensures { OnOk result (out.new.items ≡ out.old.items ++ take 48 (op_text op.now)) }
{
    let mut text = ArrayString::new();
    write_op(&op.lend(), &mut text);
    put_first(48, text.as_bytes(), out)
}

/// Adds the first characters of a reply.
fn put_reply(room: usize, reply: &Reply, out: &mut Vec<u8>) -> Result<(), AllocError>
    ensures { OnOk result (out.new.items ≡ out.old.items ++ take room (reply_text reply.now)) }
{
    let mut text = ArrayString::new();
    write_reply(&reply.lend(), &mut text);
    put_first(room, text.as_bytes(), out)
}

/// Adds the first characters of a reply's data, or of its text, if it has none.
fn put_brief(reply: &Reply, out: &mut Vec<u8>) -> Result<(), AllocError>
    ensures { OnOk result (out.new.items ≡ out.old.items ++ take 32 (spec.briefly reply.now)) }
{
    match reply {
        Reply::Data(bytes) => {
            let mut text = ArrayString::new();
            write_bytes(bytes.as_slice(), &mut text);
            put_first(32, text.as_bytes(), out)
        }
        Reply::Done | Reply::Unsupported | Reply::Aborted => put_reply(32, reply, out),
    }
}

/// Adds a reply, and one that is expected in its place.
fn put_told(reply: &Reply, expected: Option<&Reply>, out: &mut Vec<u8>) -> Result<(), AllocError>
    ensures { OnOk result (out.new.items ≡ out.old.items ++ spec.told reply.now (option_map (λ r. r.now) expected.entry)) }
{
    match expected {
        None => put_reply(48, reply, out),
        Some(other) => {
            put_reply(37, reply, out)?;
            out.extend_from_slice(b", expected ")?;
            put_brief(other, out)
        }
    }
}

/// What is said of a request without an answer.
fn unanswered(is_posted: bool) -> &'static [u8]
    ensures { result.now ≡ spec.unanswered is_posted }
{
    if is_posted { b"posted" } else { b"no answer" }
}

/// Adds what is said of an answer, or that there is none.
fn put_answered(
    is_posted: bool,
    expected: Option<&Reply>,
    answer: Option<&Record>,
    out: &mut Vec<u8>,
) -> Result<(), AllocError>
    ensures { OnOk result (out.new.items ≡ out.old.items
        ++ spec.answered is_posted (option_map (λ r. r.now) expected.entry) (option_map (λ r. r.now) answer.entry)) }
{
    match answer {
        Some(Record::Ans { reply, .. }) => put_told(reply, expected, out),
        _ => out.extend_from_slice(unanswered(is_posted)),
    }
}

/// The reply that is expected in place of the request's, if it is the one that a flaw of a reply names.
fn expected_of<'a>(view: &'a View, request: &Request) -> Option<&'a Reply>
    ensures { option_map (λ r. r.now) result ≡ spec.expected_of view.now request.now }
{
    if view.is_flawed(request.requester, request.number) {
        view.expected.as_ref()
    } else {
        None
    }
}

impl Texts {
    pub fn new(alloc: Global) -> Texts {
        Texts {
            asked: Vec::new(alloc),
            answered: Vec::new(alloc),
            is_wrong: false,
        }
    }

    /// Takes what is said of a request, in place of what was said.
    pub fn tell(
        &mut self,
        view: &View,
        records: &[Record],
        op: &Op,
        request: &Request,
    ) -> Result<(), AllocError>
        ensures { OnOk result (self.new ≡ spec.said_of view.now records.now op.now request.now) }
    {
        let expected = expected_of(view, request);
        self.asked.clear();
        put_asked(op, &mut self.asked)?;
        self.answered.clear();
        let answer = answer_at(records, request.answer);
        put_answered(op.is_posted(), expected, answer, &mut self.answered)?;
        self.is_wrong = expected.is_some();
        Ok(())
    }

    /// How many characters the longer text has; there are no more than 80.
    pub fn count(&self) -> u64
        ensures count { result ≡ spec.count_of self.now }
        ensures range { result ≤ 80 }
    {
        self.asked.len().max(self.answered.len()).min(80) as u64
    }
}
