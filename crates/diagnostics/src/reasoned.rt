//! A responder, and the stream on which it is told why its answers are faults.
ghost use Rattle.std.specs.Prelude.{◌≡◌, ◌≤◌, length};

use crate::lines::long_line_reason;
use crate::reason_lines::ReasonLines;
use line_loop::{Responder, Verdict, write_out};
use std::alloc::{AllocError, Global};
use std::io::Write;
use std::marker::Model;

/// Says why a responder's answers are what they are, for people. What it says is no promise.
pub trait Reasons<P>: Drop {
    /// Whether a reason may be due beside an answer of this text.
    fn is_due(&self, verdict: Verdict, _text: &[u8]) -> bool {
        verdict.is_fault()
    }

    /// Tells the reasons of the answer to that line, whose text this is.
    fn tell(
        &self,
        responder: &mut P,
        line: &[u8],
        text: &[u8],
        reasons: &mut ReasonLines,
    ) -> Result<(), AllocError>
        requires { length line.now ≤ 512 }
        ensures { responder.new ≡ responder.old };
}

/// A responder whose answers are told reasons, a block of input at a time: the answers stay as they are.
#[derive(Drop)]
pub struct Reasoned<P, X, E> {
    responder: P,
    why: X,
    /// The reasons that are to be written.
    reasons: ReasonLines,
    /// Whether memory for a reason ran out: then no further line is answered.
    is_lost: bool,
    errors: E,
}

impl<P, X, E> Model for Reasoned<P, X, E> {
    ghost Value = { P };

    ghost view = { λ r. r.responder };
}

impl<P, X, E> Reasoned<P, X, E> {
    /// The responder, before its first line, what says why, and the stream on which that is told.
    pub fn new(alloc: Global, responder: P, why: X, errors: E) -> Reasoned<P, X, E>
        ensures { result ≡ responder }
    {
        Reasoned {
            responder,
            why,
            reasons: ReasonLines::new(alloc),
            is_lost: false,
            errors,
        }
    }
}

impl<P: Responder, X: Reasons<P>, E: Write + Drop> Reasoned<P, X, E> {
    /// Tells the reasons of an answer.
    #[inline(never)]
    fn explain(&mut self, line: &[u8], text: &[u8])
        requires { length line.now ≤ 512 }
        ensures { self.new ≡ self.old }
    {
        if self.reasons.is_open() {
            let told = self
                .why
                .tell(&mut self.responder, line, text, &mut self.reasons);
            self.is_lost = told.is_err();
        }
    }
}

impl<P: Responder, X: Reasons<P>, E: Write + Drop> Responder for Reasoned<P, X, E> {
    ghost responses = { P.responses };

    #[inline(always)]
    fn on_line(&mut self, line: &[u8], out: &mut Vec<u8>) -> Result<Verdict, AllocError> {
        if self.is_lost {
            return Err(AllocError);
        }
        self.reasons.count_line();
        let before = out.len();
        let verdict = self.responder.on_line(line, out)?;
        let text = &out[before.min(out.len())..];
        if self.why.is_due(verdict, text) {
            self.explain(line, text);
        }
        Ok(verdict)
    }

    fn on_long_line(&mut self, out: &mut Vec<u8>) -> Result<Verdict, AllocError> {
        if self.is_lost {
            return Err(AllocError);
        }
        self.reasons.count_line();
        let verdict = self.responder.on_long_line(out)?;
        if verdict.is_fault() {
            self.is_lost = self.reasons.tell(&long_line_reason()).is_err();
        }
        Ok(verdict)
    }

    fn on_end(&mut self, out: &mut Vec<u8>) -> Result<Verdict, AllocError> {
        if self.is_lost {
            return Err(AllocError);
        }
        self.responder.on_end(out)
    }

    fn on_block(&mut self) {
        self.responder.on_block();
        let _ = write_out(&mut self.errors, self.reasons.text());
        self.reasons.clear();
    }
}
