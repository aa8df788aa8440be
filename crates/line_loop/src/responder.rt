//! What a subcommand does with the lines of its input.
ghost use Rattle.std.specs.Prelude.{◌≡◌, ◌≤◌, length, IfOk, OnErr};
ghost use Rattle.line_loop.specs.Run.{Responses, IsAnswer};

use crate::verdict::Verdict;
use std::alloc::AllocError;

/// Answers the lines of an input in turn.
///
/// Each call adds its text to `out`, and returns whether that tells a fault. After an `Err` nothing
/// was added.
pub trait Responder: Drop {
    // what the calls answer
    ghost responses: { Responses Self };

    /// Answers a line, without the line feed and the carriage return that end it.
    fn on_line(&mut self, line: &[u8], out: &mut Vec<u8>) -> Result<Verdict, AllocError>
        requires { length line.now ≤ 512 }
        ensures ok { IfOk result (λ verdict. IsAnswer self.new out.old.items out.new.items verdict (responses.on_line self.old line.now)) }
        ensures err { OnErr result (out.new.items ≡ out.old.items) };

    /// Answers a line of more bytes than a line may have.
    fn on_long_line(&mut self, out: &mut Vec<u8>) -> Result<Verdict, AllocError>
        ensures ok { IfOk result (λ verdict. IsAnswer self.new out.old.items out.new.items verdict (responses.on_long_line self.old)) }
        ensures err { OnErr result (out.new.items ≡ out.old.items) };

    /// Answers the end of the input.
    fn on_end(&mut self, out: &mut Vec<u8>) -> Result<Verdict, AllocError>
        ensures ok { IfOk result (λ verdict. IsAnswer self.new out.old.items out.new.items verdict (responses.on_end self.old)) }
        ensures err { OnErr result (out.new.items ≡ out.old.items) };

    /// Writes what is kept for other streams. It is called before the answers to a block of input are written, so
    /// before more of it is read.
    fn on_block(&mut self)
        ensures { self.new ≡ self.old }
    {}
}
