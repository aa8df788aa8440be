//! The subcommand `draw`: a picture of a history.
ghost use Rattle.std.specs.Prelude.{◌≡◌, ◌++◌, IfOk, OnErr, OnOk, is_some};
ghost use Rattle.history_words.specs.Flaws.{first_flaw};
ghost use Rattle.history_picture.specs.Picture.{picture_text, line_text};
ghost use Rattle.trace_text.specs.TraceReaderView.{nothing_read};
ghost use Rattle.record_text.specs.Names.{fault_line};
ghost use Rattle.line_loop.specs.Run.{IsWhole, IsPart, is_fault};
ghost use Rattle.draw_engine.specs.Draw.{DrawerView, WritesDocument, finding_at, flaw_of, out_draw, start_of};

use crate::laws::pictures_are_well_formed;
use arrayvec::ArrayString;
use history_check::check_claim;
use history_picture::{Finding, Window, put_line_picture, put_picture};
use history_words::{AsClaim, Claim, Flaw, FlawKind};
use line_loop::{EngineFault, Responder, Verdict, run};
use record_text::{ReadFault, write_fault};
use std::alloc::{AllocError, Global};
use std::io::{Read, Write};
use std::marker::Model;
use trace_diagnostics::TraceLines;
use trace_engine::TraceInput;
use trace_store::TraceStore;

/// The first flaw of the trace and its history, if there is one.
fn flaw_in(alloc: Global, claim: &TraceStore) -> Result<Option<Flaw>, AllocError>
    ensures { IfOk result (λ flaw. flaw ≡ flaw_of (first_flaw claim.now)) }
{
    match check_claim(alloc, claim) {
        Ok(()) => Ok(None),
        Err(flaw) if flaw.kind == FlawKind::Memory => Err(AllocError),
        Err(flaw) => Ok(Some(flaw)),
    }
}

/// A flaw with the line of the text on which it lies.
fn finding_of(claim: &TraceStore, lines: &TraceLines, flaw: Option<Flaw>) -> Option<Finding>
    ensures { result ≡ finding_at lines.now claim.now flaw }
{
    let flaw = flaw?;
    Some(Finding {
        flaw,
        line: lines.of_flaw(claim.records(), flaw),
    })
}

/// Adds the picture of a trace and its history, of which this is found. The verdict tells whether there is a flaw.
fn show(
    alloc: Global,
    window: Window,
    claim: &TraceStore,
    finding: Option<Finding>,
    out: &mut Vec<u8>,
) -> Result<Verdict, AllocError>
    ensures text { OnOk result (out.new.items ≡ out.old.items ++ picture_text window claim.now finding) }
    ensures verdict { IfOk result (λ verdict. is_fault verdict ≡ is_some finding) }
    ensures err { OnErr result (out.new.items ≡ out.old.items) }
{
    let (trace, history) = claim.to_owned(alloc)?;
    let drawn = Claim {
        trace: &trace,
        history: history.as_slice(),
    };
    put_picture(alloc, &drawn, finding, window, out)?;
    match finding {
        None => Ok(Verdict::Fine),
        Some(_) => Ok(Verdict::Fault),
    }
}

/// Adds the picture of a text that can't be read.
fn show_fault(alloc: Global, fault: ReadFault, out: &mut Vec<u8>) -> Result<Verdict, AllocError>
    ensures text { OnOk result (out.new.items ≡ out.old.items ++ line_text (fault_line fault)) }
    ensures verdict { IfOk result (λ verdict. verdict ≡ Verdict.Fault) }
    ensures err { OnErr result (out.new.items ≡ out.old.items) }
{
    let mut words = ArrayString::new();
    write_fault(fault, &mut words);
    put_line_picture(alloc, words.as_bytes(), out)?;
    Ok(Verdict::Fault)
}

/// A trace that is read, and then drawn.
#[derive(Drop)]
struct Drawer<E: Write> {
    window: Window,
    input: TraceInput<E>,
    lines: TraceLines,
}

impl<E: Write> Model for Drawer<E> {
    ghost use Rattle.draw_engine.specs.Draw.{DrawerView};

    ghost Value = { DrawerView };

    ghost view = { λ d. record { window = d.window; reading = d.input; lines = d.lines } };
}

impl<E: Write + Drop> Drawer<E> {
    fn new(alloc: Global, window: Window, errors: E) -> Drawer<E>
        ensures { result ≡ start_of window }
    {
        Drawer {
            window,
            input: TraceInput::new(alloc, errors),
            lines: TraceLines::new(alloc),
        }
    }

    /// Tells the reason of a flaw, if there is one.
    fn tell(&mut self, claim: &TraceStore, flaw: Option<Flaw>)
        ensures { self.new ≡ self.old }
    {
        if let Some(flaw) = flaw {
            self.input.tell_flaw(claim, flaw, &self.lines);
        }
    }

    /// Adds the picture of what was read, and tells the reason of its first flaw.
    fn draw(&mut self, claim: &TraceStore, out: &mut Vec<u8>) -> Result<Verdict, AllocError>
        ensures same { self.new ≡ self.old }
        ensures text { OnOk result (out.new.items ≡ out.old.items
            ++ picture_text self.old.window claim.now (finding_at self.old.lines claim.now (flaw_of (first_flaw claim.now)))) }
        ensures verdict { IfOk result (λ verdict. is_fault verdict ≡ is_some (first_flaw claim.now)) }
        ensures err { OnErr result (out.new.items ≡ out.old.items) }
    {
        let (alloc, window) = (self.input.alloc(), self.window);
        let flaw = flaw_in(alloc, claim)?;
        let finding = finding_of(claim, &self.lines, flaw);
        self.tell(claim, flaw);
        show(alloc, window, claim, finding, out)
    }
}

impl<E: Write + Drop> Responder for Drawer<E> {
    ghost use Rattle.draw_engine.specs.Draw.{draw_responses};

    ghost responses = { draw_responses };

    fn on_line(&mut self, line: &[u8], _out: &mut Vec<u8>) -> Result<Verdict, AllocError> {
        self.lines.note(line)?;
        self.input.line(line)?;
        Ok(Verdict::Fine)
    }

    fn on_long_line(&mut self, _out: &mut Vec<u8>) -> Result<Verdict, AllocError> {
        self.input.long_line();
        Ok(Verdict::Fine)
    }

    fn on_end(&mut self, out: &mut Vec<u8>) -> Result<Verdict, AllocError> {
        match self.input.end() {
            Ok(claim) => self.draw(&claim, out),
            Err(fault) => show_fault(self.input.alloc(), fault, out),
        }
    }
}

/// Reads the text of a trace and writes a picture of its history in SVG: the points of the window,
/// and the first flaw that `check` finds, or `ok`. Where the text can't be read, the picture has the
/// line of the fault. `Ok` is the exit status, 0 for `ok` and else 1. After an `Err` what was written
/// is a prefix of the whole output. The reason of a flaw or a fault is told on `errors`, in a line; a stream that
/// fails there changes nothing.
pub fn run_draw<R: Read, W: Write, E: Write>(
    alloc: Global,
    window: Window,
    reader: &mut R,
    writer: &mut W,
    errors: &mut E,
) -> Result<u8, EngineFault>
    ensures ok { IfOk result (IsWhole (out_draw window) (R.remaining reader.old) (R.remaining reader.new) (W.contents writer.old) (W.contents writer.new)) }
    ensures err { OnErr result (IsPart (out_draw window) (R.remaining reader.old) (R.remaining reader.new) (W.contents writer.old) (W.contents writer.new)) }

    // Whatever the input is, what is written is a well-formed document of XML.
    ensures document { OnOk result (WritesDocument (W.contents writer.old) (W.contents writer.new)) }
{
    let drawer = Drawer::new(alloc, window, errors);
    let status = run(alloc, drawer, reader, writer)?;
    pictures_are_well_formed();
    Ok(status)
}
