//! The subcommand `chart`: what happened on the links of a script's fabric.
ghost use Rattle.std.specs.Prelude.{◌≡◌, ◌≤◌, ◌++◌, ◌∷◌, [], Some, length, codes, option_map, IfOk, OnOk, OnErr};
ghost use Rattle.std.specs.Fmt.{decimal};
ghost use Rattle.arrayvec.specs.ArrayString.{array_string_len};
ghost use Rattle.fabric_steps.specs.Faults.{IsTold};
ghost use Rattle.fabric_core.specs.Config.{fault_name};
ghost use Rattle.script_text.specs.Names.{refusal_text};
ghost use Rattle.line_loop.specs.Run.{IsAnswer};
ghost use Rattle.chart_engine.specs.Chart as spec;

use crate::making::is_no_memory;
use crate::witness::ChartWitness;
use arrayvec::ArrayString;
use chart_links::ChartWindow;
use chart_page::put_title_chart;
use fabric_core::{Config, ConfigFault, EventRef, Fabric, Refusal};
use fabric_settle::{happen, settle};
use hex_text::is_skipped;
use line_loop::{Responder, Verdict};
use operation_text::write_decimal;
use script_text::{Line, read_line, write_config_fault, write_refusal};
use std::alloc::{AllocError, Global};
use std::marker::Model;
use std::mem;
use tlp_core::MAX_PAYLOAD;

/// A fabric and its chart.
#[derive(Drop)]
pub(crate) struct Session {
    fabric: Fabric,
    chart: ChartWitness,
}

/// A script that is run line by line, and then charted.
#[derive(Drop)]
pub(crate) struct Charter {
    alloc: Global,
    window: ChartWindow,
    session: Option<Session>,
    lines: u64,
    /// The line that tells the fault or the refusal that ended the run.
    ending: Option<ArrayString<512>>,
}

impl Model for Charter {
    ghost use Rattle.std.specs.Prelude.{option_map};
    ghost use Rattle.chart_engine.specs.Chart.{CharterView};

    ghost Value = { CharterView };

    ghost view = { λ s. record { window = s.window; session = s.session; lines = s.lines; ending = option_map (λ line. line.bytes) s.ending } };
}

/// The beginning of the line that ends a run.
fn told(kind: &str, line: u64) -> ArrayString<512>
    requires { length kind.now ≤ 8 }
    ensures text { result.bytes ≡ kind.now ++ (decimal line ++ 32 ∷ []) }
    ensures len { array_string_len result ≤ 29 }
{
    let mut text = ArrayString::new();
    text.push_str(kind);
    write_decimal(line, &mut text);
    text.push_str(" ");
    text
}

/// Tells a chart that an event was refused; out of memory is none of a fabric's answers.
fn tell_refused(
    witness: &mut ChartWitness,
    line: u64,
    event: &EventRef<'_>,
    refusal: Refusal,
    fabric: &Fabric,
) -> Result<(), AllocError>
    ensures told { OnOk result (IsTold refusal) }
    ensures chart { OnOk result (witness.new ≡ spec.refused_with witness.old line event.now refusal fabric.now) }
{
    if refusal.is_memory() {
        return Err(AllocError);
    }
    witness.refused(line, event.to_owned(), refusal, fabric)
}

impl Charter {
    pub(crate) fn new(alloc: Global, window: ChartWindow) -> Charter
        ensures { result ≡ spec.new_script window }
    {
        Charter {
            alloc,
            window,
            session: None,
            lines: 0,
            ending: None,
        }
    }

    /// How many lines were read until the end of the run.
    pub(crate) fn lines(&self) -> u64 {
        self.lines
    }

    /// Whether there is a fabric.
    pub(crate) fn has_fabric(&self) -> bool {
        self.session.is_some()
    }

    /// The line that tells what ended the run, nothing before that.
    pub(crate) fn ending(&self) -> &str {
        match &self.ending {
            Some(line) => line.as_str(),
            None => "",
        }
    }

    /// The number of the line that comes next, from 1; it stays at 2^64 - 1.
    fn next_line(&self) -> u64
        ensures { result ≡ spec.next_line self.now }
    {
        self.lines.saturating_add(1)
    }

    fn count(&mut self)
        ensures { self.new ≡ spec.counted self.old }
    {
        self.lines = self.next_line();
    }

    /// The line is the last one.
    fn end(&mut self, line: ArrayString<512>)
        ensures { self.new ≡ record (spec.counted self.old) { ending = Some line.bytes } }
    {
        self.count();
        self.ending = Some(line);
    }

    /// The line is none of a script.
    fn no_line(&mut self) -> Verdict
        ensures { (o : _) → IsAnswer self.new o o result (spec.quiet (spec.no_line self.old)) }
    {
        let mut line = told("fault ", self.next_line());
        line.push_str("Script");
        self.end(line);
        Verdict::Fault
    }

    /// There is no fabric of the configuration.
    fn not_made(&mut self, fault: ConfigFault) -> Verdict
        ensures { (o : _) → IsAnswer self.new o o result (spec.quiet (spec.fault self.old (fault_name fault))) }
    {
        let mut line = told("fault ", self.next_line());
        write_config_fault(&fault, &mut line);
        self.end(line);
        Verdict::Fault
    }

    /// The fabric refused an event.
    fn end_refused(&mut self, refusal: Refusal) -> Verdict
        ensures { (o : _) → IsAnswer self.new o o result (spec.quiet (spec.ends self.old self.old.session (spec.told self.old (codes "refused ") (refusal_text refusal)))) }
    {
        let mut line = told("refused ", self.next_line());
        write_refusal(&refusal, &mut line);
        self.end(line);
        Verdict::Fault
    }

    /// The fabric of the script is made, with its chart.
    fn make(&mut self, config: Config) -> Result<Verdict, AllocError>
        ensures { IfOk result (λ verdict. (o : _) → IsAnswer self.new o o verdict (spec.quiet (spec.made_once self.old self.old.session config))) }
    {
        if self.session.is_some() {
            return Ok(self.no_line());
        }
        match Fabric::new(config, self.alloc) {
            Ok(fabric) => {
                let chart = ChartWitness::new(self.alloc, self.window, config.requesters)?;
                self.session = Some(Session { fabric, chart });
                self.count();
                Ok(Verdict::Fine)
            }
            Err(fault) => {
                is_no_memory(fault)?;
                Ok(self.not_made(fault))
            }
        }
    }

    /// An event happens, or is refused.
    fn happen(&mut self, event: &EventRef<'_>) -> Result<Verdict, AllocError>
        ensures { IfOk result (λ verdict. (o : _) → IsAnswer self.new o o verdict (spec.quiet (spec.happened self.old self.old.session event.now))) }
    {
        let line = self.next_line();
        let Some(session) = &mut self.session else {
            return Ok(self.no_line());
        };
        match happen(&mut session.fabric, &mut session.chart, line, event) {
            Ok(()) => {
                self.count();
                Ok(Verdict::Fine)
            }
            Err(refusal) => {
                tell_refused(&mut session.chart, line, event, refusal, &session.fabric)?;
                Ok(self.end_refused(refusal))
            }
        }
    }

    /// The fabric is run until nothing moves.
    fn settle(&mut self) -> Result<Verdict, AllocError>
        ensures { IfOk result (λ verdict. (o : _) → IsAnswer self.new o o verdict (spec.quiet (spec.settles self.old self.old.session))) }
    {
        let line = self.next_line();
        let Some(session) = &mut self.session else {
            return Ok(self.no_line());
        };
        session.chart.settles(line, &session.fabric)?;
        settle(&mut session.fabric, &mut session.chart, line)?;
        self.count();
        Ok(Verdict::Fine)
    }
}

/// Adds the chart of a script below a line, or where it has no fabric the line alone.
fn put_below(
    alloc: Global,
    session: Option<Session>,
    is_red: bool,
    title: &[u8],
    out: &mut Vec<u8>,
) -> Result<(), AllocError>
    ensures ok { OnOk result (out.new.items ≡ out.old.items ++ spec.text_below session is_red title.now) }
    ensures err { OnErr result (out.new.items ≡ out.old.items) }
{
    match session {
        None => put_title_chart(alloc, is_red, title, out),
        Some(session) => session.chart.put(is_red, title, out),
    }
}

/// Adds the chart of a script that ended so.
fn put_text(
    alloc: Global,
    session: Option<Session>,
    ending: &Option<ArrayString<512>>,
    out: &mut Vec<u8>,
) -> Result<(), AllocError>
    ensures ok { OnOk result (out.new.items ≡ out.old.items ++ spec.text_of session (option_map (λ line. line.bytes) ending.now)) }
    ensures err { OnErr result (out.new.items ≡ out.old.items) }
{
    match ending {
        None => put_below(alloc, session, false, b"the script ran to its end", out),
        Some(line) => put_below(alloc, session, true, line.as_bytes(), out),
    }
}

impl Responder for Charter {
    ghost use Rattle.chart_engine.specs.Chart.{chart_responses};

    ghost responses = { chart_responses };

    fn on_line(&mut self, line: &[u8], _out: &mut Vec<u8>) -> Result<Verdict, AllocError> {
        if self.ending.is_some() {
            return Ok(Verdict::Fine);
        }
        if is_skipped(line) {
            self.count();
            return Ok(Verdict::Fine);
        }
        let mut room = [0; MAX_PAYLOAD];
        match read_line(line, &mut room) {
            Err(_) => Ok(self.no_line()),
            Ok(Line::Fabric(config)) => self.make(config),
            Ok(Line::Event(event)) => self.happen(&event),
            Ok(Line::Settle) => self.settle(),
        }
    }

    fn on_long_line(&mut self, _out: &mut Vec<u8>) -> Result<Verdict, AllocError> {
        if self.ending.is_some() {
            return Ok(Verdict::Fine);
        }
        Ok(self.no_line())
    }

    fn on_end(&mut self, out: &mut Vec<u8>) -> Result<Verdict, AllocError> {
        let session = mem::replace(&mut self.session, None);
        put_text(self.alloc, session, &self.ending, out)?;
        Ok(Verdict::Fine)
    }
}
