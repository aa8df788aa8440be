//! What is answered to a text.
ghost use Rattle.std.specs.Prelude.{◌≡◌, false, IfOk, OnErr, None, Result, Ok};
ghost use Rattle.log_pieces.specs.declared.Granularity.{Granularity};
ghost use Rattle.history_words.specs.TraceView.{TraceView};
ghost use Rattle.record_text.specs.declared.fault.ReadFault.{ReadFault};
ghost use Rattle.trace_text.specs.Texts.{trace_text};
ghost use Rattle.log_text.specs.LogReaderView.{seen_of};
ghost use Rattle.search_engine.specs.Bounded.{bounds_of, within, TellsEnding};
ghost use Rattle.search_engine.specs.Findings.{is_memory, text_of, IsFinding, IsFindingOf};
ghost use Rattle.search_engine.specs.Search.{IsAnswerTo, OutSearchFor, WantsMemory};

use crate::ending::Ending;
use crate::flaws::judged;
use crate::granularity::Pieces;
use crate::lines::none_text;
use crate::options::{SearchDemand, SearchOptions};
use crate::outcomes::{fault_outcome, flaw_outcome, given_up_outcome};
use crate::stages::{NoClock, Progress};
use crate::telling::{Telling, tell};
use arrayvec::ArrayString;
use history_words::{AsClaim, Flaw};
use log_text::{no_fault_is_out_of_memory, read_seen_with_cause};
use record_text::{Misread, ReadFaultKind};
use search_history::{Bounds, Budget, Sought, Spot, search_watched};
use std::alloc::{AllocError, Global};
use std::io::{Write, sink};
use std::time::Clock;
use trace_store::{RecordStore, TraceStore};
use trace_text::write_trace;

/// The exit status of a search that was given up.
pub const LIMIT_STATUS: u8 = 3;

/// What came of a text.
#[derive(Drop)]
pub(crate) enum Finding {
    /// A log with n's, and a history that explains it.
    Found {
        store: TraceStore,
    },
    /// A log of which so many records have no history, and where it was searched in pieces, those.
    None {
        seen: RecordStore,
        prefix: usize,
        pieces: Option<Pieces>,
    },
    /// A log of which nothing is known, what ended the search, the farthest choice that was looked at, and the pieces that
    /// were searched.
    Limit {
        seen: RecordStore,
        ending: Ending,
        far: Option<Spot>,
        pieces: Option<Pieces>,
    },
    /// A log with a bookkeeping mistake, and the first one.
    Flaw {
        seen: RecordStore,
        flaw: Flaw,
    },
    /// A text that can't be read.
    Fault(Misread),
}

/// What is written: a line, for which no memory is needed, or the text of a trace.
#[derive(Drop)]
pub enum OutcomeText {
    Line(ArrayString<512>),
    Trace(Vec<u8>),
}

impl OutcomeText {
    pub fn as_slice(&self) -> &[u8]
        ensures { result.now ≡ text_of self.now }
    {
        match self {
            OutcomeText::Line(line) => line.as_bytes(),
            OutcomeText::Trace(text) => text.as_slice(),
        }
    }
}

/// What is written of a text, and the exit status.
#[derive(Drop)]
pub struct Outcome {
    pub text: OutcomeText,
    pub status: u8,
    /// What ended the search, if it was given up.
    pub ending: Option<Ending>,
}

/// Nothing is known of the log.
fn given_up(seen: RecordStore, ending: Ending, far: Option<Spot>) -> Finding
    ensures { result ≡ Finding.Limit seen ending far None }
{
    Finding::Limit {
        seen,
        ending,
        far,
        pieces: None,
    }
}

/// Looks for a history.
pub(crate) fn sought<C: Clock, E: Write>(
    alloc: Global,
    seen: RecordStore,
    demand: SearchDemand,
    clock: &C,
    errors: &mut E,
) -> Result<Finding, AllocError>
    ensures { IfOk result (IsFindingOf Granularity.Whole (bounds_of demand) seen) }
{
    let mut progress = Progress::new(demand, seen.len(), clock, errors);
    let bounds = demand.bounds();
    let mut store = TraceStore::of(alloc, seen);
    let (sought, choices, work) = search_watched(alloc, &mut store, bounds, &mut progress)?;
    progress.end(choices);
    let far = progress.far();
    match sought {
        Sought::Found => {
            // Their number has 64 bits, so each n has.
            let _entries = store.entries();
            Ok(Finding::Found { store })
        }
        Sought::None { prefix } => Ok(Finding::None {
            seen: store.into_seen(),
            prefix,
            pieces: None,
        }),
        Sought::Limit(bound) => {
            let ending = Ending {
                bound,
                choices,
                work,
            };
            Ok(given_up(store.into_seen(), ending, far))
        }
    }
}

fn is_memory(kind: ReadFaultKind) -> bool
    ensures { result ≡ is_memory kind }
{
    matches!(kind, ReadFaultKind::Memory)
}

/// Reads the text, and looks for a history.
pub(crate) fn find<C: Clock, E: Write>(
    alloc: Global,
    text: &[u8],
    demand: SearchDemand,
    clock: &C,
    errors: &mut E,
) -> Result<Finding, AllocError>
    ensures ok { IfOk result (IsFinding demand.options.granularity (bounds_of demand) (seen_of text.now)) }
    ensures err { OnErr result (WantsMemory text.now) }
{
    no_fault_is_out_of_memory();
    match read_seen_with_cause(alloc, text) {
        Ok(seen) => judged(alloc, seen, demand, clock, errors),
        Err(misread) if is_memory(misread.fault.kind) => Err(AllocError),
        Err(misread) => Ok(Finding::Fault(misread)),
    }
}

/// The text of a trace and its history.
fn found_text(alloc: Global, store: &TraceStore) -> Result<Vec<u8>, AllocError>
    ensures { IfOk result (λ v. v.items ≡ trace_text store.now) }
{
    let text = write_trace(alloc, store)?;
    Ok(text.into_bytes())
}

/// What is written of what came of a text.
pub(crate) fn outcome_of(
    alloc: Global,
    finding: &Finding,
    bounds: Bounds,
) -> Result<Outcome, AllocError>
    ensures ok { (size : Granularity) (r : Result TraceView ReadFault) → IsFinding size bounds r finding.now →
        IfOk result (λ o. IsAnswerTo false size bounds r (text_of o.text) o.status) }
    ensures err { (size : Granularity) (r : Result TraceView ReadFault) → IsFinding size bounds r finding.now → OnErr result ((t : TraceView) × (r ≡ Ok t)) }
    ensures ending { (size : Granularity) (r : Result TraceView ReadFault) → IsFinding size bounds r finding.now →
        IfOk result (λ o. TellsEnding bounds o.ending (text_of o.text) o.status) }
{
    match finding {
        Finding::Found { store } => {
            let text = found_text(alloc, store)?;
            Ok(Outcome {
                text: OutcomeText::Trace(text),
                status: 0,
                ending: None,
            })
        }
        Finding::None { prefix, .. } => {
            let line = none_text(prefix.saturating_sub(1));
            Ok(Outcome {
                text: OutcomeText::Line(line),
                status: 1,
                ending: None,
            })
        }
        Finding::Limit { ending, .. } => Ok(given_up_outcome(bounds, *ending)),
        Finding::Flaw { flaw, .. } => Ok(flaw_outcome(*flaw)),
        Finding::Fault(misread) => Ok(fault_outcome(misread.fault)),
    }
}

/// The answer to the text of a log or a trace: a trace with a history that explains what was seen, and
/// status 0; `none` and the place of a record up to which no history explains it, `flaw` with the first
/// bookkeeping mistake and its place, or `fault` with the line that can't be read and why, and status 1; or
/// `limit` and the limit, or `work` and the work, and status 3, where it looked at that many choices, or before that used up
/// the work. It looks at no more choices; work of `u64::MAX` has no bound. Fails where memory can't be allocated; nothing is
/// known then. A text whose first fault comes before its records and entries needs none.
pub fn answer_of(alloc: Global, text: &[u8], limit: u64, work: u64) -> Result<Outcome, AllocError>
    ensures ok { IfOk result (λ o. OutSearchFor false Granularity.Whole (within limit work) text.now (text_of o.text) o.status) }
    ensures err { OnErr result (WantsMemory text.now) }
    ensures ending { IfOk result (λ o. TellsEnding (within limit work) o.ending (text_of o.text) o.status) }
{
    let options = SearchOptions::of_whole_requests(limit);
    let demand = options.within(work);
    let finding = find(alloc, text, demand, &NoClock, &mut sink())?;
    outcome_of(alloc, &finding, demand.bounds())
}

/// What [`answer_of`] returns, for a history of pieces of the size that is asked for. Once it is known, adds to `reasons`
/// the lines that tell why there is no history, or why the text can't be read, as far as there is memory for them.
pub fn answer_with_reasons(
    alloc: Global,
    text: &[u8],
    options: SearchOptions,
    work: u64,
    reasons: &mut Vec<u8>,
) -> Result<Outcome, AllocError>
    ensures ok { IfOk result (λ o. OutSearchFor false options.granularity (within options.limit work) text.now (text_of o.text) o.status) }
    ensures err { OnErr result (WantsMemory text.now) }
    ensures ending { IfOk result (λ o. TellsEnding (within options.limit work) o.ending (text_of o.text) o.status) }
{
    let demand = options.within(work);
    let finding = find(alloc, text, demand, &NoClock, &mut sink())?;
    let outcome = outcome_of(alloc, &finding, demand.bounds())?;
    let telling = Telling {
        budget: Budget::for_reasons(options.limit),
        hints_at_progress: false,
    };
    tell(alloc, text, &finding, telling, reasons);
    Ok(outcome)
}
