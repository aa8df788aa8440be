//! A picture of what a search finds, or of the log in place of `none`.
ghost use Rattle.std.specs.Prelude.{◌≡◌, ◌-◌, None, Ok, IfOk, OnErr, Result};
ghost use Rattle.history_words.specs.TraceView.{TraceView};
ghost use Rattle.history_picture.specs.Picture.{picture_text};
ghost use Rattle.record_text.specs.declared.fault.ReadFault.{ReadFault};
ghost use Rattle.log_text.specs.LogReaderView.{seen_of};
ghost use Rattle.search_engine.specs.Bounded.{bounds_of};
ghost use Rattle.search_engine.specs.Drawn.{IsAnswerDrawn, IsLogDrawn, IsPartDrawn, IsWholeDrawn, OutSearchDrawn, whole};
ghost use Rattle.search_engine.specs.Findings.{text_of, IsFinding};

use crate::answering::{Finding, Outcome, OutcomeText, find};
use crate::granularity::Pieces;
use crate::input::read_rest;
use crate::options::SearchDemand;
use crate::outcomes::{fault_outcome, flaw_outcome, given_up_outcome};
use crate::search::{Answer, SearchTask, kept, tell_reason};
use crate::telling::case_of;
use history_picture::{Window, put_picture};
use history_words::Claim;
use line_loop::{EngineFault, write_out};
use log_text::read_seen;
use search_history::Budget;
use search_picture::put_scene;
use search_scene::scene_of;
use std::alloc::{AllocError, Global};
use std::io::{Read, Write};
use std::time::Clock;
use trace_store::TraceStore;

/// The picture of a trace and its history.
fn history_drawn(alloc: Global, store: &TraceStore) -> Result<Vec<u8>, AllocError>
    ensures { IfOk result (λ v. v.items ≡ picture_text whole store.now None) }
{
    let (trace, history) = store.to_owned(alloc)?;
    let window = Window {
        from: 0,
        to: u64::MAX,
    };
    let mut picture = Vec::new(alloc);
    let claim = Claim {
        trace: &trace,
        history: &history,
    };
    put_picture(alloc, &claim, None, window, &mut picture)?;
    Ok(picture)
}

/// The picture of the log of the text, whose first `count` records have no history, and of which these pieces were searched,
/// if any. The log is read again, since a search may set n's.
fn log_drawn(
    alloc: Global,
    text: &[u8],
    count: usize,
    pieces: &Option<Pieces>,
    budget: &mut Budget,
) -> Result<Vec<u8>, AllocError>
    ensures { IfOk result (λ v. (t : TraceView) → seen_of text.now ≡ Ok t → IsLogDrawn text.now t (count - 1) v.items) }
{
    let Ok(log) = read_seen(alloc, text) else {
        return Err(AllocError);
    };
    let scene = scene_of(alloc, text, case_of(&log, count, pieces), budget)?;
    let mut picture = Vec::new(alloc);
    put_scene(alloc, &scene, &mut picture)?;
    Ok(picture)
}

/// What is written where a picture is asked for.
fn outcome_drawn(
    alloc: Global,
    text: &[u8],
    finding: &Finding,
    demand: SearchDemand,
    budget: &mut Budget,
) -> Result<Outcome, AllocError>
    ensures { (r : Result TraceView ReadFault) → IsFinding demand.options.granularity (bounds_of demand) r finding.now → seen_of text.now ≡ r
        → IfOk result (λ o. IsAnswerDrawn demand.options.granularity (bounds_of demand) text.now r (text_of o.text) o.status) }
{
    match finding {
        Finding::Found { store } => {
            let picture = history_drawn(alloc, store)?;
            Ok(Outcome {
                text: OutcomeText::Trace(picture),
                status: 0,
                ending: None,
            })
        }
        Finding::None { prefix, pieces, .. } => {
            let picture = log_drawn(alloc, text, *prefix, pieces, budget)?;
            Ok(Outcome {
                text: OutcomeText::Trace(picture),
                status: 1,
                ending: None,
            })
        }
        Finding::Limit { ending, .. } => Ok(given_up_outcome(demand.bounds(), *ending)),
        Finding::Flaw { flaw, .. } => Ok(flaw_outcome(*flaw)),
        Finding::Fault(misread) => Ok(fault_outcome(misread.fault)),
    }
}

/// The answer to the text, where a picture is asked for.
fn answer_drawn<C: Clock, E: Write>(
    alloc: Global,
    text: Vec<u8>,
    demand: SearchDemand,
    clock: &C,
    errors: &mut E,
) -> Result<Answer, AllocError>
    ensures { IfOk result (λ a. OutSearchDrawn demand.options.granularity (bounds_of demand) text.items (text_of a.outcome.text) a.outcome.status) }
{
    let finding = find(alloc, &text, demand, clock, errors)?;
    let mut budget = Budget::for_reasons(demand.options.limit);
    let outcome = outcome_drawn(alloc, &text, &finding, demand, &mut budget)?;
    let text = kept(text, &finding);
    Ok(Answer {
        outcome,
        finding,
        text,
        budget,
    })
}

/// Does what [`run_search_for`](crate::run_search_for) does, and writes pictures in SVG: of a trace and its history, if one is
/// found, as `draw` draws them; and of the log in place of `none`, with the requests that have to do with its reasons. Any
/// other answer is a line, as there. A log of few answers isn't written, whether or not it is asked for.
pub fn run_search_drawn<C: Clock, R: Read, W: Write, E: Write>(
    alloc: Global,
    task: SearchTask<'_, C>,
    reader: &mut R,
    writer: &mut W,
    errors: &mut E,
) -> Result<u8, EngineFault>
    ensures ok { IfOk result (IsWholeDrawn task.entry.demand.options.granularity (bounds_of task.entry.demand) (R.remaining reader.old)
        (R.remaining reader.new) (W.contents writer.old) (W.contents writer.new)) }
    ensures err { OnErr result (IsPartDrawn task.entry.demand.options.granularity (bounds_of task.entry.demand) (R.remaining reader.old)
        (R.remaining reader.new) (W.contents writer.old) (W.contents writer.new)) }
{
    let SearchTask { demand, clock } = task;
    let text = read_rest(alloc, reader)?;
    let answer = answer_drawn(alloc, text, demand, clock, errors)?;
    write_out(writer, answer.outcome.text.as_slice())?;
    tell_reason(alloc, &answer, demand.options, errors);
    Ok(answer.outcome.status)
}
