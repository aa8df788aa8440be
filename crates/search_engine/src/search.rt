//! The subcommand `search`.
ghost use Rattle.std.specs.Prelude.{IfOk, OnErr, Result};
ghost use Rattle.history_words.specs.TraceView.{TraceView};
ghost use Rattle.record_text.specs.declared.fault.ReadFault.{ReadFault};
ghost use Rattle.search_engine.specs.Bounded.{bounds_of, TellsEnding};
ghost use Rattle.search_engine.specs.Findings.{text_of, IsFinding};
ghost use Rattle.search_engine.specs.Search.{IsAnswerTo, IsWhole, IsWholeFor, IsWholeWith, IsPart, IsPartFor, IsPartWith, OutSearchFor};

use crate::answering::{Finding, Outcome, OutcomeText, find, outcome_of};
use crate::cores::core_text;
use crate::input::read_rest;
use crate::options::{SearchDemand, SearchOptions};
use crate::stages::{NoClock, Stages};
use crate::telling::{Telling, tell};
use line_loop::{EngineFault, write_out};
use search_history::Budget;
use std::alloc::{AllocError, Global};
use std::io::{Read, Write, sink};
use std::time::Clock;

/// The text, if it is needed to tell why there is no history, how far the search came, or what is wrong with it.
pub(crate) fn kept(text: Vec<u8>, finding: &Finding) -> Option<Vec<u8>> {
    match finding {
        Finding::Found { .. } => None,
        _ => Some(text),
    }
}

/// The answer to a text, and what its reason is told by.
#[derive(Drop)]
pub(crate) struct Answer {
    pub(crate) outcome: Outcome,
    pub(crate) finding: Finding,
    pub(crate) text: Option<Vec<u8>>,
    /// What its reason may take.
    pub(crate) budget: Budget,
}

/// What is written of what came of a text: a log of few answers without a history in place of `none`, if it is asked for and
/// found.
fn outcome_with_core(
    alloc: Global,
    finding: &Finding,
    demand: SearchDemand,
    budget: &mut Budget,
) -> Result<Outcome, AllocError>
    ensures answers { (r : Result TraceView ReadFault) → IsFinding demand.options.granularity (bounds_of demand) r finding.now →
        IfOk result (λ o. IsAnswerTo demand.has_core demand.options.granularity (bounds_of demand) r (text_of o.text) o.status) }
    ensures ending { (r : Result TraceView ReadFault) → IsFinding demand.options.granularity (bounds_of demand) r finding.now →
        IfOk result (λ o. TellsEnding (bounds_of demand) o.ending (text_of o.text) o.status) }
{
    let core = core_text(alloc, finding, demand, budget)?;
    match core {
        Some(text) => Ok(Outcome {
            text: OutcomeText::Trace(text),
            status: 1,
            ending: None,
        }),
        None => outcome_of(alloc, finding, demand.bounds()),
    }
}

/// The answer to the text.
fn answered<C: Clock, E: Write>(
    alloc: Global,
    text: Vec<u8>,
    demand: SearchDemand,
    clock: &C,
    errors: &mut E,
) -> Result<Answer, AllocError>
    ensures answers { IfOk result (λ a. OutSearchFor demand.has_core demand.options.granularity (bounds_of demand) text.items
        (text_of a.outcome.text) a.outcome.status) }
    ensures ending { IfOk result (λ a. TellsEnding (bounds_of demand) a.outcome.ending (text_of a.outcome.text) a.outcome.status) }
{
    let finding = find(alloc, &text, demand, clock, errors)?;
    let text = kept(text, &finding);
    let mut budget = Budget::for_reasons(demand.options.limit);
    let outcome = outcome_with_core(alloc, &finding, demand, &mut budget)?;
    Ok(Answer {
        outcome,
        finding,
        text,
        budget,
    })
}

/// A search that is asked for, and the clock by which it is told how far it is.
#[derive(Drop)]
pub struct SearchTask<'c, C> {
    pub demand: SearchDemand,
    pub clock: &'c C,
}

/// Tells the reason of the answer.
pub(crate) fn tell_reason<E: Write>(
    alloc: Global,
    answer: &Answer,
    options: SearchOptions,
    errors: &mut E,
) {
    let telling = Telling {
        budget: answer.budget,
        hints_at_progress: matches!(options.stages, Stages::Hidden),
    };
    if let Some(text) = &answer.text {
        tell(alloc, text, &answer.finding, telling, errors);
    }
}

/// Does what [`run_search_with`] does, within the bounds: where the work ended the search before it looked at as many choices
/// as it may, it writes `work` with the work that was allowed, with status 3. In place of `none` it writes a log of few answers
/// that has no history, if that is asked for and found. How many choices were looked at is also told while the search goes
/// on: after about two seconds by the clock, and then in pauses that are twice as long each time, 16 seconds at most.
pub fn run_search_for<C: Clock, R: Read, W: Write, E: Write>(
    alloc: Global,
    task: SearchTask<'_, C>,
    reader: &mut R,
    writer: &mut W,
    errors: &mut E,
) -> Result<u8, EngineFault>
    ensures ok { IfOk result (IsWholeFor task.entry.demand.has_core task.entry.demand.options.granularity (bounds_of task.entry.demand)
        (R.remaining reader.old) (R.remaining reader.new) (W.contents writer.old) (W.contents writer.new)) }
    ensures err { OnErr result (IsPartFor task.entry.demand.has_core task.entry.demand.options.granularity (bounds_of task.entry.demand)
        (R.remaining reader.old) (R.remaining reader.new) (W.contents writer.old) (W.contents writer.new)) }
{
    let SearchTask { demand, clock } = task;
    let text = read_rest(alloc, reader)?;
    let answer = answered(alloc, text, demand, clock, errors)?;
    write_out(writer, answer.outcome.text.as_slice())?;
    tell_reason(alloc, &answer, demand.options, errors);
    Ok(answer.outcome.status)
}

/// Does what [`run_search_with_reasons`] does, for a history of pieces: each read and write acts in naturally aligned
/// pieces of the size that is asked for. A trace that is written is of pieces; places and reasons name the records and
/// lines of what was read. Before the answer it tells on `errors` how far the search is, if that is asked for: how many
/// records were read, and at the end how many choices were looked at.
pub fn run_search_with<R: Read, W: Write, E: Write>(
    alloc: Global,
    options: SearchOptions,
    reader: &mut R,
    writer: &mut W,
    errors: &mut E,
) -> Result<u8, EngineFault>
    ensures ok { IfOk result (IsWholeWith options.granularity options.limit (R.remaining reader.old) (R.remaining reader.new) (W.contents writer.old)
        (W.contents writer.new)) }
    ensures err { OnErr result (IsPartWith options.granularity options.limit (R.remaining reader.old) (R.remaining reader.new)
        (W.contents writer.old) (W.contents writer.new)) }
{
    let task = SearchTask {
        demand: options.plain(),
        clock: &NoClock,
    };
    run_search_for(alloc, task, reader, writer, errors)
}

/// Does what [`run_search`] does. Once the answer is written and flushed, it tells on `errors` why there is no
/// history, what the first bookkeeping mistake is, or why the input can't be read.
pub fn run_search_with_reasons<R: Read, W: Write, E: Write>(
    alloc: Global,
    limit: u64,
    reader: &mut R,
    writer: &mut W,
    errors: &mut E,
) -> Result<u8, EngineFault>
    ensures ok { IfOk result (IsWhole limit (R.remaining reader.old) (R.remaining reader.new) (W.contents writer.old) (W.contents writer.new)) }
    ensures err { OnErr result (IsPart limit (R.remaining reader.old) (R.remaining reader.new) (W.contents writer.old) (W.contents writer.new)) }
{
    let options = SearchOptions::of_whole_requests(limit);
    run_search_with(alloc, options, reader, writer, errors)
}

/// Reads a log, or a trace whose n's and history say nothing, and writes the answer: a trace with a history
/// that explains what was seen; or one line: `none` with the place of a record up to which no history
/// explains it, `limit` with the limit, where it looked at that many choices, `flaw` with the first bookkeeping mistake
/// and its place, or `fault` with the line that can't be read and why. It looks at no more choices, and its work has no
/// bound. `Ok` is the exit status: 0 for a trace, 3 for `limit`, else 1. After an `Err` what was written is a prefix of an
/// answer.
pub fn run_search<R: Read, W: Write>(
    alloc: Global,
    limit: u64,
    reader: &mut R,
    writer: &mut W,
) -> Result<u8, EngineFault>
    ensures ok { IfOk result (IsWhole limit (R.remaining reader.old) (R.remaining reader.new) (W.contents writer.old) (W.contents writer.new)) }
    ensures err { OnErr result (IsPart limit (R.remaining reader.old) (R.remaining reader.new) (W.contents writer.old) (W.contents writer.new)) }
{
    run_search_with_reasons(alloc, limit, reader, writer, &mut sink())
}
