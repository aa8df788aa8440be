//! A search, by what it is to write.
ghost use Rattle.std.specs.Prelude.{◌≡◌, IfOk, OnErr};
ghost use Rattle.search_engine.specs.declared.options.SearchDemand.{SearchDemand};
ghost use Rattle.cli_commands.specs.Command.{IsWholeAs, IsPartAs};

use cli_words::SearchOutput;
use line_loop::EngineFault;
use search_engine::{
    SearchDemand, SearchOptions, SearchTask, Stages, run_search_drawn, run_search_for,
};
use std::alloc::Global;
use std::io::{Read, Write};
use std::time::Clock;

/// Whether it is told how far a search is.
pub(crate) fn stages_of(is_told: bool, is_terminal: bool) -> Stages {
    if is_told {
        Stages::Shown
    } else if is_terminal {
        Stages::OfLongLogs
    } else {
        Stages::Hidden
    }
}

/// A search, its bounds, and what it is to write.
#[derive(Drop)]
pub(crate) struct Search<'c, C> {
    pub(crate) options: SearchOptions,
    pub(crate) work: u64,
    pub(crate) output: SearchOutput,
    pub(crate) clock: &'c C,
}

/// Does the search, and writes what it is to write.
pub(crate) fn run_search_as<C: Clock, R: Read, W: Write, E: Write>(
    alloc: Global,
    search: Search<'_, C>,
    reader: &mut R,
    writer: &mut W,
    errors: &mut E,
) -> Result<u8, EngineFault>
    ensures ok { IfOk result (IsWholeAs search.entry.output search.entry.options.granularity
        (record { choices = search.entry.options.limit; work = search.entry.work }) (R.remaining reader.old) (R.remaining reader.new)
        (W.contents writer.old) (W.contents writer.new)) }
    ensures err { OnErr result (IsPartAs search.entry.output search.entry.options.granularity
        (record { choices = search.entry.options.limit; work = search.entry.work }) (R.remaining reader.old) (R.remaining reader.new)
        (W.contents writer.old) (W.contents writer.new)) }
{
    let Search {
        options,
        work,
        output,
        clock,
    } = search;
    let demand = SearchDemand {
        options,
        work,
        has_core: output == SearchOutput::Core,
    };
    let task = SearchTask { demand, clock };
    match output {
        SearchOutput::Picture => run_search_drawn(alloc, task, reader, writer, errors),
        SearchOutput::Answer | SearchOutput::Core => {
            run_search_for(alloc, task, reader, writer, errors)
        }
    }
}
