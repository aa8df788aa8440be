//! What a search is asked to write.
ghost use Rattle.std.specs.Prelude.{◌≡◌, IfOk, IfErr, option_map};
ghost use Rattle.clap.specs.Words.{first_of, found_of, rows_of};
ghost use Rattle.cli_options.specs.Values.{name_of};
ghost use Rattle.cli_words.specs.Options.{WritesOutput};
ghost use Rattle.cli_words.specs.Refusals.{RefusesOutput};

use crate::reading::{flag_in, given_in};
use clap::ArgMatches;
use cli_options::{RefusedValue, ValueOption};

/// What a search writes.
#[derive(Clone, Copy, PartialEq)]
pub enum SearchOutput {
    /// A trace and a history, or `none`.
    Answer,
    /// In place of `none` a log of few answers, if it is found.
    Core,
    /// A picture of a trace and a history, or, in place of `none`, of the log.
    Picture,
}

/// What the values of `search` ask to write.
pub(crate) fn output_in<'a>(search: &ArgMatches<'a>) -> Result<SearchOutput, RefusedValue<'a>>
    ensures ok { IfOk result (WritesOutput (rows_of (found_of search.now))) }
    ensures err { IfErr result (λ e. RefusesOutput (rows_of (found_of search.now)) e.option) }
    ensures refused { IfErr result (λ e. option_map (λ t. t.now) e.given ≡ first_of (name_of e.option) (rows_of (found_of search.now))) }
{
    match (flag_in(search, "core"), flag_in(search, "draw")) {
        (false, false) => Ok(SearchOutput::Answer),
        (true, false) => Ok(SearchOutput::Core),
        (false, true) => Ok(SearchOutput::Picture),
        (true, true) => Err(RefusedValue {
            option: ValueOption::Draw,
            given: given_in(search, "draw"),
        }),
    }
}
