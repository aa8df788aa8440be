//! What the words of a command line ask for.
ghost use Rattle.std.specs.Prelude.{◌≡◌, IfOk, IfErr, map, true, codes, Some, [], option_map};
ghost use Rattle.clap.specs.Words.{FailsBy, HasKind, fault_of, kind_of, subcommand_of, subcommand_rows_of, has_subcommand, takes, rows_of, found_of, first_of};
ghost use Rattle.cli_options.specs.Values.{name_of};
ghost use Rattle.cli_words.specs.declared.words.Request.{Request};
ghost use Rattle.cli_words.specs.declared.words.RequestFault.TheVariants.{Value};
ghost use Rattle.cli_words.specs.Faults.{WordsFault, RangeFault, ValueFault, IsRefusal};
ghost use Rattle.cli_words.specs.Options.{the_app, text_of, Asks, AsksEndpoint};
ghost use Rattle.cli_words.specs.Refusals.{Refuses, RefusesLink};

use crate::devices::{credits_in, device_in, no_link_in};
use crate::outputs::{SearchOutput, output_in};
use crate::reading::{base_in, flag_in, granularity_in, lane_in, number_in, optional_in, seeds_in};
use crate::subcommands::{Subcommand, grammar, subcommand_named};
use clap::ArgMatches;
use clap::error::ErrorKind;
use cli_options::{RefusedValue, ValueOption, is_set};
use config_core::Setup;
use fabric_core::LaneName;
use linked_engine::FiniteCredits;
use log_pieces::Granularity;
use parameters::{Counting, Storm};
use search_engine::DEFAULT_WORK;
use seq_memory::Extent;
use std::alloc::Global;
use std::convert::AsStr;

/// What the words ask for.
#[derive(Clone, Copy)]
pub enum Request {
    /// The subcommand `tlp`, over a memory in that place.
    Tlp(Extent),
    /// The subcommand `endpoint`, of that device, which may be traced.
    Endpoint {
        setup: Setup,
        is_traced: bool,
    },
    /// The subcommand `endpoint --link`, of that device, which may be traced, and advertises these credits. Packets and DLLPs
    /// may have CRCs.
    Linked {
        setup: Setup,
        is_traced: bool,
        credits: FiniteCredits,
        has_crc: bool,
    },
    /// The subcommand `decode`.
    Decode,
    /// The subcommand `encode`.
    Encode,
    /// The subcommand `check`, which may ask for the `n`, too.
    Check {
        is_clocked: bool,
    },
    /// The subcommand `search`, which looks at so many choices and does so much work at most, lets reads and writes act in
    /// pieces, and may write other than the answer, and tell how far it is.
    Search {
        limit: u64,
        work: u64,
        granularity: Granularity,
        output: SearchOutput,
        is_told: bool,
    },
    /// The subcommand `draw`, of the points of a history from one to another.
    Draw {
        from: u64,
        to: u64,
    },
    /// The subcommand `upgrade`.
    Upgrade,
    /// The subcommand `step`, which tells results, or the trace alone; which may go on after a refusal, and tell each
    /// result after its line.
    Step {
        is_traced: bool,
        keeps_going: bool,
        echoes: bool,
    },
    /// The subcommand `chart`, of the lane alone, if one is given, and of the lines from one to another, with what tells
    /// nothing new, too, or without; one with levels draws those of the lanes.
    Chart {
        lane: Option<LaneName>,
        from: u64,
        to: u64,
        has_all: bool,
        has_levels: bool,
    },
    /// The subcommand `generate`, which writes the script of a storm.
    Generate {
        storm: Storm,
    },
    /// The subcommand `sweep`, of the storms from the first seed to the last, done and checked on so many threads, or as many
    /// as there are processors; which may ask for the `n`, too, and go on after a seed that fails.
    Sweep {
        storm: Storm,
        last: u64,
        is_clocked: bool,
        keeps_going: bool,
        workers: Option<u64>,
    },
    /// The subcommand `run`, which may tell how far it is.
    Run {
        counting: Counting,
        is_told: bool,
    },
}

/// Why the words ask for nothing.
#[derive(Drop)]
pub enum RequestFault<'a> {
    /// What `clap` says of the words, also a text that was asked for, and that memory ran out.
    Words(clap::Error),
    /// An option has a value that it may not have.
    Value(RefusedValue<'a>),
    /// They name none of the subcommands.
    Nothing,
}

impl<'a> From<RefusedValue<'a>> for RequestFault<'a> {
    ghost from_gives = { λ refused fault. fault ≡ Value refused };

    fn from(refused: RefusedValue<'a>) -> RequestFault<'a> {
        RequestFault::Value(refused)
    }
}

/// What the words match.
fn matches_of<'a, S: AsStr>(alloc: Global, words: &'a [S]) -> Result<ArgMatches<'a>, clap::Error>
    ensures there { IfOk result (λ m. has_subcommand m ≡ true) }
    ensures rows { IfOk result (λ m. subcommand_rows_of m ≡ subcommand_of the_app (map S.text words.now)) }
    ensures err { IfErr result (λ e. takes the_app (map S.text words.now) ≡ true → kind_of e ≡ ErrorKind.OutOfMemory) }
    ensures kinds { FailsBy (fault_of the_app (map S.text words.now)) result }
{
    let command = grammar(alloc)?;
    command.try_get_matches_from(words)
}

/// What the values of `tlp` ask for.
fn tlp_of<'a>(tlp: &ArgMatches<'a>) -> Result<Request, RefusedValue<'a>>
    ensures ok { IfOk result (Asks (Some (codes "tlp", rows_of (found_of tlp.now)))) }
    ensures err { IfErr result (Refuses (Some (codes "tlp", rows_of (found_of tlp.now)))) }
{
    let base = base_in(tlp)?;
    let size = number_in(tlp, ValueOption::Size, Some(4096))? as usize;
    let block = number_in(tlp, ValueOption::Block, Some(64))? as u16;
    match Extent::new(base, size, block) {
        Some(extent) => Ok(Request::Tlp(extent)),
        None => Err(RefusedValue {
            option: ValueOption::Base,
            given: tlp.get_str("base"),
        }),
    }
}

/// What the values of `endpoint` ask for, of this device.
fn linked_or_not<'a>(endpoint: &ArgMatches<'a>, setup: Setup) -> Result<Request, RefusedValue<'a>>
    requires { AsksEndpoint (rows_of (found_of endpoint.now)) setup }
    ensures ok { IfOk result (Asks (Some (codes "endpoint", rows_of (found_of endpoint.now)))) }
    ensures err { IfErr result (λ e. RefusesLink (rows_of (found_of endpoint.now)) e.option) }
    ensures refused { IfErr result (λ e. option_map (λ t. t.now) e.given ≡ first_of (name_of e.option) (rows_of (found_of endpoint.now))) }
{
    let is_traced = flag_in(endpoint, "trace");
    if !flag_in(endpoint, "link") {
        no_link_in(endpoint)?;
        return Ok(Request::Endpoint { setup, is_traced });
    }
    let credits = credits_in(endpoint)?;
    Ok(Request::Linked {
        setup,
        is_traced,
        credits,
        has_crc: flag_in(endpoint, "crc"),
    })
}

/// What the values of `endpoint` ask for.
fn endpoint_of<'a>(endpoint: &ArgMatches<'a>) -> Result<Request, RefusedValue<'a>>
    ensures ok { IfOk result (Asks (Some (codes "endpoint", rows_of (found_of endpoint.now)))) }
    ensures err { IfErr result (Refuses (Some (codes "endpoint", rows_of (found_of endpoint.now)))) }
{
    let setup = device_in(endpoint)?;
    linked_or_not(endpoint, setup)
}

/// What the values of `check` ask for.
fn check_of(check: &ArgMatches<'_>) -> Request
    ensures { Asks (Some (codes "check", rows_of (found_of check.now))) result }
{
    Request::Check {
        is_clocked: is_set(check.get_str("clocked")),
    }
}

/// What the values of `search` ask for.
fn search_of<'a>(search: &ArgMatches<'a>) -> Result<Request, RefusedValue<'a>>
    ensures ok { IfOk result (Asks (Some (codes "search", rows_of (found_of search.now)))) }
    ensures err { IfErr result (Refuses (Some (codes "search", rows_of (found_of search.now)))) }
{
    let limit = number_in(search, ValueOption::Limit, Some(1_000_000))?;
    let work = number_in(search, ValueOption::Work, Some(DEFAULT_WORK))?;
    let granularity = granularity_in(search)?;
    let output = output_in(search)?;
    Ok(Request::Search {
        limit,
        work,
        granularity,
        output,
        is_told: is_set(search.get_str("progress")),
    })
}

/// What the values of `draw` ask for.
fn draw_of<'a>(draw: &ArgMatches<'a>) -> Result<Request, RefusedValue<'a>>
    ensures ok { IfOk result (Asks (Some (codes "draw", rows_of (found_of draw.now)))) }
    ensures err { IfErr result (Refuses (Some (codes "draw", rows_of (found_of draw.now)))) }
{
    let from = number_in(draw, ValueOption::From, Some(0))?;
    let to = number_in(draw, ValueOption::To, Some(u64::MAX))?;
    if to < from {
        return Err(RefusedValue {
            option: ValueOption::To,
            given: draw.get_str("to"),
        });
    }
    Ok(Request::Draw { from, to })
}

/// What the values of `chart` ask for.
fn chart_of<'a>(chart: &ArgMatches<'a>) -> Result<Request, RefusedValue<'a>>
    ensures ok { IfOk result (Asks (Some (codes "chart", rows_of (found_of chart.now)))) }
    ensures err { IfErr result (Refuses (Some (codes "chart", rows_of (found_of chart.now)))) }
{
    let lane = lane_in(chart)?;
    let from = number_in(chart, ValueOption::From, Some(1))?;
    let to = number_in(chart, ValueOption::To, Some(u64::MAX))?;
    if to < from {
        return Err(RefusedValue {
            option: ValueOption::To,
            given: chart.get_str("to"),
        });
    }
    Ok(Request::Chart {
        lane,
        from,
        to,
        has_all: is_set(chart.get_str("all")),
        has_levels: is_set(chart.get_str("levels")),
    })
}

/// What the values of `step` ask for.
fn step_of(step: &ArgMatches<'_>) -> Request
    ensures { Asks (Some (codes "step", rows_of (found_of step.now))) result }
{
    Request::Step {
        is_traced: is_set(step.get_str("trace")),
        keeps_going: is_set(step.get_str("keep-going")),
        echoes: is_set(step.get_str("echo")),
    }
}

/// What the values of `generate` ask for.
fn generate_of<'a>(generate: &ArgMatches<'a>) -> Result<Request, RefusedValue<'a>>
    ensures ok { IfOk result (Asks (Some (codes "generate", rows_of (found_of generate.now)))) }
    ensures err { IfErr result (Refuses (Some (codes "generate", rows_of (found_of generate.now)))) }
{
    let seed = number_in(generate, ValueOption::Seed, None)?;
    let events = number_in(generate, ValueOption::Events, None)?;
    let requesters = number_in(generate, ValueOption::Requesters, Some(3))?;
    let lose = number_in(generate, ValueOption::Lose, Some(0))?;
    let corrupt = number_in(generate, ValueOption::Corrupt, Some(0))?;
    let block = match number_in(generate, ValueOption::Block, Some(64)) {
        Ok(block) => block,
        Err(refused) => return Err(refused),
    };
    Ok(Request::Generate {
        storm: Storm {
            seed,
            events,
            requesters,
            lose,
            corrupt,
            block,
        },
    })
}

/// What the values of `sweep` ask for.
fn sweep_of<'a>(sweep: &ArgMatches<'a>) -> Result<Request, RefusedValue<'a>>
    ensures ok { IfOk result (Asks (Some (codes "sweep", rows_of (found_of sweep.now)))) }
    ensures err { IfErr result (Refuses (Some (codes "sweep", rows_of (found_of sweep.now)))) }
{
    let seeds = seeds_in(sweep)?;
    let events = number_in(sweep, ValueOption::Events, None)?;
    let requesters = number_in(sweep, ValueOption::Requesters, Some(3))?;
    let lose = number_in(sweep, ValueOption::Lose, Some(0))?;
    let corrupt = number_in(sweep, ValueOption::Corrupt, Some(0))?;
    let block = match number_in(sweep, ValueOption::Block, Some(64)) {
        Ok(block) => block,
        Err(refused) => return Err(refused),
    };
    let workers = match optional_in(sweep, ValueOption::Workers) {
        Ok(workers) => workers,
        Err(refused) => return Err(refused),
    };
    Ok(Request::Sweep {
        storm: Storm {
            seed: seeds.0,
            events,
            requesters,
            lose,
            corrupt,
            block,
        },
        last: seeds.1,
        is_clocked: is_set(sweep.get_str("clocked")),
        keeps_going: is_set(sweep.get_str("keep-going")),
        workers,
    })
}

/// What the values of `run` ask for.
fn run_of<'a>(run: &ArgMatches<'a>) -> Result<Request, RefusedValue<'a>>
    ensures ok { IfOk result (Asks (Some (codes "run", rows_of (found_of run.now)))) }
    ensures err { IfErr result (Refuses (Some (codes "run", rows_of (found_of run.now)))) }
{
    let requesters = number_in(run, ValueOption::Requesters, None)?;
    let each = number_in(run, ValueOption::Each, None)?;
    let lose = number_in(run, ValueOption::Lose, Some(0))?;
    let corrupt = number_in(run, ValueOption::Corrupt, Some(0))?;
    let turns = number_in(run, ValueOption::Turns, Some(50_000_000))?;
    let workers = match optional_in(run, ValueOption::Workers) {
        Ok(workers) => workers,
        Err(refused) => return Err(refused),
    };
    Ok(Request::Run {
        counting: Counting {
            requesters,
            each,
            lose,
            corrupt,
            turns,
            workers,
        },
        is_told: is_set(run.get_str("progress")),
    })
}

/// What a subcommand with these values asks for.
fn request_of<'a>(
    subcommand: Subcommand,
    values: &ArgMatches<'a>,
) -> Result<Request, RefusedValue<'a>>
    ensures ok { IfOk result (Asks (Some (text_of subcommand, rows_of (found_of values.now)))) }
    ensures err { IfErr result (Refuses (Some (text_of subcommand, rows_of (found_of values.now)))) }
{
    match subcommand {
        Subcommand::Tlp => tlp_of(values),
        Subcommand::Endpoint => endpoint_of(values),
        Subcommand::Decode => Ok(Request::Decode),
        Subcommand::Encode => Ok(Request::Encode),
        Subcommand::Check => Ok(check_of(values)),
        Subcommand::Search => search_of(values),
        Subcommand::Draw => draw_of(values),
        Subcommand::Upgrade => Ok(Request::Upgrade),
        Subcommand::Step => Ok(step_of(values)),
        Subcommand::Chart => chart_of(values),
        Subcommand::Generate => generate_of(values),
        Subcommand::Sweep => sweep_of(values),
        Subcommand::Run => run_of(values),
    }
}

/// What a name with these values asks for.
fn named_request<'a>(name: &str, values: &ArgMatches<'a>) -> Result<Request, RequestFault<'a>>
    ensures ok { IfOk result (Asks (Some (name.now, rows_of (found_of values.now)))) }
    ensures err { IfErr result (IsRefusal (Some (name.now, rows_of (found_of values.now)))) }
{
    match subcommand_named(name) {
        Some(subcommand) => Ok(request_of(subcommand, values)?),
        None => Err(RequestFault::Nothing),
    }
}

/// What the words of a command line ask for, the program's name before them.
pub fn options<'a, S: AsStr>(alloc: Global, words: &'a [S]) -> Result<Request, RequestFault<'a>>
    // What the words ask for.
    ensures ok { IfOk result (Asks (subcommand_of the_app (map S.text words.now))) }

    // They ask for nothing else.
    ensures only { IfOk result (λ r. (other : Request) → Asks (subcommand_of the_app (map S.text words.now)) other → r ≡ other) }

    // Words that ask for something have no fault.
    ensures faultless { IfOk result (λ _. fault_of the_app (map S.text words.now) ≡ []) }

    // The parser's fault comes only at words that it doesn't take, but for memory.
    ensures words { IfErr result (WordsFault (λ e. takes the_app (map S.text words.now) ≡ true → kind_of e ≡ ErrorKind.OutOfMemory)) }

    // It is of a kind that the words' first fault may have.
    ensures kinds { IfErr result (WordsFault (HasKind (fault_of the_app (map S.text words.now)))) }

    // And any other only at values that ask for nothing, in words that have no fault.
    ensures range { IfErr result (RangeFault ((r : Request) → Asks (subcommand_of the_app (map S.text words.now)) r → ⊥)) }
    ensures range_faultless { IfErr result (RangeFault (fault_of the_app (map S.text words.now) ≡ [])) }

    // A value that is told is the first that is refused, as it is written.
    ensures value { IfErr result (ValueFault (Refuses (subcommand_of the_app (map S.text words.now)))) }
{
    let matches = match matches_of(alloc, words) {
        Ok(matches) => matches,
        Err(e) => return Err(RequestFault::Words(e)),
    };
    match matches.subcommand() {
        Some((name, values)) => named_request(name, values),
        None => Err(RequestFault::Nothing),
    }
}
