//! The subcommands, and the command line's grammar.
ghost use Rattle.std.specs.Prelude.{◌≡◌, IfOk, IfSome, IfNone, false, map, fold};
ghost use Rattle.clap.specs.Words.{app_of, new_app, with_rule, with_subcommand};
ghost use Rattle.clap.specs.Walk.{rule_of};
ghost use Rattle.clap.specs.declared.builder.Command.TheViews.{out-Command};
ghost use Rattle.cli_words.specs.declared.subcommands.Subcommand.{Subcommand};
ghost use Rattle.cli_words.specs.Options.{the_app, text_of, top_app, subcommand_app, and_subcommand, option_rule};

use crate::texts;
use crate::texts::Help;
use clap::{Arg, ArgAction, Command};
use std::alloc::{AllocError, Global};

/// The subcommands.
#[derive(Clone, Copy)]
pub(crate) enum Subcommand {
    Tlp,
    Endpoint,
    Decode,
    Encode,
    Check,
    Search,
    Draw,
    Upgrade,
    Step,
    Chart,
    Generate,
    Sweep,
    Run,
}

/// The subcommand of this name.
pub(crate) fn subcommand_named(name: &str) -> Option<Subcommand>
    ensures some { IfSome result (λ s. name.now ≡ text_of s) }
    ensures none { IfNone result ((s : Subcommand) → name.now ≡ text_of s → ⊥) }
{
    if name == "tlp" {
        Some(Subcommand::Tlp)
    } else if name == "endpoint" {
        Some(Subcommand::Endpoint)
    } else if name == "decode" {
        Some(Subcommand::Decode)
    } else if name == "encode" {
        Some(Subcommand::Encode)
    } else if name == "check" {
        Some(Subcommand::Check)
    } else if name == "search" {
        Some(Subcommand::Search)
    } else if name == "draw" {
        Some(Subcommand::Draw)
    } else if name == "upgrade" {
        Some(Subcommand::Upgrade)
    } else if name == "step" {
        Some(Subcommand::Step)
    } else if name == "chart" {
        Some(Subcommand::Chart)
    } else if name == "generate" {
        Some(Subcommand::Generate)
    } else if name == "sweep" {
        Some(Subcommand::Sweep)
    } else if name == "run" {
        Some(Subcommand::Run)
    } else {
        None
    }
}

/// An option of a subcommand: its name, then the name of its value if it takes one, then its help.
#[derive(Clone, Copy)]
pub(crate) enum CommandOption {
    /// It takes no value.
    Flag(&'static str, &'static str),
    /// It takes no value, changes nothing, and stands in no help: an option of an earlier version.
    Kept(&'static str),
    /// It takes a value.
    Value(&'static str, &'static str, &'static str),
    /// It takes a value, and has to be given.
    Required(&'static str, &'static str, &'static str),
}

/// How often links lose a packet or a DLLP, in `generate`, `sweep` and `run`.
const LOSE: CommandOption = CommandOption::Value("lose", "COUNT", texts::LOSE);

/// How often they corrupt one.
const CORRUPT: CommandOption = CommandOption::Value("corrupt", "COUNT", texts::CORRUPT);

/// An option as clap takes it.
fn arg_of<'a>(alloc: Global, option: &CommandOption) -> Arg<'a>
    ensures rule { rule_of result ≡ option_rule option.now }
    ensures local { result.global ≡ false }
{
    match *option {
        CommandOption::Flag(name, help) => Arg::new(alloc, name)
            .long(name)
            .action(ArgAction::SetTrue)
            .help(help),
        CommandOption::Kept(name) => Arg::new(alloc, name)
            .long(name)
            .action(ArgAction::SetTrue)
            .hide(true),
        CommandOption::Value(name, value, help) => Arg::new(alloc, name)
            .long(name)
            .value_name(value)
            .help(help),
        CommandOption::Required(name, value, help) => Arg::new(alloc, name)
            .long(name)
            .value_name(value)
            .help(help)
            .required(true),
    }
}

/// The command with an argument more.
fn with_arg<'a>(command: Command<'a>, arg: Arg<'a>) -> Result<Command<'a>, AllocError>
    requires globals { (out-Command command).has_globals ≡ false }
    requires local { arg.global ≡ false }
    ensures app { IfOk result (λ c. app_of c ≡ with_rule (app_of command.entry) (rule_of arg.entry)) }
    ensures globals { IfOk result (λ c. (out-Command c).has_globals ≡ false) }
{
    command.arg(arg)
}

/// The command with these options behind those that it has.
fn with_options<'a>(
    alloc: Global,
    command: Command<'a>,
    options: &[CommandOption],
) -> Result<Command<'a>, AllocError>
    requires globals { (out-Command command).has_globals ≡ false }
    ensures app { IfOk result (λ c. app_of c ≡ fold with_rule (app_of command.entry) (map option_rule options.now)) }
    ensures globals { IfOk result (λ c. (out-Command c).has_globals ≡ false) }
{
    match options {
        [] => Ok(command),
        [first, rest @ ..] => {
            let more = with_arg(command, arg_of(alloc, first))?;
            with_options(alloc, more, rest)
        }
    }
}

/// The command with a subcommand more.
fn with_command<'a>(top: Command<'a>, command: Command<'a>) -> Result<Command<'a>, AllocError>
    requires top { (out-Command top).has_globals ≡ false }
    requires globals { (out-Command command).has_globals ≡ false }
    ensures app { IfOk result (λ c. app_of c ≡ with_subcommand (app_of top.entry) (app_of command.entry).top) }
    ensures globals { IfOk result (λ c. (out-Command c).has_globals ≡ false) }
{
    top.subcommand(command)
}

/// A subcommand without options.
fn plain_command<'a>(alloc: Global, name: &'a str, help: Help) -> Command<'a>
    ensures app { app_of result ≡ new_app name.entry.now }
    ensures globals { (out-Command result).has_globals ≡ false }
{
    Command::new(alloc, name)
        .about(help.about)
        .long_about(help.long)
        .after_long_help(help.example)
}

/// The subcommand `tlp`.
fn tlp_command<'a>(alloc: Global) -> Result<Command<'a>, AllocError>
    ensures app { IfOk result (λ c. app_of c ≡ subcommand_app Subcommand.Tlp) }
    ensures globals { IfOk result (λ c. (out-Command c).has_globals ≡ false) }
{
    let options = [
        CommandOption::Value("base", "ADDRESS", texts::BASE),
        CommandOption::Value("size", "BYTES", texts::SIZE),
        CommandOption::Value("block", "BYTES", texts::BLOCK),
    ];
    with_options(alloc, plain_command(alloc, "tlp", texts::TLP), &options)
}

/// The subcommand `endpoint`.
fn endpoint_command<'a>(alloc: Global) -> Result<Command<'a>, AllocError>
    ensures app { IfOk result (λ c. app_of c ≡ subcommand_app Subcommand.Endpoint) }
    ensures globals { IfOk result (λ c. (out-Command c).has_globals ≡ false) }
{
    let options = [
        CommandOption::Value("size", "BYTES", texts::MEMORY),
        CommandOption::Value("id", "IDS", texts::ID),
        CommandOption::Flag("trace", texts::RECORD),
        CommandOption::Flag("link", texts::LINK),
        CommandOption::Flag("crc", texts::CRC),
        CommandOption::Value("credits", "CREDITS", texts::CREDITS),
    ];
    with_options(
        alloc,
        plain_command(alloc, "endpoint", texts::ENDPOINT),
        &options,
    )
}

/// The subcommand `step`.
fn step_command<'a>(alloc: Global) -> Result<Command<'a>, AllocError>
    ensures app { IfOk result (λ c. app_of c ≡ subcommand_app Subcommand.Step) }
    ensures globals { IfOk result (λ c. (out-Command c).has_globals ≡ false) }
{
    let options = [
        CommandOption::Flag("trace", texts::TRACE),
        CommandOption::Flag("keep-going", texts::KEEP_GOING),
        CommandOption::Flag("echo", texts::ECHO),
    ];
    with_options(alloc, plain_command(alloc, "step", texts::STEP), &options)
}

/// The subcommand `check`.
fn check_command<'a>(alloc: Global) -> Result<Command<'a>, AllocError>
    ensures app { IfOk result (λ c. app_of c ≡ subcommand_app Subcommand.Check) }
    ensures globals { IfOk result (λ c. (out-Command c).has_globals ≡ false) }
{
    let options = [CommandOption::Flag("clocked", texts::CLOCKED)];
    with_options(alloc, plain_command(alloc, "check", texts::CHECK), &options)
}

/// The subcommand `search`.
fn search_command<'a>(alloc: Global) -> Result<Command<'a>, AllocError>
    ensures app { IfOk result (λ c. app_of c ≡ subcommand_app Subcommand.Search) }
    ensures globals { IfOk result (λ c. (out-Command c).has_globals ≡ false) }
{
    let options = [
        CommandOption::Value("limit", "CHOICES", texts::LIMIT),
        CommandOption::Value("work", "WORK", texts::WORK),
        CommandOption::Value("granularity", "BYTES", texts::GRANULARITY),
        CommandOption::Flag("core", texts::CORE),
        CommandOption::Flag("draw", texts::PICTURE),
        CommandOption::Flag("progress", texts::STAGES),
    ];
    with_options(
        alloc,
        plain_command(alloc, "search", texts::SEARCH),
        &options,
    )
}

/// The subcommand `draw`.
fn draw_command<'a>(alloc: Global) -> Result<Command<'a>, AllocError>
    ensures app { IfOk result (λ c. app_of c ≡ subcommand_app Subcommand.Draw) }
    ensures globals { IfOk result (λ c. (out-Command c).has_globals ≡ false) }
{
    let options = [
        CommandOption::Value("from", "POINT", texts::FROM),
        CommandOption::Value("to", "POINT", texts::TO),
    ];
    with_options(alloc, plain_command(alloc, "draw", texts::DRAW), &options)
}

/// The subcommand `chart`.
fn chart_command<'a>(alloc: Global) -> Result<Command<'a>, AllocError>
    ensures app { IfOk result (λ c. app_of c ≡ subcommand_app Subcommand.Chart) }
    ensures globals { IfOk result (λ c. (out-Command c).has_globals ≡ false) }
{
    let options = [
        CommandOption::Value("lane", "NAME", texts::LANE),
        CommandOption::Value("from", "LINE", texts::FIRST_LINE),
        CommandOption::Value("to", "LINE", texts::LAST_LINE),
        CommandOption::Flag("all", texts::ALL),
        CommandOption::Kept("brief"),
        CommandOption::Flag("levels", texts::LEVELS),
    ];
    with_options(alloc, plain_command(alloc, "chart", texts::CHART), &options)
}

/// The subcommand `generate`.
fn generate_command<'a>(alloc: Global) -> Result<Command<'a>, AllocError>
    ensures app { IfOk result (λ c. app_of c ≡ subcommand_app Subcommand.Generate) }
    ensures globals { IfOk result (λ c. (out-Command c).has_globals ≡ false) }
{
    let options = [
        CommandOption::Required("seed", "NUMBER", texts::SEED),
        CommandOption::Required("events", "COUNT", texts::EVENTS),
        CommandOption::Value("requesters", "COUNT", texts::SOME_REQUESTERS),
        LOSE,
        CORRUPT,
        CommandOption::Value("block", "BYTES", texts::BLOCK),
    ];
    with_options(
        alloc,
        plain_command(alloc, "generate", texts::GENERATE),
        &options,
    )
}

/// The subcommand `sweep`.
fn sweep_command<'a>(alloc: Global) -> Result<Command<'a>, AllocError>
    ensures app { IfOk result (λ c. app_of c ≡ subcommand_app Subcommand.Sweep) }
    ensures globals { IfOk result (λ c. (out-Command c).has_globals ≡ false) }
{
    let options = [
        CommandOption::Required("seeds", "SEEDS", texts::SEEDS),
        CommandOption::Required("events", "COUNT", texts::EVENTS),
        CommandOption::Value("requesters", "COUNT", texts::SOME_REQUESTERS),
        LOSE,
        CORRUPT,
        CommandOption::Value("block", "BYTES", texts::BLOCK),
        CommandOption::Flag("clocked", texts::WITH_CLOCK),
        CommandOption::Flag("keep-going", texts::MORE_SEEDS),
        CommandOption::Value("workers", "COUNT", texts::THREADS),
    ];
    with_options(alloc, plain_command(alloc, "sweep", texts::SWEEP), &options)
}

/// The subcommand `run`.
fn run_command<'a>(alloc: Global) -> Result<Command<'a>, AllocError>
    ensures app { IfOk result (λ c. app_of c ≡ subcommand_app Subcommand.Run) }
    ensures globals { IfOk result (λ c. (out-Command c).has_globals ≡ false) }
{
    let options = [
        CommandOption::Required("requesters", "COUNT", texts::REQUESTERS),
        CommandOption::Required("each", "COUNT", texts::EACH),
        LOSE,
        CORRUPT,
        CommandOption::Value("turns", "COUNT", texts::TURNS),
        CommandOption::Value("workers", "COUNT", texts::WORKERS),
        CommandOption::Flag("progress", texts::PROGRESS),
    ];
    with_options(alloc, plain_command(alloc, "run", texts::RUN), &options)
}

/// The program without subcommands but `help`. Its name in a usage line is `pciex`, whatever its file is called.
fn top_command<'a>(alloc: Global) -> Result<Command<'a>, AllocError>
    ensures app { IfOk result (λ c. app_of c ≡ top_app) }
    ensures globals { IfOk result (λ c. (out-Command c).has_globals ≡ false) }
{
    let command = Command::new(alloc, "pciex")
        .about(texts::ABOUT)
        .after_help(texts::AFTER)
        .version("0.2.0")
        .subcommand_required(true);
    command.bin_name("pciex")
}

/// A subcommand with its options.
fn command_of<'a>(alloc: Global, subcommand: Subcommand) -> Result<Command<'a>, AllocError>
    ensures app { IfOk result (λ c. app_of c ≡ subcommand_app subcommand) }
    ensures globals { IfOk result (λ c. (out-Command c).has_globals ≡ false) }
{
    match subcommand {
        Subcommand::Tlp => tlp_command(alloc),
        Subcommand::Endpoint => endpoint_command(alloc),
        Subcommand::Decode => Ok(plain_command(alloc, "decode", texts::DECODE)),
        Subcommand::Encode => Ok(plain_command(alloc, "encode", texts::ENCODE)),
        Subcommand::Check => check_command(alloc),
        Subcommand::Search => search_command(alloc),
        Subcommand::Draw => draw_command(alloc),
        Subcommand::Upgrade => Ok(plain_command(alloc, "upgrade", texts::UPGRADE)),
        Subcommand::Step => step_command(alloc),
        Subcommand::Chart => chart_command(alloc),
        Subcommand::Generate => generate_command(alloc),
        Subcommand::Sweep => sweep_command(alloc),
        Subcommand::Run => run_command(alloc),
    }
}

/// The program with this subcommand behind those that it has.
fn and_subcommand<'a>(
    alloc: Global,
    top: Command<'a>,
    subcommand: Subcommand,
) -> Result<Command<'a>, AllocError>
    requires globals { (out-Command top).has_globals ≡ false }
    ensures app { IfOk result (λ c. app_of c ≡ and_subcommand (app_of top.entry) subcommand) }
    ensures globals { IfOk result (λ c. (out-Command c).has_globals ≡ false) }
{
    let command = command_of(alloc, subcommand)?;
    with_command(top, command)
}

/// The program with these subcommands behind those that it has.
fn with_subcommands<'a>(
    alloc: Global,
    top: Command<'a>,
    subcommands: &[Subcommand],
) -> Result<Command<'a>, AllocError>
    requires globals { (out-Command top).has_globals ≡ false }
    ensures app { IfOk result (λ c. app_of c ≡ fold and_subcommand (app_of top.entry) subcommands.now) }
    ensures globals { IfOk result (λ c. (out-Command c).has_globals ≡ false) }
{
    match subcommands {
        [] => Ok(top),
        [first, rest @ ..] => {
            let more = and_subcommand(alloc, top, *first)?;
            with_subcommands(alloc, more, rest)
        }
    }
}

/// The subcommands, in the order of the program's help.
const SUBCOMMANDS: [Subcommand; 13] = [
    Subcommand::Tlp,
    Subcommand::Endpoint,
    Subcommand::Decode,
    Subcommand::Encode,
    Subcommand::Check,
    Subcommand::Search,
    Subcommand::Draw,
    Subcommand::Upgrade,
    Subcommand::Step,
    Subcommand::Chart,
    Subcommand::Generate,
    Subcommand::Sweep,
    Subcommand::Run,
];

/// The command line's grammar.
pub(crate) fn grammar<'a>(alloc: Global) -> Result<Command<'a>, AllocError>
    ensures app { IfOk result (λ c. app_of c ≡ the_app) }
    ensures globals { IfOk result (λ c. (out-Command c).has_globals ≡ false) }
{
    with_subcommands(alloc, top_command(alloc)?, &SUBCOMMANDS)
}
