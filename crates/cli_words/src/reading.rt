//! What the values of a subcommand give to its options.
ghost use Rattle.std.specs.Prelude.{◌≡◌, IfOk, IfErr, OnErr, codes, option_map};
ghost use Rattle.clap.specs.Words.{rows_of, found_of, first_of};
ghost use Rattle.cli_options.specs.Values.{Gives, GivesBase, GivesOptional, WritesFlag, name_of};
ghost use Rattle.cli_options.specs.declared.options.ValueOption.TheVariants.{Base, Seeds, Lane, Granularity as the_granularity};
ghost use Rattle.cli_values.specs.Granularities.{WritesGranularity};
ghost use Rattle.cli_values.specs.Lanes.{WritesLane};
ghost use Rattle.cli_values.specs.Seeds.{WritesSeeds};
ghost use Rattle.cli_words.specs.Refusals.{IsWrong, IsWrongBase, IsWrongGranularity, IsWrongLane, IsWrongOptional, IsWrongSeeds};

use clap::ArgMatches;
use cli_options::{RefusedValue, ValueOption, base_of, is_set, number_of, optional_of};
use cli_values::{granularity_of, lane_of, seeds_of};
use fabric_core::LaneName;
use log_pieces::Granularity;

/// The text that the values give to an option.
pub(crate) fn given_in<'a>(values: &ArgMatches<'a>, name: &str) -> Option<&'a str>
    ensures { option_map (λ t. t.now) result ≡ first_of name.now (rows_of (found_of values.now)) }
{
    values.get_str(name)
}

/// The flag that the values set.
pub(crate) fn flag_in(values: &ArgMatches<'_>, name: &str) -> bool
    ensures { WritesFlag (first_of name.now (rows_of (found_of values.now))) result }
{
    is_set(given_in(values, name))
}

/// The first address of a memory that the values give.
pub(crate) fn base_in<'a>(values: &ArgMatches<'a>) -> Result<u64, RefusedValue<'a>>
    ensures ok { IfOk result (GivesBase (first_of (codes "base") (rows_of (found_of values.now)))) }
    ensures err { OnErr result (IsWrongBase (rows_of (found_of values.now))) }
    ensures refused { IfErr result (λ e. (e.option ≡ Base) × (option_map (λ t. t.now) e.given ≡ first_of (codes "base") (rows_of (found_of values.now)))) }
{
    base_of(values.get_str("base"))
}

/// The number that the values give to an option.
pub(crate) fn number_in<'a>(
    values: &ArgMatches<'a>,
    option: ValueOption,
    default: Option<u64>,
) -> Result<u64, RefusedValue<'a>>
    ensures ok { IfOk result (Gives option default (first_of (name_of option) (rows_of (found_of values.now)))) }
    ensures err { OnErr result (IsWrong (rows_of (found_of values.now)) (option, default)) }
    ensures refused { IfErr result (λ e. (e.option ≡ option) × (option_map (λ t. t.now) e.given ≡ first_of (name_of option) (rows_of (found_of values.now)))) }
{
    number_of(option, default, values.get_str(option.name()))
}

/// The number that the values give to an option that need not be given.
pub(crate) fn optional_in<'a>(
    values: &ArgMatches<'a>,
    option: ValueOption,
) -> Result<Option<u64>, RefusedValue<'a>>
    ensures ok { IfOk result (GivesOptional option (first_of (name_of option) (rows_of (found_of values.now)))) }
    ensures err { OnErr result (IsWrongOptional (rows_of (found_of values.now)) option) }
    ensures refused { IfErr result (λ e. (e.option ≡ option) × (option_map (λ t. t.now) e.given ≡ first_of (name_of option) (rows_of (found_of values.now)))) }
{
    optional_of(option, values.get_str(option.name()))
}

/// The granularity that the values give.
pub(crate) fn granularity_in<'a>(values: &ArgMatches<'a>) -> Result<Granularity, RefusedValue<'a>>
    ensures ok { IfOk result (WritesGranularity (first_of (codes "granularity") (rows_of (found_of values.now)))) }
    ensures err { OnErr result (IsWrongGranularity (rows_of (found_of values.now))) }
    ensures refused { IfErr result (λ e. (e.option ≡ the_granularity) ×
        (option_map (λ t. t.now) e.given ≡ first_of (codes "granularity") (rows_of (found_of values.now)))) }
{
    granularity_of(values.get_str("granularity"))
}

/// The lane that the values give.
pub(crate) fn lane_in<'a>(values: &ArgMatches<'a>) -> Result<Option<LaneName>, RefusedValue<'a>>
    ensures ok { IfOk result (WritesLane (first_of (codes "lane") (rows_of (found_of values.now)))) }
    ensures err { OnErr result (IsWrongLane (rows_of (found_of values.now))) }
    ensures refused { IfErr result (λ e. (e.option ≡ Lane) × (option_map (λ t. t.now) e.given ≡ first_of (codes "lane") (rows_of (found_of values.now)))) }
{
    lane_of(values.get_str("lane"))
}

/// The first seed and the last that the values give.
pub(crate) fn seeds_in<'a>(values: &ArgMatches<'a>) -> Result<(u64, u64), RefusedValue<'a>>
    ensures ok { IfOk result (WritesSeeds (first_of (codes "seeds") (rows_of (found_of values.now)))) }
    ensures err { OnErr result (IsWrongSeeds (rows_of (found_of values.now))) }
    ensures refused { IfErr result (λ e. (e.option ≡ Seeds) × (option_map (λ t. t.now) e.given ≡ first_of (codes "seeds") (rows_of (found_of values.now)))) }
{
    seeds_of(values.get_str("seeds"))
}
