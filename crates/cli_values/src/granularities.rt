//! A granularity as the value of an option.
ghost use Rattle.std.specs.Prelude.{◌≡◌, IfOk, IfErr, OnErr, option_map};
ghost use Rattle.log_pieces.specs.declared.Granularity.{Granularity};
ghost use Rattle.cli_options.specs.declared.options.ValueOption.TheVariants.{Granularity as the_granularity};
ghost use Rattle.cli_values.specs.Granularities as spec;
ghost use Rattle.cli_values.specs.Granularities.{WritesGranularity};

use cli_options::{RefusedValue, ValueOption};
use log_pieces::Granularity;

/// The granularity of that name.
fn granularity_named(name: &str) -> Option<Granularity>
    ensures { result ≡ spec.granularity name.now }
{
    if name == "4" {
        Some(Granularity::Four)
    } else if name == "8" {
        Some(Granularity::Eight)
    } else if name == "16" {
        Some(Granularity::Sixteen)
    } else if name == "64" {
        Some(Granularity::SixtyFour)
    } else if name == "whole" {
        Some(Granularity::Whole)
    } else {
        None
    }
}

/// The granularity that the text names, whole requests where no text is given.
pub fn granularity_of<'a>(text: Option<&'a str>) -> Result<Granularity, RefusedValue<'a>>
    ensures ok { IfOk result (WritesGranularity (option_map (λ t. t.now) text.entry)) }
    ensures err { OnErr result ((g : Granularity) → WritesGranularity (option_map (λ t. t.now) text.entry) g → ⊥) }
    ensures refused { IfErr result (λ e. e ≡ record { option = the_granularity; given = text.entry }) }
{
    let Some(name) = text else {
        return Ok(Granularity::Whole);
    };
    match granularity_named(name) {
        Some(granularity) => Ok(granularity),
        None => Err(RefusedValue {
            option: ValueOption::Granularity,
            given: text,
        }),
    }
}
