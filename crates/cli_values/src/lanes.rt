//! The name of a lane as the value of an option.
ghost use Rattle.std.specs.Prelude.{◌≡◌, IfOk, IfErr, OnErr, Option, option_map};
ghost use Rattle.fabric_steps.specs.declared.event.LaneName.{LaneName};
ghost use Rattle.cli_options.specs.declared.options.ValueOption.TheVariants.{Lane};
ghost use Rattle.script_text.specs.Forms as forms;
ghost use Rattle.cli_values.specs.Lanes.{WritesLane};

use cli_options::{RefusedValue, ValueOption};
use fabric_steps::LaneName;
use script_text::lane_named;

/// The lane that the text names, none where no text is given.
pub fn lane_of<'a>(text: Option<&'a str>) -> Result<Option<LaneName>, RefusedValue<'a>>
    ensures ok { IfOk result (WritesLane (option_map (λ t. t.now) text.entry)) }
    ensures err { OnErr result ((l : Option LaneName) → WritesLane (option_map (λ t. t.now) text.entry) l → ⊥) }
    ensures refused { IfErr result (λ e. e ≡ record { option = Lane; given = text.entry }) }
{
    let Some(name) = text else {
        return Ok(None);
    };
    match lane_named(name.as_bytes()) {
        Some(lane) => Ok(Some(lane)),
        None => Err(RefusedValue {
            option: ValueOption::Lane,
            given: text,
        }),
    }
}
