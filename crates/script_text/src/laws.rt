//! What is written is read back.
ghost use Rattle.tlp_core.specs.Ops.{Op};
ghost use Rattle.fabric_core.specs.declared.config.Config.{Config};
ghost use Rattle.fabric_steps.specs.Event.{Event};
ghost use Rattle.fabric_core.specs.Config.{IsConfig};
ghost use Rattle.operation_text.specs.Operations.{IsSpelledOp};
ghost use Rattle.script_text.specs.declared.line.Line.TheVariants as lines;
ghost use Rattle.script_text.specs.Spelled.{IsInRange, IsSpelledEvent, IsLineOf};
ghost use Rattle.script_text.specs.LineTexts.{event_line, fabric_line};

use operation_text::{own_digits_spell_number, own_text_spells_operation};

/// Some words spell each operation whose fields are in the ranges of their digits.
pub fn an_operation_in_range_is_spelled()
    ensures { (op : Op) → IsInRange op → IsSpelledOp op }
{
    own_digits_spell_number();
}

/// An event that some line of a script spells is read back from its own line.
pub fn own_line_spells_event()
    ensures { (event : Event) → IsSpelledEvent event → IsLineOf (event_line event) (lines.Event event) }
{
    own_digits_spell_number();
    own_text_spells_operation();
}

/// What a fabric can be made of is read back from its own line.
pub fn own_line_spells_fabric()
    ensures { (c : Config) → IsConfig c → IsLineOf (fabric_line c) (lines.Fabric c) }
{
    own_digits_spell_number();
    own_text_spells_operation();
}
