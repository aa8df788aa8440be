//! What holds of step lines.
ghost use Rattle.std.specs.Prelude.{◌≡◌, ◌<◌, ℕ, List, length, slice_get};
ghost use Rattle.std.specs.Option.{option_map};
ghost use Rattle.fabric_steps.specs.Fabric.{Fabric};
ghost use Rattle.fabric_steps.specs.declared.event.LaneName.{LaneName};
ghost use Rattle.chart_levels.specs.declared.level.Level.{Level};
ghost use Rattle.chart_levels.specs.Levels.{level_of, new_line, shown_from, value_at};

/// A step line that was shown a fabric for each row has at each row the level of that row's fabric.
pub fn step_lines_have_the_levels_of_their_rows()
    ensures { (lane : LaneName) (level : Level) (fabrics : List Fabric) (row : ℕ) → row < length fabrics →
        value_at (shown_from 0 fabrics (new_line lane level)).steps row ≡ option_map (λ f. level_of f lane level) (slice_get fabrics row) }
{}
