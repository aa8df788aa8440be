//! That fates go by the events before.
ghost use Rattle.std.specs.Prelude.{ℕ, List, [], ◌∷◌, ◌++◌};
ghost use Rattle.fabric_steps.specs.Event.{Event};
ghost use Rattle.script_text.specs.Spelled.{IsSpelledEvent};
ghost use Rattle.generate_engine.specs.Arrivals.{ArrivalsView, IsAfter, IsCounted, nothing_arrived};

/// Of events that are counted one after another, each has the plan's fate of its count among those before it.
pub fn counted_events_are_fated()
    ensures none { (lose corrupt : ℕ) → IsAfter lose corrupt [] (nothing_arrived lose corrupt) }
    ensures next { (lose corrupt : ℕ) (before : List Event) (event : Event) (a a' : ArrivalsView) → IsSpelledEvent event →
        IsAfter lose corrupt before a → IsCounted a event a' → IsAfter lose corrupt (before ++ event ∷ []) a' }
{}
