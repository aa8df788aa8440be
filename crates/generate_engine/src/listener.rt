//! Who hears of a storm's events.
ghost use Rattle.fabric_steps.specs.Event as events;

use fabric_core::EventRef;

/// Hears of each event of a storm that happened. Unlike a `Witness` of `fabric_settle` it can't fail, and sees neither
/// the result nor the fabric.
pub trait Listener: Drop {
    // how it may be after that event, by how it was before
    ghost hears: { Self → events.Event → Self → Type 0 };

    /// Hears of an event that happened.
    fn hear(&mut self, event: &EventRef<'_>)
        ensures { hears self.old event.now self.new };
}
