//! Where the parts stand, and their words.
ghost use Rattle.hall_laws.specs.Parts.{RequestersAreInSlots, EndsAreInSlots};

/// The words of two slots are so many words of 8 bytes apart: no cache line has both, so that threads that step on them
/// don't take the line from each other.
pub const WORDS_APART: usize = 8;

/// Each part of a fabric stands at its slot.
pub fn each_part_has_its_slot()
    ensures requester { RequestersAreInSlots }
    ensures end { EndsAreInSlots }
{}
