//! What holds of all texts.
ghost use Rattle.trace_diagnostics.specs.Told.{LinesHaveTheirNumbers};

/// The line that is told of the nth thing of a text is the nth one of its lines, numbered from 1, that isn't skipped.
pub fn lines_have_their_numbers()
    ensures { LinesHaveTheirNumbers }
{}
