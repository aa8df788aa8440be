//! How the lines of a text of records are read, and where they may stand.
ghost use Rattle.std.specs.Prelude.{◌≡◌, true, OnErr, IfOk};
ghost use Rattle.record_text.specs.Grammar.{Grammar};
ghost use Rattle.record_text.specs.RecordReaderView.{adds};
ghost use Rattle.record_text.specs.Step.{step, step_told};

use operation_text::{Expected, Misfit};
use std::alloc::AllocError;
use tlp_core::MAX_PAYLOAD;

/// The part of a text that goes on.
#[derive(Clone, Copy)]
pub enum Section {
    /// The first line is due.
    FirstLine,
    /// The memory's line is due.
    Memory,
    /// Submissions and answers.
    Records,
    /// Entries.
    History,
    /// All was read.
    End,
}

/// What comes of a line.
#[derive(Clone, Copy)]
pub enum Taken {
    /// The line is due: what is to be kept of it is kept, and this section goes on.
    Kept(Section),
    /// The line isn't due in the section.
    NotDue,
    /// The text spells no line.
    Misfit,
}

/// What reading a line needs meanwhile. What it holds before the line doesn't count.
#[derive(Drop)]
pub struct Scratch {
    /// Room for the bytes of the line.
    pub bytes: [u8; MAX_PAYLOAD],
    /// What doesn't fit in the line. It stands here so that it isn't moved with each line.
    pub misfit: Option<Misfit>,
}

/// What is kept of the lines of a text, and how they are read.
pub trait Form: Drop {
    // what a line says
    ghost Line: { Type 0 };

    // the lines, where they stand, and what is kept of them
    ghost grammar: { Grammar Self Line };

    /// Takes the line that the text spells, if it is due in the section. What doesn't fit in a text that spells none is
    /// noted in the scratch. `Err` tells that an allocation failed, for a line that is due; nothing was taken then.
    fn take(
        &mut self,
        section: Section,
        text: &[u8],
        scratch: &mut Scratch,
    ) -> Result<Taken, AllocError>
        ensures ok { IfOk result (λ t. step_told t self.new ≡ step grammar section self.old text.now) }
        ensures err { OnErr result (self.new ≡ self.old) }
        ensures adds { OnErr result (adds grammar section (grammar.line_of self.old text.now) ≡ true) };

    /// The line that is due in the section, for people.
    fn expected(section: Section) -> Expected;

    /// Whether a line that is due in the section begins with the word, for people.
    fn begins_with(section: Section, word: &[u8]) -> bool;
}
