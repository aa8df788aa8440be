//! The reasons of a run, a line each.
ghost use Rattle.std.specs.Prelude.{◌≡◌, ◌<◌, ◌+◌, ◌-◌, ◌^◌, ◌++◌, [], nat_lt, min, if◌then◌else◌, List, ℕ, OnOk, OnErr};
ghost use Rattle.diagnostics.specs.Told.{IsReason, reason_line};
ghost use Rattle.diagnostics.specs.ReasonLines.{last_line};

use crate::telling::{Reason, line_of};
use std::alloc::{AllocError, Global};
use std::marker::Model;

/// How many reasons are told, at most.
const MOST: u32 = 1000;

/// The reasons of a run that are to be written, and how many were told. In place of the first one that isn't told it is
/// told once that there are no more.
#[derive(Drop)]
pub struct ReasonLines {
    /// The number of the line that was answered last.
    number: u64,
    told: u32,
    text: Vec<u8>,
}

impl Model for ReasonLines {
    ghost use Rattle.diagnostics.specs.ReasonLines.{ReasonLinesView};

    ghost Value = { ReasonLinesView };

    ghost view = { λ r. record { number = r.number; told = r.told; text = r.text.items } };
}

impl ReasonLines {
    /// No line was answered, and no reason told.
    pub fn new(alloc: Global) -> ReasonLines
        ensures number { result.number ≡ 0 }
        ensures told { result.told ≡ 0 }
        ensures text { result.text ≡ [] }
    {
        ReasonLines {
            number: 0,
            told: 0,
            text: Vec::new(alloc),
        }
    }

    /// One line more was answered. Their number stays at 2^64 - 1.
    #[inline(always)]
    pub fn count_line(&mut self)
        ensures number { self.new.number ≡ min (self.old.number + 1) (2 ^ 64 - 1) }
        ensures told { self.new.told ≡ self.old.told }
        ensures text { self.new.text ≡ self.old.text }
    {
        self.number = self.number.saturating_add(1);
    }

    /// Whether one more reason changes the text.
    pub fn is_open(&self) -> bool
        ensures { result ≡ nat_lt self.now.told 1001 }
    {
        self.told <= MOST
    }

    /// Adds the reason of the line that was answered last, as one of the first 1000. After an `Err` nothing is added.
    pub fn tell(&mut self, reason: &Reason) -> Result<(), AllocError>
        ensures number { self.new.number ≡ self.old.number }
        ensures told { OnOk result (self.new.told ≡ (if nat_lt self.old.told 1001 then self.old.told + 1 else self.old.told)) }
        ensures reason { self.old.told < 1000 → OnOk result ((why : List ℕ) × IsReason why
            × (self.new.text ≡ self.old.text ++ reason_line self.old.number why)) }
        ensures last { self.old.told ≡ 1000 → OnOk result (self.new.text ≡ self.old.text ++ last_line) }
        ensures quiet { 1000 < self.old.told → self.new.text ≡ self.old.text }
        ensures err { OnErr result (self.new ≡ self.old) }
    {
        if self.told < MOST {
            let line = line_of(self.number, reason.said());
            self.text.extend_from_slice(line.as_slice())?;
            self.told += 1;
        } else if self.told == MOST {
            self.text.extend_from_slice(
                b"pciex: 1000 reasons are told; further lines aren't explained\n",
            )?;
            self.told += 1;
        }
        Ok(())
    }

    /// The text that is to be written.
    pub fn text(&self) -> &[u8]
        ensures { result.now ≡ self.now.text }
    {
        self.text.as_slice()
    }

    /// The text was written.
    pub fn clear(&mut self)
        ensures number { self.new.number ≡ self.old.number }
        ensures told { self.new.told ≡ self.old.told }
        ensures text { self.new.text ≡ [] }
    {
        self.text.clear();
    }
}
