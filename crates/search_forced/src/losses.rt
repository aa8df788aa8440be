//! Words that steps changed, and requests that need what stood there.
ghost use Rattle.std.specs.Prelude.{IfSome};
ghost use Rattle.log_runs.specs.Runs.{Dead};
ghost use Rattle.search_others.specs.Known.{AreOthers};
ghost use Rattle.search_places.specs.Places.{IsPlace};

use log_runs::{EventHeader, Log, Step};
use search_others::{Loss, Others, missed_at};
use search_places::{Done, Place};
use search_words::span_of;
use std::alloc::{AllocError, Global};

/// The four bytes from that place on.
pub(crate) fn four(bytes: &[u8], at: usize) -> Option<u32> {
    let end = at.checked_add(4)?;
    if end > bytes.len() {
        return None;
    }
    Some(u32::from_le_bytes([bytes[at], bytes[at + 1], bytes[at + 2], bytes[at + 3]]))
}

/// What a step overwrote.
#[derive(Clone, Copy)]
struct Overwritten<'a> {
    /// Where the bytes stood.
    from: usize,
    bytes: &'a [u8],
}

/// What stood at the word, whose bytes are now those from place `at` on, before a step overwrote these.
fn old_at(bytes: &[u8], at: usize, old: Overwritten<'_>) -> Option<u32> {
    let mut word = four(bytes, at)?.to_le_bytes();
    for i in 0..4usize {
        if let Some(k) = at.saturating_add(i).checked_sub(old.from)
            && k < old.bytes.len()
        {
            word[i] = old.bytes[k];
        }
    }
    Some(u32::from_le_bytes(word))
}

/// It stands there again.
fn is_back(loss: Loss, bytes: &[u8]) -> bool {
    four(bytes, (loss.word as usize).saturating_mul(4)) == Some(loss.old)
}

/// Words that steps changed.
#[derive(Drop)]
pub struct Losses {
    list: Vec<Loss>,
}

impl Losses {
    /// No step changed anything.
    pub fn new(alloc: Global) -> Losses {
        Losses {
            list: Vec::new(alloc),
        }
    }

    /// No step changed anything any more.
    pub fn clear(&mut self) {
        self.list.clear();
    }

    /// The word, if the step that overwrote these bytes changed it.
    fn push_word(
        &mut self,
        bytes: &[u8],
        word: u64,
        old: Overwritten<'_>,
    ) -> Result<(), AllocError> {
        if word >= bytes.len() as u64 {
            return Ok(());
        }
        let at = (word as usize).saturating_mul(4);
        if let Some(old) = old_at(bytes, at, old)
            && !is_back(Loss { word, old }, bytes)
        {
            self.list.push(Loss { word, old })?;
        }
        Ok(())
    }

    /// The words that one step more changed, which led to the place.
    pub fn push(&mut self, log: &Log, place: &Place, done: &Done) -> Result<(), AllocError> {
        let Step::Act(request) = done.step else {
            return Ok(());
        };
        let (Some((first, end)), Some(EventHeader::Sub { address, .. })) = (
            span_of(log, request),
            log.header(request),
        ) else {
            return Ok(());
        };
        let old = Overwritten {
            from: address.saturating_sub(log.extent().base()) as usize,
            bytes: done.old.as_slice(),
        };
        for word in first..end {
            self.push_word(place.bytes(), word, old)?;
        }
        Ok(())
    }

    /// Where a request is due that is lost here, if one is of those before place `to` that may need what
    /// stood at one of the words.
    pub fn missed(&self, place: &Place, log: &Log, others: &Others, to: usize) -> Option<usize>
        requires place { IsPlace log.now place.now }
        requires others { AreOthers log.now others.now }
        ensures { IfSome result (λ at. Dead log.now place.now.state) }
    {
        for loss in &self.list {
            if !is_back(*loss, place.bytes())
                && let Some(at) = missed_at(place, log, others, *loss, to)
            {
                return Some(at);
            }
        }
        None
    }
}
