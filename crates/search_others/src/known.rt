//! What is known of a log's requests before the search begins.
ghost use Rattle.std.specs.Prelude.{◌≡◌, Some, IfOk, IfSome, slice_get, slice_index};
ghost use Rattle.log_runs.specs.EventView as events;
ghost use Rattle.search_others.specs.Known.{AreOthers};

use crate::due::{held_until, place_of, places};
use log_runs::Log;
use search_words::{Words, words_of};
use std::alloc::{AllocError, Global};
use std::cell::Cell;
use std::marker::Model;

/// How many looks a search makes to see who is idle.
const IDLE_LOOKS: u64 = 20_000_000;

/// What is known of a log's requests.
#[derive(Drop)]
pub struct Others {
    /// The place of each request's answer, or one before it, if it has more than 32 bits.
    due: Vec<u32>,
    pub(crate) words: Words,
    /// How many looks may still be made to see who is idle. Nothing rests on it.
    looks: Cell<u64>,
}

impl Model for Others {
    ghost use Rattle.search_others.specs.OthersView.{OthersView};

    ghost Value = { OthersView };

    ghost view = { λ o. record { words = o.words; due = o.due.items } };
}

impl Others {
    /// What is known of the log's requests.
    pub fn of(alloc: Global, log: &Log) -> Result<Others, AllocError>
        ensures known { IfOk result (AreOthers log.now) }
    {
        Ok(Others {
            due: places(alloc, log)?,
            words: words_of(alloc, log)?,
            looks: Cell::new(IDLE_LOOKS),
        })
    }

    /// Nobody is seen to be idle from here on.
    pub fn end_looks(&self) {
        self.looks.set(0);
    }

    /// Looks may still be made to see who is idle.
    pub(crate) fn has_looks(&self) -> bool {
        self.looks.get() > 0
    }

    /// Takes so many of the looks that may be made to see who is idle; false, if there are fewer.
    pub(crate) fn take_looks(&self, count: u64) -> bool {
        let looks = self.looks.get();
        if looks < count {
            return false;
        }
        self.looks.set(looks - count);
        true
    }

    /// What the requests need of each word, and leave there.
    pub fn words(&self) -> &Words
        ensures { result.now ≡ self.now.words }
    {
        &self.words
    }

    /// The place before which the request must act, and the request whose answer stands there; None, too,
    /// where that isn't known.
    pub fn held_until(&self, log: &Log, q: usize) -> Option<(usize, usize)>
        ensures { IfSome result (λ d. slice_get log.now.events d.0 ≡ Some (events.Due d.1)) }
    {
        held_until(&self.due, log, q)
    }

    /// The place of the request's answer; None, too, where that isn't known.
    pub fn place_of(&self, log: &Log, q: usize) -> Option<usize>
        ensures { IfSome result (λ a. slice_get log.now.events a ≡ Some (events.Due q)) }
    {
        place_of(&self.due, log, q)
    }

    /// No answer to the request stands before that place: that of its answer, or one behind the log, if it has none.
    pub fn due_from(&self, b: usize) -> usize
        ensures { result ≡ slice_index self.now.due b }
    {
        match self.due.get(b) {
            Some(at) => *at as usize,
            None => 0,
        }
    }
}
