//! How far a search is, told while it goes on.
use crate::options::SearchDemand;
use log_runs::Log;
use search_history::{Spot, Watch};
use search_places::Place;
use std::io;
use std::io::Write;
use std::time::{Clock, Duration};

/// The least number of records of a long log.
const LONG: usize = 10_000;

/// How long it is to the first line, in milliseconds. From line to line it is twice as long as before, and no longer than
/// the longest.
const FIRST_PAUSE: u64 = 2000;

const LONGEST_PAUSE: u64 = 16_000;

/// Whether it is told how far a search is.
#[derive(Clone, Copy)]
pub enum Stages {
    Hidden,
    /// Of logs of 10,000 records or more.
    OfLongLogs,
    Shown,
}

impl Stages {
    /// Whether they are told of a log of so many records.
    fn are_shown(self, records: usize) -> bool {
        match self {
            Stages::Hidden => false,
            Stages::OfLongLogs => records >= LONG,
            Stages::Shown => true,
        }
    }
}

/// A clock that stands still: by it nothing is told while a search goes on.
#[derive(Clone, Copy)]
pub struct NoClock;

impl Clock for NoClock {
    fn monotonic(&self) -> io::Result<Duration> {
        Ok(Duration::ZERO)
    }

    fn since_1970(&self) -> io::Result<Duration> {
        Ok(Duration::ZERO)
    }
}

/// The time of the clock in milliseconds, 0 if it can't be read.
fn now<C: Clock>(clock: &C) -> u64 {
    match clock.monotonic() {
        Ok(time) => u64::try_from(time.as_millis()).unwrap_or(u64::MAX),
        Err(_) => 0,
    }
}

/// When it is told next how far a search is.
#[derive(Clone, Copy)]
struct Pause {
    /// The time of the clock, and how long it was to that, in milliseconds.
    end: u64,
    length: u64,
}

impl Pause {
    /// The first one, which begins at that time.
    fn first(time: u64) -> Pause {
        Pause {
            end: time.saturating_add(FIRST_PAUSE),
            length: FIRST_PAUSE,
        }
    }

    /// The next one, which begins at that time.
    fn next(self, time: u64) -> Pause {
        let length = self.length.saturating_mul(2).min(LONGEST_PAUSE);
        Pause {
            end: time.saturating_add(length),
            length,
        }
    }
}

/// Tells how many records were read, and of how many choices were looked at so far: by time, and at the end.
#[derive(Drop)]
pub(crate) struct Progress<'e, E, C> {
    errors: &'e mut E,
    clock: &'e C,
    is_shown: bool,
    limit: u64,
    choices: u64,
    /// How many choices were told last.
    told: Option<u64>,
    pause: Pause,
    /// The farthest choice: of the whole log, or of cells alone until that is searched.
    far: Option<Spot>,
}

impl<'e, E: Write, C: Clock> Progress<'e, E, C> {
    /// A search of so many records begins.
    pub(crate) fn new(
        demand: SearchDemand,
        records: usize,
        clock: &'e C,
        errors: &'e mut E,
    ) -> Progress<'e, E, C> {
        let limit = demand.options.limit;
        let is_shown = demand.options.stages.are_shown(records);
        if is_shown {
            let _ = writeln!(errors, "{records} records");
        }
        Progress {
            errors,
            clock,
            is_shown,
            limit,
            choices: 0,
            told: None,
            pause: Pause::first(now(clock)),
            far: None,
        }
    }

    /// The farthest choice that was looked at, of the whole log if that was searched.
    pub(crate) fn far(&self) -> Option<Spot> {
        self.far
    }

    /// Notes how far the search is.
    fn note(&mut self, spot: Spot) {
        let is_farther = match self.far {
            Some(far) => { far.event <= spot.event || far.range.is_some() && spot.range.is_none() }
            None => true,
        };
        if is_farther {
            self.far = Some(spot);
        }
    }

    /// Tells how many choices were looked at, if that wasn't told last.
    fn tell(&mut self, choices: u64) {
        if self.is_shown && self.told != Some(choices) {
            let limit = self.limit;
            let _ = writeln!(self.errors, "{choices} of {limit} choices");
            self.told = Some(choices);
        }
    }

    /// Tells how many choices were looked at, if it is time.
    fn tell_in_time(&mut self) {
        let time = now(self.clock);
        if time >= self.pause.end {
            let choices = self.choices;
            self.tell(choices);
            self.pause = self.pause.next(time);
        }
    }

    /// The search is over, after so many choices.
    pub(crate) fn end(&mut self, choices: u64) {
        self.tell(choices);
    }
}

impl<'e, E: Write, C: Clock> Watch for Progress<'e, E, C> {
    fn choice(&mut self, spot: Spot, _log: &Log<'_>, _place: &Place) {
        self.note(spot);
        self.choices = self.choices.saturating_add(1);
        if self.is_shown {
            self.tell_in_time();
        }
    }
}
