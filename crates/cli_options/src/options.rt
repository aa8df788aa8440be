//! Options that have values, and the numbers that they may have.
ghost use Rattle.std.specs.Prelude.{◌≡◌, ◌≢◌, ◌↔◌, IsTrue};
ghost use Rattle.cli_options.specs.Values.{allowed_of, name_of, IsAmong};

use parameters::{MOST_ADDITIONS, MOST_EVENTS, MOST_TURNS, MOST_WORKERS};
use seq_memory::{LARGE_BLOCK, MAX_SIZE, MIN_SIZE, SMALL_BLOCK};
use std::fmt;
use tlp_core::REQUESTERS;

/// The most choices that a search may be asked to look at.
pub const MOST_CHOICES: u64 = 1_000_000_000;

/// The most work that a search may be asked to do.
pub const MOST_WORK: u64 = 1_000_000_000_000;

/// An option that has a value.
#[derive(Clone, Copy, PartialEq)]
pub enum ValueOption {
    /// The first address of a memory.
    Base,
    /// The size of a memory, in bytes.
    Size,
    /// The size of a block, in bytes.
    Block,
    /// The number of requesters of a fabric.
    Requesters,
    /// The number of additions of each requester.
    Each,
    /// N: one in N packets and DLLPs is lost, none if N is 0.
    Lose,
    /// N: one in N packets and DLLPs arrives with a failed check, none if N is 0.
    Corrupt,
    /// The most calls and records of each worker.
    Turns,
    /// The number of threads that the workers of lanes, switch and completer share.
    Workers,
    /// The first point of a history that is drawn.
    From,
    /// The last point of a history that is drawn.
    To,
    /// The seed of a script's random choices.
    Seed,
    /// The first and the last seed of a sweep.
    Seeds,
    /// The number of events of a script.
    Events,
    /// A lane, by its name.
    Lane,
    /// The most choices that a search looks at.
    Limit,
    /// The most work that a search does.
    Work,
    /// How many bytes of a read or a write act at once, or all of them.
    Granularity,
    /// The size of an endpoint's memory, in bytes.
    EndpointSize,
    /// The Vendor ID and the Device ID of an endpoint.
    Id,
    /// The flag that packets and DLLPs have their CRC, which goes with a link alone.
    Crc,
    /// The credits of an endpoint behind a link.
    Credits,
    /// The flag that a search draws a picture, which doesn't go with a short log.
    Draw,
}

/// The numbers that an option may have: the multiples of the unit from the least to the most.
#[derive(Clone, Copy)]
pub struct Allowed {
    /// The least.
    pub least: u64,
    /// The most.
    pub most: u64,
    /// What each is a multiple of; not 0.
    pub unit: u64,
}

/// All numbers from one to another.
const fn from_to(least: u64, most: u64) -> Allowed
    ensures { result ≡ record { least = least; most = most; unit = 1 } }
{
    Allowed {
        least,
        most,
        unit: 1,
    }
}

impl Allowed {
    /// Whether the number is one of them.
    pub fn has(&self, number: u64) -> bool
        requires { self.now.unit ≢ 0 }
        ensures { IsTrue result ↔ IsAmong self.now number }
    {
        self.least <= number && number <= self.most && number % self.unit == 0
    }
}

impl fmt::Display for Allowed {
    fn fmt<W: fmt::Write>(&self, f: &mut fmt::Formatter<W>) -> fmt::Result {
        let Allowed { least, most, unit } = *self;
        write!(f, "{least} to {most}")?;
        if unit > 1 {
            write!(f, ", a multiple of {unit}")?;
        }
        Ok(())
    }
}

impl ValueOption {
    /// What it is called, without the hyphens before it.
    pub fn name(self) -> &'static str
        ensures { result.now ≡ name_of self }
    {
        match self {
            ValueOption::Base => "base",
            ValueOption::Size | ValueOption::EndpointSize => "size",
            ValueOption::Block => "block",
            ValueOption::Requesters => "requesters",
            ValueOption::Each => "each",
            ValueOption::Lose => "lose",
            ValueOption::Corrupt => "corrupt",
            ValueOption::Turns => "turns",
            ValueOption::Workers => "workers",
            ValueOption::From => "from",
            ValueOption::To => "to",
            ValueOption::Seed => "seed",
            ValueOption::Seeds => "seeds",
            ValueOption::Events => "events",
            ValueOption::Lane => "lane",
            ValueOption::Limit => "limit",
            ValueOption::Work => "work",
            ValueOption::Granularity => "granularity",
            ValueOption::Id => "id",
            ValueOption::Crc => "crc",
            ValueOption::Credits => "credits",
            ValueOption::Draw => "draw",
        }
    }

    /// The numbers that it may have.
    pub fn allowed(self) -> Allowed
        ensures which { result ≡ allowed_of self }
        ensures unit { result.unit ≢ 0 }
    {
        match self {
            ValueOption::Base => Allowed {
                least: 0,
                most: u64::MAX,
                unit: u64::from(LARGE_BLOCK),
            },
            ValueOption::Size => Allowed {
                least: MIN_SIZE as u64,
                most: MAX_SIZE as u64,
                unit: u64::from(LARGE_BLOCK),
            },
            ValueOption::Block => Allowed {
                least: u64::from(SMALL_BLOCK),
                most: u64::from(LARGE_BLOCK),
                unit: u64::from(SMALL_BLOCK),
            },
            ValueOption::Requesters => from_to(1, u64::from(REQUESTERS)),
            ValueOption::Each => from_to(0, MOST_ADDITIONS),
            ValueOption::Lose | ValueOption::Corrupt => from_to(0, u64::from(parameters::MOST)),
            ValueOption::Turns => from_to(1, MOST_TURNS),
            ValueOption::Workers => from_to(1, MOST_WORKERS),
            ValueOption::Limit => from_to(1, MOST_CHOICES),
            ValueOption::Work => from_to(1, MOST_WORK),
            ValueOption::Events => from_to(0, MOST_EVENTS),
            ValueOption::Lane
            | ValueOption::Granularity
            | ValueOption::EndpointSize
            | ValueOption::Id
            | ValueOption::Crc
            | ValueOption::Credits
            | ValueOption::Draw => from_to(0, 0),
            ValueOption::From | ValueOption::To | ValueOption::Seed | ValueOption::Seeds => {
                from_to(0, u64::MAX)
            }
        }
    }
}
