//! What a lane advertises.
ghost use Rattle.std.specs.Prelude.{◌↔◌, IsTrue};
ghost use Rattle.flow_control.specs.Limits.{IsInfiniteOrBetween, IsInLimits};

/// The first values of the credits of a lane, in header units and in data units of 16 bytes. 0 is infinite.
#[derive(Clone, Copy, PartialEq)]
pub struct LaneCredits {
    /// Posted headers, 1 to 127.
    pub ph: u8,
    /// Posted data, 8 to 2047.
    pub pd: u16,
    /// Non-posted headers, 1 to 127.
    pub nph: u8,
    /// Non-posted data, 2 to 2047.
    pub npd: u16,
    /// Completion headers, 1 to 127.
    pub cplh: u8,
    /// Completion data, 8 to 2047.
    pub cpld: u16,
}

/// The most header credit that may be unused, in header units.
pub const MAX_HEADERS: u8 = 127;

/// The most data credit that may be unused, in data units of 16 bytes.
pub const MAX_DATA: u16 = 2047;

/// The least finite data credit of posted requests and completions, in data units: those of the greatest payload, 128
/// bytes.
pub const MIN_DATA: u16 = 8;

/// The least finite data credit of non-posted requests, in data units: those of the greatest AtomicOp, a CAS of two
/// operands of 16 bytes.
pub const MIN_ATOMIC_DATA: u16 = 2;

fn is_header(first: u8) -> bool
    ensures { IsTrue result ↔ IsInfiniteOrBetween 1 127 first }
{
    first <= MAX_HEADERS
}

fn is_data(least: u16, first: u16) -> bool
    ensures { IsTrue result ↔ IsInfiniteOrBetween least 2047 first }
{
    first == 0 || least <= first && first <= MAX_DATA
}

impl LaneCredits {
    /// What a lane has unless it is told otherwise.
    pub const DEFAULT: LaneCredits = LaneCredits {
        ph: 16,
        pd: 64,
        nph: 16,
        npd: 16,
        cplh: 16,
        cpld: 64,
    };

    /// Whether each value is infinite or in its range.
    pub fn is_in_limits(&self) -> bool
        ensures { IsTrue result ↔ IsInLimits self.now }
    {
        is_header(self.ph)
            && is_data(MIN_DATA, self.pd)
            && is_header(self.nph)
            && is_data(MIN_ATOMIC_DATA, self.npd)
            && is_header(self.cplh)
            && is_data(MIN_DATA, self.cpld)
    }
}
