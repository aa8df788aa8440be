//! One counter of a gate or of a ledger.
ghost use Rattle.std.specs.Prelude.{◌≡◌, ◌+◌, ◌%◌, ◌<◌, ◌≤◌};
ghost use Rattle.flow_control.specs.Credits.{modulus};

/// Which of the two counters of a class.
#[derive(Clone, Copy, Debug, PartialEq)]
pub(crate) enum Part {
    Header,
    Data,
}

impl Part {
    /// 2 to the power of the field's size, 8 or 12 bits.
    pub(crate) fn modulus(self) -> u32
        ensures value { result ≡ modulus self }
        ensures low { 256 ≤ result }
        ensures high { result ≤ 4096 }
    {
        match self {
            Part::Header => 256,
            Part::Data => 4096,
        }
    }
}

/// The gate's counter: what may be used, and what was.
#[derive(Clone, Copy)]
pub(crate) struct Allowance {
    /// The advertised first value.
    first: u16,
    /// CREDIT_LIMIT.
    limit: u16,
    /// CREDITS_CONSUMED.
    consumed: u16,
}

/// The ledger's counter: what came in, and what was given back.
#[derive(Clone, Copy)]
pub(crate) struct Grant {
    /// The advertised first value.
    first: u16,
    /// CREDITS_RECEIVED.
    received: u16,
    /// What left the queue; with the first value it is CREDITS_ALLOCATED.
    freed: u16,
}

/// A counter that grew.
fn grown(part: Part, counter: u16, units: u16) -> u16
    ensures value { result ≡ (counter + units) % modulus part }
    ensures range { result < modulus part }
{
    ((u32::from(counter) + u32::from(units)) % part.modulus()) as u16
}

impl Allowance {
    ghost use Rattle.flow_control.specs.Credits.{covers, spent, limited, new_allowance, left_of};

    pub(crate) fn new(part: Part, first: u16) -> Allowance
        ensures { result ≡ new_allowance part first }
    {
        Allowance {
            first,
            limit: grown(part, first, 0),
            consumed: 0,
        }
    }

    /// Whether the units may be used (section 2.6.1.2).
    pub(crate) fn fits(self, part: Part, units: u16) -> bool
        ensures { result ≡ covers part self units }
    {
        let modulus = part.modulus();
        let required = u32::from(grown(part, self.consumed, units));
        self.first == 0 || (u32::from(self.limit) + modulus - required) % modulus <= modulus / 2
    }

    /// What is left, as far as the sender knows; None of an infinite counter.
    pub(crate) fn left(self, part: Part) -> Option<u16>
        ensures { result ≡ left_of part self }
    {
        if self.first == 0 {
            return None;
        }
        let modulus = part.modulus();
        let limit = u32::from(self.limit) + modulus;
        Some((limit.saturating_sub(u32::from(self.consumed)) % modulus) as u16)
    }

    pub(crate) fn consume(&mut self, part: Part, units: u16)
        ensures { self.new ≡ spent part self.old units }
    {
        self.consumed = grown(part, self.consumed, units);
    }

    /// What an update carries is the new limit, which an infinite counter ignores.
    pub(crate) fn set_limit(&mut self, limit: u16)
        ensures { self.new ≡ limited self.old limit }
    {
        if self.first != 0 {
            self.limit = limit;
        }
    }
}

impl Grant {
    ghost use Rattle.flow_control.specs.Credits.{taken_in, given_back, told, overflows, new_grant};

    pub(crate) fn new(first: u16) -> Grant
        ensures { result ≡ new_grant first }
    {
        Grant {
            first,
            received: 0,
            freed: 0,
        }
    }

    pub(crate) fn receive(&mut self, part: Part, units: u16)
        ensures { self.new ≡ taken_in part self.old units }
    {
        self.received = grown(part, self.received, units);
    }

    pub(crate) fn free(&mut self, part: Part, units: u16)
        ensures { self.new ≡ given_back part self.old units }
    {
        self.freed = grown(part, self.freed, units);
    }

    /// What an update carries.
    pub(crate) fn told(self, part: Part) -> u16
        ensures value { result ≡ told part self }
        ensures range { result < modulus part }
    {
        if self.first == 0 {
            0
        } else {
            grown(part, self.first, self.freed)
        }
    }

    /// Whether more was received than given (section 2.6.1.2).
    pub(crate) fn has_overflowed(self, part: Part) -> bool
        ensures { result ≡ overflows part self }
    {
        let modulus = part.modulus();
        let allocated = u32::from(grown(part, self.first, self.freed));
        let received = u32::from(self.received) % modulus;
        self.first != 0 && modulus / 2 <= (allocated + modulus - received) % modulus
    }
}
