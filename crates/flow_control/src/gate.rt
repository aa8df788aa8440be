//! The sender's side.
ghost use Rattle.std.specs.Prelude.{◌≡◌, ℕ, ◌<◌, ◌≤◌, ◌↔◌, IsTrue};

use crate::counter::{Allowance, Part};
use crate::limits::LaneCredits;
use crate::needs::Need;
use dllp_core::Class;
use std::marker::Model;

/// The two counters of a class.
#[derive(Clone, Copy)]
pub(crate) struct ClassGate {
    header: Allowance,
    units: Allowance,
}

/// The transmitter's counters (section 2.6.1.2): for each class what it may use and what it used.
///
/// CREDIT_LIMIT and CREDITS_CONSUMED are always below 256 for headers and below 4096 for data, so a gate alone tells
/// the room: their difference modulo 256 or 4096.
#[derive(Clone, Copy)]
pub struct CreditGate {
    posted: ClassGate,
    non_posted: ClassGate,
    completion: ClassGate,
}

impl Model for CreditGate {
    ghost use Rattle.flow_control.specs.Credits.{CreditGateView, IsWithin};

    ghost Value = { CreditGateView };

    ghost view = { λ g. record { posted = g.posted; non_posted = g.non_posted; completion = g.completion } };

    ghost invariant = { λ g. IsWithin (record { posted = g.posted; non_posted = g.non_posted; completion = g.completion }) };

    ghost inverse = { λ g. record { posted = g.posted; non_posted = g.non_posted; completion = g.completion } };
}

impl ClassGate {
    ghost use Rattle.flow_control.specs.Credits.{class_gate, class_covers, class_spent, class_limited, left_of};
    ghost use Rattle.flow_control.specs.declared.counter.Part.TheVariants as parts;

    fn new(header: u8, units: u16) -> ClassGate
        ensures { result ≡ class_gate header units }
    {
        ClassGate {
            header: Allowance::new(Part::Header, u16::from(header)),
            units: Allowance::new(Part::Data, units),
        }
    }

    fn fits(self, header: u8, units: u16) -> bool
        ensures { result ≡ class_covers self header units }
    {
        self.header.fits(Part::Header, u16::from(header)) && self.units.fits(Part::Data, units)
    }

    fn headers_left(self) -> Option<u16>
        ensures { result ≡ left_of parts.Header self.header }
    {
        self.header.left(Part::Header)
    }

    fn data_left(self) -> Option<u16>
        ensures { result ≡ left_of parts.Data self.units }
    {
        self.units.left(Part::Data)
    }

    fn consume(&mut self, header: u8, units: u16)
        ensures { self.new ≡ class_spent self.old header units }
    {
        self.header.consume(Part::Header, u16::from(header));
        self.units.consume(Part::Data, units);
    }

    fn limit(&mut self, header: u8, units: u16)
        ensures { self.new ≡ class_limited self.old header units }
    {
        self.header.set_limit(u16::from(header));
        self.units.set_limit(units);
    }
}

impl CreditGate {
    ghost use Rattle.flow_control.specs.Credits.{most, pick, gate_of, allowance, gate_covers, after_consume, after_limit, first_gate, StandsFor, HasRoom, room_of, left_of};
    ghost use Rattle.flow_control.specs.declared.counter.Part.{Part};
    ghost use Rattle.flow_control.specs.declared.counter.Part.TheVariants as parts;

    /// The gate as these credits were advertised and nothing used.
    pub fn new(credits: LaneCredits) -> CreditGate
        ensures { result ≡ first_gate credits }
    {
        CreditGate {
            posted: ClassGate::new(credits.ph, credits.pd),
            non_posted: ClassGate::new(credits.nph, credits.npd),
            completion: ClassGate::new(credits.cplh, credits.cpld),
        }
    }

    /// Whether a packet of this need may go (section 2.6.1.2).
    pub fn fits(&self, need: Need) -> bool
        ensures value { result ≡ gate_covers self.now need }
        ensures right { (known used : Part → ℕ) →
            ((p : Part) → 0 < (allowance need.class p self.now).first → StandsFor p (allowance need.class p self.now) (known p) (used p)) →
            need.header ≤ 127 → need.units ≤ 2047 →
            IsTrue result ↔ ((p : Part) → HasRoom (allowance need.class p self.now) (known p) (used p) (pick p need.header need.units)) }
        ensures room { need.header ≤ 127 → need.units ≤ 2047 →
            ((p : Part) → 0 < (allowance need.class p self.now).first → room_of p (allowance need.class p self.now) ≤ most p) →
            IsTrue result ↔ ((p : Part) → 0 < (allowance need.class p self.now).first →
            pick p need.header need.units ≤ room_of p (allowance need.class p self.now)) }
        ensures infinite { ((p : Part) → (allowance need.class p self.now).first ≡ 0) → IsTrue result }
    {
        match need.class {
            Class::Posted => self.posted.fits(need.header, need.units),
            Class::NonPosted => self.non_posted.fits(need.header, need.units),
            Class::Completion => self.completion.fits(need.header, need.units),
        }
    }

    fn of(&self, class: Class) -> ClassGate
        ensures { result ≡ gate_of class self.now }
    {
        match class {
            Class::Posted => self.posted,
            Class::NonPosted => self.non_posted,
            Class::Completion => self.completion,
        }
    }

    /// How many headers of a class may still go, as far as the sender knows; None if they are infinite.
    pub fn headers_left(&self, class: Class) -> Option<u16>
        ensures { result ≡ left_of parts.Header (allowance class parts.Header self.now) }
    {
        self.of(class).headers_left()
    }

    /// How much data of a class may still go, in units of 16 bytes, as far as the sender knows; None if it is infinite.
    pub fn data_left(&self, class: Class) -> Option<u16>
        ensures { result ≡ left_of parts.Data (allowance class parts.Data self.now) }
    {
        self.of(class).data_left()
    }

    /// Takes the credits of a packet that goes now.
    pub fn consume(&mut self, need: Need)
        requires { IsTrue (gate_covers self.old need) }
        ensures { self.new ≡ after_consume self.old need }
    {
        match need.class {
            Class::Posted => self.posted.consume(need.header, need.units),
            Class::NonPosted => self.non_posted.consume(need.header, need.units),
            Class::Completion => self.completion.consume(need.header, need.units),
        }
    }

    /// Takes what an UpdateFC carries: HdrFC, and DataFC, which has 12 bits.
    pub fn limit(&mut self, class: Class, header: u8, units: u16)
        requires { units < 4096 }
        ensures { self.new ≡ after_limit self.old class header units }
    {
        match class {
            Class::Posted => self.posted.limit(header, units),
            Class::NonPosted => self.non_posted.limit(header, units),
            Class::Completion => self.completion.limit(header, units),
        }
    }
}
