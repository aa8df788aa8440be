//! The receiver's side.
ghost use Rattle.std.specs.Prelude.{◌≡◌, ◌||◌};
ghost use Rattle.flow_control.specs.declared.counter.Part.TheVariants as parts;

use crate::counter::{Grant, Part};
use crate::limits::LaneCredits;
use crate::needs::Need;
use dllp_core::{Class, Dllp};

/// The two counters of a class.
#[derive(Clone, Copy)]
pub(crate) struct ClassLedger {
    header: Grant,
    units: Grant,
}

/// The receiver's counters (section 2.6.1.2): for each class what it received and what it gave.
#[derive(Clone, Copy)]
pub struct CreditLedger {
    posted: ClassLedger,
    non_posted: ClassLedger,
    completion: ClassLedger,
}

impl ClassLedger {
    ghost use Rattle.flow_control.specs.Credits.{class_ledger, class_taken_in, class_given_back};

    fn new(header: u8, units: u16) -> ClassLedger
        ensures { result ≡ class_ledger header units }
    {
        ClassLedger {
            header: Grant::new(u16::from(header)),
            units: Grant::new(units),
        }
    }

    fn receive(&mut self, header: u8, units: u16)
        ensures { self.new ≡ class_taken_in self.old header units }
    {
        self.header.receive(Part::Header, u16::from(header));
        self.units.receive(Part::Data, units);
    }

    fn free(&mut self, header: u8, units: u16)
        ensures { self.new ≡ class_given_back self.old header units }
    {
        self.header.free(Part::Header, u16::from(header));
        self.units.free(Part::Data, units);
    }
}

impl CreditLedger {
    ghost use Rattle.dllp_core.specs.Layout.{FitsFields};
    ghost use Rattle.flow_control.specs.Credits.{ledger_of, overflows, after_received, after_freed, update_of, first_ledger};

    /// The ledger as these credits were advertised and nothing received.
    pub fn new(credits: LaneCredits) -> CreditLedger
        ensures { result ≡ first_ledger credits }
    {
        CreditLedger {
            posted: ClassLedger::new(credits.ph, credits.pd),
            non_posted: ClassLedger::new(credits.nph, credits.npd),
            completion: ClassLedger::new(credits.cplh, credits.cpld),
        }
    }

    fn of(&self, class: Class) -> ClassLedger
        ensures { result ≡ ledger_of class self.now }
    {
        match class {
            Class::Posted => self.posted,
            Class::NonPosted => self.non_posted,
            Class::Completion => self.completion,
        }
    }

    /// A packet of this need entered the queue.
    pub fn received(&mut self, need: Need)
        ensures { self.new ≡ after_received self.old need }
    {
        match need.class {
            Class::Posted => self.posted.receive(need.header, need.units),
            Class::NonPosted => self.non_posted.receive(need.header, need.units),
            Class::Completion => self.completion.receive(need.header, need.units),
        }
    }

    /// A packet of this need left the queue: its credits are given back.
    pub fn freed(&mut self, need: Need)
        ensures { self.new ≡ after_freed self.old need }
    {
        match need.class {
            Class::Posted => self.posted.free(need.header, need.units),
            Class::NonPosted => self.non_posted.free(need.header, need.units),
            Class::Completion => self.completion.free(need.header, need.units),
        }
    }

    /// The UpdateFC of a class: what was given so far, 0 where it is infinite.
    pub fn update(&self, class: Class) -> Dllp
        ensures value { result ≡ update_of self.now class }
        ensures in_range { FitsFields result }
    {
        let ledger = self.of(class);
        Dllp::Update(
            class,
            ledger.header.told(Part::Header) as u8,
            ledger.units.told(Part::Data),
        )
    }

    /// The receiver's check for a flow control overflow of a class: whether more was received than given.
    pub fn has_overflowed(&self, class: Class) -> bool
        ensures { result ≡ (overflows parts.Header (ledger_of class self.now).header || overflows parts.Data (ledger_of class self.now).units) }
    {
        let ledger = self.of(class);
        ledger.header.has_overflowed(Part::Header) || ledger.units.has_overflowed(Part::Data)
    }
}
