//! What a port is to send besides packets and Naks.
ghost use Rattle.std.specs.Prelude.{◌≡◌};
ghost use Rattle.port_core.specs.Dues as spec;

use crate::incoming::Received;
use crate::init::FirstCredits;
use dllp_core::Class;
use flow_control::LaneCredits;

/// A flag for each class.
#[derive(Clone, Copy)]
pub struct ClassFlags {
    pub posted: bool,
    pub non_posted: bool,
    pub completion: bool,
}

/// The DLLPs that are due. A Nak is due as the receiver says.
#[derive(Clone, Copy)]
pub struct Due {
    pub ack: bool,
    /// The InitFCs, InitFC1 in FC_INIT1 and afterwards InitFC2.
    pub init: ClassFlags,
    /// The UpdateFCs.
    pub update: ClassFlags,
}

impl ClassFlags {
    /// All three are set, or none.
    pub fn all(value: bool) -> ClassFlags
        ensures { result ≡ spec.all_flags value }
    {
        ClassFlags {
            posted: value,
            non_posted: value,
            completion: value,
        }
    }

    /// Sets or clears one.
    pub fn set(&mut self, class: Class, value: bool)
        ensures { self.new ≡ spec.with_flag self.old class value }
    {
        match class {
            Class::Posted => self.posted = value,
            Class::NonPosted => self.non_posted = value,
            Class::Completion => self.completion = value,
        }
    }

    /// The first class whose flag is set.
    pub fn first(&self) -> Option<Class>
        ensures { result ≡ spec.first_flag self.now }
    {
        if self.posted {
            Some(Class::Posted)
        } else if self.non_posted {
            Some(Class::NonPosted)
        } else if self.completion {
            Some(Class::Completion)
        } else {
            None
        }
    }
}

impl Due {
    /// Nothing is due.
    pub fn nothing() -> Due
        ensures { result ≡ spec.nothing_due }
    {
        Due {
            ack: false,
            init: ClassFlags::all(false),
            update: ClassFlags::all(false),
        }
    }

    /// Credits of a class went back, of a port that advertises these.
    pub fn note_freed(&mut self, ours: LaneCredits, class: Class)
        ensures { self.new ≡ spec.due_freed ours self.old class }
    {
        if FirstCredits::of(ours, class).is_finite() {
            self.update.set(class, true);
        }
    }

    /// What an arrived packet makes due.
    pub fn note_received(&mut self, ours: LaneCredits, received: Received)
        ensures { self.new ≡ spec.due_received ours self.old received }
    {
        match received {
            Received::Accepted { need, overflows } => {
                self.ack = true;
                if let Some(need) = need {
                    if overflows {
                        self.note_freed(ours, need.class);
                    }
                }
            }
            Received::Duplicate => self.ack = true,
            Received::Dropped | Received::NakNow | Received::Quiet => {}
        }
    }
}
