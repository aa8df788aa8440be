//! Sequence numbers of the data link layer: 12 bits, compared modulo 4096 (PCI Express Base 4.0, section 3.6.2).
#![tactic(auto)]

ghost use Rattle.std.specs.Prelude.{◌≡◌, ℕ, ◌+◌, ◌%◌, ◌<◌};

use std::marker::Model;

mod class;

pub use class::{SequenceClass, classify};

/// How many sequence numbers there are; they wrap from 4095 to 0.
pub const SEQUENCE_NUMBERS: u16 = 4096;

/// A sequence number, 0 to 4095.
#[derive(Clone, Copy, Debug, PartialEq)]
pub struct Seq12 {
    number: u16,
}

impl Model for Seq12 {
    ghost Value = { ℕ };

    ghost view = { λ s. s.number };

    ghost invariant = { λ s. s.number < 4096 };

    ghost inverse = { λ n. record { number = n } };
}

impl Seq12 {
    ghost use Rattle.seq12.specs.Numbers.{plus_of, next_of, previous_of, distance_of};

    pub fn new(number: u16) -> Seq12
        requires { number < 4096 }
        ensures { result ≡ number }
    {
        Seq12 { number }
    }

    pub fn value(self) -> u16
        ensures value { result ≡ self }
        ensures in_range { result < 4096 }
    {
        self.number
    }

    /// The number that is so many steps after this one.
    pub fn plus(self, steps: u16) -> Seq12
        requires { steps < 4096 }
        ensures { result ≡ plus_of self steps }
    {
        Seq12 {
            number: (self.number + steps) % SEQUENCE_NUMBERS,
        }
    }

    /// The number after this one.
    pub fn next(self) -> Seq12
        ensures { result ≡ next_of self }
    {
        self.plus(1)
    }

    /// The number before this one.
    pub fn previous(self) -> Seq12
        ensures { result ≡ previous_of self }
    {
        self.plus(SEQUENCE_NUMBERS - 1)
    }

    /// How many steps forward lead from `from` to this number, 0 to 4095.
    pub fn distance(self, from: Seq12) -> u16
        ensures value { result ≡ distance_of self from }
        ensures leads_here { plus_of from result ≡ self }
        ensures in_range { result < 4096 }
    {
        (self.number + SEQUENCE_NUMBERS - from.number) % SEQUENCE_NUMBERS
    }
}
