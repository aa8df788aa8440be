//! Ports, and the port that a packet goes to.
ghost use Rattle.std.specs.Prelude.{◌≡◌, ◌<◌, ℕ};
ghost use Rattle.switch_core.specs.Routing as spec;

use crate::route_fault::RouteFault;
use std::marker::Model;
use tlp_core::{REQUESTERS, Tlp};

/// A port of the switch: 0 is the memory's, 1 to 7 the requesters'. The ID of port n is 256 n.
#[derive(Clone, Copy)]
pub struct Port {
    number: u8,
}

impl Model for Port {
    ghost Value = { ℕ };

    ghost view = { λ p. p.number };

    ghost invariant = { λ p. p.number < 8 };

    ghost inverse = { λ n. record { number = n } };
}

impl Port {
    /// The memory's.
    pub const MEMORY: Port = Port { number: 0 };

    /// The port of a number, 0 to 7.
    pub fn new(number: u8) -> Port
        requires { number < 8 }
        ensures { result ≡ number }
    {
        Port { number }
    }

    /// 0 to 7.
    pub fn number(self) -> u8
        ensures value { result ≡ self }
        ensures range { result < 8 }
    {
        self.number
    }
}

/// The port that a packet goes to which came in from another: a request from a requester goes to
/// the memory, a completion from the memory to the port of its Requester ID, `Requester ID / 256`.
/// `NoPort` for all else: there is no traffic between requesters, and the memory asks for nothing.
/// Takes no memory.
pub fn route(tlp: &Tlp, from: Port) -> Result<Port, RouteFault>
    ensures { result ≡ spec.route tlp.now from }
{
    let requester = tlp.requester / 256;
    if tlp.kind.is_completion() {
        if from.number() == 0 && (1..=u16::from(REQUESTERS)).contains(&requester) {
            return Ok(Port::new(requester as u8));
        }
    } else if from.number() != 0 {
        return Ok(Port::MEMORY);
    }
    Err(RouteFault::NoPort)
}
