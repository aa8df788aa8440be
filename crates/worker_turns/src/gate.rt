//! Gates, which see every call of the hall before it is made, and at which threads rest that get nowhere.
ghost use Rattle.std.specs.Prelude.{◌<◌};

use std::thread;
use std::time::{Clock, Duration};

/// Asked before every call of the hall. A requester has the number of its port, 1 to 7, and the other workers have
/// those of [`UP_LANES`](crate::UP_LANES) and the constants beside it. Turns of a worker count from 1.
pub trait Gate {
    /// Whether the worker goes on; `false` ends the run.
    fn pass(&self, worker: u32, turn: u64) -> bool;

    /// A thread of the run rests, so often in a row, since it got nowhere in a round. It holds no part of the hall, and goes
    /// on when this returns.
    fn rest(&self, _rests: u32)
        requires { 0 < _rests }
    {
        thread::yield_now();
    }
}

/// Lets every call pass. Threads that rest yield.
#[derive(Clone, Copy)]
pub struct OpenGate;

impl Gate for OpenGate {
    fn pass(&self, _worker: u32, _turn: u64) -> bool {
        true
    }
}

/// How often in a row a thread yields before it sleeps, at a [`SleepingGate`].
const YIELDS: u32 = 2;

/// How long it sleeps, in microseconds.
const SLEEP: u64 = 50;

/// Lets every call pass. A thread that rests often in a row sleeps.
#[derive(Drop)]
pub struct SleepingGate<'c, C> {
    pub clock: &'c C,
}

impl<'c, C: Clock> Gate for SleepingGate<'c, C> {
    fn pass(&self, _worker: u32, _turn: u64) -> bool {
        true
    }

    fn rest(&self, rests: u32) {
        if rests <= YIELDS {
            thread::yield_now();
        } else {
            thread::sleep(self.clock, Duration::from_micros(SLEEP));
        }
    }
}
