//! Turns of a worker thread, the gate that it passes before each call of a hall, and how a run ends.
#![tactic(auto)]

mod backoff;
mod gate;
mod numbers;
mod stop;
mod turns;

pub use backoff::Backoff;
pub use gate::{Gate, OpenGate, SleepingGate};
pub use numbers::{
    COMPLETER, DOWN_LANES, INWARD_LANE, OUTWARD_LANE, RECEIVERS, SWITCH, UP_LANES,
    no_two_workers_have_one_number,
};
pub use stop::Stop;
pub use turns::{Shared, Turns};
