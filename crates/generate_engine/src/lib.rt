//! The engine of `generate`: a storm of events on a fabric, written as a script.
//!
//! [`run_generate`] makes the fabric, lets the events that a seed draws happen to it, and writes a line for the
//! fabric and for each event, a block of lines at a time. It reads nothing, and neither a clock nor the machine: one
//! storm's script is the same wherever it is written.
//!
//! A [`Chooser`] draws each event and tries it on the fabric; if it happens, a [`Listener`] hears of it. It draws from
//! the generator PCG-XSH-RR with 64 bits of state (O'Neill's `pcg32`), so that one seed
//! gives the same events on every machine. Operations meet at a few places, and every kind of event is drawn, each of a
//! link's for every lane; a link is retrained only where its sender has stopped after replays that brought no Ack.
//! What becomes of packets and DLLPs is a plan of faults over each lane's counts: [`laws`] say so of all events that a
//! chooser lets happen.
#![tactic(auto)]

mod arrivals;
mod candidates;
mod chooser;
mod counts;
mod draws;
mod generator;
pub mod laws;
mod lines;
mod listener;
mod operations;

pub use chooser::Chooser;
pub use generator::run_generate;
pub use listener::Listener;
