//! What is measured of a lane.
ghost use Rattle.std.specs.Prelude.{◌≡◌, ◌≤◌, length};
ghost use Rattle.chart_levels.specs.Levels as spec;
ghost use Rattle.chart_levels.specs.Strips as look;

use dllp_core::Class;
use fabric_core::{Fabric, LaneName};
use lane_core::LaneEnds;
use seq_memory::Keeper;

/// What is measured of a lane.
#[derive(Clone, Copy)]
pub enum Level {
    /// How many accepted packets wait in the receiver's queue.
    Queue,
    /// How many packets wait in the sender's replay buffer for their acknowledgement.
    ReplayBuffer,
    /// How many headers of the class may still go, as far as the sender knows.
    Headers(Class),
    /// How much data of the class may still go, in units of 16 bytes, as far as the sender knows.
    Data(Class),
}

/// The same number.
fn widened(value: Option<u16>) -> Option<u64>
    ensures { result ≡ value }
{
    match value {
        Some(value) => Some(u64::from(value)),
        None => None,
    }
}

/// A level of a lane; None of credits that are infinite.
fn level_in(ends: &LaneEnds, level: Level) -> Option<u64>
    ensures { result ≡ spec.level_in ends.now level }
{
    match level {
        Level::Queue => Some(ends.receiver.len() as u64),
        Level::ReplayBuffer => Some(ends.sender.sending().len() as u64),
        Level::Headers(class) => widened(ends.sender.gate().headers_left(class)),
        Level::Data(class) => widened(ends.sender.gate().data_left(class)),
    }
}

/// A level of a fabric's lane; None of credits that are infinite, and of a lane that the fabric lacks.
pub fn level_of<K: Keeper>(fabric: &Fabric<K>, lane: LaneName, level: Level) -> Option<u64>
    ensures { result ≡ spec.level_of fabric.now lane level }
{
    match fabric.lane(lane) {
        Some(ends) => level_in(ends, level),
        None => None,
    }
}

/// The name above a step line.
pub(crate) fn level_name(level: Level) -> &'static str
    ensures name { result.now ≡ look.level_name level }
    ensures length { length result.now ≤ 6 }
{
    match level {
        Level::Queue => "queue",
        Level::ReplayBuffer => "replay",
        Level::Headers(Class::Posted) => "PH",
        Level::Headers(Class::NonPosted) => "NPH",
        Level::Headers(Class::Completion) => "CPLH",
        Level::Data(Class::Posted) => "PD",
        Level::Data(Class::NonPosted) => "NPD",
        Level::Data(Class::Completion) => "CPLD",
    }
}

/// What the title of a step says of its value.
pub(crate) fn level_words(level: Level) -> &'static str
    ensures words { result.now ≡ look.level_words level }
    ensures length { length result.now ≤ 30 }
{
    match level {
        Level::Queue => "packets in the queue",
        Level::ReplayBuffer => "packets in the replay buffer",
        Level::Headers(Class::Posted) => "PH credits left",
        Level::Headers(Class::NonPosted) => "NPH credits left",
        Level::Headers(Class::Completion) => "CPLH credits left",
        Level::Data(Class::Posted) => "PD credits left",
        Level::Data(Class::NonPosted) => "NPD credits left",
        Level::Data(Class::Completion) => "CPLD credits left",
    }
}
