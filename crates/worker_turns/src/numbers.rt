//! The numbers by which a gate knows the workers. A requester has that of its port, 1 to 7.
ghost use Rattle.std.specs.Prelude.{◌+◌, ◌<◌, ◌≤◌};
ghost use Rattle.worker_turns.specs.declared.numbers.TheConstants.{UP_LANES, DOWN_LANES, INWARD_LANE, OUTWARD_LANE, SWITCH, COMPLETER, RECEIVERS};

/// The sender of `up1` has the number after this, that of `up2` the next one, and so on to `up7`.
pub const UP_LANES: u32 = 7;

/// The same for the senders of `down1` to `down7`.
pub const DOWN_LANES: u32 = 14;

/// The sender of `in`.
pub const INWARD_LANE: u32 = 22;

/// The sender of `out`.
pub const OUTWARD_LANE: u32 = 23;

/// The worker of the switch.
pub const SWITCH: u32 = 24;

/// The worker of the completer.
pub const COMPLETER: u32 = 25;

/// A lane's receiver has its sender's number and this much more.
pub const RECEIVERS: u32 = 100;

/// No two workers have one number: those of the requesters, of the senders of the `up` lanes and of the `down` lanes, of
/// `in`, of `out`, of the switch and of the completer come one after another, and a receiver's is beyond them all.
pub fn no_two_workers_have_one_number()
    ensures senders { (7 ≤ UP_LANES) × (UP_LANES + 7 ≤ DOWN_LANES) × (DOWN_LANES + 7 < INWARD_LANE) × (INWARD_LANE < OUTWARD_LANE) }
    ensures others { (OUTWARD_LANE < SWITCH) × (SWITCH < COMPLETER) × (COMPLETER < RECEIVERS) }
{}
