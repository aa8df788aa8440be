//! The workers of the lanes, the switch and the completer. Each has one seat.
ghost use Rattle.std.specs.Prelude.{◌≡◌, ◌<◌, false};
ghost use Rattle.dllp_core.specs.declared.packet.Class.TheVariants.{Posted};
ghost use Rattle.hall_core.specs.Views.{IsSeatOf};

use dllp_core::Class;
use fabric_core::LaneName;
use hall_core::{Hall, WorkSeat};
use parameters::Plan;
use worker_turns::{COMPLETER, DOWN_LANES, INWARD_LANE, OUTWARD_LANE, RECEIVERS, SWITCH, UP_LANES};

/// What a worker does in each round, call by call.
#[derive(Clone, Copy)]
pub enum Job {
    /// A lane's first worker: `Transmit`, `DeliverDllp`, and `Retrained` if there was nothing to transmit.
    Sender(LaneName),
    /// A lane's second worker: `Deliver`, the answer as a DLLP, `DeliverDllp`, the update of one class as a DLLP, the
    /// classes taking turns, `DeliverDllp`, and `Timer` if there was nothing to deliver. It sends no DLLP after a
    /// `DeliverDllp` that was busy.
    Receiver(LaneName),
    /// `Forward` from `out`, then from each `up` lane, at place 0 and, if the fabric refused that, at place 1.
    Switch,
    /// `Serve` at place 0 and, if the fabric refused that, at place 1.
    Completer,
}

/// The number of a lane's sender.
fn number_of(lane: LaneName) -> u32
    ensures { result < 1000 }
{
    match lane {
        LaneName::Up(port) => UP_LANES + u32::from(port),
        LaneName::Down(port) => DOWN_LANES + u32::from(port),
        LaneName::Inward => INWARD_LANE,
        LaneName::Outward => OUTWARD_LANE,
    }
}

impl Job {
    /// The number of the worker at this job, by which the gate knows it.
    pub(crate) fn number(self) -> u32 {
        match self {
            Job::Sender(lane) => number_of(lane),
            Job::Receiver(lane) => number_of(lane) + RECEIVERS,
            Job::Switch => SWITCH,
            Job::Completer => COMPLETER,
        }
    }
}

/// A worker at one of these jobs. The plan has the fate of what it delivers, packets and DLLPs being counted apart.
#[derive(Drop)]
pub struct Worker<'a> {
    pub(crate) hall: &'a Hall,
    pub(crate) seat: WorkSeat,
    pub(crate) plan: Plan,
    pub(crate) requesters: u8,
    /// Packets and DLLPs that it delivers are counted from 1.
    pub(crate) packets: u64,
    pub(crate) dllps: u64,
    /// Whose update is due.
    pub(crate) class: Class,
    /// Whether its last DLLP found its parts taken.
    pub(crate) busy: bool,
}

impl<'a> Worker<'a> {
    /// A worker that did nothing yet, of a hall of so many requesters.
    pub fn new(hall: &'a Hall, seat: WorkSeat, plan: Plan, requesters: u8) -> Worker<'a>
        requires { IsSeatOf hall.now seat }
        ensures seat { IsSeatOf result.hall.now result.seat }
        ensures given { (result.hall.now ≡ hall.now) × (result.seat ≡ seat) × (result.plan ≡ plan) × (result.requesters ≡ requesters) }
        ensures first { (result.packets ≡ 1) × (result.dllps ≡ 1) × (result.class ≡ Posted) × (result.busy ≡ false) }
    {
        Worker {
            hall,
            seat,
            plan,
            requesters,
            packets: 1,
            dllps: 1,
            class: Class::Posted,
            busy: false,
        }
    }
}
