//! A counter over a link that loses an Ack: the example of docs/use-the-crates.md.
ghost use Rattle.std.specs.Prelude.{[], IfOk};
ghost use Rattle.history_words.specs.Claim.{claim_of};
ghost use Rattle.history_words.specs.Trace.{Explains};
ghost use Rattle.fabric_steps.specs.Trace.{Belongs};
ghost use Rattle.fabric_steps.specs.Fabric.{whole_of};

use fabric_core::{Config, Event, Fabric, LaneName, Refusal};
use history_check::check;
use history_words::Trace;
use lane_core::{DllpKind, Fate, LaneCredits};
use std::alloc::Global;
use std::test::Fail;
use tlp_core::{Op, Width};

/// One requester, and a memory of 4096 bytes at address 0.
const SMALL: Config = Config {
    requesters: 1,
    base: 0,
    size: 4096,
    credits: LaneCredits::DEFAULT,
    block: 64,
};

/// The lanes that the request takes, and those of its completion.
const UP: LaneName = LaneName::Up(1);

const DOWN: LaneName = LaneName::Down(1);

const IN: LaneName = LaneName::Inward;

const OUT: LaneName = LaneName::Outward;

/// Requester 1 adds 7 to the four bytes at 40h. The Ack of its packet is lost, so the packet is sent once more.
fn script() -> [Event; 18] {
    [
        Event::Submit(
            1,
            Op::FetchAdd {
                address: 0x40,
                width: Width::Four,
                operand: 7,
            },
        ),
        Event::Transmit(UP),
        Event::Deliver(UP, Fate::Good),
        Event::SendDllp(UP, DllpKind::Answer),
        Event::DeliverDllp(UP, Fate::Lost),
        Event::Timer(UP),
        Event::Transmit(UP),
        Event::Deliver(UP, Fate::Good),
        Event::Forward(UP, 0),
        Event::Transmit(IN),
        Event::Deliver(IN, Fate::Good),
        Event::Serve(0),
        Event::Transmit(OUT),
        Event::Deliver(OUT, Fate::Good),
        Event::Forward(OUT, 0),
        Event::Transmit(DOWN),
        Event::Deliver(DOWN, Fate::Good),
        Event::Collect(1),
    ]
}

/// Runs the script on a fabric to which nothing has happened. The history explains the trace, whatever the script does.
fn play(fabric: &mut Fabric, alloc: Global) -> Result<Trace, Refusal>
    requires { Belongs (whole_of fabric.old) [] }
    ensures { IfOk result (λ trace. Explains (claim_of trace fabric.new.memory.entries)) }
{
    match fabric.run(&script(), alloc) {
        Ok(trace) => Ok(trace),
        Err(fault) => Err(fault.refusal),
    }
}

/// Whether 7 is added once, and the checker finds what the contract says.
fn counts_once(fabric: &mut Fabric, alloc: Global) -> bool
    requires { Belongs (whole_of fabric.old) [] }
{
    match play(fabric, alloc) {
        Ok(trace) => {
            fabric.history().len() == 1
                && fabric.bytes().get(0x40) == Some(&7)
                && check(alloc, &trace, fabric.history()).is_ok()
        }
        Err(_) => false,
    }
}

/// The same of a new fabric.
fn on_new(alloc: Global) -> bool {
    match Fabric::new(SMALL, alloc) {
        Ok(mut fabric) => counts_once(&mut fabric, alloc),
        Err(_) => false,
    }
}

#[test]
fn seven_is_added_once(rt: HostRuntime) -> Result<(), Fail> {
    assert!(rt; on_new(rt.alloc()));
    Ok(())
}
