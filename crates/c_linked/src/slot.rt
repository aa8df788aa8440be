//! Slots.
ghost use Rattle.std.specs.Prelude.{◌≡◌, ◌⊎◌, Option, Some, Ok, Err, IsOk, IsErr};
ghost use Rattle.flow_control.specs.Limits.{IsInLimits};
ghost use Rattle.c_linked.specs.SessionView.{SessionView, new_session};
ghost use Rattle.c_linked.specs.declared.setup.NewFailure.TheVariants.{NoMemory};
ghost use Rattle.std.specs.Coded.{coded_option};
ghost use Rattle.c_buffer.specs.Slot.{slot_owns};
ghost use Rattle.c_linked.specs.contracts.session.Session.{the_row};
ghost use Rattle.c_linked.specs.Making.{limit, session_of};

use crate::session::Session;
use crate::setup::{LinkedSetup, NewFailure};
use c_buffer::Parts;
use config_core::Setup;
use endpoint_log::Recording;
use flow_control::LaneCredits;
use linked_endpoint::LinkedEndpoint;
use std::alloc::Global;
use std::marker::Model;

/// An endpoint behind its link with what is recorded of it, or nothing. Where it is dropped, the endpoint isn't freed.
#[repr(C)]
#[derive(Drop)]
pub struct Slot {
    at: *mut (),
    alloc: Global,
    pub ghost session: { Option SessionView } by { coded_option the_row.coded },
}

impl Model for Slot {
    ghost also_owns = { λ s. slot_owns the_row s.alloc s.at s.session };
}

fn of_parts(parts: Parts<Session, Global>) -> Slot
    ensures { result.session ≡ Some parts.value }
{
    let Parts { ptr, alloc } = parts;
    Slot {
        at: ptr as *mut (),
        alloc,
    }
}

fn into_parts(slot: Slot) -> Parts<Session, Global>
    ghost session: { SessionView }
    requires { slot.session ≡ Some session }
    ensures { result.value ≡ session }
{
    let Slot { at, alloc } = slot;
    Parts {
        ptr: at as *mut Session,
        alloc,
    }
}

/// Takes the session out of the slot.
pub(crate) fn open(slot: Slot) -> Box<Session, Global>
    ghost session: { SessionView }
    requires { slot.session ≡ Some session }
    ensures { result.value ≡ session }
{
    into_parts(slot).into_box()
}

/// A slot that holds the session.
pub(crate) fn close(held: Box<Session, Global>) -> Slot
    ensures { result.session ≡ Some held.value }
{
    of_parts(Parts::of(held))
}

/// Makes an endpoint in a slot that holds nothing.
fn make_in(
    alloc: Global,
    setup: Setup,
    ours: LaneCredits,
    is_traced: bool,
    slot: &mut Slot,
) -> Result<(), NewFailure>
    requires { IsInLimits ours }
    ensures memory { IsErr result → result ≡ Err NoMemory }
    ensures made { IsOk result → slot.new.session ≡ Some (new_session setup ours is_traced) }
    ensures unchanged { IsErr result → slot.new ≡ slot.old }
{
    let Ok(linked) = LinkedEndpoint::new(alloc, setup, ours) else {
        return Err(NewFailure::NoMemory);
    };
    let session = Session {
        linked,
        recording: Recording::new(alloc, setup, is_traced),
    };
    match Box::new(alloc, session) {
        Ok(held) => {
            *slot = close(held);
            Ok(())
        }
        Err(_) => Err(NewFailure::NoMemory),
    }
}

/// Makes an endpoint in a slot that holds nothing; its memory holds zeros, and its link is down. With an error the slot stays
/// as it was: `WrongSize`, `WrongCredits`, `NoMemory`, tested in this order.
pub fn new_linked(alloc: Global, setup: LinkedSetup, slot: &mut Slot) -> Result<(), NewFailure>
    ensures outcome { (result ≡ limit setup) ⊎ ((limit setup ≡ Ok tt) × (result ≡ Err NoMemory)) }
    ensures made { IsOk result → slot.new.session ≡ Some (session_of setup) }
    ensures unchanged { IsErr result → slot.new ≡ slot.old }
{
    let device = setup.device()?;
    let ours = setup.credits.advertised()?;
    make_in(alloc, device, ours, setup.is_traced, slot)
}

/// Frees the endpoint of the slot.
pub fn free_linked(slot: Slot)
    ghost session: { SessionView }
    requires { slot.session ≡ Some session }
{
    drop(open(slot));
}
