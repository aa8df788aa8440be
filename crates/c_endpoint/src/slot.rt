//! Slots.
ghost use Rattle.std.specs.Prelude.{◌≡◌, ◌⊎◌, Option, Some, Ok, Err, IsOk, IsErr, IfOk, IfErr};
ghost use Rattle.c_buffer.specs.declared.outcome.Failure.TheVariants.{NoMemory};
ghost use Rattle.std.specs.Coded.{coded_option};
ghost use Rattle.c_buffer.specs.Slot.{slot_owns};
ghost use Rattle.c_endpoint.specs.contracts.session.Session.{the_row};
ghost use Rattle.c_endpoint.specs.SessionView.{SessionView, new_session};
ghost use Rattle.c_endpoint.specs.Calls.{limit, setup_with};

use crate::session::Session;
use c_buffer::{Failure, Parts};
use config_core::Setup;
use endpoint_core::Endpoint;
use endpoint_log::Recording;
use seq_memory::MAX_SIZE;
use std::alloc::Global;
use std::marker::Model;

/// An endpoint with what is recorded of it, or nothing. Where it is dropped, the endpoint isn't freed.
#[repr(C)]
#[derive(Drop)]
pub struct Slot {
    at: *mut (),
    alloc: Global,
    pub ghost session: { Option SessionView } by { coded_option the_row.coded },
}

impl Model for Slot {
    ghost also_owns = { λ s. slot_owns the_row s.alloc s.at s.session };
}

fn of_parts(parts: Parts<Session, Global>) -> Slot
    ensures { result.session ≡ Some parts.value }
{
    let Parts { ptr, alloc } = parts;
    Slot {
        at: ptr as *mut (),
        alloc,
    }
}

fn into_parts(slot: Slot) -> Parts<Session, Global>
    ghost session: { SessionView }
    requires { slot.session ≡ Some session }
    ensures { result.value ≡ session }
{
    let Slot { at, alloc } = slot;
    Parts {
        ptr: at as *mut Session,
        alloc,
    }
}

/// Takes the session out of the slot.
pub(crate) fn open(slot: Slot) -> Box<Session, Global>
    ghost session: { SessionView }
    requires { slot.session ≡ Some session }
    ensures { result.value ≡ session }
{
    into_parts(slot).into_box()
}

/// A slot that holds the session.
pub(crate) fn close(held: Box<Session, Global>) -> Slot
    ensures { result.session ≡ Some held.value }
{
    of_parts(Parts::of(held))
}

/// What an endpoint is made with.
#[derive(Clone, Copy)]
pub struct Wanted {
    /// The bytes of its memory: a power of two from 4096 to 1,048,576.
    pub size: usize,
    /// Its Vendor ID.
    pub vendor: u16,
    /// Its Device ID.
    pub device: u16,
    /// Keeps a trace, which grows with what the memory is asked and answers.
    pub is_traced: bool,
}

/// What an endpoint has from the first, or `WrongSize`.
fn setup_of(wanted: Wanted) -> Result<Setup, Failure>
    ensures ok { IfOk result (λ s. (s ≡ setup_with wanted) × (limit wanted.size ≡ Ok tt)) }
    ensures err { IfErr result (λ f. limit wanted.size ≡ Err f) }
{
    if wanted.size > MAX_SIZE {
        return Err(Failure::WrongSize);
    }
    match Setup::new(wanted.size as u32, wanted.vendor, wanted.device) {
        Some(setup) => Ok(setup),
        None => Err(Failure::WrongSize),
    }
}

/// Makes an endpoint in a slot that holds nothing.
fn make_in(alloc: Global, setup: Setup, is_traced: bool, slot: &mut Slot) -> Result<(), Failure>
    ensures memory { IsErr result → result ≡ Err NoMemory }
    ensures made { IsOk result → slot.new.session ≡ Some (new_session setup is_traced) }
    ensures unchanged { IsErr result → slot.new ≡ slot.old }
{
    let Ok(endpoint) = Endpoint::new(alloc, setup) else {
        return Err(Failure::NoMemory);
    };
    let session = Session {
        endpoint,
        recording: Recording::new(alloc, setup, is_traced),
    };
    match Box::new(alloc, session) {
        Ok(held) => {
            *slot = close(held);
            Ok(())
        }
        Err(_) => Err(Failure::NoMemory),
    }
}

/// Makes an endpoint, whose memory holds zeros, in a slot that holds nothing. With an error the slot stays as it was:
/// `WrongSize`, `NoMemory`, tested in this order.
pub fn new_endpoint(alloc: Global, wanted: Wanted, slot: &mut Slot) -> Result<(), Failure>
    ensures outcome { (result ≡ limit wanted.size) ⊎ ((limit wanted.size ≡ Ok tt) × (result ≡ Err NoMemory)) }
    ensures made { IsOk result → slot.new.session ≡ Some (new_session (setup_with wanted) wanted.is_traced) }
    ensures unchanged { IsErr result → slot.new ≡ slot.old }
{
    make_in(alloc, setup_of(wanted)?, wanted.is_traced, slot)
}

/// Frees the endpoint of the slot.
pub fn free_endpoint(slot: Slot)
    ghost session: { SessionView }
    requires { slot.session ≡ Some session }
{
    drop(open(slot));
}
