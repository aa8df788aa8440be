//! Slots.
ghost use Rattle.std.specs.Prelude.{◌≡◌, ◌≤◌, Option, Some, None, Err, true, IsOk, IsErr, IfOk, IfErr, OnOk, length};
ghost use Rattle.fabric_core.specs.declared.config.Config as configs;
ghost use Rattle.fabric_core.specs.Config.{IsConfig, fault_name};
ghost use Rattle.fabric_core.specs.New as new;
ghost use Rattle.c_buffer.specs.declared.outcome.Failure.TheVariants.{Text, NoMemory};
ghost use Rattle.c_buffer.specs.Buffer.{filled, is_silent};
ghost use Rattle.c_fabric.specs.SessionView.{SessionView, new_session};
ghost use Rattle.c_fabric.specs.Calls.{made, making, AsksFor, IsFabricCall};
ghost use Rattle.std.specs.Coded.{coded_option};
ghost use Rattle.c_buffer.specs.Slot.{slot_owns};
ghost use Rattle.c_fabric.specs.contracts.session.Session.{the_row};

use crate::session::Session;
use crate::witness::{LastSeen, SessionWitness};
use arrayvec::ArrayString;
use c_buffer::{Failure, LINE_BUFFER, Parts, tell_fault};
use fabric_core::{Config, ConfigFault, Fabric};
use script_text::{Line, read_line, write_config_fault};
use std::alloc::Global;
use std::marker::Model;
use tlp_core::MAX_PAYLOAD;

/// A fabric, or nothing. Where it is dropped, the fabric isn't freed.
#[repr(C)]
#[derive(Drop)]
pub struct Slot {
    at: *mut (),
    alloc: Global,
    pub ghost session: { Option SessionView } by { coded_option the_row.coded },
}

impl Model for Slot {
    ghost also_owns = { λ s. slot_owns the_row s.alloc s.at s.session };
}

fn of_parts(parts: Parts<Session, Global>) -> Slot
    ensures { result.session ≡ Some parts.value }
{
    let Parts { ptr, alloc } = parts;
    Slot {
        at: ptr as *mut (),
        alloc,
    }
}

fn into_parts(slot: Slot) -> Parts<Session, Global>
    ghost session: { SessionView }
    requires { slot.session ≡ Some session }
    ensures { result.value ≡ session }
{
    let Slot { at, alloc } = slot;
    Parts {
        ptr: at as *mut Session,
        alloc,
    }
}

/// Takes the session out of the slot.
pub(crate) fn open(slot: Slot) -> Box<Session, Global>
    ghost session: { SessionView }
    requires { slot.session ≡ Some session }
    ensures { result.value ≡ session }
{
    into_parts(slot).into_box()
}

/// A slot that holds the session.
pub(crate) fn close(held: Box<Session, Global>) -> Slot
    ensures { result.session ≡ Some held.value }
{
    of_parts(Parts::of(held))
}

/// A session with a new fabric.
fn make(alloc: Global, config: Config, is_traced: bool) -> Result<Session, ConfigFault>
    ensures ok { IfOk result (λ s. (s ≡ new_session config is_traced) × (new.config_fault config ≡ None)) }
    ensures fault { IfErr result (λ fault. (fault ≡ ConfigFault.Memory → ⊥) → new.config_fault config ≡ Some fault) }
    ensures config { OnOk result (IsConfig config) }
    ensures no_memory { IfErr result (λ fault. fault ≡ ConfigFault.Memory → IsConfig config) }
{
    let fabric = Fabric::new(config, alloc)?;
    Ok(Session {
        fabric,
        is_traced,
        witness: SessionWitness {
            records: Vec::new(alloc),
            last: LastSeen {
                text: ArrayString::new(),
            },
        },
        collected: Vec::new(alloc),
        text: None,
    })
}

/// Puts the name of a fault other than `Memory` to the front of the buffer.
fn put_fault(fault: ConfigFault, buffer: &mut [u8]) -> Failure
    requires { 512 ≤ length buffer.old }
    ensures told { ¬ (result ≡ NoMemory) → ¬ (fault ≡ ConfigFault.Memory) }
    ensures no_memory { result ≡ NoMemory → fault ≡ ConfigFault.Memory }
    ensures failure { ¬ (result ≡ NoMemory) → result ≡ Text (length (fault_name fault)) }
    ensures buffer { ¬ (result ≡ NoMemory) → buffer.new ≡ filled buffer.old (fault_name fault) }
    ensures unchanged { result ≡ NoMemory → buffer.new ≡ buffer.old }
{
    if let ConfigFault::Memory = fault {
        return Failure::NoMemory;
    }
    let mut text = ArrayString::new();
    write_config_fault(&fault, &mut text);
    tell_fault(text.as_bytes(), buffer)
}

/// Makes the fabric of a configuration.
fn make_in(
    alloc: Global,
    config: Config,
    is_traced: bool,
    buffer: &mut [u8],
    slot: &mut Slot,
) -> Result<(), Failure>
    requires { 512 ≤ length buffer.old }
    ensures outcome { ¬ (result ≡ Err NoMemory) → result ≡ (made buffer.old (new.config_fault config)).outcome }
    ensures buffer { ¬ (result ≡ Err NoMemory) → buffer.new ≡ (made buffer.old (new.config_fault config)).buffer }
    ensures no_memory { result ≡ Err NoMemory → IsConfig config }
    ensures made { IsOk result → slot.new.session ≡ Some (new_session config is_traced) }
    ensures unchanged { IsErr result → slot.new ≡ slot.old }
    ensures unchanged_buffer { is_silent result ≡ true → buffer.new ≡ buffer.old }
{
    match make(alloc, config, is_traced) {
        Ok(session) => match Box::new(alloc, session) {
            Ok(held) => {
                *slot = close(held);
                Ok(())
            }
            Err(_) => Err(Failure::NoMemory),
        },
        Err(fault) => Err(put_fault(fault, buffer)),
    }
}

/// Makes the fabric that the line of a script asks for in a slot that holds nothing; with `is_traced`
/// it keeps a trace, which grows by a record for each submission and each answer. With an error the
/// slot stays as it was: `SmallBuffer` for fewer than 512 bytes, then `NoLine` if the line is none of a
/// fabric, then the text of a fault of the configuration, its name, which stands at the front of
/// `buffer`, or `NoMemory` if it has no fault. Without a text the buffer stays as it was, too.
pub fn new_fabric(
    alloc: Global,
    line: &[u8],
    is_traced: bool,
    buffer: &mut [u8],
    slot: &mut Slot,
) -> Result<(), Failure>
    ensures outcome { ¬ (result ≡ Err NoMemory) → result ≡ (making line.now buffer.old).outcome }
    ensures buffer { ¬ (result ≡ Err NoMemory) → buffer.new ≡ (making line.now buffer.old).buffer }
    ensures no_memory { result ≡ Err NoMemory → IsFabricCall line.now buffer.old }
    ensures made { IsOk result → (c : configs.Config) × AsksFor line.now c × (slot.new.session ≡ Some (new_session c is_traced)) }
    ensures unchanged { IsErr result → slot.new ≡ slot.old }
    ensures unchanged_buffer { is_silent result ≡ true → buffer.new ≡ buffer.old }
{
    if buffer.len() < LINE_BUFFER {
        return Err(Failure::SmallBuffer);
    }
    match read_line(line, &mut [0; MAX_PAYLOAD]) {
        Ok(Line::Fabric(config)) => make_in(alloc, config, is_traced, buffer, slot),
        _ => Err(Failure::NoLine),
    }
}

/// Frees the fabric of the slot.
pub fn free_fabric(slot: Slot)
    ghost session: { SessionView }
    requires { slot.session ≡ Some session }
{
    drop(open(slot));
}
