//! The registers and the memory of a device.
ghost use Rattle.std.specs.Prelude.{◌≡◌, ◌+◌, ◌≤◌, ◌^◌, ◌⊎◌, List, ◌∷◌, IfOk, IfSome, OnSome, replicate};
ghost use Rattle.tlp_core.specs.declared.packet.Kind.{Kind};
ghost use Rattle.tlp_core.specs.Operation.{op_of};
ghost use Rattle.endpoint_core.specs.Classes as classes;
ghost use Rattle.endpoint_core.specs.Steps as spec;
ghost use Rattle.endpoint_core.specs.Blocks as blocks;

use crate::Descriptor;
use crate::classes::{descriptor_for, descriptor_of, is_supported};
use crate::completions::{Place, answer_first, refused, with_word, without_data};
use crate::requests::{act_all, block_bytes, dw_in_front};
use crate::waiting::Waiting;
use config_core::{CfgRequest, Noted, Registers, Setup};
use seq_memory::ReplyData;
use std::alloc::{AllocError, Global};
use std::marker::Model;
use tlp_core::{Status, TlpRef, op_lent};

/// Room for a TLP that is read without its digest, and for the payload of a completion. What it holds counts for nothing.
#[derive(Drop)]
pub struct Room {
    pub(crate) packet: crate::PacketRoom,
    pub(crate) data: ReplyData,
    pub(crate) word: [u8; 4],
}

impl Room {
    pub fn new() -> Room {
        Room {
            packet: crate::PacketRoom::new(),
            data: ReplyData::new(),
            word: [0; 4],
        }
    }
}

/// What a request that waited did.
#[derive(Drop)]
pub(crate) struct Acted<'r> {
    pub(crate) completion: Option<TlpRef<'r>>,
    /// How many DW of it are done, if more are left, and else 0.
    pub(crate) done: u16,
}

/// All of a request is done.
#[inline(always)]
fn whole<'r>(completion: Option<TlpRef<'r>>) -> Acted<'r>
    ensures completion { result.completion ≡ completion.entry }
    ensures done { result.done ≡ 0 }
{
    Acted {
        completion,
        done: 0,
    }
}

/// One function with a memory behind its BAR.
#[derive(Drop)]
pub(crate) struct Device {
    registers: Registers,
    completer: u16,
    bytes: Vec<u8>,
}

impl Model for Device {
    ghost use Rattle.endpoint_core.specs.EndpointView.{DeviceView};

    ghost Value = { DeviceView };

    ghost view = { λ d. record { registers = d.registers; completer = d.completer; bytes = d.bytes.items } };
}

fn zeros(alloc: Global, size: u32) -> Result<Vec<u8>, AllocError>
    ensures { IfOk result (λ v. v.items ≡ replicate size 0) }
{
    vec![in alloc; 0u8; size as usize]
}

/// The Completer ID that a write gives.
fn captured(request: &CfgRequest) -> u16
    ensures { result ≡ spec.captured request.now }
{
    u16::from(request.bus) * 256 + u16::from(request.device % 32) * 8
}

impl Device {
    /// A device after a reset, whose memory holds zeros.
    pub(crate) fn new(alloc: Global, setup: Setup) -> Result<Device, AllocError>
        ensures { IfOk result (λ d. d ≡ spec.new_device setup (replicate setup.size 0)) }
    {
        let bytes = zeros(alloc, setup.size())?;
        Ok(Device {
            registers: Registers::new(setup),
            completer: 0,
            bytes,
        })
    }

    /// The bytes of the memory.
    pub(crate) fn bytes(&self) -> &[u8]
        ensures { result.now ≡ self.now.bytes }
    {
        &self.bytes
    }

    /// Registers are what they are after a reset; the memory's bytes stay.
    pub(crate) fn reset(&mut self)
        ensures { self.new ≡ spec.new_device self.old.registers.setup self.old.bytes }
    {
        self.registers.reset();
        self.completer = 0;
    }

    /// Reports an error.
    pub(crate) fn note(&mut self, error: Noted)
        ensures { self.new ≡ spec.noting self.old error }
    {
        self.registers.note(error);
    }

    /// Reports that poisoned data came, if it did.
    pub(crate) fn note_poison(&mut self, poisoned: bool)
        ensures { self.new ≡ spec.with_poison poisoned self.old }
    {
        if poisoned {
            self.registers.note_poison();
        }
    }

    /// The address of the memory's first byte, if the BAR claims a place of so many bytes.
    pub(crate) fn base_for(&self, address: u64, bytes: u32) -> Option<u64>
        ensures value { result ≡ spec.base_for self.now address bytes }
        ensures range { IfSome result (λ base. base ≤ address) }
        ensures fits { OnSome result (address + bytes ≤ 2 ^ 64) }
    {
        let offset = self.registers.claims(address, bytes)?;
        if bytes > 0 && u64::from(bytes - 1) > u64::MAX - address {
            return None;
        }
        Some(address - offset)
    }

    /// Whether the BAR claims a memory request.
    fn claims(&self, request: &TlpRef<'_>) -> bool
        ensures { result ≡ spec.is_claimed self.now (op_of request.now) }
    {
        let Some(op) = op_lent(request) else {
            return true;
        };
        self.base_for(op.address(), op.size()).is_some()
    }

    /// A poisoned write is dropped.
    pub(crate) fn drop_poisoned(&mut self, request: &TlpRef<'_>)
        ensures { self.new ≡ spec.noting self.old (spec.dropped_error self.old (op_of request.now)) }
    {
        let error = if self.claims(request) {
            Noted::Dropped
        } else {
            Noted::Unclaimed
        };
        self.note(error);
    }

    /// A posted request comes: if it is claimed it acts. Whether it is.
    #[tactic(auto, using(crate::proofs::Parts::few_of))]
    pub(crate) fn post(&mut self, request: &TlpRef<'_>, room: &mut ReplyData) -> bool
        requires { request.now.kind ≡ Kind.MemoryWrite }
        ensures state { self.new ≡ spec.posted self.old (op_of request.now) }
        ensures claimed { result ≡ spec.is_claimed self.old (op_of request.now) }
    {
        let Some(op) = op_lent(request) else {
            return true;
        };
        let Some(base) = self.base_for(op.address(), op.size()) else {
            self.note(Noted::Unclaimed);
            return false;
        };
        act_all(base, &mut self.bytes, &op, room);
        true
    }

    /// How many bytes of data the completion of a memory request's first block has.
    fn memory_data(&self, request: &TlpRef<'_>) -> u16
        ensures { result ≡ spec.memory_data self.now (op_of request.now) }
    {
        let Some(op) = op_lent(request) else {
            return 0;
        };
        if self.base_for(op.address(), op.size()).is_none() {
            return 0;
        }
        block_bytes(&op)
    }

    /// How many bytes of data the next completion of a request has.
    pub(crate) fn data_by(&self, request: &Waiting) -> u16
        ensures { result ≡ spec.data_by self.now request.now }
    {
        match request {
            Waiting::Memory(asked) => self.memory_data(&asked.lend()),
            Waiting::Configuration(asked) if is_supported(asked) && !asked.writes => 4,
            _ => 0,
        }
    }

    /// The first block of a memory request acts, if it is claimed.
    #[tactic(auto, using(crate::proofs::Replies::done_is, crate::proofs::Parts::cut_of))]
    fn act_memory<'r>(&mut self, request: &TlpRef<'_>, room: &'r mut ReplyData) -> Acted<'r>
        ensures state { self.new ≡ spec.memory_acted self.old (op_of request.now) }
        ensures completion { result.completion ≡ spec.memory_completion self.old request.now (op_of request.now) }
        ensures done { result.done ≡ spec.memory_done self.old (op_of request.now) }
        ensures cut { (result.done ≡ 0) ⊎ blocks.IsCut result.done request.now }
    {
        let Some(op) = op_lent(request) else {
            return whole(None);
        };
        let completer = self.completer;
        let Some(base) = self.base_for(op.address(), op.size()) else {
            self.note(Noted::Refused);
            return whole(refused(request, completer));
        };
        let done = dw_in_front(&op);
        let place = Place { base, completer };
        Acted {
            completion: answer_first(place, &mut self.bytes, request, done, room),
            done,
        }
    }

    /// A poisoned AtomicOp is refused.
    fn refuse_poisoned<'r>(&mut self, request: &TlpRef<'_>) -> TlpRef<'r>
        ensures state { self.new ≡ spec.noting self.old (spec.poisoned_error self.old (op_of request.now)) }
        ensures completion { result ≡ spec.completion_without (classes.descriptor_of request.now) self.old.completer Status.Unsupported 4 }
    {
        let error = if self.claims(request) {
            Noted::Poisoned
        } else {
            Noted::Refused
        };
        self.note(error);
        without_data(
            descriptor_of(request),
            self.completer,
            Status::Unsupported,
            4,
        )
    }

    /// A configuration request acts, if it is supported.
    fn act_configuration<'r>(&mut self, request: &CfgRequest, room: &'r mut [u8; 4]) -> TlpRef<'r>
        ensures state { self.new ≡ spec.configured self.old request.now }
        ensures completion { result ≡ spec.configuration_completion self.old request.now }
    {
        let descriptor = descriptor_for(request);
        if !is_supported(request) {
            self.note(Noted::Refused);
            return without_data(descriptor, self.completer, Status::Unsupported, 4);
        }
        if !request.writes {
            let word = self.registers.read(request.register);
            return with_word(descriptor, self.completer, word, room);
        }
        self.registers
            .write(request.register, request.enables % 16, request.value);
        self.completer = captured(request);
        without_data(descriptor, self.completer, Status::Success, 4)
    }

    /// A request that waited acts, by one block if it is a memory request.
    pub(crate) fn act<'r>(&mut self, request: &Waiting, room: &'r mut Room) -> Acted<'r>
        ensures state { self.new ≡ spec.acted_by self.old request.now }
        ensures completion { result.completion ≡ spec.completion_by self.old request.now }
        ensures done { result.done ≡ spec.done_by self.old request.now }
        ensures advances { (ws : List Waiting) → blocks.CanAdvance result.done (request.now ∷ ws) }
    {
        match request {
            Waiting::Memory(asked) => self.act_memory(&asked.lend(), &mut room.data),
            Waiting::Configuration(asked) => {
                whole(Some(self.act_configuration(asked, &mut room.word)))
            }
            Waiting::Poisoned(asked) => whole(Some(self.refuse_poisoned(&asked.lend()))),
            Waiting::Refused(descriptor, error) => {
                self.note(*error);
                whole(Some(without_data(*descriptor, self.completer, Status::Unsupported, 4)))
            }
        }
    }
}
