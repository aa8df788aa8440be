//! A device and its queue of non-posted requests.
ghost use Rattle.std.specs.Prelude.{◌≡◌, ◌+◌, ◌≤◌, ◌^◌, length, IfOk, IfSome, IsErr, OnSome, OnOk, OnErr};
ghost use Rattle.tlp_core.specs.Operation.{address_of, count_of};
ghost use Rattle.tlp_core.specs.TlpView.{TlpView};
ghost use Rattle.tlp_core.specs.declared.packet.Kind.{Kind};
ghost use Rattle.endpoint_core.specs.Steps as spec;
ghost use Rattle.endpoint_core.specs.Blocks as blocks;

use crate::classes::{carries_poison, receive};
use crate::device::{Device, Room};
use crate::received::{Malformed, Received};
use crate::waiting::{MemoryRequest, Waiting, go_on};
use config_core::{Noted, Setup};
use flow_control::Need;
use seq_memory::ReplyData;
use std::alloc::{AllocError, Global};
use std::collections::VecDeque;
use std::marker::Model;
use tlp_core::{OpRef, TlpRef, op_lent};

/// What became of a TLP that came.
#[derive(Clone, Copy, PartialEq)]
pub enum Handled {
    /// A non-posted request, which waits.
    Waits,
    /// A posted request, which acted.
    Done,
    /// A message without effect.
    Ignored,
    /// A TLP that is not supported, and has no completion.
    Unsupported,
    /// A completion: the device has no requests.
    Unexpected,
    /// A malformed TLP.
    Malformed(Malformed),
}

/// A memory device: the registers of one function, a memory behind its BAR, and the non-posted requests that wait.
#[derive(Drop)]
pub struct Endpoint {
    device: Device,
    waiting: VecDeque<Waiting>,
}

impl Model for Endpoint {
    ghost use Rattle.endpoint_core.specs.EndpointView.{EndpointView};

    ghost Value = { EndpointView };

    ghost view = { λ e. record { device = e.device; waiting = e.waiting.items } };
}

/// So many DW of the head are done, or all of it where they are 0.
#[tactic(auto, using(crate::proofs::Heads::can_go_on, crate::proofs::Heads::head_gone_on))]
fn advance(waiting: &mut VecDeque<Waiting>, dw: u16)
    requires { blocks.CanAdvance dw waiting.old.items }
    ensures { waiting.new.items ≡ spec.advanced dw waiting.old.items }
{
    if dw == 0 {
        let _ = waiting.pop_front();
        return;
    }
    if let Some(head) = waiting.get_mut(0) {
        go_on(head, dw);
    }
}

impl Endpoint {
    /// A device after a reset, whose memory holds zeros. Fails if memory can't be allocated.
    pub fn new(alloc: Global, setup: Setup) -> Result<Endpoint, AllocError>
        ensures { IfOk result (λ e. e ≡ spec.new_endpoint setup) }
    {
        Ok(Endpoint {
            device: Device::new(alloc, setup)?,
            waiting: VecDeque::new(alloc),
        })
    }

    /// A non-posted request waits behind the others.
    fn wait(&mut self, request: Waiting) -> Result<Handled, AllocError>
        ensures ok { OnOk result (self.new ≡ spec.queued self.old request) }
        ensures answer { IfOk result (λ h. h ≡ Handled.Waits) }
        ensures err { OnErr result (self.new ≡ self.old) }
    {
        self.waiting.push_back(request)?;
        Ok(Handled::Waits)
    }

    /// What a TLP does of which this becomes.
    #[inline(always)]
    fn take_as(
        &mut self,
        received: Received<'_>,
        room: &mut ReplyData,
    ) -> Result<Handled, AllocError>
        requires posted { (t : TlpView) → received ≡ Received.Posted t → t.kind ≡ Kind.MemoryWrite }
        requires non_posted { (t : TlpView) → received ≡ Received.NonPosted t → blocks.IsNonPosted t.kind }
        requires poisoned { (t : TlpView) → received ≡ Received.PoisonedNonPosted t → blocks.IsNonPosted t.kind }
        ensures ok { OnOk result (self.new ≡ spec.taken_as self.old received.entry) }
        ensures answer { IfOk result (λ h. h ≡ spec.handled_as self.old.device received.entry) }
        ensures no_memory { IsErr result → spec.handled_as self.old.device received.entry ≡ Handled.Waits }
        ensures err { OnErr result (self.new ≡ self.old) }
    {
        match received {
            Received::Posted(request) => {
                if self.device.post(&request, room) {
                    Ok(Handled::Done)
                } else {
                    Ok(Handled::Unsupported)
                }
            }
            Received::NonPosted(request) => {
                self.wait(Waiting::Memory(MemoryRequest::of(&request)))
            }
            Received::PoisonedPosted(request) => {
                self.device.drop_poisoned(&request);
                Ok(Handled::Unsupported)
            }
            Received::PoisonedNonPosted(request) => {
                self.wait(Waiting::Poisoned(MemoryRequest::of(&request)))
            }
            Received::Configuration(request) => self.wait(Waiting::Configuration(request)),
            Received::Refused(descriptor, error) => {
                self.wait(Waiting::Refused(descriptor, error))
            }
            Received::Unsupported(error) => {
                self.device.note(error);
                Ok(Handled::Unsupported)
            }
            Received::Ignored => Ok(Handled::Ignored),
            Received::Unexpected => {
                self.device.note(Noted::Unexpected);
                Ok(Handled::Unexpected)
            }
            Received::Malformed(fault) => {
                self.device.note(Noted::Fatal);
                Ok(Handled::Malformed(fault))
            }
        }
    }

    /// What the bytes of a TLP do when it comes: a posted request acts, a non-posted one waits, and an error is reported.
    /// Fails only where there is no memory for a request that would wait, and then nothing changed.
    pub fn take(&mut self, tlp: &[u8], room: &mut Room) -> Result<Handled, AllocError>
        ensures ok { OnOk result (self.new ≡ spec.taken self.old tlp.now) }
        ensures answer { IfOk result (λ h. h ≡ spec.handled self.old tlp.now) }
        ensures no_memory { IsErr result → spec.handled self.old tlp.now ≡ Handled.Waits }
        ensures err { OnErr result (self.new ≡ self.old) }
    {
        let received = receive(tlp, &mut room.packet);
        let poisoned = carries_poison(tlp, &received);
        let handled = self.take_as(received, &mut room.data)?;
        self.device.note_poison(poisoned);
        Ok(handled)
    }

    /// The oldest request that waits acts, a read by one block of 128 bytes. Its completion lends its payload from the room.
    /// None if nothing waits. Takes no memory.
    pub fn act<'r>(&mut self, room: &'r mut Room) -> Option<TlpRef<'r>>
        ensures state { self.new ≡ spec.acted self.old }
        ensures completion { result ≡ spec.next_completion self.old }
    {
        let head = self.waiting.front()?;
        let acted = self.device.act(head, room);
        advance(&mut self.waiting, acted.done);
        acted.completion
    }

    /// What the completion that would come next takes of the credits; none if nothing waits. Takes no memory.
    pub fn next_need(&self) -> Option<Need>
        ensures { result ≡ spec.next_need self.now }
    {
        let head = self.waiting.front()?;
        Some(Need::completion(self.device.data_by(head)))
    }

    /// How many requests wait.
    pub fn waiting(&self) -> usize
        ensures { result ≡ length self.now.waiting }
    {
        self.waiting.len()
    }

    /// The bytes of the memory.
    pub fn bytes(&self) -> &[u8]
        ensures { result.now ≡ self.now.device.bytes }
    {
        self.device.bytes()
    }

    /// The memory request, or what is left of it, that is the oldest request that waits; none if that is another one, or
    /// nothing waits.
    pub fn oldest(&self) -> Option<OpRef<'_>>
        ensures { result ≡ spec.oldest_op self.now.waiting }
    {
        match self.waiting.front()? {
            Waiting::Memory(request) => op_lent(&request.lend()),
            _ => None,
        }
    }

    /// The address of the memory's first byte, if the BAR claims the operation.
    pub fn base_of(&self, op: &OpRef<'_>) -> Option<u64>
        ensures value { result ≡ spec.base_of_op self.now.device op.now }
        ensures range { IfSome result (λ base. base ≤ address_of op.now) }
        ensures fits { OnSome result (address_of op.now + count_of op.now ≤ 2 ^ 64) }
    {
        self.device.base_for(op.address(), op.size())
    }

    /// A reset: registers are what they were at first, nothing waits, and the memory's bytes stay.
    pub fn reset(&mut self)
        ensures { self.new ≡ spec.after_reset_of self.old }
    {
        self.device.reset();
        self.waiting.clear();
    }
}
