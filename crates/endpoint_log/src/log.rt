//! What the memory of a device is asked, answers and does, block request by block request.
ghost use Rattle.std.specs.Prelude.{◌≡◌, ◌+◌, ◌≤◌, ◌^◌, fold, IfOk, IsErr, OnOk};
ghost use Rattle.seq_memory.specs.declared.limits.TheConstants as limits;
ghost use Rattle.tlp_core.specs.Operation.{address_of, count_of, op_of};
ghost use Rattle.op_pieces.specs.Pieces.{dw_of, cut};
ghost use Rattle.endpoint_core.specs.Classes.{becomes};
ghost use Rattle.endpoint_log.specs.Steps as spec;

use crate::moved::{first_moved, moved, reply_in};
use config_core::Setup;
use endpoint_core::{Endpoint, PacketRoom, Received, dw_in_front, receive};
use history_words::AsClaim;
use op_pieces::{back, dw_of, dw_to, front};
use seq_memory::{Extent, LARGE_BLOCK};
use std::alloc::{AllocError, Global};
use std::marker::Model;
use tlp_core::{OpRef, TlpRef, op_lent};
use trace_store::TraceStore;

/// The one requester.
const REQUESTER: u8 = 1;

/// Block requests in the order in which they were submitted, answered and acted.
#[derive(Drop)]
pub struct Log {
    store: TraceStore,
    /// How many were submitted.
    submitted: u32,
    /// The number of the next block request of the oldest request that waits, if a block of that has acted.
    begun: Option<u32>,
}

impl Model for Log {
    ghost use Rattle.endpoint_log.specs.LogView.{LogView};

    ghost Value = { LogView };

    ghost view = { λ l. record { claim = l.store; submitted = l.submitted; begun = l.begun } };
}

/// Large blocks from address 0 on.
fn extent_of(setup: Setup) -> Extent
    ensures { result ≡ record { base = 0; size = setup.size; block = limits.LARGE_BLOCK } }
{
    Extent::new(0, setup.size() as usize, LARGE_BLOCK).unwrap()
}

/// One more than a number. Numbers end at 2^32 - 1, as memory does long before.
fn behind(number: u32) -> Result<u32, AllocError>
    ensures { IfOk result (λ n. n ≡ number + 1) }
{
    match number {
        u32::MAX => Err(AllocError),
        number => Ok(number + 1),
    }
}

impl Log {
    /// Nothing so far. Takes no memory.
    pub fn new(alloc: Global, setup: Setup) -> Log
        ensures { result ≡ spec.new_log setup }
    {
        Log {
            store: TraceStore::new(alloc, extent_of(setup)),
            submitted: 0,
            begun: None,
        }
    }

    /// A block request is submitted.
    fn submit(&mut self, base: u64, block: &OpRef<'_>) -> Result<(), AllocError>
        requires { base ≤ address_of block.now }
        ensures { OnOk result (self.new ≡ spec.submits base self.old block.now) }
    {
        let next = behind(self.submitted)?;
        let n = self.store.entries() as u64;
        self.store
            .submitted(REQUESTER, self.submitted, n, &moved(base, block))?;
        self.submitted = next;
        Ok(())
    }

    /// A posted block request is submitted, and acts.
    fn post(&mut self, base: u64, block: &OpRef<'_>) -> Result<(), AllocError>
        requires { base ≤ address_of block.now }
        ensures { OnOk result (self.new ≡ spec.posts base self.old block.now) }
    {
        let number = self.submitted;
        self.submit(base, block)?;
        self.store.acted(REQUESTER, number, &moved(base, block))
    }

    /// The block requests of a request are submitted: one, and as many more as there are turns at most.
    #[tactic(auto, using(crate::proofs::Blocks::front_address, crate::proofs::Blocks::back_address, crate::proofs::Blocks::last_block, crate::proofs::Blocks::only_block, crate::proofs::Blocks::more_blocks))]
    fn submit_all(&mut self, base: u64, turns: u16, op: &OpRef<'_>) -> Result<(), AllocError>
        requires fits { address_of op.now + count_of op.now ≤ 2 ^ 64 }
        requires behind { base ≤ address_of op.now }
        ensures { OnOk result (self.new ≡ fold (spec.submits base) self.old (cut limits.LARGE_BLOCK turns op.now)) }
    {
        let dw = dw_to(u64::from(LARGE_BLOCK), op.address());
        if turns == 0 || dw_of(op) <= dw {
            return self.submit(base, op);
        }
        self.submit(base, &front(dw, op))?;
        self.submit_all(base, turns - 1, &back(dw, op))
    }

    /// The block requests of a posted request are submitted, and act: one, and as many more as there are turns at most.
    #[tactic(auto, using(crate::proofs::Blocks::front_address, crate::proofs::Blocks::back_address, crate::proofs::Blocks::last_block, crate::proofs::Blocks::only_block, crate::proofs::Blocks::more_blocks))]
    fn post_all(&mut self, base: u64, turns: u16, op: &OpRef<'_>) -> Result<(), AllocError>
        requires fits { address_of op.now + count_of op.now ≤ 2 ^ 64 }
        requires behind { base ≤ address_of op.now }
        ensures { OnOk result (self.new ≡ fold (spec.posts base) self.old (cut limits.LARGE_BLOCK turns op.now)) }
    {
        let dw = dw_to(u64::from(LARGE_BLOCK), op.address());
        if turns == 0 || dw_of(op) <= dw {
            return self.post(base, op);
        }
        self.post(base, &front(dw, op))?;
        self.post_all(base, turns - 1, &back(dw, op))
    }

    /// Records what a posted request does at the device.
    fn come_posted(&mut self, endpoint: &Endpoint, request: &TlpRef<'_>) -> Result<(), AllocError>
        ensures { OnOk result (self.new ≡ spec.posted_by endpoint.now.device self.old (op_of request.now)) }
    {
        let Some(op) = op_lent(request) else {
            return Ok(());
        };
        let Some(base) = endpoint.base_of(&op) else {
            return Ok(());
        };
        self.post_all(base, dw_of(&op), &op)
    }

    /// Records what a TLP of these bytes does when it comes to the device. What the room holds counts for nothing.
    pub fn come(
        &mut self,
        endpoint: &Endpoint,
        tlp: &[u8],
        room: &mut PacketRoom,
    ) -> Result<(), AllocError>
        ensures ok { OnOk result (self.new ≡ spec.came endpoint.now.device (becomes tlp.now) self.old) }
        ensures err { IsErr result → spec.IsPosted (becomes tlp.now) }
    {
        match receive(tlp, room) {
            Received::Posted(request) => self.come_posted(endpoint, &request),
            _ => Ok(()),
        }
    }

    /// The number of the next block request of the oldest request that waits. If none of them acted, all are submitted.
    fn begin(&mut self, base: u64, op: &OpRef<'_>) -> Result<u32, AllocError>
        requires fits { address_of op.now + count_of op.now ≤ 2 ^ 64 }
        requires behind { base ≤ address_of op.now }
        ensures number { IfOk result (λ k. k ≡ spec.next_number self.old) }
        ensures log { OnOk result (self.new ≡ spec.begins base op.now self.old) }
    {
        if let Some(number) = self.begun {
            return Ok(number);
        }
        let number = self.submitted;
        self.submit_all(base, dw_of(op), op)?;
        self.begun = Some(number);
        Ok(number)
    }

    /// The next block request of the oldest request that waits acts. Its number.
    fn enter(&mut self, base: u64, op: &OpRef<'_>) -> Result<u32, AllocError>
        requires fits { address_of op.now + count_of op.now ≤ 2 ^ 64 }
        requires behind { base ≤ address_of op.now }
        ensures number { IfOk result (λ k. k ≡ spec.next_number self.old) }
        ensures log { OnOk result (self.new ≡ spec.enters_first base op.now self.old) }
    {
        let number = self.begin(base, op)?;
        self.store.acted(REQUESTER, number, &first_moved(base, op))?;
        self.begun = if dw_in_front(op) == 0 {
            None
        } else {
            Some(behind(number)?)
        };
        Ok(number)
    }

    /// Records that the oldest request that waits at the device acts. The number of its block request, if it is a memory
    /// request that is claimed.
    pub fn act(&mut self, endpoint: &Endpoint) -> Result<Option<u32>, AllocError>
        ensures number { IfOk result (λ k. k ≡ spec.number_entered endpoint.now self.old) }
        ensures log { OnOk result (self.new ≡ spec.entered endpoint.now self.old) }
    {
        let Some(op) = endpoint.oldest() else {
            return Ok(None);
        };
        match endpoint.base_of(&op) {
            Some(base) => Ok(Some(self.enter(base, &op)?)),
            None => Ok(None),
        }
    }

    /// Records that the block request with that number is answered.
    pub fn answer(&mut self, number: u32, completion: &TlpRef<'_>) -> Result<(), AllocError>
        ensures { OnOk result (self.new ≡ spec.answered self.old number completion.now) }
    {
        let n = self.store.entries() as u64;
        self.store
            .answered(REQUESTER, number, n, &reply_in(completion))
    }

    /// Records that what waits at the device is dropped.
    pub fn reset(&mut self)
        ensures { self.new ≡ spec.dropped self.old }
    {
        self.begun = None;
    }

    /// The trace, and its history.
    pub fn claim(&self) -> &TraceStore
        ensures { result.now ≡ self.now.claim }
    {
        &self.store
    }
}
