//! The parts of a fabric, each with its slot.
ghost use Rattle.std.specs.Prelude.{◌≡◌, ◌+◌, ℕ};
ghost use Rattle.std.specs.Borrow.{sem};
ghost use Rattle.atomic_table.specs.Seated.{TableId};
ghost use Rattle.hall_laws.specs.Lending.{LendsMemory, LendsRequester, LendsSender, LendsForward, LendsBack, LendsReceiver};
ghost use Rattle.hall_laws.specs.Parts.{slot, lane_slot, part_slot, IsPartName, IsMemory, IsRequester, IsSender, IsForward, IsBack, IsReceiver};
ghost use Rattle.hall_laws.specs.Calls.{IsSized, HasSlot};

use crate::boxed::Boxed;
use fabric_core::LaneName;
use lane_core::{BackWire, ForwardWire, ReceiverEnd, SenderEnd};
use requester_core::Requester;
use seq_memory::Memory;

/// A part that is at home in its slot, or held by a seat. Each call below is of a part of its kind.
#[derive(Drop)]
pub enum PartValue {
    Memory(Boxed<Memory>),
    Requester(Boxed<Requester>),
    Sender(Boxed<SenderEnd>),
    Forward(Boxed<ForwardWire>),
    Back(Boxed<BackWire>),
    Receiver(Boxed<ReceiverEnd>),
}

impl PartValue {
    /// The memory.
    pub fn memory(&mut self) -> &mut Memory
        requires { IsMemory self.old }
        ensures* writes_back { sem 𝓛 (LendsMemory self.entry result) }
        ensures value { PartValue.Memory result.now ≡ self.old }
    {
        match self {
            PartValue::Memory(memory) => &mut memory.inner,
            _ => unreachable!(),
        }
    }

    /// The requester.
    pub fn requester(&mut self) -> &mut Requester
        requires { IsRequester self.old }
        ensures* writes_back { sem 𝓛 (LendsRequester self.entry result) }
        ensures value { PartValue.Requester result.now ≡ self.old }
    {
        match self {
            PartValue::Requester(requester) => &mut requester.inner,
            _ => unreachable!(),
        }
    }

    /// The sender's end.
    pub fn sender(&mut self) -> &mut SenderEnd
        requires { IsSender self.old }
        ensures* writes_back { sem 𝓛 (LendsSender self.entry result) }
        ensures value { PartValue.Sender result.now ≡ self.old }
    {
        match self {
            PartValue::Sender(sender) => &mut sender.inner,
            _ => unreachable!(),
        }
    }

    /// The forward wire.
    pub fn forward(&mut self) -> &mut ForwardWire
        requires { IsForward self.old }
        ensures* writes_back { sem 𝓛 (LendsForward self.entry result) }
        ensures value { PartValue.Forward result.now ≡ self.old }
    {
        match self {
            PartValue::Forward(forward) => &mut forward.inner,
            _ => unreachable!(),
        }
    }

    /// The back wire.
    pub fn back(&mut self) -> &mut BackWire
        requires { IsBack self.old }
        ensures* writes_back { sem 𝓛 (LendsBack self.entry result) }
        ensures value { PartValue.Back result.now ≡ self.old }
    {
        match self {
            PartValue::Back(back) => &mut back.inner,
            _ => unreachable!(),
        }
    }

    /// The receiver's end.
    pub fn receiver(&mut self) -> &mut ReceiverEnd
        requires { IsReceiver self.old }
        ensures* writes_back { sem 𝓛 (LendsReceiver self.entry result) }
        ensures value { PartValue.Receiver result.now ≡ self.old }
    {
        match self {
            PartValue::Receiver(receiver) => &mut receiver.inner,
            _ => unreachable!(),
        }
    }
}

/// The name of a part.
#[derive(Clone, Copy, Debug, PartialEq)]
pub enum Part {
    Memory,
    /// The requester of a port from 1 on.
    Requester(u8),
    SenderEnd(LaneName),
    ForwardWire(LaneName),
    BackWire(LaneName),
    ReceiverEnd(LaneName),
}

/// The slot of the sender's end of a lane.
pub fn lane_slot(name: LaneName) -> usize
    ensures { result ≡ lane_slot name }
{
    match name {
        LaneName::Up(port) => 9 * usize::from(port) + 1,
        LaneName::Down(port) => 9 * usize::from(port) + 5,
        LaneName::Inward => 1,
        LaneName::Outward => 5,
    }
}

/// The slot of a part.
fn part_slot(part: Part) -> usize
    ensures { result ≡ part_slot part }
{
    match part {
        Part::Memory => 0,
        Part::Requester(port) => 9 * usize::from(port),
        Part::SenderEnd(name) => lane_slot(name),
        Part::ForwardWire(name) => lane_slot(name) + 1,
        Part::BackWire(name) => lane_slot(name) + 2,
        Part::ReceiverEnd(name) => lane_slot(name) + 3,
    }
}

impl Part {
    /// The slot of the part. Each table of a fabric that has the part has its slot.
    pub fn slot(self) -> usize
        ensures slot { result ≡ part_slot self }
        ensures within { (z : TableId) (requesters : ℕ) → IsSized z requesters → IsPartName requesters self → HasSlot z result }
    {
        part_slot(self)
    }
}
