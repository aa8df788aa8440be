//! The two wires of a lane.
ghost use Rattle.std.specs.Prelude.{◌≡◌, ◌<◌, ◌^◌, ◌↔◌, List, [], length, slice_get, Some, IsTrue, IfSome, IsSome, option_map};

use crate::packet::WirePacket;
use arrayvec::ArrayVec;
use dllp_core::Dllp;
use std::alloc::Global;
use std::collections::VecDeque;
use std::marker::Model;

/// The packets under way, oldest first.
#[derive(Drop)]
pub struct ForwardWire {
    pub(crate) packets: VecDeque<WirePacket>,
}

impl Model for ForwardWire {
    ghost use Rattle.std.specs.Prelude.{List};
    ghost use Rattle.lane_core.specs.declared.packet.WirePacket.{WirePacket};

    ghost Value = { List WirePacket };

    ghost view = { λ w. w.packets.items };
}

/// The DLLPs under way back to the sender, oldest first.
#[derive(Drop)]
pub struct BackWire {
    pub(crate) dllps: VecDeque<Dllp>,
}

impl Model for BackWire {
    ghost use Rattle.std.specs.Prelude.{List, All};
    ghost use Rattle.dllp_core.specs.declared.packet.Dllp.{Dllp};
    ghost use Rattle.dllp_core.specs.Layout.{FitsDataFC};

    ghost Value = { List Dllp };

    ghost view = { λ w. w.dllps.items };

    ghost invariant = { λ w. All FitsDataFC w.dllps.items };
}

impl ForwardWire {
    ghost use Rattle.lane_core.specs.Content.{wire_bytes};
    ghost use Rattle.lane_core.specs.declared.packet.WirePacket.{WirePacket};

    /// An empty wire. It allocates nothing.
    pub fn new(alloc: Global) -> ForwardWire
        ensures { result ≡ [] }
    {
        ForwardWire {
            packets: VecDeque::new(alloc),
        }
    }

    /// How many packets are under way.
    pub fn len(&self) -> usize
        ensures len { result ≡ length self.now }
        ensures small { result < 2 ^ 63 }
    {
        self.packets.len()
    }

    pub fn is_empty(&self) -> bool
        ensures { IsTrue result ↔ (self.now ≡ []) }
    {
        self.packets.is_empty()
    }

    /// The bytes of the packet at this place, oldest first from 0; None past the end. They are the number's two, high
    /// byte first, below four zero bits, and then those of the transaction layer packet.
    pub fn bytes_at(&self, place: usize) -> Option<ArrayVec<u8, 146>>
        ensures there { IsSome result ↔ (place < length self.now) }
        ensures bytes { (p : WirePacket) → slice_get self.now place ≡ Some p → IfSome result (λ bytes. bytes.items ≡ wire_bytes p) }
    {
        let packet = self.packets.get(place)?;
        let number = packet.number.value();
        let mut bytes = ArrayVec::new();
        bytes.push((number / 256) as u8);
        bytes.push((number % 256) as u8);
        let _fits = bytes.try_extend_from_slice(packet.cargo.bytes.as_slice());
        Some(bytes)
    }
}

impl BackWire {
    ghost use Rattle.dllp_core.specs.Layout.{Spells, canonical};
    ghost use Rattle.dllp_core.specs.declared.packet.Dllp.{Dllp};

    /// An empty wire. It allocates nothing.
    pub fn new(alloc: Global) -> BackWire
        ensures { result ≡ [] }
    {
        BackWire {
            dllps: VecDeque::new(alloc),
        }
    }

    /// How many DLLPs are under way.
    pub fn len(&self) -> usize
        ensures len { result ≡ length self.now }
        ensures small { result < 2 ^ 63 }
    {
        self.dllps.len()
    }

    pub fn is_empty(&self) -> bool
        ensures { IsTrue result ↔ (self.now ≡ []) }
    {
        self.dllps.is_empty()
    }

    /// The four bytes of the DLLP at this place, oldest first from 0; None past the end.
    pub fn bytes_at(&self, place: usize) -> Option<[u8; 4]>
        ensures there { IsSome result ↔ (place < length self.now) }
        ensures bytes { (d : Dllp) → slice_get self.now place ≡ Some d → IfSome result (λ bytes. Spells bytes d) }
        ensures value { (d : Dllp) → slice_get self.now place ≡ Some d → IfSome result (λ bytes. bytes ≡ canonical d) }
    {
        let dllp = self.dllps.get(place)?;
        Some(dllp_core::encode(dllp))
    }
}
