//! What a sender carries.
ghost use Rattle.std.specs.Prelude.{◌≡◌};

use arrayvec::ArrayVec;
use std::marker::Model;
use tlp_core::MAX_TLP;

/// The most bytes of a packet.
pub const CARGO_BYTES: usize = MAX_TLP;

/// The bytes of a transaction layer packet, and a mark that rides beside them and isn't on the wire.
#[derive(Drop)]
pub struct Cargo {
    pub bytes: ArrayVec<u8, CARGO_BYTES>,
    pub mark: u32,
}

impl Model for Cargo {
    ghost use Rattle.link_replay.specs.CargoView.{CargoView};

    ghost Value = { CargoView };

    ghost view = { λ c. record { bytes = c.bytes.items; mark = c.mark } };

    ghost inverse = { λ c. record { bytes = record { items = c.bytes }; mark = c.mark } };
}

/// The same bytes; takes no memory.
#[inline(always)]
fn copy_of(bytes: &ArrayVec<u8, CARGO_BYTES>) -> ArrayVec<u8, CARGO_BYTES>
    ensures { result.items ≡ bytes.now.items }
{
    let mut copy = ArrayVec::new();
    let _fits = copy.try_extend_from_slice(bytes.as_slice());
    copy
}

impl Cargo {
    /// An exact copy, which takes no memory.
    #[inline(always)]
    pub fn copied(&self) -> Cargo
        ensures { result ≡ self.now }
    {
        Cargo {
            bytes: copy_of(&self.bytes),
            mark: self.mark,
        }
    }
}
