//! The calls of a lane, one in each function. These say nothing of what they do: the tests look, and a proof that rests
//! on the exact calls would be dear.
use dllp_core::Dllp;
use lane_core::{Arrival, DllpKind, DllpSeen, Fate, Lane, LaneCredits, LaneRefusal};
use link_replay::Reception;
use std::alloc::Global;
use tlp_core::{Tlp, TlpFault};

/// No counter is finite.
const INFINITE: LaneCredits = LaneCredits {
    ph: 0,
    pd: 0,
    nph: 0,
    npd: 0,
    cplh: 0,
    cpld: 0,
};

/// One write of 128 bytes.
pub(super) const ONE_WRITE: LaneCredits = LaneCredits {
    ph: 1,
    pd: 8,
    nph: 1,
    npd: 2,
    cplh: 1,
    cpld: 8,
};

/// A new lane without finite credits.
pub(super) fn infinite(alloc: Global) -> Lane {
    Lane::new(INFINITE, alloc)
}

/// A new lane with the default credits.
pub(super) fn usual(alloc: Global) -> Lane {
    Lane::new(LaneCredits::DEFAULT, alloc)
}

/// A new lane with credits for one write.
pub(super) fn one_write(alloc: Global) -> Lane {
    Lane::new(ONE_WRITE, alloc)
}

/// A write of 4 bytes, which hold the number.
pub(super) fn write_of(number: u32) -> Result<Tlp, TlpFault> {
    let [a, b, c, d] = number.to_be_bytes();
    tlp_core::decode(&[0x40, 0, 0, 1, 1, 0, 0, 15, 0, 0, 0, 0, a, b, c, d])
}

/// A write of 128 bytes.
pub(super) fn long_write() -> Result<Tlp, TlpFault> {
    let mut bytes = [0; 140];
    bytes[0] = 0x40;
    bytes[3] = 32;
    bytes[4] = 1;
    bytes[7] = 0xFF;
    tlp_core::decode(&bytes)
}

/// FetchAdd of 7 at 40h.
pub(super) fn fetch_add() -> Result<Tlp, TlpFault> {
    tlp_core::decode(&[0x4C, 0, 0, 1, 1, 0, 5, 0, 0, 0, 0, 0x40, 7, 0, 0, 0])
}

/// Enters a packet; its number.
pub(super) fn enter(lane: &mut Lane, tlp: &Tlp, mark: u32) -> Result<u16, LaneRefusal> {
    Ok(lane.enter(tlp, mark)?.value())
}

/// The number of the packet that is transmitted.
pub(super) fn transmit(lane: &mut Lane) -> Result<Option<u16>, LaneRefusal> {
    Ok(lane.transmit()?.map(|number| number.value()))
}

/// The oldest packet is delivered.
pub(super) fn deliver(lane: &mut Lane, fate: Fate) -> Result<Option<Arrival>, LaneRefusal> {
    lane.deliver(fate)
}

/// The oldest packet is delivered; whether it had this answer.
pub(super) fn delivers(lane: &mut Lane, fate: Fate, answer: Reception) -> bool {
    match lane.deliver(fate) {
        Ok(Some(Arrival::Answered(got))) => got == answer,
        _ => false,
    }
}

/// A DLLP is sent.
pub(super) fn send(lane: &mut Lane, kind: DllpKind) -> Result<(), LaneRefusal> {
    lane.send_dllp(kind)?;
    Ok(())
}

/// A DLLP is sent; its bytes.
pub(super) fn sent(lane: &mut Lane, kind: DllpKind) -> Option<[u8; 4]> {
    match lane.send_dllp(kind) {
        Err(_) => None,
        Ok(Dllp::Update(_, _, data)) if data >= 4096 => None,
        Ok(dllp) => Some(dllp_core::encode(&dllp)),
    }
}

/// The oldest DLLP is delivered; whether it took effect.
pub(super) fn took(lane: &mut Lane, fate: Fate) -> bool {
    matches!(lane.deliver_dllp(fate), Ok(Some(DllpSeen::Took(_))))
}

/// The replay timer expires; by how many places that moved back.
pub(super) fn timer(lane: &mut Lane) -> usize {
    lane.timer()
}

/// The link was retrained; whether the sender was stopped.
pub(super) fn retrained(lane: &mut Lane) -> bool {
    lane.retrained()
}

/// The accepted packet of a place is taken, if it is takeable.
pub(super) fn take(lane: &mut Lane, place: usize) -> Option<(Tlp, u32)> {
    if lane.takeable(place) {
        Some(lane.take(place))
    } else {
        None
    }
}

/// The oldest accepted packet is taken; its mark.
pub(super) fn take_mark(lane: &mut Lane) -> Option<u32> {
    let (_, mark) = take(lane, 0)?;
    Some(mark)
}

/// Whether every packet that was entered was taken.
pub(super) fn quiet(lane: &Lane) -> bool {
    lane.quiet()
}
