//! Worked rows of transaction ordering.
use dllp_core::Class;
use flow_control::{OrderedQueue, may_pass};
use std::alloc::Global;
use std::test::Fail;
use tlp_core::{Tlp, decode};

/// Oldest first: a read and a write of requester 0100h, a read of 0200h, two completions for ID 0100h and tag 0, a
/// write of 0200h.
const ARRIVED: [[u8; 16]; 6] = [
    [0x00, 0, 0, 1, 1, 0, 0, 0x0F, 0, 0, 0, 0, 0, 0, 0, 0],
    [0x40, 0, 0, 1, 1, 0, 0, 0x0F, 0, 0, 0, 0, 1, 2, 3, 4],
    [0x00, 0, 0, 1, 2, 0, 0, 0x0F, 0, 0, 0, 0, 0, 0, 0, 0],
    [0x0A, 0, 0, 0, 0, 0, 0, 4, 1, 0, 0, 0, 0, 0, 0, 0],
    [0x0A, 0, 0, 0, 0, 0, 0, 4, 1, 0, 0, 0, 0, 0, 0, 0],
    [0x40, 0, 0, 1, 2, 0, 0, 0x0F, 0, 0, 0, 0, 5, 6, 7, 8],
];

/// The packet of a row: a write has the whole row, any other its first 12 bytes.
fn packet(row: &[u8; 16]) -> Result<Tlp, Fail> {
    let tlp = if row[0] == 0x40 {
        decode(row)?
    } else {
        decode(&row[..12])?
    };
    Ok(tlp)
}

/// The packets of the rows enter, each marked with its row.
fn arrive(queue: &mut OrderedQueue) -> Result<(), Fail> {
    for (mark, row) in ARRIVED.iter().enumerate() {
        queue.push(packet(row)?, mark as u32)?;
    }
    Ok(())
}

/// The mark of what is taken at a place, none where it isn't takeable.
fn mark_taken(queue: &mut OrderedQueue, place: usize) -> Option<u32> {
    if queue.takeable(place) {
        let (_tlp, mark) = queue.take(place);
        Some(mark)
    } else {
        None
    }
}

/// Whether the first seven places are takeable as wanted.
fn takeable_as(queue: &OrderedQueue, want: &[bool; 7]) -> bool {
    (0..7).all(|place| queue.takeable(place) == want[place])
}

/// Whether length, class and marks are those of five packets, the write of 0100h taken.
fn five_are_left(queue: &OrderedQueue) -> bool {
    queue.len() == 5
        && queue.first_of(Class::Completion) == Some(2)
        && queue.class_items(Class::Completion).len() == 2
        && queue.at(4).map(|(_, mark)| mark) == Some(5)
        && queue.at(5).is_none()
}

/// Whether a write passes the read before it, and nothing but the oldest of a class passes else.
fn write_is_taken_first(queue: &mut OrderedQueue) -> Result<bool, Fail> {
    let mut right = queue.is_empty();
    arrive(queue)?;
    right &= queue.len() == 6 && !queue.is_empty();
    right &= takeable_as(queue, &[true, true, false, false, false, false, false]);
    right &= mark_taken(queue, 5).is_none();
    right &= mark_taken(queue, 1) == Some(1);
    right &= takeable_as(queue, &[true, true, true, false, true, false, false]);
    right &= five_are_left(queue);
    Ok(right)
}

fn on_a_new_queue(alloc: Global) -> Result<bool, Fail> {
    let mut queue = OrderedQueue::new(alloc);
    write_is_taken_first(&mut queue)
}

#[test]
fn takeable_places(rt: HostRuntime) -> Result<(), Fail> {
    let right = on_a_new_queue(rt.alloc())?;
    assert!(rt; right);
    Ok(())
}

/// A completion for ID 0100h and tag 1, one for ID 0200h and tag 0.
const OTHER_TAG: [u8; 16] = [0x0A, 0, 0, 0, 0, 0, 0, 4, 1, 0, 1, 0, 0, 0, 0, 0];

const OTHER_REQUESTER: [u8; 16] = [0x0A, 0, 0, 0, 0, 0, 0, 4, 2, 0, 0, 0, 0, 0, 0, 0];

/// Whether the packet of one row may pass that of another.
fn passes(later: &[u8; 16], earlier: &[u8; 16]) -> Result<bool, Fail> {
    Ok(may_pass(&packet(later)?, &packet(earlier)?))
}

/// The rows of the ordering table.
fn pairs_pass() -> Result<bool, Fail> {
    let mut right = true;
    for (later, earlier, want) in [
        (&OTHER_TAG, &ARRIVED[3], true),
        (&ARRIVED[3], &OTHER_TAG, true),
        (&OTHER_REQUESTER, &ARRIVED[3], true),
        (&OTHER_TAG, &OTHER_TAG, false),
        (&ARRIVED[0], &OTHER_TAG, true),
        (&ARRIVED[1], &ARRIVED[0], true),
        (&ARRIVED[0], &ARRIVED[1], false),
        (&ARRIVED[4], &ARRIVED[3], false),
        (&ARRIVED[2], &ARRIVED[3], true),
    ] {
        right &= passes(later, earlier)? == want;
    }
    Ok(right)
}

#[test]
fn pairs(rt: HostRuntime) -> Result<(), Fail> {
    let right = pairs_pass()?;
    assert!(rt; right);
    Ok(())
}
