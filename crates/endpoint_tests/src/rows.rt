//! Worked rows: a function is enumerated, and its memory written and read.
use crate::session::{answers, device, take};
use endpoint_core::{Endpoint, Handled, Room};

/// Enumeration. Each request is answered by one completion.
const ENUMERATION: [(&str, &str); 11] = [
    (
        "04000001 0008630F 01000000",
        "4A000001 00000004 00086300 34121E7C",
    ),
    (
        "44000001 0008640F 01000010 FFFFFFFF",
        "0A000000 01000004 00086400",
    ),
    (
        "44000001 0008650F 01000014 FFFFFFFF",
        "0A000000 01000004 00086500",
    ),
    (
        "04000001 0008660F 01000010",
        "4A000001 01000004 00086600 0CF0FFFF",
    ),
    (
        "04000001 0008670F 01000014",
        "4A000001 01000004 00086700 FFFFFFFF",
    ),
    ("00000001 0008680F FEDC0040", "0A000000 01002004 00086800"),
    (
        "44000001 0008690F 01000010 0000DCFE",
        "0A000000 01000004 00086900",
    ),
    (
        "44000001 00086A0F 01000014 00000000",
        "0A000000 01000004 00086A00",
    ),
    (
        "44000001 00086B01 01000004 02000000",
        "0A000000 01000004 00086B00",
    ),
    ("05000001 00086F0F 02000000", "0A000000 01002004 00086F00"),
    (
        "04000001 0008710F 01000058",
        "4A000001 01000004 00087100 00000900",
    ),
];

/// After a write across a block.
const ACCESSES: [(&str, &str); 6] = [
    (
        "4C000001 00086D00 FEDC0080 01000000",
        "4A000001 01000004 00086D00 55667788",
    ),
    (
        "4E000004 00086E00 FEDC0080 56667788 00000000 AABBCCDD EEFF0011",
        "4A000002 01000008 00086E00 56667788 00000000",
    ),
    (
        "00000002 000870FF FEDC007C",
        "4A000001 01000008 0008707C 11223344",
    ),
    ("00000001 0008700F FEDC1000", "0A000000 01002004 00087000"),
    (
        "4C000001 00087200 FEDC1000 01000000",
        "0A000000 01002004 00087200",
    ),
    ("02000001 0008730F 00001000", "0A000000 01002004 00087300"),
];

/// Whether each request waits and is answered by its completion.
fn answers_all(endpoint: &mut Endpoint, room: &mut Room, rows: &[(&str, &str)]) -> bool {
    let mut right = true;
    for (request, completion) in rows {
        right &= take(endpoint, room, request) == Some(Handled::Waits);
        right &= answers(endpoint, room, completion);
    }
    right
}

#[test]
fn a_function_is_enumerated(rt: HostRuntime) {
    let mut room = Room::new();
    let mut right = false;
    if let Ok(mut endpoint) = device(rt.alloc()) {
        right = answers_all(&mut endpoint, &mut room, &ENUMERATION);
        right &= answers(&mut endpoint, &mut room, "");
    }
    assert!(rt; right);
}

/// A write of 2 DW across a block, and a read of three blocks.
fn long_read(endpoint: &mut Endpoint, room: &mut Room) -> bool {
    take(
        endpoint,
        room,
        "40000002 000800FF FEDC007C 11223344 55667788",
    ) == Some(Handled::Done)
        && take(endpoint, room, "00000042 00086C7E FEDC0074") == Some(Handled::Waits)
        && answers(
            endpoint,
            room,
            "4A000003 01000106 00086C75 00000000 00000000 11223344",
        )
        && answers(endpoint, room, "4A000020 010000FB 00086C00 55667788")
        && answers(endpoint, room, "4A00001F 0100007B 00086C00")
        && answers(endpoint, room, "")
}

/// The rest of the read across a block is answered by itself.
fn accesses(endpoint: &mut Endpoint, room: &mut Room) -> bool {
    answers_all(endpoint, room, &ACCESSES[..3])
        && answers(endpoint, room, "4A000001 01000004 00087000 AABBCCDD")
        && answers_all(endpoint, room, &ACCESSES[3..])
}

#[test]
fn memory_is_written_and_read(rt: HostRuntime) {
    let mut room = Room::new();
    let mut right = false;
    if let Ok(mut endpoint) = device(rt.alloc()) {
        right = answers_all(&mut endpoint, &mut room, &ENUMERATION[..9]);
        right &= long_read(&mut endpoint, &mut room);
        right &= accesses(&mut endpoint, &mut room);
    }
    assert!(rt; right);
}

/// A read waits, and then a write comes: the read returns what was written.
fn write_passes(endpoint: &mut Endpoint, room: &mut Room) -> bool {
    take(endpoint, room, "00000001 0008740F FEDC0000") == Some(Handled::Waits)
        && take(endpoint, room, "40000001 0008000F FEDC0000 11223344") == Some(Handled::Done)
        && answers(endpoint, room, "4A000001 01000004 00087400 11223344")
}

#[test]
fn a_write_acts_though_a_read_waits(rt: HostRuntime) {
    let mut room = Room::new();
    let mut right = false;
    if let Ok(mut endpoint) = device(rt.alloc()) {
        right = answers_all(&mut endpoint, &mut room, &ENUMERATION[..9]);
        right &= write_passes(&mut endpoint, &mut room);
    }
    assert!(rt; right);
}
