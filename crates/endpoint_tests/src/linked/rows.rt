//! Worked rows.
use crate::linked::session::{arrives, device, sends, takes};
use endpoint_core::{Handled, Room};
use linked_endpoint::{Arrived, LinkedEndpoint};

/// The device's vendor is asked.
const VENDOR: &str = "0000 04000001 0008630F 01000000";

/// A packet, what becomes of its TLP, and what is sent then.
type Row = (&'static str, Handled, &'static [&'static str]);

const ENUMERATION: [Row; 9] = [
    (
        "0001 44000001 0008640F 01000010 FFFFFFFF",
        Handled::Waits,
        &[],
    ),
    (
        "0002 44000001 0008650F 01000014 FFFFFFFF",
        Handled::Waits,
        &[],
    ),
    ("0003 04000001 0008660F 01000010", Handled::Waits, &[]),
    (
        "0004 04000001 0008670F 01000014",
        Handled::Waits,
        &[
            "00000004",
            "90054012",
            "0001 0A000000 01000004 00086400",
            "0002 0A000000 01000004 00086500",
            "0003 4A000001 01000004 00086600 0CF0FFFF",
            "0004 4A000001 01000004 00086700 FFFFFFFF",
            "",
        ],
    ),
    (
        "0005 00000001 0008680F FEDC0040",
        Handled::Waits,
        &[
            "00000005",
            "90058012",
            "0005 0A000000 01002004 00086800",
            "",
        ],
    ),
    (
        "0006 44000001 0008690F 01000010 0000DCFE",
        Handled::Waits,
        &[],
    ),
    (
        "0007 44000001 00086A0F 01000014 00000000",
        Handled::Waits,
        &[],
    ),
    (
        "0008 44000001 00086B01 01000004 02000000",
        Handled::Waits,
        &[],
    ),
    (
        "0009 40000002 000800FF FEDC007C 11223344 55667788",
        Handled::Done,
        &[
            "00000009",
            "80044041",
            "90064015",
            "0006 0A000000 01000004 00086900",
            "0007 0A000000 01000004 00086A00",
            "0008 0A000000 01000004 00086B00",
            "",
        ],
    ),
];

const ACCESSES: [Row; 7] = [
    (
        "000A 00000042 00086C7E FEDC0074",
        Handled::Waits,
        &[
            "0000000A",
            "90068015",
            "0009 4A000003 01000106 00086C75 00000000 00000000 11223344",
            "000A 4A000020 010000FB 00086C00 55667788",
            "000B 4A00001F 0100007B 00086C00",
            "",
        ],
    ),
    (
        "000B 4C000001 00086D00 FEDC0080 01000000",
        Handled::Waits,
        &[
            "0000000B",
            "9006C016",
            "000C 4A000001 01000004 00086D00 55667788",
            "",
        ],
    ),
    (
        "000C 4E000004 00086E00 FEDC0080 56667788 00000000 AABBCCDD EEFF0011",
        Handled::Waits,
        &[
            "0000000C",
            "90070017",
            "000D 4A000002 01000008 00086E00 56667788 00000000",
            "",
        ],
    ),
    (
        "000D 05000001 00086F0F 02000000",
        Handled::Waits,
        &[
            "0000000D",
            "90074017",
            "000E 0A000000 01002004 00086F00",
            "",
        ],
    ),
    (
        "000E 74000001 00000050 00000000 00000000 19000000",
        Handled::Ignored,
        &["0000000E", "80048042", ""],
    ),
    (
        "000F 00000001 0008700F FEDC1000",
        Handled::Waits,
        &[
            "0000000F",
            "90078017",
            "000F 0A000000 01002004 00087000",
            "",
        ],
    ),
    (
        "0010 04000001 0008710F 01000058",
        Handled::Waits,
        &[
            "00000010",
            "9007C017",
            "0010 4A000001 01000004 00087100 00000900",
            "",
        ],
    ),
];

/// Before and during initialization packets are discarded.
fn begin(linked: &mut LinkedEndpoint, room: &mut Room) -> bool {
    sends(linked, "40040040")
        && sends(linked, "50040010")
        && sends(linked, "60000000")
        && sends(linked, "")
        && arrives(linked, room, VENDOR) == Some(Arrived::Dropped)
        && takes(linked, "40080080")
        && takes(linked, "50080020")
        && takes(linked, "60000000")
        && sends(linked, "C0040040")
        && sends(linked, "D0040010")
        && sends(linked, "E0000000")
        && sends(linked, "")
        && takes(linked, "C0080080")
}

/// The first request, twice.
fn ask(linked: &mut LinkedEndpoint, room: &mut Room) -> bool {
    arrives(linked, room, VENDOR) == Some(Arrived::Accepted(Handled::Waits))
        && sends(linked, "00000000")
        && sends(linked, "90044010")
        && sends(linked, "0000 4A000001 00000004 00086300 34121E7C")
        && sends(linked, "")
        && arrives(linked, room, VENDOR) == Some(Arrived::Duplicate)
        && sends(linked, "00000000")
}

fn run(linked: &mut LinkedEndpoint, room: &mut Room, rows: &[Row]) -> bool {
    let mut right = true;
    for (packet, handled, sent) in rows {
        right &= arrives(linked, room, packet) == Some(Arrived::Accepted(*handled));
        for digits in sent.iter() {
            right &= sends(linked, digits);
        }
    }
    right
}

#[test]
fn a_root_complex_brings_the_device_up(rt: HostRuntime) {
    let mut room = Room::new();
    let mut right = false;
    if let Ok(mut linked) = device(rt.alloc()) {
        right = arrives(&mut linked, &mut room, VENDOR) == Some(Arrived::Dropped);
        linked.up(rt.alloc());
        right &= begin(&mut linked, &mut room) && ask(&mut linked, &mut room);
        right &= run(&mut linked, &mut room, &ENUMERATION);
        right &= run(&mut linked, &mut room, &ACCESSES);
    }
    assert!(rt; right);
}
