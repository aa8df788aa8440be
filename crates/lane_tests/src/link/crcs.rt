//! CRCs of packets and DLLPs. The LCRCs are also zlib's, and all of them `crcmod`'s of Python and `Digest::CRC`'s of Perl.
use link_crc::{Check, LcrcCheck, check_dllp, check_packet, dllp_crc, lcrc};

/// Packet 000h, a FetchAdd, and its LCRC.
const FETCH_ADD: [u8; 22] = [
    0x00, 0x00, 0x4C, 0, 0, 1, 1, 0, 5, 0, 0, 0, 0, 0x40, 7, 0, 0, 0, 0x21, 0xD4, 0x79, 0x8B,
];

/// Packet FFFh, a completion with data, without its LCRC.
const COMPLETION: [u8; 18] = [
    0x0F, 0xFF, 0x4A, 0, 0, 1, 0, 0, 0, 4, 1, 0, 5, 0, 0, 0, 0, 0,
];

#[test]
fn lcrcs_of_packets(rt: HostRuntime) {
    let rows: [(&[u8], u32); 4] = [
        (&FETCH_ADD[..18], 0x21D4_798B),
        (&COMPLETION, 0x1908_0E4F),
        (b"123456789", 0x2639_F4CB),
        (b"", 0x0000_0000),
    ];
    for (bytes, want) in rows {
        assert_eq!(rt; lcrc(bytes), want);
    }
}

#[test]
fn crcs_of_dllps(rt: HostRuntime) {
    let rows = [
        ([0x00, 0x00, 0x00, 0x00], 0xB362),
        ([0x10, 0x00, 0x0F, 0xFF], 0xCECF),
        ([0x80, 0x01, 0x41, 0x2C], 0xEFF5),
        ([0x90, 0x3F, 0xCF, 0xFF], 0x87DC),
        ([0x90, 0x00, 0x80, 0x03], 0x198B),
    ];
    for (bytes, want) in rows {
        assert_eq!(rt; dllp_crc(bytes), want);
    }
}

/// The check of the FetchAdd with these bits of a byte turned.
fn check_with_error(at: usize, bits: u8) -> LcrcCheck {
    let mut packet = FETCH_ADD;
    if at < 22 {
        packet[at] ^= bits;
    }
    check_packet(&packet)
}

#[test]
fn checks_of_packets(rt: HostRuntime) {
    assert_eq!(rt; check_packet(&FETCH_ADD), LcrcCheck::Good);
    for at in 0..22 {
        assert_eq!(rt; check_with_error(at, 0x10), LcrcCheck::Failed, "byte {at}");
    }
    assert_eq!(rt; check_packet(&FETCH_ADD[..3]), LcrcCheck::Failed);
    assert_eq!(rt; check_packet(&[0; 4]), LcrcCheck::Good);
    assert_eq!(rt; check_packet(&[0xFF; 4]), LcrcCheck::Nullified);
}

#[test]
fn checks_of_dllps(rt: HostRuntime) {
    assert_eq!(rt;
        check_dllp([0x90, 0x00, 0x80, 0x03, 0x19, 0x8B]),
        Check::Good
    );
    assert_eq!(rt;
        check_dllp([0x90, 0x00, 0x80, 0x03, 0xE6, 0x74]),
        Check::Failed
    );
}

/// Wrong bits that are the polynomial's own five terms pass: bits 0, 4, 13, 15 and 16, in the order sent.
#[test]
fn an_error_that_passes(rt: HostRuntime) {
    assert_eq!(rt;
        check_dllp([0x90 ^ 0x11, 0xA0, 0x80 ^ 0x01, 0x03, 0x19, 0x8B]),
        Check::Good
    );
}
