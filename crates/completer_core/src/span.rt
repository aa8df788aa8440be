//! Byte Count and Lower Address of a read, from its byte enables.
ghost use Rattle.std.specs.Prelude.{◌≡◌, ◌≤◌, ◌<◌, ◌*◌, ◌%◌, IsTrue, reverse};
ghost use Rattle.tlp_core.specs.Enables.{dw_enables, enables, are_enables};
ghost use Rattle.completer_core.specs.Span.{lead, span, low_address};

/// How many bytes of a DW stand before the first enabled one; 4 where none is enabled.
fn before_first(enables: u8) -> u8
    ensures value { result ≡ lead (dw_enables enables) }
    ensures range { result ≤ 4 }
{
    if enables % 2 == 1 {
        0
    } else if enables / 2 % 2 == 1 {
        1
    } else if enables / 4 % 2 == 1 {
        2
    } else if enables / 8 % 2 == 1 {
        3
    } else {
        4
    }
}

/// How many bytes of a DW stand behind the last enabled one; 4 where none is enabled.
fn behind_last(enables: u8) -> u8
    ensures value { result ≡ lead (reverse (dw_enables enables)) }
    ensures range { result ≤ 4 }
{
    if enables / 8 % 2 == 1 {
        0
    } else if enables / 4 % 2 == 1 {
        1
    } else if enables / 2 % 2 == 1 {
        2
    } else if enables % 2 == 1 {
        3
    } else {
        4
    }
}

/// Byte Count of a read of `dw` DW, in bytes, 1 to 4096.
pub(crate) fn byte_count(dw: u16, address: u64, first: u8, last: u8) -> u16
    requires some { 1 ≤ dw }
    requires most { dw ≤ 1024 }
    requires first { first < 16 }
    requires last { last < 16 }
    requires enabled { IsTrue (are_enables dw address first last) }
    ensures value { result ≡ span (enables dw first last) }
    ensures range { (1 ≤ result) × (result ≤ 4096) }
{
    if first == 0 {
        return 1;
    }
    let end = if dw == 1 { first } else { last };
    4 * dw - u16::from(before_first(first)) - u16::from(behind_last(end))
}

/// Lower Address of a read of `dw` DW, 7 bits.
pub(crate) fn lower_address(dw: u16, address: u64, first: u8, last: u8) -> u8
    requires some { 1 ≤ dw }
    requires aligned { address % 4 ≡ 0 }
    requires first { first < 16 }
    requires enabled { IsTrue (are_enables dw address first last) }
    ensures value { result ≡ low_address address (enables dw first last) }
    ensures range { result < 128 }
{
    let low = (address % 128) as u8;
    if first == 0 {
        low
    } else {
        low + before_first(first)
    }
}
