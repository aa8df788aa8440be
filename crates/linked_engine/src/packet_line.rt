//! Reading the line of a packet.
ghost use Rattle.std.specs.Prelude.{◌≡◌, ◌≤◌, ◌++◌, true, false, Ok, IsErr, length};
ghost use Rattle.hex.specs.Hex.{decode_of};
ghost use Rattle.hex_text.specs.Line.{digits_of};

use arrayvec::ArrayVec;
use hex_text::{HexLine, read_digits};
use std::marker::Model;

/// The bytes that the line of a packet spells, and room to read them. Most lines have the four digits of the sequence number, a
/// space, and groups of eight digits, which are fast to read where they are not behind others.
#[derive(Drop)]
pub(crate) struct PacketLine {
    line: HexLine,
    numbered: ArrayVec<u8, 258>,
    is_numbered: bool,
}

impl Model for PacketLine {
    ghost use Rattle.std.specs.Prelude.{List, ℕ, if◌then◌else◌};

    ghost Value = { List ℕ };

    ghost view = { λ p. if p.is_numbered then p.numbered.items else p.line };
}

/// Puts both parts of a packet behind one another, and says whether it did.
#[inline(always)]
fn join(number: &[u8], tlp: &[u8], packet: &mut ArrayVec<u8, 258>) -> bool
    ensures { result ≡ true → packet.new.items ≡ number.now ++ tlp.now }
{
    packet.clear();
    packet.try_extend_from_slice(number).is_ok() && packet.try_extend_from_slice(tlp).is_ok()
}

/// Reads the four digits before the first space, and what stands behind it, and says whether it did.
fn read_numbered(line: &[u8], tlp: &mut HexLine, packet: &mut ArrayVec<u8, 258>) -> bool
    requires { length line.now ≤ 512 }
    ensures { result ≡ true → decode_of (digits_of line.now) ≡ Ok packet.new.items }
{
    if line.len() < 5 || line[4] != b' ' {
        return false;
    }
    let mut number = [0; 2];
    if !read_digits(&line[..4], &mut number) {
        return false;
    }
    if !tlp.read(&line[5..]) {
        return false;
    }
    join(&number, tlp.bytes(), packet)
}

impl PacketLine {
    /// Nothing was read.
    pub(crate) fn new() -> PacketLine {
        PacketLine {
            line: HexLine::new(),
            numbered: ArrayVec::new(),
            is_numbered: false,
        }
    }

    /// Reads the bytes that the line spells, and says whether it spells bytes.
    pub(crate) fn read(&mut self, line: &[u8]) -> bool
        requires { length line.now ≤ 512 }
        ensures read { result ≡ true → decode_of (digits_of line.now) ≡ Ok self.new }
        ensures not_read { result ≡ false → IsErr (decode_of (digits_of line.now)) }
    {
        if read_numbered(line, &mut self.line, &mut self.numbered) {
            self.is_numbered = true;
            return true;
        }
        self.is_numbered = false;
        self.line.read(line)
    }

    /// The bytes that were read last.
    pub(crate) fn bytes(&self) -> &[u8]
        ensures { result.now ≡ self.now }
    {
        if self.is_numbered {
            self.numbered.as_slice()
        } else {
            self.line.bytes()
        }
    }
}
