//! What a monitor is asked to write.
ghost use Rattle.std.specs.Prelude.{◌≡◌, ◌≤◌, length, option_map};
ghost use Rattle.arrayvec.specs.ArrayString.{array_string_len};
ghost use Rattle.operation_text.specs.Words.{words, words_behind, first_field};
ghost use Rattle.monitor_ports.specs.Heads as heads;
ghost use Rattle.monitor_ports.specs.Texts.{head_lines};

use arrayvec::ArrayString;
use operation_text::{
    BASE, BLOCK, SIZE, alone, next_word, number, split_word, write_decimal, write_hexadecimal,
};

/// What a monitor is asked to write, a trace or a log, and the memory whose ports it watches.
#[derive(Clone, Copy)]
pub struct Head {
    pub is_trace: bool,
    /// The memory's first address.
    pub base: u64,
    /// The memory's bytes.
    pub size: usize,
    /// The bytes of a block: an access across its bounds is aborted.
    pub block: u16,
}

/// `block` and its bytes, at the end of the line.
fn block(rest: Option<&[u8]>) -> Option<u16>
    ensures { result ≡ heads.block_of (words_behind rest.entry) }
{
    let (word, rest) = next_word(rest)?;
    if word != b"block".as_slice() {
        return None;
    }
    let (block, rest) = number(rest, 10, 65535, BLOCK).ok()?;
    alone(block as u16, rest).ok()
}

/// The rest of the line.
fn head_behind(is_trace: bool, rest: Option<&[u8]>) -> Option<Head>
    ensures { result ≡ heads.head_behind is_trace (words_behind rest.entry) }
{
    let (base, rest) = number(rest, 16, u64::MAX, BASE).ok()?;
    let (size, rest) = number(rest, 10, u64::MAX, SIZE).ok()?;
    let block = block(rest)?;
    Some(Head {
        is_trace,
        base,
        size: size as usize,
        block,
    })
}

/// What the line asks for: `log` or `trace`, then the memory's base in hexadecimal, its size in
/// decimal, `block` and the bytes of a block, as in `log 0 4096 block 64`. None if the line has
/// another form. Which memories there can be is not looked at.
pub fn read_head(line: &[u8]) -> Option<Head>
    ensures { result ≡ heads.head_of (words line.now) }
{
    let (kind, rest) = split_word(line);
    if kind == b"log".as_slice() {
        head_behind(false, rest)
    } else if kind == b"trace".as_slice() {
        head_behind(true, rest)
    } else {
        None
    }
}

/// Writes the first two lines of the log or the trace into an empty buffer, with a line feed between
/// them and none behind them.
pub fn write_head(head: &Head, text: &mut ArrayString<512>)
    requires { array_string_len text.old ≡ 0 }
    ensures text { text.new.bytes ≡ head_lines head.now.is_trace (heads.memory_of head.now) }
    ensures len { array_string_len text.new ≤ 100 }
{
    text.push_str(if head.is_trace {
        "pciex-trace 2\nmemory "
    } else {
        "pciex-log 1\nmemory "
    });
    write_hexadecimal(head.base, text);
    text.push_str(" ");
    write_decimal(head.size as u64, text);
    text.push_str(" ");
    write_decimal(u64::from(head.block), text);
}
