//! The text of operations and of replies, as scripts and traces have it.
//!
//! | Text | Operation |
//! |---|---|
//! | `read <address> <dw> <first> <last>` | Read |
//! | `write <address> <first> <last> <bytes>` | Write |
//! | `add <address> <bytes>` | FetchAdd |
//! | `swap <address> <bytes>` | Swap |
//! | `cas <address> <compare> <swap>` | CAS |
//!
//! Fields are parted by one space. Addresses are hexadecimal, byte enables one hexadecimal digit,
//! DW are counted in decimal; no number has leading zeros. A byte string has two digits a byte, 1 to
//! 128 bytes in memory order, and an operand is a byte string of 4, 8 or 16 bytes, which tell its
//! width. Letters of hexadecimal digits are read in either case. Replies are `data <bytes>`, `ur` and
//! `ca`. What is written has capitals, and is read back, but for `done`, which is written of a write that
//! was done, and read as no reply.
#![tactic(auto)]

mod digits;
mod fields;
mod laws;
mod misfit;
mod operations;
mod replies;
mod writing;

pub use fields::{alone, bytes_in, is_ended, next_word, number, split_word, word};
pub use laws::{own_digits_spell_number, own_text_spells_operation, own_text_spells_reply};
pub use misfit::{BASE, BLOCK, BYTES, Expected, LINE_END, Misfit, SIZE};
pub use operations::{OPERATION, op_behind, read_op};
pub use replies::{read_reply, reply_behind};
pub use writing::{
    write_bytes, write_decimal, write_hexadecimal, write_octet, write_op, write_reply,
    write_sequence,
};
