//! The bytes that a request needs, and the bytes that it puts.
//!
//! A request that was answered needs the enabled bytes of its reply: the memory answers so only if it
//! has them. [`never_gives`] says that no memory answers with some data, and [`sees_none`] that a read
//! needs no byte of another request. What a write and a Swap leave is known, and so is what an answered
//! AtomicOp leaves. What another leaves that wasn't answered depends on what it meets, so nothing is known
//! of it. [`never_puts`] says of a byte that a request doesn't make it what it wasn't before.
//!
//! Of two requests [`never_brings`] says that the first doesn't bring about the second's reply, and
//! [`yields`] that it ends it, or that their order makes no difference. [`waits`] says that a request
//! can't be answered as it was before another has changed the bytes, [`breaks`] that it can't be while
//! the bytes are as another left them, and [`covers`] that a write or a Swap puts all bytes of another.
//! [`spans`] says that it has all addresses of another.
//!
//! [`act`] does an operation on bytes so that it can be taken back: [`reply`] is what the memory would
//! answer, and [`put_back`] makes the bytes what they were before. None of these takes memory.
#![tactic(auto)]

mod covering;
pub mod laws;
mod pairs;
mod puts;
mod ranges;
mod seeing;
mod undoing;
mod waiting;

pub use covering::{covers, spans};
pub use pairs::{breaks, clashes, never_brings, yields};
pub use puts::{is_quiet, left, never_puts};
pub use ranges::{are_apart, is_needed, is_put, lie_apart};
pub use seeing::{never_gives, sees_none};
pub use undoing::{act, overwrite, put_back, reply};
pub use waiting::waits;
