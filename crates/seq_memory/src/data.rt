//! Room for the data of one reply.
ghost use Rattle.std.specs.Prelude.{◌≡◌, ◌/◌, ◌%◌, ◌≤◌, [], length, replicate};
ghost use Rattle.tlp_core.specs.Enables.{enables};
ghost use Rattle.tlp_core.specs.Limits.{max_payload};
ghost use Rattle.seq_memory.specs.Step.{merged, data_of};

use crate::ReplyRef;
use crate::step::{ZEROS, are_all_enabled, merge, replace};
use std::marker::Model;
use tlp_core::{MAX_PAYLOAD, PayloadRef};

/// The data of a reply, at most as many bytes as a payload may have. The room is made once and used
/// for one reply after the other: putting data there writes no byte behind it.
#[derive(Drop)]
pub struct ReplyData {
    bytes: [u8; MAX_PAYLOAD],
    len: usize,
}

impl Model for ReplyData {
    ghost use Rattle.std.specs.Prelude.{List, ℕ, take, ◌≤◌};
    ghost use Rattle.tlp_core.specs.Limits.{max_payload};

    ghost Value = { List ℕ };

    ghost view = { λ d. take d.len d.bytes };

    ghost invariant = { λ d. d.len ≤ max_payload };
}

impl ReplyData {
    /// No bytes.
    pub fn new() -> ReplyData
        ensures { result ≡ [] }
    {
        ReplyData {
            bytes: ZEROS,
            len: 0,
        }
    }

    /// Puts these bytes in place of those that it holds.
    #[inline(always)]
    pub(crate) fn set(&mut self, bytes: &[u8])
        requires { length bytes.now ≤ max_payload }
        ensures { self.new ≡ bytes.now }
    {
        let end = bytes.len();
        replace(&mut self.bytes[..end], bytes);
        self.len = end;
    }

    /// Puts the data of a read of that place there: its enabled bytes, and 0 for the others.
    pub(crate) fn set_enabled(&mut self, place: &[u8], first: u8, last: u8)
        requires some { 4 ≤ length place.now }
        requires few { length place.now ≤ max_payload }
        requires whole { length place.now % 4 ≡ 0 }
        ensures items { self.new ≡ merged (enables (length place.now / 4) first last) place.now (replicate (length place.now) 0) }
        ensures len { length self.new ≡ length place.now }
    {
        if are_all_enabled(place.len(), first, last) {
            self.set(place);
            return;
        }
        let end = place.len();
        let room = &mut self.bytes[..end];
        room.copy_from_slice(&ZEROS[..end]);
        merge(room, place, first, last);
        self.len = end;
    }

    /// The reply with these bytes, which are lent.
    #[inline(always)]
    pub(crate) fn reply(&self) -> ReplyRef<'_>
        ensures { result ≡ data_of self.now }
    {
        ReplyRef::Data(PayloadRef::new(&self.bytes[..self.len]))
    }

    /// The bytes, at most [`MAX_PAYLOAD`].
    #[inline(always)]
    pub fn as_slice(&self) -> &[u8]
        ensures value { result.now ≡ self.now }
        ensures few { length result.now ≤ max_payload }
    {
        &self.bytes[..self.len]
    }
}
