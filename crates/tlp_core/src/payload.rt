//! The bytes of a payload, owned and lent.
ghost use Rattle.std.specs.Prelude.{◌≡◌, ◌≤◌, length, nat_eq};
ghost use Rattle.std.specs.Cmp.{on_per, partial_equiv_from_equiv};
ghost use Rattle.std.specs.Cmp.Lexicographic.{pointwise, nat_list_eq_equiv};
ghost use Rattle.arrayvec.specs.ArrayVec.{array_vec_len};
ghost use Rattle.tlp_core.specs.Limits.{max_payload};

use crate::packet::MAX_PAYLOAD;
use arrayvec::ArrayVec;
use std::marker::Model;

/// The bytes of a payload, at most [`MAX_PAYLOAD`], in rising address order.
pub type Payload = ArrayVec<u8, MAX_PAYLOAD>;

/// The bytes of a payload where they stand. Its value is that of a [`Payload`].
#[derive(Drop)]
pub struct PayloadRef<'a> {
    bytes: &'a [u8],
}

impl<'a> Model for PayloadRef<'a> {
    ghost use Rattle.std.specs.Prelude.{ℕ, ◌≤◌, length};
    ghost use Rattle.arrayvec.specs.ArrayVec.{ArrayVec};
    ghost use Rattle.tlp_core.specs.Limits.{max_payload};

    ghost Value = { ArrayVec ℕ };

    ghost view = { λ p. record { items = p.bytes.now } };

    ghost invariant = { λ p. length p.bytes.now ≤ max_payload };
}

impl<'a> PayloadRef<'a> {
    /// These bytes, lent.
    #[inline(always)]
    pub fn new(bytes: &'a [u8]) -> PayloadRef<'a>
        requires { length bytes.now ≤ max_payload }
        ensures { result.items ≡ bytes.now }
    {
        PayloadRef { bytes }
    }

    /// The payload, lent.
    #[inline(always)]
    pub fn of(payload: &'a Payload) -> PayloadRef<'a>
        ensures { result ≡ payload.now }
    {
        PayloadRef {
            bytes: payload.as_slice(),
        }
    }

    /// The bytes.
    #[inline(always)]
    pub fn as_slice(&self) -> &'a [u8]
        ensures value { result.now ≡ self.now.items }
        ensures few { length result.now ≤ max_payload }
    {
        self.bytes
    }

    /// The same bytes in a room of their own. Takes no memory.
    #[inline(always)]
    pub fn to_owned(&self) -> Payload
        ensures { result ≡ self.now }
    {
        payload_of(self.bytes)
    }
}

impl<'a> PartialEq for PayloadRef<'a> {
    ghost eq = { λ v w. pointwise nat_eq v.items w.items };

    ghost laws = { on_per (λ v. v.items) (partial_equiv_from_equiv nat_list_eq_equiv) };

    #[inline(always)]
    fn eq(&self, other: &Self) -> bool {
        self.bytes == other.bytes
    }
}

/// The bytes as a payload of its own. Takes no memory.
pub fn payload_of(bytes: &[u8]) -> Payload
    requires { length bytes.now ≤ max_payload }
    ensures items { result.items ≡ bytes.now }
    ensures len { array_vec_len result ≡ length bytes.now }
{
    let mut payload = ArrayVec::new();
    let _ = payload.try_extend_from_slice(bytes);
    payload
}
