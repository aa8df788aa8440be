//! Parts in places of their own.
ghost use Rattle.std.specs.Prelude.{◌≡◌, IfOk};

use std::alloc::{AllocError, Global};
use std::marker::Model;

/// A part in a place of its own, so that what moves into its slot and out of it is one address: a requester's table of
/// tags takes 3 KB, the ends of a lane 40 to 176 bytes.
#[derive(Drop)]
pub struct Boxed<T> {
    pub inner: Box<T>,
}

impl<T> Model for Boxed<T> {
    ghost Value = { T };

    ghost view = { λ b. b.inner.value };
}

impl<T: Drop> Boxed<T> {
    /// Puts a part into a place of its own.
    pub fn new(part: T, alloc: Global) -> Result<Boxed<T>, AllocError>
        ensures { IfOk result (λ b. b ≡ part) }
    {
        let inner = Box::new(alloc, part)?;
        Ok(Boxed { inner })
    }

    /// The part.
    pub fn into_inner(self) -> T
        ensures { result ≡ self }
    {
        Box::into_inner(self.inner)
    }
}
