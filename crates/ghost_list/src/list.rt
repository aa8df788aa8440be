//! A list that only proofs read. It takes no memory, and its methods do nothing at run time.
ghost use Rattle.std.specs.Prelude.{◌≡◌, List, [], ◌∷◌, ◌++◌};
ghost use Rattle.std.specs.Borrow.{ftrue};

use std::marker::{Model, PhantomData};

/// A clause reads the list as `items`.
#[derive(Drop)]
pub struct GhostList<A> {
    of: PhantomData<A>,
    pub ghost items: { List A },
}

impl<A> Model for GhostList<A> {
    ghost also_owns = { λ _. ftrue };
}

impl<A> GhostList<A> {
    /// An empty list.
    pub fn new() -> GhostList<A>
        ensures { result.items ≡ [] }
    {
        GhostList { of: PhantomData }
    }

    /// The list with one more item at its end.
    pub fn and(&self, item: &A) -> GhostList<A>
        ensures { result.items ≡ self.now.items ++ item.now ∷ [] }
    {
        GhostList { of: PhantomData }
    }
}
