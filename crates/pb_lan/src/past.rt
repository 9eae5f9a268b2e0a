//! A list that only contracts see.

ghost use Rattle.std.specs.Prelude.{◌≡◌, List, [], ◌∷◌, ◌++◌};
ghost use Rattle.std.specs.Borrow.{ftrue};

use std::marker::{Model, PhantomData};

/// A list of entries that only contracts see, as its `items`. The program holds no octet of it.
#[derive(Drop)]
pub struct Past<T> {
    of: PhantomData<T>,
    pub ghost items: { List T },
}

impl<T> Model for Past<T> {
    ghost also_owns = { λ _. ftrue };
}

// It owns no value of type T, and a reference to it reaches none.
unsafe impl<T> Send for Past<T> {}

unsafe impl<T> Sync for Past<T> {}

impl<T> Past<T> {
    /// Returns an empty list. Allocates nothing.
    pub fn new() -> Past<T>
        ensures { result.items ≡ [] }
    {
        Past { of: PhantomData }
    }

    /// Returns the list with one more entry at its end. Allocates nothing.
    #[inline(always)]
    fn with(&self, entry: &T) -> Past<T>
        ensures { result.items ≡ self.now.items ++ entry.now ∷ [] }
    {
        Past { of: PhantomData }
    }

    /// Returns an equal list. Allocates nothing.
    pub fn copied(&self) -> Past<T>
        ensures { result.items ≡ self.now.items }
    {
        Past { of: PhantomData }
    }

    /// Appends one entry. Allocates nothing.
    #[inline(always)]
    pub fn note(&mut self, entry: &T)
        ensures { self.new.items ≡ self.old.items ++ entry.now ∷ [] }
    {
        *self = self.with(entry);
    }
}
