//! A value as it was, which only contracts see.

ghost use Rattle.std.specs.Prelude.{◌≡◌};
ghost use Rattle.std.specs.Borrow.{ftrue};

use std::marker::{Model, PhantomData};

/// A value as it was at some moment, which only contracts see, as `value`. The program holds no octet of it.
#[derive(Drop)]
pub struct Was<T> {
    of: PhantomData<T>,
    pub ghost value: { T },
}

impl<T> Model for Was<T> {
    ghost also_owns = { λ _. ftrue };
}

// It owns no value of type T, and a reference to it reaches none.
unsafe impl<T> Send for Was<T> {}

unsafe impl<T> Sync for Was<T> {}

impl<T> Was<T> {
    /// Returns the value as it is. Allocates nothing.
    pub fn of(thing: &T) -> Was<T>
        ensures { result.value ≡ thing.now }
    {
        Was { of: PhantomData }
    }
}
