//! A value on the heap that contracts see as the value.

ghost use Rattle.std.specs.Prelude.{◌≡◌, IfOk};

use crate::memory::Memory;
use std::alloc::{AllocError, Global};
use std::marker::Model;

/// A value in an allocation of its own, which keeps its holder small. Contracts see it as the value.
#[derive(Debug, Drop)]
pub struct Held<T> {
    place: Box<T>,
}

impl<T> Model for Held<T> {
    ghost Value = { T };

    ghost coded = { T.code };

    ghost view = { λ h. h.place.value };
}

impl<T: Drop> Held<T> {
    /// Puts the value on the heap.
    ///
    /// # Errors
    ///
    /// `Memory` if the allocation failed. The value is dropped then.
    pub fn new(alloc: Global, value: T) -> Result<Held<T>, Memory>
        ensures { IfOk result (λ h. h ≡ value) }
    {
        Ok(Held {
            place: Box::new(alloc, value)?,
        })
    }

    /// Replaces the value. Allocates nothing.
    pub fn set(&mut self, value: T)
        ensures { self.new ≡ value }
    {
        *self.place = value;
    }
}

impl<T> Held<T> {
    /// Returns the value, borrowed.
    pub fn get(&self) -> &T
        ensures { result.now ≡ self.now }
    {
        &self.place
    }

    /// Takes the value off the heap and returns it.
    pub fn into_inner(self) -> T
        ensures { result ≡ self }
    {
        let Held { place } = self;
        Box::into_inner(place)
    }
}

impl<T: PartialEq> PartialEq for Held<T> {
    ghost eq = { T.eq };

    ghost laws = { T.laws };

    fn eq(&self, other: &Self) -> bool {
        self.get() == other.get()
    }
}

impl<T: Eq> Eq for Held<T> {
    ghost laws = { T.Eq.laws };
}

impl<T: Clone> Clone for Held<T> {
    ghost is_clone = { λ h copy. T.is_clone h copy };

    fn clone(&self) -> Result<Held<T>, AllocError> {
        Ok(Held {
            place: self.place.clone()?,
        })
    }
}
