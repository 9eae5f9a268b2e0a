//! Copies of the queues of a bridge.

ghost use Rattle.std.specs.Prelude.{◌≡◌};

use crate::backlog::Backlog;
use std::alloc::AllocError;

/// The copy is equal.
impl Clone for Backlog {
    ghost is_clone = { λ backlog copy. copy ≡ backlog };

    fn clone(&self) -> Result<Backlog, AllocError> {
        let queues = self.queues.clone()?;
        Ok(Backlog {
            queues,
            copies: self.copies.clone()?,
            capacity: self.capacity,
            is_kept: self.is_kept,
        })
    }
}
