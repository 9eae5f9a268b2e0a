//! Copies of the queues of a port.

ghost use Rattle.std.specs.Prelude.{◌≡◌, IfOk, length, map};

use crate::queues::PortQueues;
use pb_lan::Item;
use std::alloc::AllocError;
use std::collections::VecDeque;

/// Returns a copy of the classes.
fn copied_classes(classes: &Vec<VecDeque<Item>>) -> Result<Vec<VecDeque<Item>>, AllocError>
    ensures items { IfOk result (λ copy. map (λ c. c.items) copy.items ≡ map (λ c. c.items) classes.now.items) }
    ensures count { IfOk result (λ copy. length copy.items ≡ length classes.now.items) }
{
    classes.clone()
}

/// The copy is equal.
impl Clone for PortQueues {
    ghost is_clone = { λ queues copy. copy ≡ queues };

    fn clone(&self) -> Result<PortQueues, AllocError> {
        let classes = copied_classes(&self.classes)?;
        Ok(PortQueues {
            classes,
            count: self.count,
            bound: self.bound,
            own: self.own.clone()?,
        })
    }
}
