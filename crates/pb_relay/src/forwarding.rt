//! The forwarding state of a bridge.

ghost use Rattle.std.specs.Prelude.{◌≡◌};

use crate::backlog::Backlog;
use pb_fdb::Fdb;
use pb_lan::PortState;
use std::alloc::AllocError;

/// The forwarding state of a bridge, all of which its spanning tree changes.
#[derive(Drop)]
pub struct Forwarding {
    /// The states of the local ports.
    pub states: [PortState; 16],
    /// The learning table.
    pub table: Fdb,
    /// The queues at the local ports.
    pub backlog: Backlog,
}

/// The copy is equal.
impl Clone for Forwarding {
    ghost is_clone = { λ forwarding copy. copy ≡ forwarding };

    fn clone(&self) -> Result<Forwarding, AllocError> {
        let table = self.table.clone()?;
        Ok(Forwarding {
            states: self.states,
            table,
            backlog: self.backlog.clone()?,
        })
    }
}
