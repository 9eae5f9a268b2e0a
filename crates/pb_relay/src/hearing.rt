//! How a bridge reads a BPDU.

ghost use Rattle.std.specs.Prelude.{◌≡◌, true, Some, None};
ghost use Rattle.pb_lan.specs.BridgeLists.{ruling};
ghost use Rattle.pb_lan.specs.BridgeLists.Ruling.{Listens};
ghost use Rattle.pb_lan.specs.declared.plan.Spanning.TheVariants.{Fixed};
ghost use Rattle.pb_lan.specs.declared.step.Outcome.TheVariants.{Heard};
ghost use Rattle.pb_lan.specs.declared.step.Step.TheVariants.{Receive};
ghost use Rattle.pb_relay.specs.Protocol.{spanning_tree};
ghost use Rattle.pb_relay.specs.Receptions.{HasTaken};

use crate::bpdus::BpduRoom;
use crate::bridge::Bridge;
use crate::changes::nothing_moved;
use crate::following::follow;
use crate::protocol::hear;
use pb_frame::Held;
use pb_lan::{Item, Moved, Outcome, Step};

impl Bridge {
    /// Reads a BPDU, applies what the spanning tree changes and appends the Receive step. If an allocation failed, the
    /// frame is filtered and nothing changes.
    pub(crate) fn hear(&mut self, port: u8, item: Item) -> Option<Step>
        requires reserved { self.old.is_reserved ≡ true }
        requires ruling { ruling spanning_tree self.old.plan self.old.number self.old.steps port item ≡ Listens }
        ensures { HasTaken self.old port item result self.new }
    {
        let Ok(told) = Held::new(self.alloc, nothing_moved(self.alloc)) else {
            return self.give_up(port, item);
        };
        let Ok(room) = BpduRoom::new(self.alloc, self.plan.queues) else {
            return self.give_up(port, item);
        };
        let Ok(heard) = hear(self.alloc, &mut self.rstp, port, item.wire.as_slice()) else {
            return self.give_up(port, item);
        };
        let Some(change) = heard else {
            return self.overhear(port, item, told);
        };
        let moved = follow(&mut self.forwarding, change, room, self.address);
        self.steps.append(heard_step(port, item, told, moved))
    }

    /// Appends the Receive step of a BPDU if the plan gives the states of the ports. Nothing changes.
    fn overhear(&mut self, port: u8, item: Item, told: Held<Moved>) -> Option<Step>
        requires reserved { self.old.is_reserved ≡ true }
        requires fixed { self.old.plan.spanning ≡ Fixed }
        requires ruling { ruling spanning_tree self.old.plan self.old.number self.old.steps port item ≡ Listens }
        ensures { HasTaken self.old port item result self.new }
    {
        let moved = nothing_moved(self.alloc);
        self.steps.append(heard_step(port, item, told, moved))
    }
}

/// Returns the Receive step of a BPDU that was read. The changes are put into the memory that `told` holds.
fn heard_step(port: u8, item: Item, mut told: Held<Moved>, moved: Moved) -> Step
    ensures { result ≡ Receive port item None Heard (Some moved) }
{
    told.set(moved);
    Step::Receive {
        port,
        item,
        learnt: None,
        outcome: Outcome::Heard,
        moved: Some(told),
    }
}
