//! The room in a bridge's queues before it receives.

ghost use Rattle.std.specs.List.{list_any};
ghost use Rattle.std.specs.Prelude.{◌≡◌, true, false, length};
ghost use Rattle.pb_lan.specs.Plans.{IsNumber};
ghost use Rattle.pb_lan.specs.Ports.{port_at, is_used};
ghost use Rattle.pb_lan.specs.Queues.{capacity_of};
ghost use Rattle.pb_relay.specs.Room.{has_room_for};
ghost use Rattle.pb_relay.specs.Standing.{HasReceived};
ghost use Rattle.pb_workers.specs.Lossless.{refuses_when_full};

use pb_frame::index_of;
use pb_lan::{Item, Outcome, Plan};
use pb_relay::Bridge;

/// Returns the most items that wait at each port of the bridge of this number.
pub(crate) fn queue_of(plan: &Plan, number: u8) -> u16
    requires { IsNumber number (length plan.now.bridges) }
    ensures { result ≡ capacity_of plan.now number }
{
    plan.bridges.as_slice()[index_of(number)].queue
}

/// Receives an item at a port of a bridge that has reserved a step. If each port to which the bridge relays the item
/// has room for one more, the step refuses no copy because a queue is full.
pub(crate) fn take_in(bridge: &mut Bridge, port: u8, item: Item) -> Outcome
    requires used { is_used (port_at bridge.old.plan bridge.old.number port) ≡ true }
    requires reserved { bridge.old.is_reserved ≡ true }
    ensures step { HasReceived bridge.old port item result bridge.new }
    ensures whole { has_room_for bridge.old.plan bridge.old.number bridge.old.steps
        (capacity_of bridge.old.plan bridge.old.number) port item ≡ true
        → list_any refuses_when_full bridge.old.steps ≡ false → list_any refuses_when_full bridge.new.steps ≡ false }
{
    let Ok(outcome) = bridge.receive(port, item) else {
        unreachable!();
    };
    outcome
}
