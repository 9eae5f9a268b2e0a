//! How a bridge applies the changes of its spanning tree.

ghost use Rattle.std.specs.Prelude.{◌≡◌, ◌≤◌, [], length, vec_capacity};
ghost use Rattle.pb_lan.specs.declared.plan.Queues.TheVariants.{PerClass};
ghost use Rattle.std.specs.List.{AllByRecursion};
ghost use Rattle.pb_relay.specs.Following.{IsOfPorts, HasFollowed};
ghost use Rattle.pb_relay.specs.Moves.{all_flushed, states_changed};

use crate::bpdus::{BpduRoom, queue_bpdus};
use crate::forwarding::Forwarding;
use pb_fdb::Fdb;
use pb_frame::{Mac, Seq, index_of};
use pb_lan::{Moved, PortState};
use pb_rstp::Change;

/// Sets the states of ports, one change after the other.
fn set_states(states: &mut [PortState; 16], changes: &[(u8, PortState)])
    requires { AllByRecursion (λ change. (1 ≤ change.0) × (change.0 ≤ 16)) changes.now }
    ensures { states.new ≡ states_changed states.old changes.now }
{
    for (port, state) in changes {
        states[index_of(*port)] = *state;
    }
}

/// Flushes the stations of each of the ports.
fn flush_all(table: &mut Fdb, ports: &[u8])
    ensures { table.new ≡ all_flushed table.old ports.now }
{
    for port in ports {
        table.flush(*port);
    }
}

/// Sets the states, flushes the stations and queues the BPDUs of a change of the spanning tree, and returns the report
/// for the step. Allocation failures appear in the report.
pub fn follow(
    forwarding: &mut Forwarding,
    change: Change,
    mut room: BpduRoom,
    address: Mac,
) -> Moved
    requires backlog { length forwarding.old.backlog.ports ≡ 16 }
    requires empty { (room.queued.items ≡ []) × (room.replaced.items ≡ []) × (room.dropped.items ≡ []) }
    requires room { (16 ≤ vec_capacity room.queued) × (16 ≤ vec_capacity room.dropped)
        × (forwarding.old.backlog.capacity.queues ≡ PerClass → 16 ≤ vec_capacity room.replaced) }
    requires change { IsOfPorts address.0 change }
    ensures { HasFollowed address.0 change forwarding.old result forwarding.new }
{
    let Change {
        states,
        flush,
        send,
    } = change;
    set_states(&mut forwarding.states, states.as_slice());
    flush_all(&mut forwarding.table, flush.as_slice());
    queue_bpdus(&mut forwarding.backlog, &mut room, send.as_slice(), address);
    let BpduRoom {
        alloc: _,
        queued,
        replaced,
        dropped,
    } = room;
    Moved {
        states,
        flushed: flush,
        queued: Seq::from_vec(queued),
        replaced: Seq::from_vec(replaced),
        dropped: Seq::from_vec(dropped),
    }
}
