//! The room for the copies of an item that a bridge has not received yet.

ghost use Rattle.std.specs.List.{list_any};
ghost use Rattle.std.specs.Prelude.{◌≡◌, ◌-◌, length, nat_le, not, true};
ghost use Rattle.pb_lan.specs.PortSets.{AreAscending};
ghost use Rattle.pb_lan.specs.Ports.{port_at, is_used};
ghost use Rattle.pb_relay.specs.Backlogs.{at_place};
ghost use Rattle.pb_relay.specs.Classes.{number_in};
ghost use Rattle.pb_relay.specs.Room.{has_room_for};

use crate::backlog::Backlog;
use crate::bridge::Bridge;
use crate::choice::choose;
use crate::receive::sought;
use crate::verdict::Verdict;
use pb_frame::index_of;
use pb_lan::{Item, PortSet};

impl Bridge {
    /// Checks whether fewer than `queue` items wait at each port to which the bridge relays an item that arrives at
    /// `port`.
    ///
    /// It is true if the bridge filters the item or reads it as a BPDU. The ports are those of the destination by what
    /// the bridge has learnt before. When it receives the item, it learns the source first. It then relays the item to
    /// these ports, or to none of them if the source is the destination. Allocates nothing.
    pub fn has_room_for(&self, port: u8, item: &Item, queue: u16) -> bool
        requires { is_used (port_at self.now.plan self.now.number port) ≡ true }
        ensures { result ≡ has_room_for self.now.plan self.now.number self.now.steps queue port item.now }
    {
        let Verdict::Carry(vid) = self.rule(port, item) else {
            return true;
        };
        let forwarding = &self.forwarding;
        let at = sought(&forwarding.table, vid, item.wire.as_slice(), self.clock);
        let chosen = choose(&self.ports, &forwarding.states, port, vid, at);
        have_room(&forwarding.backlog, &chosen, queue)
    }
}

/// Checks whether fewer than `queue` items wait at each of these ports.
fn have_room(backlog: &Backlog, chosen: &PortSet, queue: u16) -> bool
    requires backlog { length backlog.now.ports ≡ 16 }
    requires chosen { AreAscending 0 chosen.now }
    ensures { result ≡ not (list_any (λ p. nat_le queue (number_in (at_place backlog.now (p - 1)))) chosen.now) }
{
    let chosen = chosen.list();
    for port in chosen.as_slice() {
        if backlog.waiting(index_of(*port)) >= usize::from(queue) {
            return false;
        }
    }
    true
}
