//! The turns of a bridge's worker.

ghost use Rattle.std.specs.Coded.{Unit-prop};
ghost use Rattle.std.specs.Prelude.{◌≡◌, map};
ghost use Rattle.pb_lan.specs.declared.step.Place.TheVariants.{Bridge as bridge_place};
ghost use Rattle.pb_workers.specs.GiftCodes.{bridge_gift};
ghost use Rattle.pb_workers.specs.Bridges.{view_of};
ghost use Rattle.pb_workers.specs.Settings.{settings};
ghost use Rattle.pb_workers.specs.Stations.{stations_of};

use crate::bridge::BridgeWorker;
use crate::gift::BridgeGift;
use crate::refusal::turn;
use crate::stations::stations_of;
use crate::view::view_of;
use pb_lan::Place;
use pb_ring::Wiring;
use pb_threads::{Finish, Moment, PortView, StationView, Turn, TurnStatus, Wish, Work};

/// Returns the turn, marked as one after which roles and states of ports may have changed.
fn stirred(turn: Turn) -> Turn
    ensures { result.status ≡ turn.status }
{
    Turn {
        has_stirred: true,
        ..turn
    }
}

impl<W: Wiring> Work for BridgeWorker<W> {
    type Given = BridgeGift;

    ghost given = { λ w. record {
      worker = w.number;
      bridge = w.bridge.number;
      plan = w.bridge.plan;
      ins = map (λ i. i.number) w.ins.ends.items;
      outs = map (λ o. o.number) w.outs.ends.items;
    } };

    ghost fits = { λ w. Unit {0} };

    ghost coded = { bridge_gift };

    ghost is_fact = { λ w. Unit-prop };

    ghost named = { λ gift. bridge_place gift.worker };

    ghost fulfilled = { λ w. settings w.bridge.steps };

    ghost shown_of = { λ w port. view_of w.bridge port };

    ghost stations_of = { λ w. stations_of w.bridge };

    fn place(&self) -> Place {
        Place::Bridge(self.number)
    }

    /// Checks whether an item waits at a port: after an idle turn, for a ring that was full.
    fn is_held_up(&self) -> bool {
        self.has_waiting()
    }

    fn turn(&mut self, moment: Moment) -> Turn {
        if !moment.is_tick {
            return self.look();
        }
        let ticked = self.tick();
        if ticked.is_err() {
            return turn(ticked, 0, 0);
        }
        let looked = self.look();
        if looked.status == TurnStatus::Idle {
            return stirred(turn(ticked, 0, 0));
        }
        stirred(looked)
    }

    fn fulfil(&mut self, wish: Wish) -> Turn {
        stirred(turn(self.set(wish), 0, 0))
    }

    fn shown(&self, port: u8) -> Option<PortView> {
        view_of(&self.bridge, port)
    }

    fn stations(&self) -> Option<Vec<StationView>> {
        stations_of(self.alloc, &self.bridge)
    }

    fn close(&mut self, _moment: Moment, finish: Finish) {
        self.finish = Some(finish);
    }
}
