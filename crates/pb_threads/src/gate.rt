//! The gate that each worker passes before a turn, and the wishes that it hands on.

ghost use Rattle.std.specs.Prelude.{◌≡◌, Bool, true, List, Some};
ghost use Rattle.pb_lan.specs.declared.step.Place.{Place};
ghost use Rattle.pb_threads.specs.Wishes.{AreGiven};
ghost use Rattle.pb_threads.specs.declared.gate.Wish.{Wish};

use crate::bells::Bells;
use crate::view::{PortView, StationView};
use pb_lan::{Past, Place, Reason};
use std::time::Duration;

/// The decision of a gate.
#[derive(Clone, Copy, PartialEq, Eq, Debug)]
pub enum Go {
    /// The worker takes its turn.
    Go,
    /// The worker ends, and ends the others.
    Stop,
}

/// A wish to enable or disable a port of a bridge.
#[derive(Clone, Copy, PartialEq, Eq, Debug)]
pub struct Wish {
    /// The bridge's local port, 1 to 16.
    pub port: u8,
    /// Whether the port is to be enabled.
    pub up: bool,
}

/// What became of a received frame of which no port got a copy.
#[derive(Clone, Copy, PartialEq, Eq, Debug)]
pub enum Dropped {
    /// A rule dropped it for this reason.
    By(Reason),
    /// It was relayed to no port.
    Nowhere,
}

/// A gate that is passed before each turn of a place. Mostly the place's own worker takes the turn; while it sleeps,
/// the worker of another place may.
pub trait Gate: Sync {
    /// Whether the gate may give this wish for a place, after these that it gave for the place and that were fulfilled.
    /// A gate that leaves it out may give any wish.
    ghost gives: { Self → Place → List Wish → Wish → Bool } = { λ _ _ _ _. true };

    /// Returns whether a place takes the turn of this number. Its first turn has number 0. A worker that slept leaves
    /// out the numbers of the turns that it would have taken meanwhile.
    fn pass(&self, place: Place, turn: u64) -> Go;

    /// Decides as [`Gate::pass`] does, before a turn of a worker that finds nothing to do: it has slept, or it sleeps
    /// after this turn if that is idle. What a gate does once in so many turns, it does here each time.
    fn pass_when_idle(&self, place: Place, turn: u64) -> Go {
        self.pass(place, turn)
    }

    /// Checks whether a worker with much to do may pass the gate only before turns whose number is a multiple of 64. It
    /// then asks for wishes and stations, and reads its clock, as seldom.
    fn is_passed_seldom(&self) -> bool {
        false
    }

    /// Returns the next wish for a place, if there is one. The worker fulfils it in place of its next turn, and asks
    /// again. The place's clock has ticked `now` times. A wish is returned once. `past` has the wishes that the gate
    /// returned for the place before and that were fulfilled, in order: contracts alone see it.
    fn wish(&self, place: Place, now: u32, past: Past<Wish>) -> Option<Wish>
        requires { AreGiven (gives self.now place) past.items }
        ensures { (wish : Wish) → result ≡ Some wish → gives self.now place past.items wish ≡ true }
    {
        let _ = (place, now, past);
        None
    }

    /// Checks whether the worker of a place may sleep until its bell rings, while nothing is to do. It wakes when its
    /// clock ticks, after a second, and when a place beside it takes a step, unless the worker of that place takes the
    /// next turns of this one too. Otherwise it passes the gate at least twice a millisecond.
    fn lets_sleep(&self, _place: Place) -> bool {
        false
    }

    /// Returns the bells of the workers. Without bells nobody sleeps longer than half a millisecond.
    fn bells(&self) -> Option<&Bells> {
        None
    }

    /// Checks whether the worker of a place wakes when its devices have octets or room. The worker of such a place
    /// sleeps for 50 milliseconds at most.
    fn is_watched(&self, _place: Place) -> bool {
        false
    }

    /// Checks whether frames may enter at customer ports, once their clocks have ticked as often as they are held back.
    fn is_open(&self) -> bool {
        true
    }

    /// Receives the number of copies of a frame that were lost at a place because its queue was full.
    fn refused(&self, _place: Place, _copies: u64) {}

    /// Receives what became of a frame that a local port of a place received and no port got.
    fn dropped(&self, _place: Place, _port: u8, _dropped: Dropped) {}

    /// Receives the role and the state of a local port of a place: of each port before the place's first turn, and
    /// after each turn that may have changed one.
    fn shows(&self, _place: Place, _port: u8, _view: PortView) {}

    /// Sleeps until devices of a customer port have octets or room or the port is roused, at most this long. Returns
    /// whether one of these came, or `None` at once if the gate does not watch the devices. The port's worker then
    /// sleeps on its bell.
    fn sleep(&self, _place: Place, _time: Duration) -> Option<bool> {
        None
    }

    /// Ends the sleep of a customer port's worker in [`Gate::sleep`], or its next one if it is awake.
    fn rouse(&self, _place: Place) {}

    /// Checks whether the stations of a place are wanted. The worker of the place asks before each of its turns, and
    /// shows them if they are. A question is returned once.
    fn asks_stations(&self, _place: Place) -> bool {
        false
    }

    /// Receives the stations that a place has learnt and not forgotten, each once, in the order in which they were last
    /// seen, oldest first. Receives `None` if an allocation for the list failed, or the place learns no stations.
    fn shows_stations(&self, _place: Place, _stations: Option<Vec<StationView>>) {}
}

/// Wakes all workers that sleep on the bells of a gate.
pub(crate) fn ring_all<G: Gate>(gate: &G) {
    if let Some(bells) = gate.bells() {
        bells.wake_all(gate);
    }
}
