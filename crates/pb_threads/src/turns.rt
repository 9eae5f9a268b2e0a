//! What a worker does with its place in a turn, whatever the place.

ghost use Rattle.std.specs.Prelude.{◌≡◌, ℕ, List, [], None, IfSome};
ghost use Rattle.std.specs.Coded.{Coded};
ghost use Rattle.std.specs.declared.option.Option.{Option};
ghost use Rattle.pb_lan.specs.declared.step.Place.{Place};
ghost use Rattle.pb_threads.specs.Wishes.{HasFulfilled};
ghost use Rattle.pb_threads.specs.declared.gate.Wish.{Wish};
ghost use Rattle.pb_threads.specs.declared.view.PortView.{PortView};
ghost use Rattle.pb_threads.specs.declared.view.StationView.{StationView};

use crate::gate::{Dropped, Wish};
use crate::ticks::Moment;
use crate::view::{PortView, StationView};
use pb_lan::Place;

/// The status of a turn.
#[derive(Clone, Copy, PartialEq, Eq, Debug)]
pub enum TurnStatus {
    /// Nothing was to do.
    Idle,
    /// The place took a step, or did something else that was due.
    Done,
    /// An allocation failed. The worker ends.
    Memory,
    /// The place has taken as many steps as it may. The worker ends.
    Limit,
}

/// The result of a turn: its status, how it changes what is left to do in the whole run, and what was lost.
#[derive(Clone, Copy, PartialEq, Eq, Debug)]
pub struct Turn {
    /// The status.
    pub status: TurnStatus,
    /// The amount that the turn adds to what is left to do.
    pub more: u64,
    /// The amount that the turn takes from what is left to do.
    pub fewer: u64,
    /// The number of copies of a frame that were lost because a queue was full.
    pub refused: u64,
    /// What became of a received frame, if no port got a copy of it.
    pub dropped: Option<Dropped>,
    /// The local port whose ring an item entered or left, or 0 if the place has no local ports or none did.
    pub port: u8,
    /// Whether the view of the place's ports may have changed.
    pub has_stirred: bool,
}

impl Turn {
    /// A turn in which nothing was to do.
    pub const IDLE: Turn = Turn {
        status: TurnStatus::Idle,
        more: 0,
        fewer: 0,
        refused: 0,
        dropped: None,
        port: 0,
        has_stirred: false,
    };

    /// Checks whether the turn changed what is left to do, lost or dropped something, or may have changed what is shown
    /// of the place's ports.
    pub(crate) fn is_reported(&self) -> bool {
        let counts = self.more > 0 || self.fewer > 0;
        counts || self.refused > 0 || self.dropped.is_some() || self.has_stirred
    }
}

/// The reason why a worker takes no more turns.
#[derive(Clone, Copy, PartialEq, Eq, Debug)]
pub enum Finish {
    /// The run has ended: by another worker, by the gate, or because nothing is left to do.
    Told,
    /// An allocation failed.
    Memory,
    /// The worker has taken as many turns, or its place as many steps, as it may.
    Limit,
}

/// A place that a worker owns.
pub trait Work: Drop {
    /// The part of the place, as the worker was given it, that contracts keep.
    type Given;

    /// What the worker was given.
    ghost given: { Self → Self.Given };

    /// The place's kind and number, by what the worker was given.
    ghost named: { Self.Given → Place };

    /// The property of the place between turns.
    ghost fits: { Self → Type 0 };

    /// What the worker was given has a code, and the property is a fact: so a lock can keep both.
    ghost coded: { Coded Self.Given };

    ghost is_fact: { (place : Self) → IsProp (fits place) };

    /// The view of a local port. A place that shows no port leaves it out.
    ghost shown_of: { Self → ℕ → Option PortView } = { λ _ _. None };

    /// The stations that the place has learnt and not forgotten. A place that learns none leaves it out.
    ghost stations_of: { Self → List StationView } = { λ _. [] };

    /// The wishes that the place has fulfilled, in order. A place that fulfils none leaves it out.
    ghost fulfilled: { Self → List Wish } = { λ _. [] };

    /// Returns the place's kind and number.
    fn place(&self) -> Place
        ensures { result ≡ named (given self.now) };

    /// Returns the view of the local port of this number, 1 to 16, if the place shows one.
    fn shown(&self, port: u8) -> Option<PortView>
        ensures { result ≡ shown_of self.now port };

    /// Returns the stations that the place has learnt and not forgotten, in the order in which they were last seen,
    /// oldest first. `None` if an allocation failed or the place learns no stations.
    fn stations(&self) -> Option<Vec<StationView>>
        ensures { IfSome result (λ list. list.items ≡ stations_of self.now) }
    {
        None
    }

    /// Checks whether something that rings the place's bell, or its clock, has to come before there is something to do:
    /// a step of a place beside this one or, if the place `is_watched`, its devices.
    fn may_sleep(&self, _is_watched: bool) -> bool {
        true
    }

    /// Checks whether the place has an item for a ring that was full in its last turn. It then has something to do once
    /// the place at the other end takes an item.
    fn is_held_up(&self) -> bool {
        false
    }

    /// Checks whether a worker of another place may take turns of this one. It may not if a turn can wait for a device,
    /// so that only the place's own worker waits for it.
    fn may_be_helped(&self, _is_watched: bool) -> bool {
        true
    }

    /// Takes a turn: a tick if the clock ticks at this moment, and at most one step more.
    fn turn(&mut self, moment: Moment) -> Turn
        requires { fits self.old }
        ensures given { given self.new ≡ given self.old }
        ensures fulfilled { fulfilled self.new ≡ fulfilled self.old }
        ensures fits { fits self.new };

    /// Fulfils a wish in place of a turn. The turn is `Done` if and only if the wish is fulfilled: a place without such
    /// a port does nothing.
    fn fulfil(&mut self, wish: Wish) -> Turn
        requires { fits self.old }
        ensures given { given self.new ≡ given self.old }
        ensures fulfilled { HasFulfilled (fulfilled self.old) wish result.status (fulfilled self.new) }
        ensures fits { fits self.new }
    {
        let _ = wish;
        Turn::IDLE
    }

    /// Closes the place after its last turn. `moment` is that of the turn that would come next.
    fn close(&mut self, moment: Moment, finish: Finish)
        requires { fits self.old }
        ensures given { given self.new ≡ given self.old }
        ensures fulfilled { fulfilled self.new ≡ fulfilled self.old }
        ensures fits { fits self.new };
}
