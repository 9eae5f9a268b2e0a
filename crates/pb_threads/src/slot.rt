//! The slots of places. A place is in its slot while no worker takes its turns.

ghost use Rattle.std.specs.Prelude.{◌≡◌, List, [], true};
ghost use Rattle.std.specs.Coded.{Coded-set, coded_option};
ghost use Rattle.pb_threads.specs.Slots.{IsKept, HasGift};
ghost use Rattle.pb_threads.specs.Wishes.{Giving, HasFulfilledGiven, HasFulfilledNone};

use crate::gate::{Gate, Wish};
use crate::showing::{show_ports, show_stations};
use crate::ticks::{Moment, Ticks};
use crate::turns::{Finish, Turn, TurnStatus, Work};
use pb_lan::{Limits, Past, Place};
use std::marker::{Brand, PhantomData};
use std::sync::{Mutex, Wait};
use std::thread;
use std::time::Clock;

/// The places of one kind as a type, as a run was given them, and the wishes that its gate may give.
pub(crate) trait Roster<T> {
    ghost places: { List T };

    ghost gives: { Giving };
}

impl<T> Roster<T> for Brand {
    ghost places = { [] };

    ghost gives = { λ _ _ _. true };
}

/// A place with its clock and the number of its next turn, which go with it from worker to worker.
#[derive(Drop)]
pub(crate) struct Owned<K: Roster<T>, T: Work> {
    /// The index of the place among those of its kind.
    index: usize,
    place: T,
    ticks: Ticks,
    /// The number of the next turn.
    pub turn: u64,
    /// The reason why the place takes no more turns, once there is one.
    pub finish: Option<Finish>,
    /// The wishes that the place has fulfilled.
    past: Past<Wish>,
    of: PhantomData<K>,
    ghost fits: { T.fits place } by { T.is_fact place },
    ghost given: { HasGift T.given K.places index place } by { Coded-set (coded_option T.coded) _ _ },
    ghost known: { past.items ≡ T.fulfilled place },
    ghost wishes: { HasFulfilledGiven K.gives T.named T.given T.fulfilled place },
}

impl<K: Roster<T>, T: Work> Owned<K, T> {
    /// Returns the place of this index, which has taken no turn.
    fn new<R: Clock>(rt: &R, index: usize, place: T, limits: Limits) -> Owned<K, T>
        requires kept { IsKept T.given T.fits K.places index place }
        requires fresh { HasFulfilledNone T.fulfilled place }
    {
        let ticks = Ticks::new(rt, limits);
        Owned::of(index, place, ticks)
    }

    /// Returns the place of this index with its clock.
    fn of(index: usize, place: T, ticks: Ticks) -> Owned<K, T>
        requires kept { IsKept T.given T.fits K.places index place }
        requires fresh { HasFulfilledNone T.fulfilled place }
    {
        Owned {
            index,
            place,
            ticks,
            turn: 0,
            finish: None,
            past: Past::new(),
            of: PhantomData,
        }
    }

    /// Returns the place's kind and number.
    pub(crate) fn place(&self) -> Place {
        self.place.place()
    }

    /// Returns the clock.
    pub(crate) fn ticks(&self) -> &Ticks {
        &self.ticks
    }

    /// Checks whether only what rings the place's bell, or its clock, can give it something to do.
    pub(crate) fn may_sleep(&self, is_watched: bool) -> bool {
        self.place.may_sleep(is_watched)
    }

    /// Checks whether the place has an item for a ring that was full in its last turn.
    pub(crate) fn is_held_up(&self) -> bool {
        self.place.is_held_up()
    }

    /// Checks whether a worker of another place may take turns of this one.
    pub(crate) fn may_be_helped(&self, is_watched: bool) -> bool {
        self.finish.is_none() && self.place.may_be_helped(is_watched)
    }

    /// Shows the gate the place's ports.
    pub(crate) fn show_ports<G: Gate>(&self, gate: &G) {
        show_ports(&self.place, gate, self.place.place());
    }

    /// Shows the stations of the place if the gate asks for them. Then takes a turn, or fulfils a wish in its place.
    pub(crate) fn take_turn<G: Gate, R: Clock>(&mut self, rt: &R, gate: &G) -> Turn
        requires { K.gives ≡ G.gives gate.now }
    {
        let place = self.place.place();
        show_stations(&self.place, gate, place);
        match gate.wish(place, self.ticks.last().now, self.past.copied()) {
            Some(wish) => {
                self.turn = self.turn.saturating_add(1);
                self.fulfil(wish)
            }
            None => {
                let mut moment = self.ticks.next(rt);
                moment.is_open = moment.is_open && gate.is_open();
                self.take_step(moment)
            }
        }
    }

    /// Takes a turn at this moment. Asks the gate for nothing.
    pub(crate) fn take_step(&mut self, moment: Moment) -> Turn {
        self.turn = self.turn.saturating_add(1);
        self.place.turn(moment)
    }

    /// Fulfils a wish that was given for the place after those that it has fulfilled.
    fn fulfil(&mut self, wish: Wish) -> Turn
        requires { K.gives (T.named (T.given self.old.place)) (T.fulfilled self.old.place) wish ≡ true }
    {
        let turned = self.place.fulfil(wish);
        if turned.status != TurnStatus::Done {
            return turned;
        }
        self.past.note(&wish);
        turned
    }

    /// Leaves out as many turns as would have been taken in a sleep.
    pub(crate) fn pass_turns(&mut self, turns: u64) {
        self.turn = self.turn.saturating_add(turns);
    }

    /// Closes the place after its last turn.
    pub(crate) fn close(&mut self, finish: Finish) {
        self.finish = Some(finish);
        let last: Moment = self.ticks.last();
        self.place.close(last, finish);
    }

    /// Returns the index and the place.
    fn into_parts(self) -> (usize, T)
        ensures kept { IsKept T.given T.fits K.places result.0 result.1 }
        ensures wishes { HasFulfilledGiven K.gives T.named T.given T.fulfilled result.1 }
    {
        (self.index, self.place)
    }
}

/// The slot of a place. Whoever holds its lock may take turns of the place.
#[derive(Drop)]
pub(crate) struct Slot<K: Roster<T>, T: Work> {
    pub held: Mutex<Option<Owned<K, T>>>,
}

impl<K: Roster<T>, T: Work> Slot<K, T> {
    /// Returns an empty slot.
    pub(crate) fn new() -> Slot<K, T> {
        Slot {
            held: Mutex::new(None),
        }
    }

    /// Puts the place of this index into the slot.
    pub(crate) fn put<R: Wait + Clock>(&self, rt: &R, index: usize, place: T, limits: Limits)
        requires kept { IsKept T.given T.fits K.places index place }
        requires fresh { HasFulfilledNone T.fulfilled place }
    {
        *self.held.lock(rt) = Some(Owned::new(rt, index, place, limits));
    }

    /// Returns the place of this index, which was put into the slot. No contract speaks of what a lock holds, so that
    /// the index is compared. Does not return if the slot has another place or none, which does not happen.
    pub(crate) fn take<R: Wait>(self, rt: &R, index: usize) -> T
        ensures kept { IsKept T.given T.fits K.places index result }
        ensures wishes { HasFulfilledGiven K.gives T.named T.given T.fulfilled result }
    {
        if let Some(owned) = self.held.into_inner() {
            let (found, place) = owned.into_parts();
            if found == index {
                return place;
            }
        }
        for _ in rt.forever() {
            thread::yield_now();
        }
        unreachable!()
    }
}
