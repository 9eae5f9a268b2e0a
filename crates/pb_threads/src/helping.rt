//! How a worker takes turns of the places beside its own, while their workers sleep.
//!
//! A frame that meets sleeping workers crosses the network in the thread of the worker that it woke first. A worker
//! that has much to do wakes the others instead, so that all work at once. No contract speaks of who takes a turn.

ghost use Rattle.std.specs.Prelude.{◌≡◌, ◌≤◌};

use crate::bells::Bells;
use crate::gate::{Gate, Go};
use crate::share::Share;
use crate::slot::{Owned, Roster, Slot};
use crate::touched::{MOST_PORT, Touched};
use crate::turns::{Finish, Turn, TurnStatus, Work};
use crate::words::Words;
use pb_lan::{Limits, Place};
use std::time::Clock;

/// The most places that wait for the help of one worker. The workers of further ones are woken.
const ERRANDS: usize = 16;

/// The number of turns with something to do in a row after which a worker wakes the others and does not help. Each wake
/// costs the time of some dozens of turns.
const BUSY: u32 = 256;

/// The most turns that a worker takes of another place before it wakes that place's worker.
const MOST_TURNS: u32 = 64;

/// What a worker has to do besides the turns of its place.
#[derive(Drop)]
pub(crate) struct Helper {
    /// What the turns that the worker took changed of what is left to do.
    share: Share,
    /// The indices of sleeping workers whose places may have something to do. The first `count` count.
    errands: [usize; ERRANDS],
    count: usize,
    ghost few: { count ≤ 16 },
    /// The number of turns of the worker's own place since the first of them was noted.
    waited: u32,
}

impl Helper {
    /// Returns a helper that has nothing to do.
    pub(crate) fn new() -> Helper {
        Helper {
            share: Share::new(),
            errands: [0; ERRANDS],
            count: 0,
            waited: 0,
        }
    }

    /// Checks whether places wait for help.
    pub(crate) fn has_errands(&self) -> bool {
        self.count > 0
    }

    /// Notes a sleeping worker whose place may have something to do. Wakes it if too many are noted.
    fn note<G: Gate>(&mut self, gate: &G, bells: &Bells, worker: usize) {
        let noted = &self.errands[..self.count];
        if noted.iter().any(|other| *other == worker) {
            return;
        }
        if self.count < ERRANDS {
            self.errands[self.count] = worker;
            self.count += 1;
        } else {
            bells.wake(gate, worker);
        }
    }

    /// Notes the sleeping workers for which there may be something to do after a step of a customer port, a lane, or a
    /// bridge at a local port.
    fn note_beside<G: Gate>(&mut self, gate: &G, place: Place, port: u8) {
        if let Some(bells) = gate.bells() {
            let [to, from] = bells.called(place, port);
            if let Some(worker) = to {
                self.note(gate, bells, worker);
            }
            if let Some(worker) = from {
                self.note(gate, bells, worker);
            }
        }
    }

    /// Returns the worker that was noted first, and notes it no more.
    pub(crate) fn next_errand(&mut self) -> Option<usize> {
        if self.count == 0 {
            return None;
        }
        let worker = self.errands[0];
        self.errands.copy_within(1..self.count, 0);
        self.count -= 1;
        Some(worker)
    }

    /// Wakes all workers that are noted.
    pub(crate) fn hand_over<G: Gate>(&mut self, gate: &G) {
        if let Some(bells) = gate.bells() {
            for worker in &self.errands[..self.count] {
                bells.wake(gate, *worker);
            }
        }
        self.count = 0;
        self.waited = 0;
    }

    /// Notes the workers beside the worker's own place after a turn with something to do, at this port. Wakes them if the
    /// worker has had something to do for a while.
    pub(crate) fn after_turn<G: Gate>(&mut self, gate: &G, place: Place, port: u8) {
        self.note_beside(gate, place, port);
        self.count_turns(gate, 1);
    }

    /// Does the same after this many turns, which had something to do at these ports.
    pub(crate) fn after_turns<G: Gate>(
        &mut self,
        gate: &G,
        place: Place,
        touched: &Touched,
        turns: u32,
    ) {
        for port in 0..=MOST_PORT {
            if touched.has(port) {
                self.note_beside(gate, place, port);
            }
        }
        self.count_turns(gate, turns);
    }

    /// Counts turns of the worker's own place while workers are noted, and wakes them after too many.
    fn count_turns<G: Gate>(&mut self, gate: &G, turns: u32) {
        if self.count > 0 {
            self.waited = self.waited.saturating_add(turns);
            if self.waited > BUSY {
                self.hand_over(gate);
            }
        }
    }

    /// Reports to the gate what a turn of a place lost and what of its ports it changed, and counts what is left to do.
    pub(crate) fn report<K: Roster<T>, T: Work, G: Gate>(
        &mut self,
        owned: &Owned<K, T>,
        gate: &G,
        words: &Words,
        turned: &Turn,
    ) {
        self.share.count(gate, words, turned.more, turned.fewer);
        if turned.refused > 0 {
            gate.refused(owned.place(), turned.refused);
        }
        if let Some(dropped) = turned.dropped {
            gate.dropped(owned.place(), turned.port, dropped);
        }
        if turned.has_stirred {
            owned.show_ports(gate);
        }
    }

    /// Gives back all that the worker counted of what is left to do.
    pub(crate) fn give_back<G: Gate>(&mut self, gate: &G, words: &Words) {
        self.share.give_back(gate, words);
    }
}

/// Checks whether a place takes no more turns because the run has ended. If the gate stops it, the others end too.
/// `is_drowsy` says whether its worker has nothing to do.
pub(crate) fn is_ended<G: Gate>(
    gate: &G,
    words: &Words,
    place: Place,
    turn: u64,
    is_drowsy: bool,
) -> bool {
    if !words.go_on() {
        return true;
    }
    let go = if is_drowsy {
        gate.pass_when_idle(place, turn)
    } else {
        gate.pass(place, turn)
    };
    let is_stopped = go == Go::Stop;
    if is_stopped {
        words.end(gate);
    }
    is_stopped
}

/// Returns the reason for which a place takes no more turns after one with this status, if there is one.
pub(crate) fn own_end(status: TurnStatus) -> Option<Finish> {
    match status {
        TurnStatus::Idle | TurnStatus::Done => None,
        TurnStatus::Memory => Some(Finish::Memory),
        TurnStatus::Limit => Some(Finish::Limit),
    }
}

/// Takes turns of the place in a slot until there is nothing to do. Returns whether its worker may sleep on.
pub(crate) fn help_at<K: Roster<T>, T: Work, G: Gate, R: Clock>(
    rt: &R,
    slot: &Slot<K, T>,
    gate: &G,
    words: &Words,
    limits: Limits,
    helper: &mut Helper,
) -> bool
    requires { K.gives ≡ G.gives gate.now }
{
    let Some(mut held) = slot.held.try_lock() else {
        return false;
    };
    match &mut *held {
        Some(owned) => help_owned(rt, owned, gate, words, limits, helper),
        None => false,
    }
}

/// Takes turns of a place until there is nothing to do. Returns whether its worker may sleep on.
fn help_owned<K: Roster<T>, T: Work, G: Gate, R: Clock>(
    rt: &R,
    owned: &mut Owned<K, T>,
    gate: &G,
    words: &Words,
    limits: Limits,
    helper: &mut Helper,
) -> bool
    requires { K.gives ≡ G.gives gate.now }
{
    let place = owned.place();
    let is_watched = gate.is_watched(place);
    if !owned.may_be_helped(is_watched) {
        return false;
    }
    for _ in 0..MOST_TURNS {
        if owned.turn >= limits.turns || is_ended(gate, words, place, owned.turn, false) {
            return false;
        }
        let turned = owned.take_turn(rt, gate);
        helper.report(owned, gate, words, &turned);
        match turned.status {
            TurnStatus::Idle => return owned.may_sleep(is_watched) && !owned.is_held_up(),
            TurnStatus::Done => helper.note_beside(gate, place, turned.port),
            TurnStatus::Memory | TurnStatus::Limit => {
                owned.finish = own_end(turned.status);
                words.end(gate);
                return false;
            }
        }
    }
    false
}
