//! The worker of a place, in a thread of its own.

ghost use Rattle.std.specs.Prelude.{◌≡◌};

use crate::gate::Gate;
use crate::helping::{Helper, is_ended, own_end};
use crate::pace::{LONG, MOST_IDLE, Pace, SHORT, TURNS};
use crate::slot::{Owned, Roster, Slot};
use crate::touched::Touched;
use crate::turns::{Finish, TurnStatus, Work};
use crate::words::Words;
use pb_lan::{Limits, Place};
use std::sync::Wait;
use std::thread;
use std::time::{Clock, Duration};

/// The number of turns with something to do after which the first item that met a sleeping worker has gone on from its
/// place. The worker then helps the places behind it before it looks for more.
const FIRST: u32 = 2;

/// A worker with much to do passes a gate that allows it only before turns whose number is a multiple of this.
const STRIDE: u64 = 64;

/// What a worker keeps from turn to turn.
#[derive(Drop)]
pub(crate) struct Worker {
    pace: Pace,
    pub helper: Helper,
    /// The number of turns that passed in the last sleep.
    slept: u64,
    /// Whether the gate has seen the place's ports.
    has_shown: bool,
}

/// A sleep until the bell of a place rings.
#[derive(Clone, Copy)]
pub(crate) struct Sleep {
    place: Place,
    /// The longest time, in milliseconds.
    millis: u64,
}

/// What a worker does after some turns.
#[derive(Clone, Copy)]
pub(crate) enum Next {
    /// It ends: its place takes no more turns, and is closed.
    End,
    /// It helps the places that it has noted.
    Help,
    /// It sleeps.
    Sleep(Sleep),
}

/// Returns for how many milliseconds a worker may sleep until its bell rings. 0 if the place or the gate does not allow
/// it, or a tick is due.
fn sleep_time<K: Roster<T>, T: Work, G: Gate, R: Clock>(
    rt: &R,
    owned: &Owned<K, T>,
    gate: &G,
) -> u64 {
    let place = owned.place();
    let is_watched = gate.is_watched(place);
    if !gate.lets_sleep(place) || !owned.may_sleep(is_watched) {
        return 0;
    }
    let most = if is_watched { SHORT } else { LONG };
    owned.ticks().until_tick(rt, most)
}

/// Checks whether the worker of a place yields the processor after an idle turn. That of a watched port does so only
/// after much to do.
fn yields<G: Gate>(gate: &G, place: Place, pace: Pace) -> bool {
    let is_port = matches!(place, Place::Customer(_));
    pace.is_busy() || !is_port || !gate.is_watched(place)
}

/// Rests after an idle turn: yields the processor, if it does, after one of the first such turns in a row. Then returns
/// for how many milliseconds the worker is to sleep until its bell rings, if the place and the gate allow it and its
/// bell did not ring in the last turn. Else sleeps for half a millisecond at most.
fn rest<K: Roster<T>, T: Work, G: Gate, R: Wait + Clock>(
    rt: &R,
    owned: &Owned<K, T>,
    gate: &G,
    pace: &mut Pace,
) -> Option<Sleep> {
    let last = *pace;
    *pace = last.after_rest();
    let place = owned.place();
    if last.is_patient() {
        if yields(gate, place, last) {
            thread::yield_now();
        }
        return None;
    }
    let millis = sleep_time(rt, owned, gate);
    match gate.bells() {
        Some(bells) if millis > 0 => {
            *pace = pace.drowsy();
            let has_nodded = bells.nods(place, owned.is_held_up());
            return has_nodded.then_some(Sleep { place, millis });
        }
        _ if last.idle < MOST_IDLE => thread::yield_now(),
        _ => {
            let micros = u64::from(last.idle).saturating_sub(60).min(500);
            thread::sleep(rt, Duration::from_micros(micros));
        }
    }
    None
}

/// Returns the reason for which a place takes no more turns, if there is one. The place's own reason ends the others.
fn end_of<K: Roster<T>, T: Work, G: Gate>(
    owned: &Owned<K, T>,
    gate: &G,
    words: &Words,
    limits: Limits,
    is_drowsy: bool,
) -> Option<Finish> {
    if owned.finish.is_some() {
        return owned.finish;
    }
    if owned.turn >= limits.turns {
        words.end(gate);
        return Some(Finish::Limit);
    }
    if is_ended(gate, words, owned.place(), owned.turn, is_drowsy) {
        return Some(Finish::Told);
    }
    None
}

impl Worker {
    /// Returns a worker that begins.
    pub(crate) fn new() -> Worker {
        Worker {
            pace: Pace::START,
            helper: Helper::new(),
            slept: 0,
            has_shown: false,
        }
    }

    /// Takes a turn of the place, and reports it. Returns its status.
    fn take_turn<K: Roster<T>, T: Work, G: Gate, R: Clock>(
        &mut self,
        rt: &R,
        owned: &mut Owned<K, T>,
        gate: &G,
        words: &Words,
    ) -> TurnStatus
        requires { K.gives ≡ G.gives gate.now }
    {
        let turned = owned.take_turn(rt, gate);
        self.helper.report(owned, gate, words, &turned);
        if self.pace.is_drowsy {
            self.helper.give_back(gate, words);
        }
        if turned.status == TurnStatus::Done {
            if self.pace.is_drowsy {
                if let Some(bells) = gate.bells() {
                    bells.stay_awake(owned.place());
                }
            }
            self.helper.after_turn(gate, owned.place(), turned.port);
            self.pace = self.pace.after_work(1);
        }
        turned.status
    }

    /// Checks whether the worker takes more turns of the place before it passes the gate again.
    fn is_to_go_on<K: Roster<T>, T: Work, G: Gate>(&self, owned: &Owned<K, T>, gate: &G) -> bool {
        self.pace.is_busy() && gate.is_passed_seldom() && !owned.ticks().counts_turns()
    }

    /// Takes turns of the place up to the next at which the gate is to be passed, while there is something to do. The
    /// clock does not tick meanwhile. Returns the status of the last turn.
    fn take_more<K: Roster<T>, T: Work, G: Gate>(
        &mut self,
        owned: &mut Owned<K, T>,
        gate: &G,
        words: &Words,
        limits: Limits,
    ) -> TurnStatus {
        let mut moment = owned.ticks().last();
        moment.is_open = moment.is_open && gate.is_open();
        let (mut status, mut touched, mut turns) = (TurnStatus::Done, Touched::new(), 0u32);
        for _ in 1..STRIDE {
            if owned.turn % STRIDE == 0 || owned.turn >= limits.turns {
                break;
            }
            let turned = owned.take_step(moment);
            if turned.is_reported() {
                self.helper.report(owned, gate, words, &turned);
            }
            status = turned.status;
            if status != TurnStatus::Done {
                break;
            }
            touched.add(turned.port);
            turns = turns.saturating_add(1);
        }
        self.helper
            .after_turns(gate, owned.place(), &touched, turns);
        self.pace = self.pace.after_work(turns);
        status
    }

    /// Takes turns of the place until it takes no more, other places are to be helped, or the worker may sleep. Closes
    /// a place that takes no more.
    fn take_turns<K: Roster<T>, T: Work, G: Gate, R: Wait + Clock>(
        &mut self,
        rt: &R,
        owned: &mut Owned<K, T>,
        gate: &G,
        words: &Words,
        limits: Limits,
    ) -> Next
        requires { K.gives ≡ G.gives gate.now }
    {
        for _ in rt.forever() {
            if let Some(finish) = end_of(owned, gate, words, limits, self.pace.is_drowsy) {
                owned.close(finish);
                return Next::End;
            }
            let mut status = self.take_turn(rt, owned, gate, words);
            if status == TurnStatus::Done && self.is_to_go_on(owned, gate) {
                status = self.take_more(owned, gate, words, limits);
            }
            if let Some(finish) = own_end(status) {
                words.end(gate);
                owned.close(finish);
                return Next::End;
            }
            let is_idle = status == TurnStatus::Idle;
            if self.helper.has_errands() && (is_idle || self.pace.done == FIRST) {
                return Next::Help;
            }
            if is_idle {
                if let Some(sleep) = rest(rt, owned, gate, &mut self.pace) {
                    return Next::Sleep(sleep);
                }
            }
        }
        unreachable!()
    }

    /// Takes turns of the place in a slot, and returns what the worker does next. Holds the slot meanwhile.
    pub(crate) fn work<K: Roster<T>, T: Work, G: Gate, R: Wait + Clock>(
        &mut self,
        rt: &R,
        slot: &Slot<K, T>,
        gate: &G,
        words: &Words,
        limits: Limits,
    ) -> Next
        requires { K.gives ≡ G.gives gate.now }
    {
        let mut held = slot.held.lock(rt);
        let Some(owned) = &mut *held else {
            return Next::End;
        };
        if !self.has_shown {
            self.has_shown = true;
            owned.show_ports(gate);
        }
        owned.pass_turns(self.slept);
        self.slept = 0;
        self.take_turns(rt, owned, gate, words, limits)
    }

    /// Sleeps until the bell of the place rings.
    pub(crate) fn sleep<G: Gate, R: Wait>(&mut self, rt: &R, gate: &G, sleep: Sleep) {
        let Some(bells) = gate.bells() else {
            return;
        };
        let time = Duration::from_millis(sleep.millis);
        if bells.sleep(rt, gate, sleep.place, time) {
            self.slept = sleep.millis.saturating_mul(TURNS);
        }
    }
}
