//! Runs of a few workers. Each ends by itself, whatever the schedule.

mod seldom;
mod sleeping;

ghost use Rattle.std.specs.Coded.{Unit-prop};
ghost use Rattle.std.specs.Prelude.{◌==◌, Some, None, if◌then◌else◌};
ghost use Rattle.pb_threads.proofs.Codes.{coded_place};

use pb_lan::{Limits, Place, PortState, Reason};
use pb_threads::{
    Dropped, Finish, Gate, Go, Moment, Past, Places, PortView, Turn, TurnStatus, Wish, Work,
    Worked, run_all,
};
use std::alloc::{AllocError, Global};
use std::sync::atomic::{AtomicU64, Ordering};
use std::test::Fail;
use std::thread;

/// The view that is shown of a port.
const VIEW: PortView = PortView {
    role: None,
    state: PortState::Learning,
};

/// A place with this many jobs, one of which is done in a turn. It shows a view of its port 3, also at its ticks.
#[derive(Drop)]
struct Desk {
    place: Place,
    jobs: u64,
    turns: u64,
    ticks: u64,
    opened: u64,
    wishes: u64,
    view: PortView,
    closed: u32,
    finish: Option<Finish>,
}

impl Work for Desk {
    type Given = Place;

    ghost given = { λ d. d.place };

    ghost fits = { λ d. Unit {0} };

    ghost coded = { coded_place };

    ghost is_fact = { λ d. Unit-prop };

    ghost named = { λ place. place };

    ghost shown_of = { λ d port. if port == 3 then Some d.view else None };

    fn place(&self) -> Place {
        self.place
    }

    fn shown(&self, port: u8) -> Option<PortView> {
        if port == 3 { Some(self.view) } else { None }
    }

    fn turn(&mut self, moment: Moment) -> Turn {
        self.turns = self.turns.saturating_add(1);
        if moment.is_tick {
            self.ticks = self.ticks.saturating_add(1);
        }
        if moment.is_open {
            self.opened = self.opened.saturating_add(1);
        }
        let status = if self.jobs > 0 {
            TurnStatus::Done
        } else {
            TurnStatus::Idle
        };
        let fewer = self.jobs.min(1);
        self.jobs = self.jobs.saturating_sub(1);
        Turn {
            status,
            more: 0,
            fewer,
            refused: 2,
            dropped: Some(Dropped::By(Reason::NotMember)),
            port: 1,
            has_stirred: moment.is_tick,
        }
    }

    fn fulfil(&mut self, wish: Wish) -> Turn {
        if wish.up {
            self.wishes = self.wishes.saturating_add(u64::from(wish.port));
        }
        Turn::IDLE
    }

    fn close(&mut self, moment: Moment, finish: Finish) {
        self.closed = moment.now;
        self.finish = Some(finish);
    }
}

/// Returns two places with this many jobs each.
fn desks(alloc: Global, jobs: u64, first: Place, second: Place) -> Result<Vec<Desk>, AllocError> {
    let mut desks = Vec::new(alloc);
    for place in [first, second] {
        desks.push(Desk {
            place,
            jobs,
            turns: 0,
            ticks: 0,
            opened: 0,
            wishes: 0,
            view: VIEW,
            closed: 0,
            finish: None,
        })?;
    }
    Ok(desks)
}

/// Returns two places of each kind, with this many jobs each.
fn office(alloc: Global, jobs: u64) -> Result<Places<Desk, Desk, Desk>, AllocError> {
    Ok(Places {
        customers: desks(alloc, jobs, Place::Customer(1), Place::Customer(2))?,
        lanes: desks(alloc, jobs, Place::Lane(1), Place::Lane(2))?,
        bridges: desks(alloc, jobs, Place::Bridge(1), Place::Bridge(2))?,
    })
}

/// Returns all places of a run, in one list.
fn together(places: Places<Desk, Desk, Desk>) -> Result<Vec<Desk>, AllocError> {
    let Places {
        customers: mut desks,
        lanes,
        bridges,
    } = places;
    for desk in lanes {
        desks.push(desk)?;
    }
    for desk in bridges {
        desks.push(desk)?;
    }
    Ok(desks)
}

/// A gate at whose turn 0 each pass waits until all have come. It counts the passes of all turns.
#[derive(Drop)]
struct Meeting {
    all: u64,
    here: AtomicU64,
    passes: AtomicU64,
}

impl Gate for Meeting {
    fn pass(&self, _place: Place, turn: u64) -> Go {
        self.passes.fetch_add(1, Ordering::SeqCst);
        if turn > 0 {
            return Go::Go;
        }
        self.here.fetch_add(1, Ordering::SeqCst);
        for _ in 0..1_000_000u32 {
            if self.here.load(Ordering::SeqCst) >= self.all {
                return Go::Go;
            }
            thread::yield_now();
        }
        Go::Stop
    }
}

fn meeting_of(all: u64) -> Meeting {
    Meeting {
        all,
        here: AtomicU64::new(0),
        passes: AtomicU64::new(0),
    }
}

#[test]
fn all_workers_run_at_once_and_end_when_nothing_is_left(rt: HostRuntime) -> Result<(), Fail> {
    let gate = meeting_of(6);
    let limits = Limits {
        turns: 1_000_000_000,
        tick_every: 5,
        tick_ms: 0,
        hold: 0,
    };
    let places = office(rt.alloc(), 20)?;
    let Worked { places, verdict } = run_all(&rt, rt.alloc(), places, &gate, limits, 120);
    assert!(rt; verdict.is_ok());
    assert_eq!(rt; gate.here.load(Ordering::SeqCst), 6);
    for desk in together(places)? {
        assert!(rt; desk.jobs == 0 && desk.finish == Some(Finish::Told));
        assert!(rt; desk.turns >= 20 && desk.ticks == desk.turns / 5);
        assert!(rt; u64::from(desk.closed) == desk.turns / 5);
    }
    assert!(rt; gate.passes.load(Ordering::SeqCst) >= 120);
    Ok(())
}

/// A gate that stops nobody.
#[derive(Clone, Copy)]
struct Open;

impl Gate for Open {
    fn pass(&self, _place: Place, _turn: u64) -> Go {
        Go::Go
    }
}

#[test]
fn a_worker_takes_so_many_turns_at_most(rt: HostRuntime) -> Result<(), Fail> {
    let limits = Limits {
        turns: 12,
        tick_every: 5,
        tick_ms: 0,
        hold: 0,
    };
    let places = office(rt.alloc(), 20)?;
    let Worked { places, verdict } = run_all(&rt, rt.alloc(), places, &Open, limits, 121);
    assert!(rt; verdict.is_ok());
    let mut is_limit = false;
    for desk in together(places)? {
        assert!(rt; desk.turns <= 12 && desk.jobs.saturating_add(desk.turns) == 20);
        assert!(rt; desk.ticks == desk.turns / 5 && u64::from(desk.closed) == desk.turns / 5);
        is_limit = is_limit || desk.finish == Some(Finish::Limit);
    }
    assert!(rt; is_limit);
    Ok(())
}

#[test]
fn frames_may_enter_after_so_many_ticks(rt: HostRuntime) -> Result<(), Fail> {
    let limits = Limits {
        turns: 12,
        tick_every: 3,
        tick_ms: 0,
        hold: 2,
    };
    let places = office(rt.alloc(), 20)?;
    let Worked { places, verdict } = run_all(&rt, rt.alloc(), places, &Open, limits, 121);
    assert!(rt; verdict.is_ok());
    for desk in together(places)? {
        assert_eq!(rt; desk.opened, desk.turns.saturating_sub(6));
    }
    Ok(())
}

#[test]
fn a_clock_by_time_ticks_whatever_the_turns(rt: HostRuntime) -> Result<(), Fail> {
    let limits = Limits {
        turns: 400,
        tick_every: 0,
        tick_ms: 1,
        hold: 0,
    };
    let places = office(rt.alloc(), 0)?;
    let Worked { places, verdict } = run_all(&rt, rt.alloc(), places, &Open, limits, 1);
    assert!(rt; verdict.is_ok());
    let mut has_ticked = false;
    for desk in together(places)? {
        assert!(rt; desk.ticks <= desk.turns && u64::from(desk.closed) == desk.ticks);
        has_ticked = has_ticked || (desk.finish == Some(Finish::Limit) && desk.ticks > 0);
    }
    assert!(rt; has_ticked);
    Ok(())
}

/// A gate that stops each worker at a turn.
#[derive(Drop)]
struct StopAt(u64);

impl Gate for StopAt {
    fn pass(&self, _place: Place, turn: u64) -> Go {
        if turn < self.0 { Go::Go } else { Go::Stop }
    }
}

#[test]
fn a_gate_stops_the_workers(rt: HostRuntime) -> Result<(), Fail> {
    let limits = Limits {
        turns: 1_000,
        tick_every: 0,
        tick_ms: 0,
        hold: 0,
    };
    for turns in 0..5u64 {
        let places = office(rt.alloc(), 20)?;
        let Worked { places, verdict } = run_all(
            &rt,
            rt.alloc(),
            places,
            &StopAt(turns),
            limits,
            120,
        );
        assert!(rt; verdict.is_ok());
        for desk in together(places)? {
            assert!(rt; desk.turns <= turns && desk.finish == Some(Finish::Told));
        }
    }
    Ok(())
}

/// A gate that wishes once of each bridge to enable its port 3, after its clock has ticked. It counts the refused
/// copies, the dropped frames and the shown views.
#[derive(Drop)]
struct Wishing {
    given: AtomicU64,
    refused: AtomicU64,
    dropped: AtomicU64,
    shown: AtomicU64,
}

impl Gate for Wishing {
    fn pass(&self, _place: Place, _turn: u64) -> Go {
        Go::Go
    }

    fn wish(&self, place: Place, now: u32, _past: Past<Wish>) -> Option<Wish> {
        if place != Place::Bridge(1) || now == 0 || self.given.swap(1, Ordering::SeqCst) == 1 {
            return None;
        }
        Some(Wish { port: 3, up: true })
    }

    fn refused(&self, _place: Place, copies: u64) {
        self.refused.fetch_add(copies, Ordering::SeqCst);
    }

    fn dropped(&self, _place: Place, port: u8, dropped: Dropped) {
        if port == 1 && dropped == Dropped::By(Reason::NotMember) {
            self.dropped.fetch_add(1, Ordering::SeqCst);
        }
    }

    fn shows(&self, _place: Place, port: u8, view: PortView) {
        if port == 3 && view == VIEW {
            self.shown.fetch_add(1, Ordering::SeqCst);
        }
    }
}

#[test]
fn wishes_take_the_place_of_turns(rt: HostRuntime) -> Result<(), Fail> {
    let limits = Limits {
        turns: 12,
        tick_every: 5,
        tick_ms: 0,
        hold: 0,
    };
    let gate = Wishing {
        given: AtomicU64::new(0),
        refused: AtomicU64::new(0),
        dropped: AtomicU64::new(0),
        shown: AtomicU64::new(0),
    };
    let places = office(rt.alloc(), 20)?;
    let Worked { places, verdict } = run_all(&rt, rt.alloc(), places, &gate, limits, 121);
    assert!(rt; verdict.is_ok());
    let (mut wishes, mut turns, mut ticks) = (0u64, 0u64, 0u64);
    for desk in together(places)? {
        wishes = wishes.saturating_add(desk.wishes);
        turns = turns.saturating_add(desk.turns);
        ticks = ticks.saturating_add(desk.ticks);
        assert!(rt; desk.wishes == 0 || desk.place == Place::Bridge(1));
        assert!(rt; desk.finish != Some(Finish::Limit) || desk.turns == 12 || desk.wishes == 3);
    }
    assert!(rt; wishes == 3 || gate.given.load(Ordering::SeqCst) == 0);
    assert_eq!(rt;
        gate.refused.load(Ordering::SeqCst),
        turns.saturating_mul(2)
    );
    assert_eq!(rt; gate.dropped.load(Ordering::SeqCst), turns);
    assert_eq!(rt; gate.shown.load(Ordering::SeqCst), ticks.saturating_add(6));
    Ok(())
}

/// A gate that lets workers go on, and no frames enter.
#[derive(Clone, Copy)]
struct Shut;

impl Gate for Shut {
    fn pass(&self, _place: Place, _turn: u64) -> Go {
        Go::Go
    }

    fn is_open(&self) -> bool {
        false
    }
}

#[test]
fn a_gate_holds_frames_back(rt: HostRuntime) -> Result<(), Fail> {
    let limits = Limits {
        turns: 12,
        tick_every: 5,
        tick_ms: 0,
        hold: 0,
    };
    let places = office(rt.alloc(), 20)?;
    let Worked { places, verdict } = run_all(&rt, rt.alloc(), places, &Shut, limits, 121);
    assert!(rt; verdict.is_ok());
    for desk in together(places)? {
        assert!(rt; desk.opened == 0 && desk.turns <= 12);
    }
    Ok(())
}
