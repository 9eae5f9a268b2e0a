//! The worker of a lane.

ghost use Rattle.std.specs.Prelude.{◌≡◌, [], true};
ghost use Rattle.std.specs.Coded.{Unit-prop};
ghost use Rattle.rtrb.specs.Ring.{sent, received};
ghost use Rattle.pb_lan.specs.LaneLists.{taken, put};
ghost use Rattle.pb_lan.specs.declared.step.Place.TheVariants.{Lane as lane_place};
ghost use Rattle.pb_workers.specs.GiftCodes.{lane_gift};
ghost use Rattle.pb_workers.specs.Recording.{AreRecorded};

use crate::gift::LaneGift;
use crate::recording::{prepare_all, put_recorded, record_all};
use crate::refusal::{Refusal, Taken, turn};
use pb_lan::Place;
use pb_link::Lane;
use pb_port::Port;
use pb_ring::{Inlet, Outlet, Wiring};
use pb_tap::Tap;
use pb_threads::{Finish, Moment, PortView, Turn, TurnStatus, Work};

/// The number of rounds in which the files of the taps are written at most when the worker ends.
const MOST_ROUNDS: u32 = 4_096;

/// A lane of a plan with its two rings: it takes from one and puts onto the other. Its taps record the frames that it
/// puts: contracts see that each tap was given these frames, in order, and no others.
#[derive(Drop)]
pub struct LaneWorker<W: Wiring, P> {
    /// The lane's number in the plan, from 1.
    pub number: u8,
    /// The lane.
    pub lane: Lane,
    /// The ring end from which it takes.
    pub from: Inlet<W>,
    /// The ring end onto which it puts.
    pub to: Outlet<W>,
    /// What records the frames that the lane puts.
    pub taps: Vec<Tap<P>>,
    /// The greatest number of steps.
    pub limit: usize,
    /// The reason why the worker ended, once it has.
    pub finish: Option<Finish>,
    pub ghost took: { received from.end ≡ taken lane.steps },
    pub ghost gave: { sent to.end ≡ put lane.steps },
    pub ghost kept: { W.keeps ≡ true → lane.is_kept ≡ true },
    pub ghost recorded: { AreRecorded taps.items lane.steps },
}

impl<W: Wiring, P> LaneWorker<W, P> {
    ghost use Rattle.pb_workers.specs.Workers.{IsSameLane};

    /// Returns the worker of a lane that has taken no step, over rings that nothing has passed, with taps that have
    /// recorded nothing. The lane may take `limit` steps. Allocates nothing.
    pub fn new(
        number: u8,
        lane: Lane,
        from: Inlet<W>,
        to: Outlet<W>,
        taps: Vec<Tap<P>>,
        limit: usize,
    ) -> LaneWorker<W, P>
        requires steps { lane.steps ≡ [] }
        requires kept { W.keeps ≡ true → lane.is_kept ≡ true }
        requires rings { (received from.end ≡ []) × (sent to.end ≡ []) }
        requires taps { AreRecorded taps.items [] }
        ensures number { result.number ≡ number }
        ensures lane { result.lane ≡ lane }
        ensures rings { (result.from.number ≡ from.number) × (result.to.number ≡ to.number) }
    {
        LaneWorker {
            number,
            lane,
            from,
            to,
            taps,
            limit,
            finish: None,
        }
    }

    /// Checks that the lane may take one more step.
    ///
    /// # Errors
    ///
    /// `Limit` if it may not.
    fn within_limit(&self) -> Result<(), Refusal> {
        if self.lane.step_count() >= self.limit as u64 {
            return Err(Refusal::Limit);
        }
        Ok(())
    }

    /// Puts the item in hand, which is recorded, if each tap has space for one more frame. Returns whether it did.
    ///
    /// # Errors
    ///
    /// `Memory` if an allocation failed.
    fn put_tapped(&mut self) -> Taken
        ensures { IsSameLane self.old self.new }
    {
        let Some(item) = self.lane.hand() else {
            return Ok(false);
        };
        if !prepare_all(&mut self.taps, &item.wire)? {
            return Ok(false);
        }
        Ok(put_recorded(&mut self.lane, &mut self.to.end, &mut self.taps)?)
    }

    /// Puts the item in hand, if there is one, the ring is not full and each tap has space for one more frame. Returns
    /// whether it did.
    ///
    /// # Errors
    ///
    /// `Memory` if an allocation failed, `Limit` if the lane has taken as many steps as it may.
    fn put(&mut self) -> Taken
        ensures { IsSameLane self.old self.new }
    {
        if self.lane.is_hand_empty() || !self.to.has_room() {
            return Ok(false);
        }
        self.within_limit()?;
        if !self.taps.is_empty() {
            return self.put_tapped();
        }
        Ok(self.lane.put(&mut self.to.end)?)
    }

    /// Takes an item, if none is in hand and the ring is not empty. Returns whether it did.
    ///
    /// # Errors
    ///
    /// `Memory` if an allocation failed, `Limit` if the lane has taken as many steps as it may.
    fn take(&mut self) -> Taken
        ensures { IsSameLane self.old self.new }
    {
        if !self.lane.is_hand_empty() || !self.from.has_item() {
            return Ok(false);
        }
        self.within_limit()?;
        Ok(self.lane.take(&mut self.from.end)?)
    }

    /// Takes the first step that is due: puts the item in hand, or takes one.
    fn step(&mut self) -> Turn
        ensures { IsSameLane self.old self.new }
    {
        let put = self.put();
        if put != Ok(false) {
            return turn(put, 0, 0);
        }
        let before = self.lane.tally().parted();
        let taken = self.take();
        let lost = self.lane.tally().parted() != before;
        turn(taken, 0, u64::from(lost))
    }
}

impl<W: Wiring, P: Port> LaneWorker<W, P> {
    ghost use Rattle.pb_workers.specs.Workers.{IsSameLane};

    /// Passes frames to the files of the taps, after a turn at this number of ticks. Returns the turn with that.
    fn record(&mut self, stepped: Turn, now: u32) -> Turn
        ensures { IsSameLane self.old self.new }
    {
        let is_idle = stepped.status == TurnStatus::Idle;
        match record_all(&mut self.taps, now, is_idle) {
            Err(_) => Turn {
                status: TurnStatus::Memory,
                ..stepped
            },
            Ok(has_moved) if is_idle => turn(Ok(has_moved), 0, 0),
            Ok(_) => stepped,
        }
    }
}

impl<W: Wiring, P: Port> Work for LaneWorker<W, P> {
    type Given = LaneGift;

    ghost given = { λ w. record { number = w.number; from = w.from.number; to = w.to.number; losses = w.lane.losses } };

    ghost fits = { λ w. Unit {0} };

    ghost coded = { lane_gift };

    ghost is_fact = { λ w. Unit-prop };

    ghost named = { λ gift. lane_place gift.number };

    fn place(&self) -> Place {
        Place::Lane(self.number)
    }

    fn shown(&self, _port: u8) -> Option<PortView> {
        None
    }

    /// Checks whether nothing waits in a tap, and nothing can come to one over a ring.
    fn may_sleep(&self, _is_watched: bool) -> bool {
        self.taps.as_slice().iter().all(|tap| tap.may_sleep())
    }

    /// Checks whether an item is in hand.
    fn is_held_up(&self) -> bool {
        !self.lane.is_hand_empty()
    }

    /// Checks whether the lane has no taps: their files may be slow.
    fn may_be_helped(&self, _is_watched: bool) -> bool {
        self.taps.is_empty()
    }

    fn turn(&mut self, moment: Moment) -> Turn {
        let stepped = self.step();
        if self.taps.is_empty() {
            return stepped;
        }
        self.record(stepped, moment.now)
    }

    fn close(&mut self, moment: Moment, finish: Finish) {
        self.finish = Some(finish);
        for _ in 0..MOST_ROUNDS {
            if record_all(&mut self.taps, moment.now, true) != Ok(true) {
                break;
            }
        }
    }
}
