//! The worker of a customer port.

ghost use Rattle.std.specs.Prelude.{◌≡◌, ◌++◌, [], true, Ok};
ghost use Rattle.pb_lan.specs.declared.step.Place.TheVariants.{Customer as customer_place};
ghost use Rattle.pb_workers.specs.GiftCodes.{customer_gift};
ghost use Rattle.pb_workers.specs.Facts.{KeepsPort-prop};
ghost use Rattle.pb_workers.specs.Ports.{port_frames};
ghost use Rattle.pb_workers.specs.Workers.{IsPortKept, IsSameCustomer};

use crate::access::{Access, Last};
use crate::gift::CustomerGift;
use crate::refusal::{Refusal, Taken, turn};
use crate::was::Was;
use pb_lan::Place;
use pb_port::{Offered, Polled, Port, PortFault, Pumped};
use pb_ring::Wiring;
use pb_threads::{Finish, Moment, PortView, Turn, TurnStatus, Work};

/// The number of turns after which the port writes at the latest, if something waits in it. It writes sooner if nothing
/// else is to do, or if it is full. Frames that leave in close order are written together.
const PART: u8 = 32;

/// A customer port of a plan: the port outside, and its access to the bridge.
#[derive(Drop)]
pub struct CustomerWorker<W: Wiring, P> {
    /// The port outside.
    pub port: P,
    /// The access to the bridge.
    pub access: Access<W>,
    /// The reason why the worker ended, once it has.
    pub finish: Option<Finish>,
    /// The port as the worker was given it.
    pub was: Was<P>,
    /// The number of turns in which the port has not written.
    pub held: u8,
}

impl<W: Wiring, P> CustomerWorker<W, P> {
    /// Returns the worker of a port and its access. Allocates nothing.
    pub fn new(port: P, access: Access<W>) -> CustomerWorker<W, P>
        ensures port { (result.port ≡ port) × (result.was.value ≡ port) }
        ensures access { result.access ≡ access }
    {
        let was = Was::of(&port);
        CustomerWorker {
            port,
            access,
            finish: None,
            was,
            held: 0,
        }
    }
}

impl<W: Wiring, P: Port> CustomerWorker<W, P> {
    /// Polls the port outside, if no frame is in hand and more may come. Returns whether a frame came.
    ///
    /// # Errors
    ///
    /// `Memory` if an allocation failed, `Limit` if the place has taken as many steps as it may.
    fn poll(&mut self) -> Taken
        requires { IsPortKept P.Port self.old }
        ensures port { IsPortKept P.Port self.new }
        ensures same { IsSameCustomer self.old self.new }
    {
        if !self.access.asks()? {
            return Ok(false);
        }
        match self.port.poll() {
            Polled::Frame(frame) => {
                self.access.take_in(frame);
                Ok(true)
            }
            Polled::Nothing => Ok(false),
            Polled::End => {
                self.access.book.last = Last::End;
                Ok(false)
            }
            Polled::Fault(PortFault::Memory) => Err(Refusal::Memory),
            Polled::Fault(fault) => {
                self.access.book.last = Last::Fault(fault);
                Ok(false)
            }
        }
    }

    /// Offers the port outside the oldest item that waits for it. Returns whether the item left or the port is gone.
    ///
    /// # Errors
    ///
    /// `Memory` if an allocation failed, `Limit` if the place has taken as many steps as it may.
    fn deliver(&mut self) -> Taken
        requires { IsPortKept P.Port self.old }
        ensures port { IsPortKept P.Port self.new }
        ensures same { IsSameCustomer self.old self.new }
    {
        if !self.access.fetch()? {
            return Ok(false);
        }
        let access = &self.access;
        let Some(item) = &access.offered else {
            return Ok(false);
        };
        // No port takes a frame of more than 65,535 octets. Such a frame counts as lost, and the run goes on.
        if item.wire.len() >= 65_536 {
            self.access.let_out(true);
            return Ok(true);
        }
        match self.port.offer(&item.wire) {
            Offered::Taken => {
                self.access.let_out(false);
                Ok(true)
            }
            Offered::Gone => {
                self.access.let_out(true);
                Ok(true)
            }
            Offered::Full => {
                self.held = PART;
                Ok(false)
            }
            Offered::Memory => Err(Refusal::Memory),
        }
    }

    /// Feeds the frame in hand to the bridge, if there is one and the ring is not full. Returns whether it did.
    ///
    /// # Errors
    ///
    /// `Memory` if an allocation failed, `Limit` if the place has taken as many steps as it may.
    fn feed(&mut self) -> Taken
        requires { IsPortKept P.Port self.old }
        ensures port { IsPortKept P.Port self.new }
        ensures same { IsSameCustomer self.old self.new }
    {
        self.access.hand_on()
    }

    /// Lets the port write what waits in it. Returns whether frames left.
    ///
    /// # Errors
    ///
    /// `Memory` if an allocation failed.
    fn pump(&mut self, now: u32) -> Taken
        requires { IsPortKept P.Port self.old }
        ensures port { IsPortKept P.Port self.new }
        ensures was { self.new.was ≡ self.old.was }
        ensures access { self.new.access ≡ self.old.access }
    {
        match self.port.pump(now) {
            Pumped::Wrote(_) => Ok(true),
            Pumped::Fault(PortFault::Memory) => Err(Refusal::Memory),
            _ => Ok(false),
        }
    }

    /// Checks whether the port has to write after a turn with this status, and counts the turns in which it does not.
    fn is_to_write(&mut self, status: TurnStatus) -> bool
        ensures port { self.new.port ≡ self.old.port }
        ensures access { self.new.access ≡ self.old.access }
        ensures was { self.new.was ≡ self.old.was }
    {
        match status {
            TurnStatus::Memory | TurnStatus::Limit => false,
            TurnStatus::Done if self.held < PART => {
                self.held = self.held.saturating_add(1);
                false
            }
            TurnStatus::Done | TurnStatus::Idle => {
                self.held = 0;
                true
            }
        }
    }

    /// Takes the first step that is due: delivers, feeds, or polls if frames may enter.
    fn step(&mut self, may_enter: bool) -> Turn
        requires { IsPortKept P.Port self.old }
        ensures port { IsPortKept P.Port self.new }
        ensures same { IsSameCustomer self.old self.new }
    {
        let delivered = self.deliver();
        if delivered != Ok(false) {
            return turn(delivered, 0, 1);
        }
        let fed = self.feed();
        if fed != Ok(false) {
            return turn(fed, 0, 0);
        }
        if !may_enter {
            return turn(Ok(false), 0, 0);
        }
        let had_more = self.access.book.last == Last::More;
        let polled = self.poll();
        if had_more && self.access.book.last != Last::More {
            return Turn {
                status: TurnStatus::Done,
                fewer: 1,
                ..Turn::IDLE
            };
        }
        turn(polled, 1, 0)
    }
}

impl<W: Wiring, P: Port> Work for CustomerWorker<W, P> {
    type Given = CustomerGift<P>;

    ghost given = { λ w. record {
      was = w.was;
      book = w.access.book.number;
      access = record {
        place = w.access.place.number;
        feed = w.access.feed.number;
        drain = w.access.drain.number;
      };
    } };

    ghost fits = { λ w. IsPortKept P.Port w };

    ghost coded = { customer_gift P.row.coded };

    ghost is_fact = { λ w. KeepsPort-prop (port_frames P.Port w.was.value) (port_frames P.Port w.port)
        w.access.place.steps w.access.book.last };

    ghost named = { λ gift. customer_place gift.book };

    fn place(&self) -> Place {
        Place::Customer(self.access.book.number)
    }

    fn shown(&self, _port: u8) -> Option<PortView> {
        None
    }

    /// Checks whether the port has to wait for its bridge or its devices. A frame that its ring does not take keeps the
    /// worker awake. If nothing watches its devices, so do frames that may come or wait to leave.
    fn may_sleep(&self, is_watched: bool) -> bool {
        if is_watched {
            return self.access.place.is_hand_empty();
        }
        self.access.book.last != Last::More
            && self.access.offered.is_none()
            && self.port.unsent().is_empty()
    }

    /// Checks whether a frame waits for the ring to the bridge.
    fn is_held_up(&self) -> bool {
        !self.access.place.is_hand_empty()
    }

    /// Checks whether the port's devices are watched: those never wait.
    fn may_be_helped(&self, is_watched: bool) -> bool {
        is_watched
    }

    fn turn(&mut self, moment: Moment) -> Turn {
        let stepped = self.step(moment.is_open);
        if !self.is_to_write(stepped.status) {
            return stepped;
        }
        match self.pump(moment.now) {
            Err(Refusal::Memory) => Turn {
                status: TurnStatus::Memory,
                ..stepped
            },
            pumped if stepped.status == TurnStatus::Idle => turn(pumped, 0, 0),
            _ => stepped,
        }
    }

    fn close(&mut self, moment: Moment, finish: Finish) {
        self.finish = Some(finish);
        for _ in 0..4_096u32 {
            if self.pump(moment.now) != Ok(true) {
                break;
            }
        }
    }
}
