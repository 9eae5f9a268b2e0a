//! The steps of a network, by kind of event.

ghost use Rattle.pb_net.specs.Answers.{IsAnswer};

use crate::at_bridge::{receive_at, transmit_at};
use crate::at_lane::{put_at, take_at};
use crate::at_port::{deliver_at, feed_at, poll_at};
use crate::did::Did;
use crate::fault::NetFault;
use crate::net::Net;
use crate::spots::index_among;
use bytes::Bytes;
use pb_lan::{Event, Place};

impl Net {
    /// Polls a frame at a customer port.
    ///
    /// # Errors
    ///
    /// Those of [`step`](Net::step). The network is unchanged then.
    pub(crate) fn poll(&mut self, port: u8, frame: Bytes) -> Result<Did, NetFault>
        ensures { IsAnswer self.old (Event.Poll port frame) result self.new }
    {
        let Some(spot) = self.due_poll(port)? else {
            return Ok(Did::Idle);
        };
        poll_at(&mut self.customers[spot.place], frame)?;
        Ok(Did::Done(Place::Customer(port)))
    }

    /// Feeds the frame in a customer port's hand to its bridge.
    ///
    /// # Errors
    ///
    /// Those of [`step`](Net::step). The network is unchanged then.
    fn feed(&mut self, port: u8) -> Result<Did, NetFault>
        ensures { IsAnswer self.old (Event.Feed port) result self.new }
    {
        let Some(spot) = self.due_feed(port)? else {
            return Ok(Did::Idle);
        };
        feed_at(
            &mut self.customers[spot.place],
            &mut self.inboxes[spot.slot],
        )?;
        Ok(Did::Done(Place::Customer(port)))
    }

    /// Delivers the oldest frame that the bridge sent to a customer port.
    ///
    /// # Errors
    ///
    /// Those of [`step`](Net::step). The network is unchanged then.
    fn deliver(&mut self, port: u8) -> Result<Did, NetFault>
        ensures { IsAnswer self.old (Event.Deliver port) result self.new }
    {
        let Some(spot) = self.due_deliver(port)? else {
            return Ok(Did::Idle);
        };
        deliver_at(
            &mut self.customers[spot.place],
            &mut self.outboxes[spot.slot],
        )?;
        Ok(Did::Done(Place::Customer(port)))
    }

    /// Receives the oldest item that came to a bridge's port.
    ///
    /// # Errors
    ///
    /// Those of [`step`](Net::step). The network is unchanged then.
    fn receive(&mut self, bridge: u8, port: u8) -> Result<Did, NetFault>
        ensures { IsAnswer self.old (Event.Receive bridge port) result self.new }
    {
        let Some(spot) = self.due_receive(bridge, port)? else {
            return Ok(Did::Idle);
        };
        let at = &mut self.bridges[spot.place];
        receive_at(at, port, &mut self.inboxes[spot.slot])?;
        Ok(Did::Done(Place::Bridge(bridge)))
    }

    /// Transmits the next item of a bridge's port.
    ///
    /// # Errors
    ///
    /// Those of [`step`](Net::step). The network is unchanged then.
    fn transmit(&mut self, bridge: u8, port: u8) -> Result<Did, NetFault>
        ensures { IsAnswer self.old (Event.Transmit bridge port) result self.new }
    {
        let Some(spot) = self.due_transmit(bridge, port)? else {
            return Ok(Did::Idle);
        };
        let at = &mut self.bridges[spot.place];
        transmit_at(at, port, &mut self.outboxes[spot.slot])?;
        Ok(Did::Done(Place::Bridge(bridge)))
    }

    /// Advances a bridge's clock by one tick.
    ///
    /// # Errors
    ///
    /// Those of [`step`](Net::step). The network is unchanged then.
    fn tick(&mut self, bridge: u8) -> Result<Did, NetFault>
        ensures { IsAnswer self.old (Event.Tick bridge) result self.new }
    {
        let Some(place) = index_among(bridge, self.bridges.len()) else {
            return Err(NetFault::NoSuch);
        };
        self.bridges[place].tick()?;
        Ok(Did::Done(Place::Bridge(bridge)))
    }

    /// Enables or disables a bridge's port to another bridge.
    ///
    /// # Errors
    ///
    /// Those of [`step`](Net::step). The network is unchanged then.
    fn admin(&mut self, bridge: u8, port: u8, up: bool) -> Result<Did, NetFault>
        ensures { IsAnswer self.old (Event.Admin bridge port up) result self.new }
    {
        let Some(spot) = self.provider_spot(bridge, port) else {
            return Err(NetFault::NoSuch);
        };
        self.bridges[spot.place].admin(port, up)?;
        Ok(Did::Done(Place::Bridge(bridge)))
    }

    /// Takes the oldest item that was sent to a lane.
    ///
    /// # Errors
    ///
    /// Those of [`step`](Net::step). The network is unchanged then.
    fn take(&mut self, lane: u8) -> Result<Did, NetFault>
        ensures { IsAnswer self.old (Event.Take lane) result self.new }
    {
        let Some(spot) = self.due_take(lane)? else {
            return Ok(Did::Idle);
        };
        take_at(&mut self.lanes[spot.place], &mut self.outboxes[spot.slot])?;
        Ok(Did::Done(Place::Lane(lane)))
    }

    /// Puts the item in a lane's hand before the far bridge.
    ///
    /// # Errors
    ///
    /// Those of [`step`](Net::step). The network is unchanged then.
    fn put(&mut self, lane: u8) -> Result<Did, NetFault>
        ensures { IsAnswer self.old (Event.Put lane) result self.new }
    {
        let Some(spot) = self.due_put(lane)? else {
            return Ok(Did::Idle);
        };
        put_at(&mut self.lanes[spot.place], &mut self.inboxes[spot.slot])?;
        Ok(Did::Done(Place::Lane(lane)))
    }

    /// Polls a copy of the caller's frame at a customer port.
    ///
    /// # Errors
    ///
    /// Those of [`step`](Net::step). The network is unchanged then.
    fn poll_copy(&mut self, port: u8, frame: &Bytes) -> Result<Did, NetFault>
        ensures { IsAnswer self.old (Event.Poll port frame.now) result self.new }
    {
        if self.due_poll(port)?.is_none() {
            return Ok(Did::Idle);
        }
        self.poll(port, frame.clone()?)
    }

    /// Performs an event, of which the caller keeps the frame.
    ///
    /// # Errors
    ///
    /// Those of [`step`](Net::step). The network is unchanged then.
    pub(crate) fn act(&mut self, event: &Event) -> Result<Did, NetFault>
        ensures { IsAnswer self.old event.now result self.new }
    {
        match event {
            Event::Poll { port, frame } => self.poll_copy(*port, frame),
            Event::Feed { port } => self.feed(*port),
            Event::Deliver { port } => self.deliver(*port),
            Event::Receive { bridge, port } => self.receive(*bridge, *port),
            Event::Transmit { bridge, port } => self.transmit(*bridge, *port),
            Event::Tick { bridge } => self.tick(*bridge),
            Event::Admin { bridge, port, up } => self.admin(*bridge, *port, *up),
            Event::Take { lane } => self.take(*lane),
            Event::Put { lane } => self.put(*lane),
        }
    }
}
