//! What the control socket reads and sets of a run.

use crate::steering::Steering;
use pb_control_socket::Board;
use pb_lan::Place;
use pb_threads::{PortView, StationView, Wish};
use std::sync::atomic::Ordering;

impl<G> Board for Steering<'_, G> {
    fn stop(&self) {
        self.stop.store(1, Ordering::SeqCst);
    }

    fn set(&self, bridge: u8, port: u8, up: bool) {
        if let Some(course) = self.course(bridge) {
            course.mailbox.put(Wish { port, up });
            self.bells.ring(Place::Bridge(bridge));
        }
    }

    fn traffic(&self, port: u8) -> (u64, u64) {
        self.traffic.at_port(port)
    }

    fn bridge(&self, bridge: u8) -> (u64, u64) {
        self.traffic.at_bridge(bridge)
    }

    fn drops(&self, bridge: u8) -> [u64; 160] {
        self.traffic.drops(bridge)
    }

    fn views(&self, bridge: u8) -> [Option<PortView>; 16] {
        match self.course(bridge) {
            Some(course) => course.views.all(),
            None => [None; 16],
        }
    }

    fn peer(&self, port: u8) -> Option<bool> {
        self.peers.at(port)
    }

    /// Asks the worker of the bridge, and wakes it.
    fn ask_stations(&self, bridge: u8) {
        if let Some(course) = self.course(bridge) {
            course.census.ask(self.now.load(Ordering::SeqCst));
            self.bells.ring(Place::Bridge(bridge));
        }
    }

    fn has_stations(&self, bridge: u8) -> bool {
        match self.course(bridge) {
            Some(course) => course.census.is_over(self.now.load(Ordering::SeqCst)),
            None => true,
        }
    }

    fn stations(&self, bridge: u8) -> Option<Vec<StationView>> {
        self.course(bridge)?.census.take()
    }
}
