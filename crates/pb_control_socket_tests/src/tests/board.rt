//! A board that notes its requests.

use pb_control_socket::{Board, Request};
use pb_frame::Mac;
use pb_lan::PortState;
use pb_rstp::Role;
use pb_threads::{PortView, StationView};
use std::alloc::Global;
use std::cell::RefCell;
use std::sync::atomic::{AtomicU64, Ordering};

/// The stations of the first bridge.
const STATIONS: &[StationView] = &[
    StationView {
        vid: 100,
        address: Mac([2, 0, 0, 0, 0, 1]),
        port: 16,
        age: 0,
    },
    StationView {
        vid: 4094,
        address: Mac([0xab, 0xcd, 0xef, 0x09, 0x90, 0xff]),
        port: 1,
        age: 999_999,
    },
];

/// A board that notes its requests, and returns counts that identify a port or a bridge. Its first bridge gives
/// stations, and its second gives none.
#[derive(Drop)]
pub(super) struct Fake {
    alloc: Global,
    asked: RefCell<Vec<Request>>,
    /// 1 while the board has no result for those who ask for stations.
    is_held: AtomicU64,
    /// The number of questions for stations.
    questions: AtomicU64,
}

impl Fake {
    /// Returns a board without requests.
    pub(super) fn new(alloc: Global) -> Fake {
        Fake {
            alloc,
            asked: RefCell::new(Vec::new(alloc)),
            is_held: AtomicU64::new(0),
            questions: AtomicU64::new(0),
        }
    }

    /// Sets whether results for those who ask for stations are held back.
    pub(super) fn hold(&self, is_held: bool) {
        self.is_held.store(u64::from(is_held), Ordering::SeqCst);
    }

    /// Returns how often stations were asked for.
    pub(super) fn questions(&self) -> u64 {
        self.questions.load(Ordering::SeqCst)
    }

    /// Checks whether exactly these requests were made, in this order.
    pub(super) fn has_done(&self, wanted: &[Request]) -> bool {
        match self.asked.try_borrow() {
            Ok(asked) => asked.as_slice() == wanted,
            Err(_) => false,
        }
    }

    fn note(&self, request: Request) {
        if let Ok(mut asked) = self.asked.try_borrow_mut() {
            let _ = asked.push(request);
        }
    }
}

impl Board for Fake {
    fn stop(&self) {
        self.note(Request::Stop);
    }

    fn set(&self, bridge: u8, port: u8, up: bool) {
        self.note(Request::Set { bridge, port, up });
    }

    fn traffic(&self, port: u8) -> (u64, u64) {
        (100 + u64::from(port), u64::MAX - u64::from(port))
    }

    fn bridge(&self, bridge: u8) -> (u64, u64) {
        (200 + u64::from(bridge), 300 + u64::from(bridge))
    }

    fn peer(&self, port: u8) -> Option<bool> {
        match port {
            1 => Some(true),
            2 => Some(false),
            _ => None,
        }
    }

    fn ask_stations(&self, _bridge: u8) {
        self.questions.fetch_add(1, Ordering::SeqCst);
    }

    fn has_stations(&self, _bridge: u8) -> bool {
        self.is_held.load(Ordering::SeqCst) == 0
    }

    fn stations(&self, bridge: u8) -> Option<Vec<StationView>> {
        if bridge != 1 {
            return None;
        }
        Vec::from_slice(self.alloc, STATIONS).ok()
    }

    fn views(&self, bridge: u8) -> [Option<PortView>; 16] {
        let mut views = [None; 16];
        views[0] = Some(PortView {
            role: Some(Role::Root),
            state: PortState::Forwarding,
        });
        views[15] = Some(PortView {
            role: if bridge == 1 {
                None
            } else {
                Some(Role::Alternate)
            },
            state: if bridge == 1 {
                PortState::Learning
            } else {
                PortState::Discarding
            },
        });
        views
    }

    fn drops(&self, bridge: u8) -> [u64; 160] {
        let mut drops = [0; 160];
        if bridge == 1 {
            drops[20] = 1;
            drops[21] = 22;
            drops[22] = 333;
            drops[23] = 4;
            drops[24] = 55;
            drops[25] = 666;
            drops[26] = 7;
            drops[27] = 88;
            drops[28] = 999;
            drops[29] = 10;
        } else {
            drops[0] = 41;
            drops[19] = 42;
            drops[20] = 43;
            drops[102] = 44;
            drops[159] = u64::MAX;
        }
        drops
    }
}
