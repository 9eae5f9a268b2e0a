//! The stations of a bridge, as its worker gives them to the control socket.

use pb_threads::StationView;
use std::sync::Mutex;
use std::sync::atomic::{AtomicU64, Ordering};

/// The number of seconds that a bridge has to give its stations. Times are cut to whole seconds, and the clock has to
/// show one more.
const PATIENCE: u64 = 1;

/// Returns the key by which stations are sorted: the VID, and after it the octets of the address.
fn rank(station: &StationView) -> (u16, [u8; 6]) {
    (station.vid, station.address.0)
}

/// A question for the stations of a bridge, and its answer.
///
/// The control socket asks and takes. The bridge's worker hears the question once and gives. Neither waits for the
/// other.
#[derive(Drop)]
pub(crate) struct Census {
    /// 1 while the worker has not heard the question.
    is_asked: AtomicU64,
    /// 1 once the worker has given an answer to the newest question.
    is_given: AtomicU64,
    /// The second of the newest question.
    since: AtomicU64,
    /// The stations, if the worker could list them.
    stations: Mutex<Option<Vec<StationView>>>,
}

impl Census {
    /// Returns a census without a question. Allocates nothing.
    pub(crate) fn new() -> Census {
        Census {
            is_asked: AtomicU64::new(0),
            is_given: AtomicU64::new(0),
            since: AtomicU64::new(0),
            stations: Mutex::new(None),
        }
    }

    /// Puts a question at this second, in place of an earlier one.
    pub(crate) fn ask(&self, now: u64) {
        self.since.store(now, Ordering::SeqCst);
        self.is_given.store(0, Ordering::SeqCst);
        self.is_asked.store(1, Ordering::SeqCst);
    }

    /// Returns whether there is a question that the worker has not heard. It has then.
    pub(crate) fn hear(&self) -> bool {
        self.is_asked.load(Ordering::SeqCst) != 0 && self.is_asked.swap(0, Ordering::SeqCst) != 0
    }

    /// Gives the stations. The question is put again if the last answer is being taken.
    pub(crate) fn give(&self, stations: Option<Vec<StationView>>) {
        match self.stations.try_lock() {
            Some(mut held) => {
                *held = stations;
                self.is_given.store(1, Ordering::SeqCst);
            }
            None => self.is_asked.store(1, Ordering::SeqCst),
        }
    }

    /// Checks at this second whether the worker has given an answer, or has had its time.
    pub(crate) fn is_over(&self, now: u64) -> bool {
        self.is_given.load(Ordering::SeqCst) != 0
            || now.saturating_sub(self.since.load(Ordering::SeqCst)) > PATIENCE
    }

    /// Takes the stations, by VID and address. `None` if there are none to take, or an allocation failed.
    pub(crate) fn take(&self) -> Option<Vec<StationView>> {
        self.is_asked.store(0, Ordering::SeqCst);
        if self.is_given.swap(0, Ordering::SeqCst) == 0 {
            return None;
        }
        let mut held = self.stations.try_lock()?;
        let mut stations = held.take()?;
        match stations.sort_by_key(|station| rank(station)) {
            Ok(()) => Some(stations),
            Err(_) => None,
        }
    }
}
