//! The wishes that the control socket puts in for a bridge.

use pb_threads::Wish;
use std::alloc::{AllocError, Global};
use std::sync::atomic::{AtomicU64, Ordering};

/// The number of local ports of a bridge.
const PORTS: u8 = 16;

/// The value of a port without a wish.
const NOTHING: u64 = 0;
/// The value of a port that is to be disabled.
const DOWN: u64 = 1;
/// The value of a port that is to be enabled.
const UP: u64 = 2;

/// The wishes for a bridge that its worker has not taken yet: for each port the newest.
#[derive(Drop)]
pub(crate) struct Mailbox {
    /// 1 if a wish may be there.
    any: AtomicU64,
    /// The wish for each local port, from 1.
    ports: Vec<AtomicU64>,
}

impl Mailbox {
    /// Returns a mailbox without wishes.
    ///
    /// # Errors
    ///
    /// `AllocError` if an allocation failed.
    pub(crate) fn new(alloc: Global) -> Result<Mailbox, AllocError> {
        let mut ports = Vec::with_capacity(alloc, usize::from(PORTS))?;
        for _ in 0..PORTS {
            ports.push(AtomicU64::new(NOTHING))?;
        }
        Ok(Mailbox {
            any: AtomicU64::new(0),
            ports,
        })
    }

    /// Puts a wish in, in place of an older one for the same port.
    pub(crate) fn put(&self, wish: Wish) {
        if let Some(port) = self.ports.get(usize::from(wish.port).wrapping_sub(1)) {
            port.store(if wish.up { UP } else { DOWN }, Ordering::SeqCst);
            self.any.store(1, Ordering::SeqCst);
        }
    }

    /// Takes the wish for the lowest port, if there is one.
    pub(crate) fn take(&self) -> Option<Wish> {
        if self.any.load(Ordering::SeqCst) == 0 || self.any.swap(0, Ordering::SeqCst) == 0 {
            return None;
        }
        for number in 0..PORTS {
            let wished = self.take_at(number);
            if wished != NOTHING {
                self.any.store(1, Ordering::SeqCst);
                return Some(Wish {
                    port: number + 1,
                    up: wished == UP,
                });
            }
        }
        None
    }

    /// Takes the value of the port at this index, from 0.
    fn take_at(&self, place: u8) -> u64 {
        match self.ports.get(usize::from(place)) {
            Some(port) => port.swap(NOTHING, Ordering::SeqCst),
            None => NOTHING,
        }
    }
}
