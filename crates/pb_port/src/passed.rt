//! The frames that passed a port, which only contracts see.

ghost use Rattle.std.specs.Prelude.{◌≡◌, []};

use crate::answers::{Offered, Polled};
use bytes::Bytes;
use pb_lan::Past;

/// The frames that passed a port in both directions. Contracts see them, and the program holds no octet of them.
#[derive(Drop)]
pub struct Passed {
    /// The frames that polls returned.
    pub given: Past<Bytes>,
    /// The frames that were taken by offers, until the port is shelved.
    pub taken: Past<Bytes>,
}

impl Passed {
    ghost use Rattle.pb_port.specs.Ports.{GivenBy, TalliedBy};

    /// Returns empty lists. Allocates nothing.
    pub fn new() -> Passed
        ensures { (result.given.items ≡ []) × (result.taken.items ≡ []) }
    {
        Passed {
            given: Past::new(),
            taken: Past::new(),
        }
    }

    /// Appends the frame that a poll returned, if it returned one. Allocates nothing.
    #[inline(always)]
    pub fn note_poll(&mut self, polled: &Polled)
        ensures given { GivenBy polled.now self.old.given.items self.new.given.items }
        ensures taken { self.new.taken ≡ self.old.taken }
    {
        match polled {
            Polled::Frame(frame) => self.given.note(frame),
            _ => {}
        }
    }

    /// Appends a frame that was offered, if it was taken. Allocates nothing.
    #[inline(always)]
    pub fn note_offer(&mut self, offered: Offered, f: &Bytes)
        ensures taken { TalliedBy offered f.now self.old.taken.items self.new.taken.items }
        ensures given { self.new.given ≡ self.old.given }
    {
        match offered {
            Offered::Taken => self.taken.note(f),
            _ => {}
        }
    }

    /// Forgets the frames that were taken, since the port is shelved. Allocates nothing.
    #[inline(always)]
    pub fn note_shelf(&mut self)
        ensures taken { self.new.taken.items ≡ [] }
        ensures given { self.new.given ≡ self.old.given }
    {
        self.taken = Past::new();
    }
}
