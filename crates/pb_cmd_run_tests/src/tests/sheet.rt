//! A writer that compares its octets with the wanted ones, and keeps none.

use std::io;
use std::io::Write;

/// A writer that compares its octets with the wanted ones.
#[derive(Drop)]
pub(super) struct Sheet {
    /// The wanted octets that have not come.
    rest: &'static [u8],
    /// Whether any octets may follow.
    is_open: bool,
    /// Whether all octets so far were wanted.
    was_right: bool,
}

impl Sheet {
    /// Returns a writer that wants these octets, and nothing else.
    pub(super) fn whole(wanted: &'static [u8]) -> Sheet {
        Sheet {
            rest: wanted,
            is_open: false,
            was_right: true,
        }
    }

    /// Returns a writer that wants these octets, and any that follow.
    pub(super) fn front(wanted: &'static [u8]) -> Sheet {
        Sheet {
            rest: wanted,
            is_open: true,
            was_right: true,
        }
    }

    /// Returns whether all wanted octets have come, and no others.
    pub(super) fn is_right(&self) -> bool {
        self.was_right && self.rest.is_empty()
    }
}

impl Write for Sheet {
    fn write(&mut self, buf: &[u8]) -> io::Result<usize> {
        let n = buf.len().min(self.rest.len());
        let is_wanted = buf[..n] == self.rest[..n] && (n == buf.len() || self.is_open);
        self.was_right = self.was_right && is_wanted;
        self.rest = &self.rest[n..];
        Ok(buf.len())
    }

    fn flush(&mut self) -> io::Result<()> {
        Ok(())
    }
}
