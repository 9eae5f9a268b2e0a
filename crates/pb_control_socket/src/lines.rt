//! A buffer of octets that arrive in pieces, and the lines in them.

ghost use Rattle.std.specs.Prelude.{◌≡◌, ◌+◌, ◌<◌, ◌≤◌, ◌^◌, ◌++◌, [], vec_len, IfOk, IfSome, IfNone, OnOk, OnErr};
ghost use Rattle.pb_lines.specs.Lines.{HasNoLf};

use pb_frame::Memory;
use pb_lines::take_part;
use std::alloc::Global;
use std::mem;

/// A buffer of octets that arrive in pieces, cut into lines at each LF.
///
/// It keeps at most one octet more than its limit of a line that has not ended. That octet shows that the line is too
/// long. Besides these it holds no more than was put after the last call that returned no line.
#[derive(Drop)]
pub struct LineBuffer {
    alloc: Global,
    limit: usize,
    /// The line that has no end yet.
    line: Vec<u8>,
    /// The octets after it.
    waiting: Vec<u8>,
    /// The number of these octets that are used up.
    start: usize,
    ghost has_room: { limit < 4294967296 },
    ghost short: { vec_len line ≤ limit + 1 },
    ghost unended: { HasNoLf line.items },
    ghost within: { start ≤ vec_len waiting },
}

impl LineBuffer {
    ghost use Rattle.pb_control_socket.specs.Lines.{held, limit_of, GivesLine, KeepsLine};

    /// Returns an empty buffer, which returns at most `limit + 1` octets of a line.
    pub fn new(alloc: Global, limit: usize) -> LineBuffer
        requires { limit < 2 ^ 32 }
        ensures held { held result ≡ [] }
        ensures limit { limit_of result ≡ limit }
    {
        LineBuffer {
            alloc,
            limit,
            line: Vec::new(alloc),
            waiting: Vec::new(alloc),
            start: 0,
        }
    }

    /// Appends octets.
    ///
    /// # Errors
    ///
    /// `Memory` if an allocation failed. The buffer is unchanged then.
    pub fn put(&mut self, octets: &[u8]) -> Result<(), Memory>
        ensures ok { OnOk result (held self.new ≡ held self.old ++ octets.now) }
        ensures err { OnErr result (held self.new ≡ held self.old) }
        ensures limit { limit_of self.new ≡ limit_of self.old }
    {
        self.waiting.extend_from_slice(octets)?;
        Ok(())
    }

    /// Takes the first whole line, without its LF and cut after `limit + 1` octets. Returns `None` if no LF came yet.
    ///
    /// # Errors
    ///
    /// `Memory` if an allocation for the line failed. What the buffer holds is unchanged then.
    pub fn next_line(&mut self) -> Result<Option<Vec<u8>>, Memory>
        ensures some { IfOk result (λ found.
            IfSome found (λ line. GivesLine (limit_of self.old) (held self.old) line.items (held self.new))) }
        ensures none { IfOk result (λ found.
            IfNone found (KeepsLine (limit_of self.old) (held self.old) (held self.new))) }
        ensures err { OnErr result (held self.new ≡ held self.old) }
        ensures limit { limit_of self.new ≡ limit_of self.old }
    {
        match take_part(&mut self.line, &self.waiting[self.start..], self.limit)? {
            Some(place) => {
                self.start += place + 1;
                let next = Vec::new(self.alloc);
                Ok(Some(mem::replace(&mut self.line, next)))
            }
            None => {
                self.waiting.clear();
                self.start = 0;
                Ok(None)
            }
        }
    }
}
