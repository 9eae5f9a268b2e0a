//! More lines than memory could hold as a list of steps.

use pb_cmd_flat::run_flat;
use std::io;
use std::io::{Read, Write};
use std::test::Fail;

/// The line of a broadcast at port 1.
const LINE: &[u8] = b"in 1 ffffffffffff0200000001010800\n";

/// The length of the line `out 2` or `out 3` with that broadcast.
const ANSWER_OCTETS: u64 = 35;

/// A reader that gives the line again and again, in each call at most the rest of one line.
#[derive(Drop)]
struct Again {
    /// The number of octets that were given.
    given: u64,
    /// The number of octets that are given in all.
    most: u64,
}

impl Read for Again {
    fn read(&mut self, buf: &mut [u8]) -> io::Result<usize> {
        if self.given >= self.most {
            return Ok(0);
        }
        let rest = &LINE[self.given as usize % LINE.len()..];
        let count = rest.len().min(buf.len());
        buf[..count].copy_from_slice(&rest[..count]);
        self.given = self.given.saturating_add(count as u64);
        Ok(count)
    }
}

/// A writer that counts the octets.
#[derive(Drop)]
struct Counter {
    octets: u64,
}

impl Write for Counter {
    fn write(&mut self, buf: &[u8]) -> io::Result<usize> {
        self.octets = self.octets.saturating_add(buf.len() as u64);
        Ok(buf.len())
    }

    fn flush(&mut self) -> io::Result<()> {
        Ok(())
    }
}

#[test]
fn three_million_lines_have_six_million_answers(rt: HostRuntime) -> Result<(), Fail> {
    let mut lines = Again {
        given: 0,
        most: 3_000_000 * LINE.len() as u64,
    };
    let mut answers = Counter { octets: 0 };
    run_flat(rt.alloc(), 3, &mut lines, &mut answers)?;
    assert_eq!(rt; answers.octets, 6_000_000 * ANSWER_OCTETS);
    Ok(())
}
