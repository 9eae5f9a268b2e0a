//! Lines in pieces of any length, and reads that fail.

use pb_lines::{Found, LineFault, LineReader};
use std::alloc::Global;
use std::io;
use std::io::{Error, ErrorKind, Read};
use std::test::Fail;

/// A reader that gives a few octets in each call, and an error in one call.
#[derive(Drop)]
struct Slow<'a> {
    rest: &'a [u8],
    most: usize,
    calls: u64,
    fails_at: u64,
    kind: ErrorKind,
}

impl Read for Slow<'_> {
    fn read(&mut self, buf: &mut [u8]) -> io::Result<usize> {
        let call = self.calls;
        self.calls = self.calls.saturating_add(1);
        if call == self.fails_at {
            return Err(Error::from(self.kind));
        }
        let n = self.rest.len().min(self.most).min(buf.len());
        buf[..n].copy_from_slice(&self.rest[..n]);
        self.rest = &self.rest[n..];
        Ok(n)
    }
}

/// A line, and how it was found.
type Line = (&'static [u8], Found);

/// Returns whether exactly these lines are read, of which `limit` octets and one more are kept.
fn reads(
    alloc: Global,
    reader: &mut Slow<'_>,
    limit: u8,
    wanted: &[Line],
) -> Result<bool, LineFault> {
    let mut lines = LineReader::new(alloc, usize::from(limit))?;
    for line in wanted {
        if !gives(&mut lines, reader, *line)? {
            return Ok(false);
        }
    }
    Ok(true)
}

/// Returns whether the next line is this one.
fn gives(
    lines: &mut LineReader,
    reader: &mut Slow<'_>,
    (line, found): Line,
) -> Result<bool, LineFault> {
    Ok(lines.next(reader)? == found && lines.line() == line)
}

/// A text of several lines, one of them empty and the last without a line feed.
const TEXT: &[u8] = b"one\n\nlonger\r\nlast";

/// The lines of `TEXT`.
const LINES: &[Line] = &[
    (b"one", Found::Line),
    (b"", Found::Line),
    (b"longer\r", Found::Line),
    (b"last", Found::Last),
];

/// Returns whether all lines of `TEXT` are read in pieces of so many octets, if one call fails with this kind of error.
fn reads_text(
    alloc: Global,
    most: usize,
    fails_at: u64,
    kind: ErrorKind,
) -> Result<bool, LineFault> {
    let mut reader = Slow {
        rest: TEXT,
        most,
        calls: 0,
        fails_at,
        kind,
    };
    reads(alloc, &mut reader, 7, LINES)
}

#[test]
fn gives_each_line_in_any_pieces(rt: HostRuntime) {
    for most in 1..20usize {
        for fails_at in 0..25u64 {
            let told = reads_text(rt.alloc(), most, fails_at, ErrorKind::Interrupted);
            assert!(rt; told == Ok(true), "{most} {fails_at}");
        }
    }
}

/// Returns the result of reading `TEXT` in pieces of so many octets, if one call fails.
fn told_of(most: u64, fails_at: u64) -> Result<bool, LineFault> {
    // The end is found in one more call.
    let calls = (TEXT.len() as u64).div_ceil(most.max(1)) + 1;
    if fails_at < calls {
        Err(LineFault::Read)
    } else {
        Ok(true)
    }
}

#[test]
fn tells_a_failed_read_at_each_call(rt: HostRuntime) {
    for most in 1..20usize {
        for fails_at in 0..30u64 {
            let told = reads_text(rt.alloc(), most, fails_at, ErrorKind::BrokenPipe);
            assert!(rt; told == told_of(most as u64, fails_at), "{most} {fails_at}");
        }
    }
}

/// Limits, and the kept part of the line abcd.
const CUT: &[(u8, &[u8])] = &[(0, b"a"), (1, b"ab"), (3, b"abcd"), (4, b"abcd")];

/// Returns whether this part of the line abcd is kept, both times that the line comes, and the next line and the end
/// follow.
fn cuts(alloc: Global, limit: u8, kept: &'static [u8]) -> Result<bool, LineFault> {
    let mut reader = Slow {
        rest: b"abcd\nabcd\nx\n",
        most: 100,
        calls: 0,
        fails_at: 100,
        kind: ErrorKind::Interrupted,
    };
    let wanted = [
        (kept, Found::Line),
        (kept, Found::Line),
        (b"x", Found::Line),
        (b"", Found::End),
    ];
    reads(alloc, &mut reader, limit, &wanted)
}

#[test]
fn cuts_one_octet_past_the_limit(rt: HostRuntime) -> Result<(), Fail> {
    for (limit, kept) in CUT {
        assert!(rt; cuts(rt.alloc(), *limit, kept)?, "{limit}");
    }
    Ok(())
}
