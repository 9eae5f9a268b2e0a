//! Octets that arrive in pieces, and the lines in them.

use pb_control_socket::LineBuffer;
use pb_frame::Memory;
use std::alloc::Global;
use std::test::Fail;

/// The limit of the buffers of these tests.
const LIMIT: usize = 4;

/// Pieces that are put one after the other, and the lines that are returned, each ended by a `|`. A `,` follows each
/// piece.
const ROWS: &[(&[&str], &str)] = &[
    (&[], ""),
    (&[""], ","),
    (&["ab"], ","),
    (&["ab\n"], "ab|,"),
    (&["\n"], "|,"),
    (&["\n\n\n"], "|||,"),
    (&["ab\ncd\ne"], "ab|cd|,"),
    (&["a", "b", "\n", "c", "\n"], ",,ab|,,c|,"),
    (&["ab\nc", "d\n"], "ab|,cd|,"),
    (&["ab\r\n\0\n"], "ab\r|\0|,"),
    (&["abcd\n"], "abcd|,"),
    (&["abcde\n"], "abcde|,"),
    (&["abcdef\ngh\n"], "abcde|gh|,"),
    (&["ab", "cd", "ef", "gh", "\n", "i\n"], ",,,,abcde|,i|,"),
    (&["abcdefghijklmnop", "q\nr\n"], ",abcde|r|,"),
    (&["abcdefghij\nabcdefghij\n"], "abcde|abcde|,"),
];

/// Appends the lines that are whole. Returns whether they came to an end and each was short enough.
fn take(lines: &mut LineBuffer, out: &mut Vec<u8>) -> Result<bool, Memory> {
    for _ in 0..100u32 {
        let Some(line) = lines.next_line()? else {
            out.push(b',')?;
            return Ok(true);
        };
        if line.len() > LIMIT + 1 {
            return Ok(false);
        }
        out.extend_from_slice(line.as_slice())?;
        out.push(b'|')?;
    }
    Ok(false)
}

/// Checks whether pieces give these lines.
fn are_cut(alloc: Global, pieces: &[&str], want: &str) -> Result<bool, Memory> {
    let mut lines = LineBuffer::new(alloc, LIMIT);
    let mut out = Vec::new(alloc);
    for piece in pieces {
        lines.put(piece.as_bytes())?;
        if !take(&mut lines, &mut out)? {
            return Ok(false);
        }
    }
    Ok(out.as_slice() == want.as_bytes())
}

#[test]
fn lines_come_whole(rt: HostRuntime) -> Result<(), Fail> {
    for (number, (pieces, want)) in ROWS.iter().enumerate() {
        assert!(rt; are_cut(rt.alloc(), pieces, want)?, "row {number}: {want}");
    }
    Ok(())
}
