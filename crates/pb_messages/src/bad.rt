//! Invalid lines.

ghost use Rattle.std.specs.Prelude.{◌≡◌, ◌++◌, string_bytes, OnOk};
ghost use Rattle.pb_messages.specs.BadLines.{bad_line};

use pb_frame::Memory;

/// The most octets of a line that a command reads, without its LF. A longer line is invalid.
pub const MAX_LINE: usize = 140_000;

/// Appends `line N: bad` to a text: the line of this number, from 1, is not a valid line.
///
/// # Errors
///
/// `Memory` if an allocation failed. A part of the message may follow the text then.
pub fn put_bad(out: &mut String, number: u64) -> Result<(), Memory>
    ensures { OnOk result (string_bytes out.new ≡ string_bytes out.old ++ bad_line number) }
{
    writeln!(out, "line {number}: bad")?;
    Ok(())
}
