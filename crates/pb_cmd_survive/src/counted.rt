//! Numbers with their nouns.

ghost use Rattle.std.specs.Prelude.{◌≡◌, ◌++◌, string_bytes, OnOk};
ghost use Rattle.pb_cmd_survive.specs.Reports.{counted, plural};

use pb_frame::Memory;

/// Returns the ending of a noun after a number: an `s` unless the number is 1.
fn plural(number: usize) -> &'static str
    ensures { result.now ≡ plural number }
{
    if number == 1 { "" } else { "s" }
}

/// Appends a number and a noun, which has an `s` unless the number is 1.
pub(crate) fn put_counted(out: &mut String, number: usize, noun: &str) -> Result<(), Memory>
    ensures { OnOk result (string_bytes out.new ≡ string_bytes out.old ++ counted number noun.now) }
{
    let ending = plural(number);
    write!(out, "{number} {noun}{ending}")?;
    Ok(())
}
