//! The last lines of replies.

ghost use Rattle.std.specs.Prelude.{◌≡◌, ◌++◌, string_bytes, OnOk};
ghost use Rattle.pb_control_socket.specs.Texts.{ok_line, bad_line, no_answer_line};

use pb_frame::Memory;

/// Appends the line `ok`.
///
/// # Errors
///
/// `Memory` if an allocation failed.
pub(crate) fn put_ok(out: &mut String) -> Result<(), Memory>
    ensures { OnOk result (string_bytes out.new ≡ string_bytes out.old ++ ok_line) }
{
    writeln!(out, "ok")?;
    Ok(())
}

/// Appends the line `bad`.
///
/// # Errors
///
/// `Memory` if an allocation failed.
pub(crate) fn put_bad(out: &mut String) -> Result<(), Memory>
    ensures { OnOk result (string_bytes out.new ≡ string_bytes out.old ++ bad_line) }
{
    writeln!(out, "bad")?;
    Ok(())
}

/// Appends the line `no answer`.
///
/// # Errors
///
/// `Memory` if an allocation failed.
pub(crate) fn put_no_answer(out: &mut String) -> Result<(), Memory>
    ensures { OnOk result (string_bytes out.new ≡ string_bytes out.old ++ no_answer_line) }
{
    writeln!(out, "no answer")?;
    Ok(())
}
