//! The reply to `help`.

ghost use Rattle.std.specs.Prelude.{◌≡◌, ◌++◌, string_bytes, OnOk};
ghost use Rattle.pb_control_socket.specs.Texts.{help_text};

use pb_frame::Memory;

/// A line for each request.
const HELP: &str = "\
stop             end the run and print its report\n\
counts           frames that entered, left and found a full queue; peers\n\
tree             role and state of each port between bridges\n\
drops            frames that were dropped, by bridge, port and reason\n\
stations BRIDGE  stations that a bridge has learnt, with port and age\n\
down NAME        disable a link, a bridge or a port BRIDGE:PORT\n\
up NAME          enable it again\n\
help             print these lines\n\
";

/// Appends a line for each request.
///
/// # Errors
///
/// `Memory` if an allocation failed.
pub(crate) fn put_help(out: &mut String) -> Result<(), Memory>
    ensures { OnOk result (string_bytes out.new ≡ string_bytes out.old ++ help_text) }
{
    out.push_str(HELP)?;
    Ok(())
}
