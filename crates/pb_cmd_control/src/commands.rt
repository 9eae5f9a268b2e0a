//! Commands as arguments of a command line.

ghost use Rattle.std.specs.Prelude.{◌≡◌, IfOk, map, true, string_bytes};
ghost use Rattle.pb_cmd_control.specs.Commands.{lines_of_arguments};

use std::alloc::{AllocError, Global};

/// The argument that ends a command.
const END: &str = "--";

/// Returns the commands that these arguments give, one line for each: the arguments of a command with one space between
/// them.
///
/// The argument `--` ends a command. The last command needs none. `down B1 1 -- stop` gives `down B1 1` and `stop`.
///
/// # Errors
///
/// `AllocError` if an allocation failed.
///
/// # Examples
///
/// ```
/// use pb_cmd_control::command_lines;
///
/// let mut arguments = Vec::new(rt.alloc());
/// for word in ["down", "B1", "1", "--", "stop"] {
///     arguments.push(String::from_str(rt.alloc(), word)?)?;
/// }
/// let lines = command_lines(rt.alloc(), &arguments)?;
/// assert_eq!(rt; lines.as_slice(), b"down B1 1\nstop\n".as_slice());
/// ```
pub fn command_lines(alloc: Global, arguments: &[String]) -> Result<Vec<u8>, AllocError>
    ensures { IfOk result (λ lines. lines.items ≡ lines_of_arguments true (map string_bytes arguments.now)) }
{
    let mut lines = Vec::new(alloc);
    let mut begins = true;
    for argument in arguments {
        if argument.as_str() == END {
            lines.push(b'\n')?;
            begins = true;
            continue;
        }
        if !begins {
            lines.push(b' ')?;
        }
        lines.extend_from_slice(argument.as_bytes())?;
        begins = false;
    }
    lines.push(b'\n')?;
    Ok(lines)
}
