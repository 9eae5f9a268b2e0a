//! Makes the control socket of a run.

ghost use Rattle.std.specs.Prelude.{◌≡◌, IfErr};

use crate::network::show;
use crate::network_fault::NetworkFault;
use pb_control_socket::Control;
use pb_frame::Memory;
use pb_printable::put_printable;
use pb_run_control::Steering;
use std::alloc::Global;
use std::fs::{File, Files};
use std::io;
use std::io::Write;
use std::net::Net;
use std::time::Clock;

/// Returns the line for a control socket that can't be made, with the control characters of its path escaped.
///
/// # Errors
///
/// `Memory` if an allocation failed.
fn unmade_line(alloc: Global, path: &str, error: &io::Error) -> Result<String, Memory> {
    let mut line = String::from_str(alloc, "error: cannot create control socket ")?;
    put_printable(&mut line, path)?;
    writeln!(line, ": {error}")?;
    Ok(line)
}

/// Writes a line to `errors` that the control socket can't be made. It is left out if an allocation fails.
fn show_unmade<E: Write>(alloc: Global, path: &str, error: &io::Error, errors: &mut E) {
    if let Ok(line) = unmade_line(alloc, path, error) {
        show(line.as_str(), errors);
    }
}

/// Makes the control socket of a run, if the settings ask for one.
///
/// # Errors
///
/// `Path` if it can't be made, with a line in `errors`.
pub(crate) fn plug<R: Files<File = File> + Net + Clock, G, E: Write>(
    rt: &R,
    alloc: Global,
    path: Option<&str>,
    steering: &Steering<'_, G>,
    errors: &mut E,
) -> Result<(), NetworkFault>
    ensures { IfErr result (λ e. e ≡ NetworkFault.Path) }
{
    let Some(path) = path else {
        return Ok(());
    };
    match Control::open(rt, alloc, path) {
        Ok(control) => {
            steering.plug(control);
            Ok(())
        }
        Err(e) => {
            show_unmade(alloc, path, &e, errors);
            Err(NetworkFault::Path)
        }
    }
}
