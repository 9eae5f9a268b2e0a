//! The command `flat`, over standard input and output.

ghost use Rattle.std.specs.Prelude.{◌≡◌, ◌≤◌, ◌⊎◌};
ghost use Rattle.std.specs.Process.{exit_status};

use crate::telling::tell;
use pb_cmd_flat::{Switch, run_flat_on};
use pb_messages::CommandFault;
use std::io::{BufWriter, Write};
use std::process::ExitCode;
use std::{io, mem};

/// The octets of output that are gathered for a write.
const BUFFER: usize = 65_536;

/// Runs one bridge with so many ports, 2 to 16, over the lines of standard input, as [`run_flat_on`] does. Returns the
/// exit status: 0 at the end of the lines, 3 after a line `fault:`.
pub(crate) fn flat(rt: &(impl Input + Print + AllocGlobal), ports: u8) -> ExitCode
    requires { (2 ≤ ports) × (ports ≤ 16) }
    ensures { (exit_status result ≡ 0) ⊎ (exit_status result ≡ 3) }
{
    let Ok(mut writer) = BufWriter::with_capacity(rt.alloc(), BUFFER, io::writer(rt)) else {
        return tell(rt, CommandFault::Memory);
    };
    let Ok(mut switch) = Switch::new(rt.alloc(), ports) else {
        return tell(rt, CommandFault::Memory);
    };
    let mut reader = rt.reader();
    let ran = run_flat_on(rt.alloc(), &mut switch, &mut reader, &mut writer);
    // The program ends, and all its memory goes back at once.
    mem::forget(switch);
    let flushed = writer.flush();
    match ran {
        Err(fault) => tell(rt, fault),
        Ok(()) if flushed.is_err() => tell(rt, CommandFault::Write),
        Ok(()) => ExitCode::SUCCESS,
    }
}
