//! What commands print.

ghost use Rattle.std.specs.Prelude.{◌≡◌, OnOk, IfErr};
ghost use Rattle.std.specs.Io.KnownBytes.{Appends};

use crate::fault::CommandFault;
use std::io::Write;

/// Writes octets to a writer by one `write_all`, and flushes it.
///
/// # Errors
///
/// `Write` if the write or the flush fails. Some of the octets may be written then.
pub fn write_whole<W: Write>(writer: &mut W, octets: &[u8]) -> Result<(), CommandFault>
    ensures ok { OnOk result (Appends (W.contents writer.old) (W.contents writer.new) octets.now) }
    ensures err { IfErr result (λ e. e ≡ CommandFault.Write) }
{
    if writer.write_all(octets).is_err() || writer.flush().is_err() {
        return Err(CommandFault::Write);
    }
    Ok(())
}
