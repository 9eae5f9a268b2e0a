//! The command `show`.

ghost use Rattle.std.specs.Prelude.{◌≡◌, OnOk, IfErr};
ghost use Rattle.std.specs.Io.KnownBytes.{Appends};
ghost use Rattle.pb_cmd_check.specs.Shows.{fate_lines};

use pb_messages::{CommandFault, write_whole};
use std::io::Write;

/// A line for each reserved address: the address, and how a bridge handles frames for it.
const FATES: &str = "\
01-80-C2-00-00-00 carry\n\
01-80-C2-00-00-01 filter\n\
01-80-C2-00-00-02 filter\n\
01-80-C2-00-00-03 filter\n\
01-80-C2-00-00-04 filter\n\
01-80-C2-00-00-05 filter\n\
01-80-C2-00-00-06 filter\n\
01-80-C2-00-00-07 filter\n\
01-80-C2-00-00-08 provider\n\
01-80-C2-00-00-09 filter\n\
01-80-C2-00-00-0A filter\n\
01-80-C2-00-00-0B carry\n\
01-80-C2-00-00-0C carry\n\
01-80-C2-00-00-0D carry\n\
01-80-C2-00-00-0E filter\n\
01-80-C2-00-00-0F carry\n";

/// Writes how a bridge handles frames for the addresses 01-80-C2-00-00-00 to -0F (IEEE 802.1Q clause 8, reserved
/// addresses of an S-VLAN component). The text has sixteen lines, each with an address and `carry`, `filter` or
/// `provider`. Nothing is allocated.
///
/// # Errors
///
/// `Write` if the write failed. There are no other errors.
pub fn run_show<W: Write>(writer: &mut W) -> Result<(), CommandFault>
    ensures ok { OnOk result (Appends (W.contents writer.old) (W.contents writer.new) fate_lines) }
    ensures err { IfErr result (λ e. e ≡ CommandFault.Write) }
{
    write_whole(writer, FATES.as_bytes())
}
