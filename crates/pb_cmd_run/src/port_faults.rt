//! The faults of ports in words.

ghost use Rattle.std.specs.Prelude.{◌≡◌, ◌++◌, length, string_bytes, OnOk};
ghost use Rattle.std.specs.Io.KnownBytes.{Appends};
ghost use Rattle.pb_cmd_run.specs.PortFaults.{is_capture, words_of, words_line, words_at, words_lines};

use crate::completing::CaptureFiles;
use pb_frame::Memory;
use pb_lan::{CustomerPlan, Plan};
use pb_messages::{CommandFault, write_whole};
use pb_port::PortFault;
use pb_run::Last;
use std::alloc::Global;
use std::io::Write;

/// The words for a frame of a socket that is too long.
const LONG_FRAME: &str =
    "length above 65,535: does the peer write the octets of length that `framing` says?";

/// Returns the words for a fault of a port, over captures or over a socket.
fn words_of(is_capture: bool, fault: PortFault) -> &'static str
    ensures { result.now ≡ words_of is_capture fault }
{
    match fault {
        PortFault::Oversize if !is_capture => LONG_FRAME,
        PortFault::Magic => "not a capture",
        PortFault::Version => "capture version is not 2.4",
        PortFault::LinkType => "link type of the capture is not Ethernet",
        PortFault::Truncated => "input ends within a header, record or frame",
        PortFault::Oversize => "record of more than 262,144 octets",
        PortFault::Read => "read failed",
        PortFault::Write => "write failed",
        PortFault::Memory => "an allocation failed",
    }
}

/// Appends the line with a port's name and its fault.
fn put_words(out: &mut String, name: &str, is_capture: bool, fault: PortFault) -> Result<(), Memory>
    ensures { OnOk result (string_bytes out.new ≡ string_bytes out.old ++ words_line name.now is_capture fault) }
{
    let words = words_of(is_capture, fault);
    writeln!(out, "port {name}: {words}")?;
    Ok(())
}

/// Appends the line for the newest poll of a port, if that was a fault.
fn put_words_at(out: &mut String, name: &str, is_capture: bool, last: Last) -> Result<(), Memory>
    ensures { OnOk result (string_bytes out.new ≡ string_bytes out.old ++ words_at name.now is_capture last) }
{
    match last {
        Last::Fault(fault) => put_words(out, name, is_capture, fault),
        Last::More | Last::End => Ok(()),
    }
}

/// Returns whether the port at a place of the plan, from 0, has capture files among these.
fn is_capture(files: &[CaptureFiles], place: usize) -> bool
    ensures { result ≡ is_capture files.now place }
{
    files.iter().any(|captures| captures.place == place)
}

/// Appends a line for each customer port whose newest poll was a fault.
fn put_all_words(
    out: &mut String,
    customers: &[CustomerPlan],
    files: &[CaptureFiles],
    lasts: &[Last],
) -> Result<(), Memory>
    requires { length lasts.now ≡ length customers.now }
    ensures { OnOk result (string_bytes out.new ≡ string_bytes out.old
        ++ words_lines files.now 0 customers.now lasts.now) }
{
    for (place, customer) in customers.iter().enumerate() {
        let is_capture = is_capture(files, place);
        put_words_at(out, customer.name.as_str(), is_capture, lasts[place])?;
    }
    Ok(())
}

/// Writes `port NAME: WORDS` for each customer port whose newest poll was a fault, in the order of the plan, by one
/// call of `write_all`. The ports over captures have these files.
///
/// # Errors
///
/// `Write` if the write failed, `Memory` if an allocation failed.
pub(crate) fn write_port_faults<W: Write>(
    alloc: Global,
    customers: &[CustomerPlan],
    files: &[CaptureFiles],
    lasts: &[Last],
    writer: &mut W,
) -> Result<(), CommandFault>
    requires { length lasts.now ≡ length customers.now }
    ensures { OnOk result (Appends (W.contents writer.old) (W.contents writer.new)
        (words_lines files.now 0 customers.now lasts.now)) }
{
    let mut out = String::new(alloc);
    put_all_words(&mut out, customers, files, lasts)?;
    write_whole(writer, out.as_bytes())
}

/// Writes the lines of [`write_port_faults`] after a run. A failed write or allocation is ignored.
pub(crate) fn show_port_faults<E: Write>(
    alloc: Global,
    plan: &Plan,
    files: &[CaptureFiles],
    lasts: &[Last],
    errors: &mut E,
)
    requires { length lasts.now ≡ length plan.now.customers }
{
    let customers = plan.customers.as_slice();
    let _ = write_port_faults(alloc, customers, files, lasts, errors);
}
