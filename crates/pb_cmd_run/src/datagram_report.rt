//! The lines about what ports for datagrams dropped.

ghost use Rattle.std.specs.Prelude.{◌≡◌, ◌++◌, List, ℕ, string_bytes, OnOk};
ghost use Rattle.pb_cmd_run.specs.DatagramReports.{count_line, failed_line, refusal_word, refused_line, refused_lines};

use crate::datagram_drops::DatagramDrops;
use crate::telling::name_at;
use pb_datagram::{Drops, Refusal, Refusals, SystemError};
use pb_frame::Memory;
use pb_lan::CustomerPlan;
use pb_messages::write_whole;
use std::alloc::Global;
use std::io::Write;

/// Returns the word for the reason of a refusal.
fn word_of(reason: Refusal) -> &'static str
    ensures { result.now ≡ refusal_word reason }
{
    match reason {
        Refusal::OtherSender => "other-sender",
        Refusal::ShortHeader => "short-header",
        Refusal::UnsetFlag => "unset-flag",
        Refusal::OtherNetwork => "other-network",
        Refusal::ShortFrame => "short-frame",
    }
}

/// Appends a line about so many things of a port.
fn put_count(out: &mut String, name: &str, count: u64, what: &str, why: &str) -> Result<(), Memory>
    ensures { OnOk result (string_bytes out.new ≡ string_bytes out.old ++ count_line name.now count what.now why.now) }
{
    writeln!(out, "port {name}: {count} {what}: {why}")?;
    Ok(())
}

/// Appends a line about so many datagrams that a port refused for a reason, if there are any.
fn put_refused(out: &mut String, name: &str, count: u64, reason: Refusal) -> Result<(), Memory>
    ensures { OnOk result (string_bytes out.new ≡ string_bytes out.old ++ refused_line name.now count reason) }
{
    if count == 0 {
        return Ok(());
    }
    put_count(out, name, count, "datagrams dropped", word_of(reason))
}

/// Appends the lines about all datagrams that a port refused.
fn put_all_refused(out: &mut String, name: &str, counts: Refusals) -> Result<(), Memory>
    ensures { OnOk result (string_bytes out.new ≡ string_bytes out.old ++ refused_lines name.now counts) }
{
    put_refused(out, name, counts.other_sender, Refusal::OtherSender)?;
    put_refused(out, name, counts.short_header, Refusal::ShortHeader)?;
    put_refused(out, name, counts.unset_flag, Refusal::UnsetFlag)?;
    put_refused(out, name, counts.other_network, Refusal::OtherNetwork)?;
    put_refused(out, name, counts.short_frame, Refusal::ShortFrame)
}

/// Appends a line about failed calls of a port's socket, if there is an error.
fn put_failed(
    alloc: Global,
    out: &mut String,
    name: &str,
    count: u64,
    what: &str,
    error: Option<SystemError>,
) -> Result<(), Memory>
    ensures { OnOk result ((why : List ℕ) × (string_bytes out.new
        ≡ string_bytes out.old ++ failed_line name.now count what.now error why)) }
{
    match error {
        Some(error) => {
            let why = format!(in alloc; "{error}")?;
            put_count(out, name, count, what, why.as_str())
        }
        None => Ok(()),
    }
}

/// Appends the lines about what a port dropped.
fn put_drops(alloc: Global, out: &mut String, name: &str, drops: Drops) -> Result<(), Memory> {
    let (sends, receives) = (drops.failed_sends, drops.failed_receives);
    put_failed(alloc, out, name, sends, "frames not sent", drops.send_error)?;
    put_all_refused(out, name, drops.refusals)?;
    put_failed(
        alloc,
        out,
        name,
        receives,
        "receives failed",
        drops.receive_error,
    )
}

/// Appends the lines of all ports.
fn put_all_drops(
    alloc: Global,
    out: &mut String,
    customers: &[CustomerPlan],
    drops: &DatagramDrops,
) -> Result<(), Memory> {
    for (place, port) in drops.ports().iter().enumerate() {
        put_drops(alloc, out, name_at(customers, place), port.counts())?;
    }
    Ok(())
}

/// Writes to `errors` what ports for datagrams dropped, in the order of the plan: `port NAME: N frames not sent: WHY`,
/// `port NAME: N datagrams dropped: REASON` and `port NAME: N receives failed: WHY`. WHY is the newest error of the
/// system. A failed write or allocation is ignored.
pub(crate) fn show_datagram_drops<E: Write>(
    alloc: Global,
    customers: &[CustomerPlan],
    drops: &DatagramDrops,
    errors: &mut E,
) {
    let mut out = String::new(alloc);
    if put_all_drops(alloc, &mut out, customers, drops).is_ok() && !out.is_empty() {
        let _ = write_whole(errors, out.as_bytes());
    }
}
