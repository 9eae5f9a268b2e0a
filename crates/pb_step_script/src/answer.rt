//! The printed text of a step.

ghost use Rattle.std.specs.Prelude.{◌≡◌, ◌++◌, ◌==◌, not, string_bytes, OnOk};
ghost use Rattle.std.specs.List.{list_any};
ghost use Rattle.pb_frame.specs.Hex.{hex_text as hex_of};
ghost use Rattle.pb_step_script.specs.Answers.{copied, idle_line, no_such_line, outcome_words, place_name, port_words};
ghost use Rattle.pb_step_script.specs.Answers.{refused_words, step_line, step_words};

use pb_frame::{Memory, hex_text, index_of};
use pb_lan::{NoRoom, Outcome, Place, Plan, Step};
use pb_messages::put_reason;
use std::alloc::Global;

/// Returns whether a port got no copy.
fn is_refused(port: u8, refused: &[(u8, NoRoom)]) -> bool
    ensures { result ≡ list_any (λ r. r.0 == port) refused.now }
{
    refused.iter().any(|r| r.0 == port)
}

/// Appends the chosen ports that got a copy.
fn put_ports(out: &mut String, chosen: &[u8], refused: &[(u8, NoRoom)]) -> Result<(), Memory>
    ensures { OnOk result (string_bytes out.new ≡ string_bytes out.old ++ port_words (copied refused.now chosen.now)) }
{
    for port in chosen {
        if !is_refused(*port, refused) {
            write!(out, " {port}")?;
        }
    }
    Ok(())
}

/// Appends each port that got no copy, with the reason: its queue was full, or an allocation failed.
fn put_refused(out: &mut String, refused: &[(u8, NoRoom)]) -> Result<(), Memory>
    ensures { OnOk result (string_bytes out.new ≡ string_bytes out.old ++ refused_words refused.now) }
{
    for (port, room) in refused {
        match room {
            NoRoom::Full => write!(out, " full {port}")?,
            NoRoom::Memory => write!(out, " memory {port}")?,
        }
    }
    Ok(())
}

/// Appends the outcome of a received frame.
fn put_outcome(out: &mut String, outcome: &Outcome) -> Result<(), Memory>
    ensures { OnOk result (string_bytes out.new ≡ string_bytes out.old ++ outcome_words outcome.now) }
{
    match outcome {
        Outcome::Relayed { chosen, refused } => {
            out.push_str("relayed")?;
            let (chosen, refused) = (chosen.list(), refused.list());
            put_ports(out, chosen.as_slice(), refused.as_slice())?;
            put_refused(out, refused.as_slice())
        }
        Outcome::Filtered(reason) => {
            out.push_str("filtered ")?;
            put_reason(out, *reason)
        }
        Outcome::Heard => {
            out.push_str("heard")?;
            Ok(())
        }
    }
}

/// Appends a frame in hexadecimal.
fn put_hex(alloc: Global, out: &mut String, octets: &[u8]) -> Result<(), Memory>
    ensures { OnOk result (string_bytes out.new ≡ string_bytes out.old ++ hex_of octets.now) }
{
    let hex = hex_text(alloc, octets)?;
    out.push_str(hex.as_str())?;
    Ok(())
}

/// Appends the text of a step. `name` is that of the customer port that took it, and else not used.
fn put_step(alloc: Global, out: &mut String, name: &str, step: &Step) -> Result<(), Memory>
    ensures { OnOk result (string_bytes out.new ≡ string_bytes out.old ++ step_words name.now step.now) }
{
    match step {
        Step::Poll { item } => {
            let number = match item.mark {
                Some(mark) => mark.number.get(),
                None => 0,
            };
            write!(out, "polled {name} {number}")?;
        }
        Step::Feed { .. } => out.push_str("fed")?,
        Step::Deliver { item, .. } => {
            out.push_str("delivered ")?;
            put_hex(alloc, out, item.wire.as_slice())?;
        }
        Step::Receive { outcome, .. } => put_outcome(out, outcome)?,
        Step::Transmit { item, .. } => {
            out.push_str("sent ")?;
            put_hex(alloc, out, item.wire.as_slice())?;
        }
        Step::Tick { .. } => out.push_str("ticked")?,
        Step::Admin { .. } => out.push_str("set")?,
        Step::Take {
            number,
            lost: true,
            ..
        } => write!(out, "lost {number}")?,
        Step::Take { number, .. } => write!(out, "taken {number}")?,
        Step::Put { .. } => out.push_str("put")?,
    }
    Ok(())
}

/// Returns the name of a customer port, or the empty text for another place or an unknown number.
fn name_at(plan: &Plan, place: Place) -> &str
    ensures { result.now ≡ place_name plan.now place }
{
    let Place::Customer(number) = place else {
        return "";
    };
    if number == 0 {
        return "";
    }
    match plan.customers.as_slice().get(index_of(number)) {
        Some(customer) => customer.name.as_str(),
        None => "",
    }
}

/// Appends the line of the step that a place took.
///
/// The line is `polled NAME K`, `fed`, `delivered HEX`, `sent HEX`, `ticked`, `set`, `taken K`, `lost K` or `put`. For
/// a frame that a bridge received it is `relayed` with the ports that got a copy, followed by ` full Q` or ` memory Q`
/// for each chosen port that got none; `filtered REASON`; or `heard`.
///
/// # Errors
///
/// `Memory` if an allocation failed.
pub fn put_done(
    alloc: Global,
    out: &mut String,
    plan: &Plan,
    place: Place,
    step: &Step,
) -> Result<(), Memory>
    ensures { OnOk result (string_bytes out.new ≡ string_bytes out.old ++ step_line plan.now place step.now) }
{
    put_step(alloc, out, name_at(plan, place), step)?;
    writeln!(out)?;
    Ok(())
}

/// Appends the line `idle`: the event had nothing to do.
///
/// # Errors
///
/// `Memory` if an allocation failed.
pub fn put_idle(out: &mut String) -> Result<(), Memory>
    ensures { OnOk result (string_bytes out.new ≡ string_bytes out.old ++ idle_line) }
{
    writeln!(out, "idle")?;
    Ok(())
}

/// Appends the line `no such`: the plan lacks the part that the script line names.
///
/// # Errors
///
/// `Memory` if an allocation failed.
pub fn put_no_such(out: &mut String) -> Result<(), Memory>
    ensures { OnOk result (string_bytes out.new ≡ string_bytes out.old ++ no_such_line) }
{
    writeln!(out, "no such")?;
    Ok(())
}
