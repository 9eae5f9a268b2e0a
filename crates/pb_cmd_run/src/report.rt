//! The printed report of a run.

ghost use Rattle.std.specs.Prelude.{◌≡◌, ◌≢◌, ◌⊎◌, ◌++◌, List, ℕ, length, string_bytes, IfOk, IfErr, OnOk};
ghost use Rattle.std.specs.Io.KnownBytes.{Appends, Keeps};
ghost use Rattle.pb_lan.specs.Plans.{IsSound};
ghost use Rattle.pb_relay.specs.Settled.{TellsSettled};
ghost use Rattle.pb_cmd_run.specs.Reports.{ended_line, fault_at, fault_lines, memory_line, settled_lines, status_of};
ghost use Rattle.pb_cmd_run.specs.Reports.{IsRunReport};
ghost use Rattle.pb_report.specs.RecordTexts.{IsRecordText};

use pb_frame::Memory;
use pb_lan::{CustomerPlan, Plan};
use pb_messages::{CommandFault, write_whole};
use pb_report::{put_record, put_settled};
use pb_run::{Ended, Last, Ran};
use std::alloc::Global;
use std::io::Write;

/// The exit status of a run whose report has no fault.
const REPORTED: u8 = 0;

/// The exit status of a run whose report has a fault.
const FAULT: u8 = 3;

/// Appends the line that says how a run ended.
fn put_ended(out: &mut String, ended: Ended) -> Result<(), Memory>
    ensures { OnOk result (string_bytes out.new ≡ string_bytes out.old ++ ended_line ended) }
{
    match ended {
        Ended::Drained => out.push_str("ended drained\n")?,
        Ended::Stopped => out.push_str("ended stopped\n")?,
        Ended::Limit => out.push_str("ended limit\n")?,
        Ended::NoMemory => out.push_str("ended memory\n")?,
    }
    Ok(())
}

/// Appends whether the bridges have settled, if this is known.
fn put_settling(out: &mut String, settled: &Result<Option<bool>, Memory>) -> Result<(), Memory>
    ensures { OnOk result (string_bytes out.new ≡ string_bytes out.old ++ settled_lines settled.now) }
{
    match settled {
        Ok(answer) => put_settled(out, *answer),
        Err(_) => Ok(()),
    }
}

/// Appends the line for the fault of a customer port's input, if it has one.
fn put_port_fault(out: &mut String, name: &str, last: Last) -> Result<(), Memory>
    ensures { OnOk result (string_bytes out.new ≡ string_bytes out.old ++ fault_at name.now last) }
{
    if let Last::Fault(fault) = last {
        let number = fault.number();
        writeln!(out, "fault: port {name} {number}")?;
    }
    Ok(())
}

/// Appends a line for each customer port whose input has a fault.
fn put_port_faults(
    out: &mut String,
    customers: &[CustomerPlan],
    lasts: &[Last],
) -> Result<(), Memory>
    requires { length lasts.now ≡ length customers.now }
    ensures { OnOk result (string_bytes out.new ≡ string_bytes out.old ++ fault_lines customers.now lasts.now) }
{
    for (index, customer) in customers.iter().enumerate() {
        put_port_fault(out, customer.name.as_str(), lasts[index])?;
    }
    Ok(())
}

/// Appends the line that an allocation failed in finding whether the bridges have settled, if one did.
fn put_memory_fault(out: &mut String, settled: &Result<Option<bool>, Memory>) -> Result<(), Memory>
    ensures { OnOk result (string_bytes out.new ≡ string_bytes out.old ++ memory_line settled.now) }
{
    match settled {
        Ok(_) => {}
        Err(_) => out.push_str("fault: memory\n")?,
    }
    Ok(())
}

/// Appends the faults of a run, and returns the exit status for them.
fn put_faults(
    out: &mut String,
    customers: &[CustomerPlan],
    lasts: &[Last],
    settled: &Result<Option<bool>, Memory>,
) -> Result<u8, Memory>
    requires { length lasts.now ≡ length customers.now }
    ensures text { OnOk result (string_bytes out.new ≡ string_bytes out.old
        ++ (fault_lines customers.now lasts.now ++ memory_line settled.now)) }
    ensures status { IfOk result (λ status. status
        ≡ status_of (fault_lines customers.now lasts.now ++ memory_line settled.now)) }
{
    let before = out.as_bytes().len();
    put_port_faults(out, customers, lasts)?;
    put_memory_fault(out, settled)?;
    if out.as_bytes().len() == before {
        return Ok(REPORTED);
    }
    Ok(FAULT)
}

/// Appends the report of a run, and returns the exit status.
///
/// # Errors
///
/// `Memory` if an allocation failed.
fn put_run<P>(alloc: Global, out: &mut String, plan: &Plan, ran: &Ran<P>) -> Result<u8, Memory>
    requires sound { IsSound plan.now }
    requires settled { IfOk ran.now.settled (TellsSettled plan.now ran.now.counts) }
    requires count { length ran.now.last.items ≡ length plan.now.customers }
    ensures { IfOk result (λ status. (text : List ℕ) × (string_bytes out.new ≡ string_bytes out.old ++ text)
        × IsRunReport plan.now ran.now.counts ran.now.ended ran.now.settled ran.now.last.items status text) }
{
    put_ended(out, ran.ended)?;
    put_record(alloc, out, plan, &ran.counts)?;
    put_settling(out, &ran.settled)?;
    let customers = plan.customers.as_slice();
    let lasts = ran.last.as_slice();
    let status = put_faults(out, customers, lasts, &ran.settled)?;
    Ok(status)
}

/// Writes the report of a run by one call of `write_all`, and returns the exit status: 3 if the report has a line that
/// begins with `fault:`, else 0.
///
/// The report begins with `ended drained`, `ended stopped`, `ended limit` or `ended memory`. A line `port NAME entered
/// N left N filtered N` for each customer port and a line `link NAME ab taken N lost N ba taken N lost N` for each link
/// follow, both sorted by name. Then comes `forest yes`, or `forest no` and a line `loop NAME` for each service whose
/// active links form a loop. If the spanning tree decides the states of ports, `settled yes` or `settled no` says
/// whether the bridges have converged (IEEE 802.1D-2004 clause 17). The last lines are `fault: port NAME N` for each
/// customer port whose input has a fault, in the order of the plan, and `fault: memory` if an allocation failed in
/// finding whether the bridges have settled.
///
/// # Errors
///
/// `Write` if the write failed. `Memory` if an allocation failed, and then nothing was written.
pub fn write_report<P, W: Write>(
    alloc: Global,
    plan: &Plan,
    ran: &Ran<P>,
    writer: &mut W,
) -> Result<u8, CommandFault>
    requires sound { IsSound plan.now }
    requires settled { IfOk ran.now.settled (TellsSettled plan.now ran.now.counts) }
    requires count { length ran.now.last.items ≡ length plan.now.customers }
    ensures kinds { IfErr result (λ e. (e ≡ CommandFault.Write) ⊎ (e ≡ CommandFault.Memory)) }
    ensures none { IfErr result (λ e. e ≢ CommandFault.Write → Keeps (W.contents writer.old) (W.contents writer.new)) }
    ensures ok { IfOk result (λ status. (text : List ℕ) × Appends (W.contents writer.old) (W.contents writer.new) text
        × IsRunReport plan.now ran.now.counts ran.now.ended ran.now.settled ran.now.last.items status text) }
{
    let mut out = String::new(alloc);
    let status = put_run(alloc, &mut out, plan, ran)?;
    write_whole(writer, out.as_bytes())?;
    Ok(status)
}
