//! The frames that a run could not write.

ghost use Rattle.std.specs.Prelude.{◌≡◌, ◌++◌, length, map, string_bytes, OnOk};
ghost use Rattle.pb_run_losses.specs.Unwritten.{unwritten_line, unwritten_lines};

use pb_frame::Memory;
use pb_history::Tally;
use pb_lan::CustomerPlan;
use pb_port::Port;

/// Appends the line for the unwritten frames of a customer port. A count of 0 has no line.
fn put_count(out: &mut String, name: &str, count: u64) -> Result<(), Memory>
    ensures { OnOk result (string_bytes out.new ≡ string_bytes out.old ++ unwritten_line name.now count) }
{
    if count != 0 {
        writeln!(out, "port {name}: {count} frames not written")?;
    }
    Ok(())
}

/// Appends a line `port NAME: N frames not written` for each customer port, in the order of the plan.
///
/// The count is of the frames that the port took and still holds and those that came to it after a write had failed. A
/// count of 0 has no line.
///
/// # Errors
///
/// `Memory` if an allocation failed.
pub(crate) fn put_unwritten<P: Port>(
    out: &mut String,
    customers: &[CustomerPlan],
    ports: &[P],
    tallies: &[Tally],
) -> Result<(), Memory>
    requires ports { length ports.now ≡ length customers.now }
    requires tallies { length tallies.now ≡ length customers.now }
    ensures { OnOk result (string_bytes out.new ≡ string_bytes out.old
        ++ unwritten_lines customers.now (map P.waiting ports.now) tallies.now) }
{
    for (index, customer) in customers.iter().enumerate() {
        let unsent = ports[index].unsent().len() as u64;
        let gone = tallies[index].gone();
        put_count(out, customer.name.as_str(), unsent.saturating_add(gone))?;
    }
    Ok(())
}
