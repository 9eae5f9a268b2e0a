//! The loss report of a run.

ghost use Rattle.std.specs.Prelude.{◌≡◌, ◌++◌, false, length, map, string_bytes, IfOk, OnOk};
ghost use Rattle.pb_lan.specs.Plans.{IsSound};
ghost use Rattle.pb_run_losses.specs.Drops.{drops_text};
ghost use Rattle.pb_run_losses.specs.Strict.{is_whole, lost_text, unsettled_line};

use crate::drops::put_drops;
use crate::losses::put_losses;
use crate::unwritten::put_unwritten;
use pb_frame::Memory;
use pb_history::Tallies;
use pb_lan::Plan;
use pb_port::Port;
use pb_run::Ended;
use std::alloc::Global;

/// Appends the line that the bridges have not converged, if they have not.
fn put_unsettled(out: &mut String, settled: &Result<Option<bool>, Memory>) -> Result<(), Memory>
    ensures { OnOk result (string_bytes out.new ≡ string_bytes out.old ++ unsettled_line settled.now) }
{
    match settled {
        Ok(Some(false)) => out.push_str("bridges not converged\n")?,
        _ => {}
    }
    Ok(())
}

/// Returns the loss report of a run, which is empty if nothing was lost.
///
/// Each customer port has a line `port NAME: N frames not written`, which counts the frames that its port took and
/// still holds and those that came to it after a write had failed. The lines of [`put_losses`] follow, and those of
/// [`put_drops`] for dropped frames that are lost. The last line is `bridges not converged` if the bridges decide the
/// states of ports and have not converged (IEEE 802.1D-2004 clause 17). A count of 0 has no line.
///
/// # Errors
///
/// `Memory` if an allocation failed.
pub fn lost_of<P: Port>(
    alloc: Global,
    plan: &Plan,
    ports: &[P],
    counts: &Tallies,
    settled: &Result<Option<bool>, Memory>,
) -> Result<String, Memory>
    requires sound { IsSound plan.now }
    requires ports { length ports.now ≡ length plan.now.customers }
    requires lists { length counts.now.customers ≡ length plan.now.customers }
    ensures { IfOk result (λ text. string_bytes text
        ≡ lost_text plan.now counts.now settled.now (map P.waiting ports.now)) }
{
    let mut out = String::new(alloc);
    let customers = plan.customers.as_slice();
    put_unwritten(&mut out, customers, ports, counts.customers())?;
    put_losses(&mut out, plan, counts)?;
    put_drops(&mut out, plan, counts, true)?;
    put_unsettled(&mut out, settled)?;
    Ok(out)
}

/// Returns the counts of dropped frames that are no losses, as [`put_drops`] writes them. It is empty if there are
/// none.
///
/// # Errors
///
/// `Memory` if an allocation failed.
pub fn dropped_of(alloc: Global, plan: &Plan, counts: &Tallies) -> Result<String, Memory>
    requires { IsSound plan.now }
    ensures { IfOk result (λ text. string_bytes text ≡ drops_text plan.now counts.now false) }
{
    let mut out = String::new(alloc);
    put_drops(&mut out, plan, counts, false)?;
    Ok(out)
}

/// Returns whether a run has drained and its loss report is empty.
pub fn is_whole(ended: Ended, lost: &str) -> bool
    ensures { result ≡ is_whole ended lost.now }
{
    ended == Ended::Drained && lost.is_empty()
}
