//! What was checked, and how many failures do which harm.

ghost use Rattle.std.specs.Prelude.{◌≡◌, ◌++◌, ◌&&◌, not, count_by, length, nat_lt, string_bytes, OnOk};
ghost use Rattle.pb_cmd_survive.specs.Reports.{kind_text, checked_line, ticks_of, slowest, has_converged};
ghost use Rattle.pb_cmd_survive.specs.Reports.{ticks_line, all_converged, converge_line, some_line, count_line};
ghost use Rattle.pb_cmd_survive.specs.Reports.{not_disconnecting_line};
ghost use Rattle.pb_cmd_survive.specs.Reports.{disconnecting_line, looping_line, not_converged_line};
ghost use Rattle.pb_cmd_survive.specs.Reports.{totals_text, accepted_line};
ghost use Rattle.pb_cmd_survive.specs.Judgements.{harms, is_accepted_impact};
ghost use Rattle.pb_cmd_survive.specs.Failures.{is_link, is_bridge, is_pair};
ghost use Rattle.pb_cmd_survive.specs.Verdicts.{is_converged, are_forests, disconnects};
ghost use Rattle.std.specs.List.{list_all};

use crate::counted::put_counted;
use crate::criteria::Criteria;
use crate::disconnecting::disconnects;
use crate::failure::Failure;
use crate::impact::Impact;
use crate::judgement::{harms, is_accepted_impact};
use crate::verdict::{are_forests, is_converged};
use pb_accept::Acceptance;
use pb_converge::Convergence;
use pb_frame::Memory;

/// Checks whether one link fails alone.
fn is_link(failure: Failure) -> bool
    ensures { result ≡ is_link failure }
{
    match failure {
        Failure::Link(_) => true,
        Failure::Nothing | Failure::Pair(_, _) | Failure::Bridge(_) => false,
    }
}

/// Checks whether a bridge fails.
pub(crate) fn is_bridge(failure: Failure) -> bool
    ensures { result ≡ is_bridge failure }
{
    match failure {
        Failure::Bridge(_) => true,
        Failure::Nothing | Failure::Pair(_, _) | Failure::Link(_) => false,
    }
}

/// Checks whether two links fail.
pub(crate) fn is_pair(failure: Failure) -> bool
    ensures { result ≡ is_pair failure }
{
    match failure {
        Failure::Pair(_, _) => true,
        Failure::Nothing | Failure::Link(_) | Failure::Bridge(_) => false,
    }
}

/// Returns how many of the failures are those of one link.
fn count_links(impacts: &[Impact]) -> usize
    ensures { result ≡ count_by (λ o. is_link o.failure) impacts.now }
{
    impacts
        .iter()
        .filter(|impact| is_link(impact.failure))
        .count()
}

/// Returns how many of the failures are those of a bridge.
fn count_bridges(impacts: &[Impact]) -> usize
    ensures { result ≡ count_by (λ o. is_bridge o.failure) impacts.now }
{
    impacts
        .iter()
        .filter(|impact| is_bridge(impact.failure))
        .count()
}

/// Returns how many of the failures are those of two links.
fn count_pairs(impacts: &[Impact]) -> usize
    ensures { result ≡ count_by (λ o. is_pair o.failure) impacts.now }
{
    impacts
        .iter()
        .filter(|impact| is_pair(impact.failure))
        .count()
}

/// Appends the number of failures of a kind, if there are any.
fn put_kind(out: &mut String, count: usize, noun: &str) -> Result<(), Memory>
    ensures { OnOk result (string_bytes out.new ≡ string_bytes out.old ++ kind_text count noun.now) }
{
    if count == 0 {
        return Ok(());
    }
    out.push_str(", ")?;
    put_counted(out, count, noun)?;
    Ok(())
}

/// Appends how many failures of each kind were analysed.
fn put_checked(out: &mut String, impacts: &[Impact]) -> Result<(), Memory>
    ensures { OnOk result (string_bytes out.new ≡ string_bytes out.old ++ checked_line impacts.now) }
{
    out.push_str("checked ")?;
    put_counted(out, count_links(impacts), "link")?;
    put_kind(out, count_bridges(impacts), "bridge")?;
    put_kind(out, count_pairs(impacts), "pair")?;
    out.push_str("\n")?;
    Ok(())
}

/// Returns the ticks of each bridge until they converged, or 0 if they did not.
pub fn ticks_of(convergence: Convergence) -> u32
    ensures { result ≡ ticks_of convergence }
{
    match convergence {
        Convergence::Given | Convergence::NotConverged(_) => 0,
        Convergence::Converged(ticks) => ticks,
    }
}

/// Checks whether the bridges ticked and converged.
pub fn has_converged(convergence: Convergence) -> bool
    ensures { result ≡ has_converged convergence }
{
    match convergence {
        Convergence::Given | Convergence::NotConverged(_) => false,
        Convergence::Converged(_) => true,
    }
}

/// Returns the most ticks of each bridge until they converged after a failure.
fn slowest(impacts: &[Impact]) -> u32
    ensures { result ≡ slowest impacts.now }
{
    let mut most = 0;
    for impact in impacts {
        most = most.max(ticks_of(impact.convergence));
    }
    most
}

/// Checks whether the bridges ticked and converged after each failure.
fn each_converged(impacts: &[Impact]) -> bool
    ensures { result ≡ list_all (λ o. has_converged o.convergence) impacts.now }
{
    impacts
        .iter()
        .all(|impact| has_converged(impact.convergence))
}

/// Checks whether something failed, and the bridges ticked and converged after each failure.
fn all_converged(impacts: &[Impact]) -> bool
    ensures { result ≡ all_converged impacts.now }
{
    0 < impacts.len() && each_converged(impacts)
}

/// Appends the most ticks until bridges converged.
fn put_ticks(out: &mut String, ticks: u32) -> Result<(), Memory>
    ensures { OnOk result (string_bytes out.new ≡ string_bytes out.old ++ ticks_line ticks) }
{
    out.push_str("converges within ")?;
    put_counted(out, ticks as usize, "tick")?;
    out.push_str("\n")?;
    Ok(())
}

/// Appends the most ticks until bridges converged, if they did after each failure, and something failed.
fn put_converge(out: &mut String, impacts: &[Impact]) -> Result<(), Memory>
    ensures { OnOk result (string_bytes out.new ≡ string_bytes out.old ++ converge_line impacts.now) }
{
    if all_converged(impacts) {
        put_ticks(out, slowest(impacts))?;
    }
    Ok(())
}

/// Appends how many of all failures do what is said.
fn put_some(out: &mut String, count: usize, all: usize, what: &str) -> Result<(), Memory>
    ensures { OnOk result (string_bytes out.new ≡ string_bytes out.old ++ some_line count all what.now) }
{
    writeln!(out, "{count} of {all} failures {what}")?;
    Ok(())
}

/// Appends how many of all failures do what is said, if any does.
fn put_count(out: &mut String, count: usize, all: usize, what: &str) -> Result<(), Memory>
    ensures { OnOk result (string_bytes out.new ≡ string_bytes out.old ++ count_line count all what.now) }
{
    if count == 0 {
        return Ok(());
    }
    put_some(out, count, all, what)
}

/// Returns how many of the failures are accepted.
fn count_accepted(
    criteria: Criteria,
    acceptances: &[Acceptance],
    base: &Impact,
    impacts: &[Impact],
) -> usize
    ensures { result ≡ count_by (is_accepted_impact criteria acceptances.now base.now) impacts.now }
{
    impacts
        .iter()
        .filter(|impact| is_accepted_impact(criteria, acceptances, base, impact))
        .count()
}

/// Returns how many of the failures disconnect a service and are not accepted.
fn count_disconnecting(
    criteria: Criteria,
    acceptances: &[Acceptance],
    base: &Impact,
    impacts: &[Impact],
) -> usize
    ensures { result ≡ count_by (harms criteria acceptances.now base.now) impacts.now }
{
    impacts
        .iter()
        .filter(|impact| harms(criteria, acceptances, base, impact))
        .count()
}

/// Returns how many of the failures disconnect nothing.
fn count_not_disconnecting(criteria: Criteria, base: &Impact, impacts: &[Impact]) -> usize
    ensures { result ≡ count_by (λ o. not (disconnects criteria base.now o)) impacts.now }
{
    impacts
        .iter()
        .filter(|impact| !disconnects(criteria, base, impact))
        .count()
}

/// Returns how many of the failures leave a service with a forwarding loop.
fn count_looping(impacts: &[Impact]) -> usize
    ensures { result ≡ count_by (λ o. not (are_forests o.views)) impacts.now }
{
    impacts
        .iter()
        .filter(|impact| !are_forests(impact.views.as_slice()))
        .count()
}

/// Returns after how many of the failures the bridges do not converge.
fn count_not_converged(impacts: &[Impact]) -> usize
    ensures { result ≡ count_by (λ o. not (is_converged o.convergence)) impacts.now }
{
    impacts
        .iter()
        .filter(|impact| !is_converged(impact.convergence))
        .count()
}

/// Appends how many failures disconnect nothing.
fn put_not_disconnecting(
    out: &mut String,
    criteria: Criteria,
    base: &Impact,
    impacts: &[Impact],
) -> Result<(), Memory>
    ensures { OnOk result (string_bytes out.new ≡ string_bytes out.old
        ++ not_disconnecting_line criteria base.now impacts.now) }
{
    let count = count_not_disconnecting(criteria, base, impacts);
    put_count(out, count, impacts.len(), "disconnect nothing")
}

/// Appends how many failures are accepted.
fn put_accepted(
    out: &mut String,
    criteria: Criteria,
    acceptances: &[Acceptance],
    base: &Impact,
    impacts: &[Impact],
) -> Result<(), Memory>
    ensures { OnOk result (string_bytes out.new ≡ string_bytes out.old
        ++ accepted_line criteria acceptances.now base.now impacts.now) }
{
    let count = count_accepted(criteria, acceptances, base, impacts);
    put_count(out, count, impacts.len(), "are accepted")
}

/// Appends how many failures disconnect a service and are not accepted.
fn put_disconnecting(
    out: &mut String,
    criteria: Criteria,
    acceptances: &[Acceptance],
    base: &Impact,
    impacts: &[Impact],
) -> Result<(), Memory>
    ensures { OnOk result (string_bytes out.new ≡ string_bytes out.old
        ++ disconnecting_line criteria acceptances.now base.now impacts.now) }
{
    let count = count_disconnecting(criteria, acceptances, base, impacts);
    put_count(out, count, impacts.len(), "disconnect a service")
}

/// Appends how many failures leave a service with a forwarding loop.
fn put_looping(out: &mut String, impacts: &[Impact]) -> Result<(), Memory>
    ensures { OnOk result (string_bytes out.new ≡ string_bytes out.old ++ looping_line impacts.now) }
{
    let count = count_looping(impacts);
    put_count(out, count, impacts.len(), "form a forwarding loop")
}

/// Appends after how many failures the bridges do not converge.
fn put_not_converged_count(out: &mut String, impacts: &[Impact]) -> Result<(), Memory>
    ensures { OnOk result (string_bytes out.new ≡ string_bytes out.old ++ not_converged_line impacts.now) }
{
    let count = count_not_converged(impacts);
    put_count(out, count, impacts.len(), "do not converge")
}

/// Appends what was checked, and how many failures do what.
pub(crate) fn put_totals(
    out: &mut String,
    criteria: Criteria,
    acceptances: &[Acceptance],
    base: &Impact,
    impacts: &[Impact],
) -> Result<(), Memory>
    ensures { OnOk result (string_bytes out.new ≡ string_bytes out.old
        ++ totals_text criteria acceptances.now base.now impacts.now) }
{
    put_checked(out, impacts)?;
    put_not_disconnecting(out, criteria, base, impacts)?;
    put_converge(out, impacts)?;
    put_accepted(out, criteria, acceptances, base, impacts)?;
    put_disconnecting(out, criteria, acceptances, base, impacts)?;
    put_looping(out, impacts)?;
    put_not_converged_count(out, impacts)?;
    Ok(())
}
