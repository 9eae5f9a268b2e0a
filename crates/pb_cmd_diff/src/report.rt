//! The report on the change from one plan to another.

ghost use Rattle.std.specs.Prelude.{◌≡◌, ◌++◌, flat_map, string_bytes, OnOk};
ghost use Rattle.pb_lan.specs.Numbering.{numbers_from};
ghost use Rattle.pb_lan.specs.Plans.{IsSound};
ghost use Rattle.pb_cmd_diff.specs.Reports.{service_lines, ends_line, convergence_line, body_text, ending, diff_text};
ghost use Rattle.pb_cmd_diff.specs.Reports.{summary_line, failure_line, failure_lines};

use crate::effect::Effect;
use crate::ends::LinkEnds;
use crate::lines::{put_link, put_service};
use crate::totals::{put_convergence, put_failure_line, put_summary, put_ticks};
use pb_frame::Memory;
use pb_lan::Plan;
use pb_plan_diff::put_plan_diff;
use std::alloc::Global;

/// Appends the lines of all services.
fn put_services(
    alloc: Global,
    out: &mut String,
    old: &Plan,
    new: &Plan,
    base: &Effect,
    effects: &[Effect],
) -> Result<(), Memory>
    ensures { OnOk result (string_bytes out.new ≡ string_bytes out.old
        ++ flat_map (service_lines old.now new.now base.now effects.now) (numbers_from 1 base.now.services)) }
{
    for place in 0..base.services.len() {
        put_service(alloc, out, old, new, base, effects, place + 1)?;
    }
    Ok(())
}

/// Appends the lines of all links whose ends differ.
fn put_links(
    alloc: Global,
    out: &mut String,
    old: &Plan,
    new: &Plan,
    olds: &[LinkEnds],
    news: &[LinkEnds],
) -> Result<(), Memory>
    requires old { IsSound old.now }
    requires new { IsSound new.now }
    ensures { OnOk result (string_bytes out.new ≡ string_bytes out.old
        ++ flat_map (ends_line old.now new.now olds.now news.now) (numbers_from 1 old.now.links)) }
{
    for place in 0..old.links.len() {
        put_link(alloc, out, old, new, olds, news, place as u8 + 1)?;
    }
    Ok(())
}

/// Appends the lines of failures under which the bridges of one plan alone converge.
fn put_convergences(
    out: &mut String,
    old: &Plan,
    new: &Plan,
    base: &Effect,
    effects: &[Effect],
) -> Result<(), Memory>
    ensures { OnOk result (string_bytes out.new ≡ string_bytes out.old
        ++ (convergence_line old.now new.now base.now ++ flat_map (convergence_line old.now new.now) effects.now)) }
{
    put_convergence(out, old, new, base)?;
    for effect in effects {
        put_convergence(out, old, new, effect)?;
    }
    Ok(())
}

/// Appends all differences of two plans and of their networks.
fn put_body(
    alloc: Global,
    out: &mut String,
    old: &Plan,
    new: &Plan,
    base: &Effect,
    effects: &[Effect],
    olds: &[LinkEnds],
    news: &[LinkEnds],
) -> Result<(), Memory>
    requires old { IsSound old.now }
    requires new { IsSound new.now }
    ensures { OnOk result (string_bytes out.new ≡ string_bytes out.old
        ++ body_text old.now new.now base.now effects.now olds.now news.now) }
{
    put_plan_diff(alloc, out, old, new)?;
    put_services(alloc, out, old, new, base, effects)?;
    put_links(alloc, out, old, new, olds, news)?;
    put_convergences(out, old, new, base, effects)?;
    put_ticks(alloc, out, effects)?;
    Ok(())
}

/// Appends the line of each failure, if they are asked for.
fn put_failures(
    out: &mut String,
    old: &Plan,
    new: &Plan,
    all: bool,
    effects: &[Effect],
) -> Result<(), Memory>
    ensures { OnOk result (string_bytes out.new ≡ string_bytes out.old
        ++ failure_lines old.now new.now all effects.now) }
{
    if all {
        put_all_failures(out, old, new, effects)
    } else {
        Ok(())
    }
}

/// Appends the line of each failure.
fn put_all_failures(
    out: &mut String,
    old: &Plan,
    new: &Plan,
    effects: &[Effect],
) -> Result<(), Memory>
    ensures { OnOk result (string_bytes out.new ≡ string_bytes out.old
        ++ flat_map (failure_line old.now new.now) effects.now) }
{
    for effect in effects {
        put_failure_line(out, old, new, effect)?;
    }
    Ok(())
}

/// Appends the last line, or that there is no difference if `body` is empty.
fn put_ending(out: &mut String, body: &str, base: &Effect, effects: &[Effect]) -> Result<(), Memory>
    ensures { OnOk result (string_bytes out.new ≡ string_bytes out.old
        ++ ending body.now (summary_line base.now effects.now)) }
{
    if body.is_empty() {
        out.push_str("no difference\n")?;
        return Ok(());
    }
    put_summary(out, base, effects)
}

/// Appends the report on the change from one plan to another, from their networks with nothing down (`base`) and under
/// each failure of either, and from the ends of their links (`olds` and `news`).
///
/// First come the differences of the plans, as [`put_plan_diff`] appends them. Then come, for each service, the groups
/// of customer ports that reached each other and cannot any more, or now reach each other, with nothing down and under
/// each failure; then the links whose ends have another role or state with nothing down, the failures under which the
/// bridges of one plan alone converge, and the most ticks to convergence after a failure if they differ. If `all` is
/// set, each failure has a line that something got better or worse, or that there is no change. The last line counts
/// the failures under which something got better or worse, or is `no difference` if nothing differs.
///
/// # Errors
///
/// `Memory` if an allocation failed. A part of the report may have been appended then.
pub fn put_report(
    alloc: Global,
    out: &mut String,
    old: &Plan,
    new: &Plan,
    base: &Effect,
    effects: &[Effect],
    olds: &[LinkEnds],
    news: &[LinkEnds],
    all: bool,
) -> Result<(), Memory>
    requires old { IsSound old.now }
    requires new { IsSound new.now }
    ensures { OnOk result (string_bytes out.new ≡ string_bytes out.old
        ++ diff_text old.now new.now all base.now effects.now olds.now news.now) }
{
    let mut body = String::new(alloc);
    put_body(alloc, &mut body, old, new, base, effects, olds, news)?;
    out.push_str(body.as_str())?;
    put_failures(out, old, new, all, effects)?;
    put_ending(out, body.as_str(), base, effects)?;
    Ok(())
}
