//! The page.

ghost use Rattle.std.specs.Prelude.{◌≡◌, ◌++◌, List, ℕ, not, count_by, string_bytes, OnOk};
ghost use Rattle.pb_cmd_survive.specs.Impacts.{IsStanding};
ghost use Rattle.pb_cmd_survive.specs.Verdicts.{is_converged, are_forests, disconnects};
ghost use Rattle.pb_lan.specs.Plans.{IsSound};
ghost use Rattle.pb_cmd_report.specs.Changes.{IsCalmPicture};
ghost use Rattle.pb_cmd_report.specs.Failures.{criteria};
ghost use Rattle.pb_cmd_report.specs.Pages.{head_text, counts_text, top_text, failures_table, services_table};
ghost use Rattle.pb_cmd_report.specs.Pages.{sites_table, tables_text, source_text, AreTrees, IsPageTextOn};
ghost use Rattle.pb_cmd_report.specs.Pages.{count_words};
ghost use Rattle.pb_cmd_report.specs.Html.{table_of};
ghost use Rattle.pb_cmd_report.specs.declared.texts.TheConstants.{TREE};

use crate::analysis::Analysis;
use crate::criteria::CRITERIA;
use crate::failures::{put_failure_row, put_failure_rows};
use crate::html::put_escaped;
use crate::picture::put_picture;
use crate::script::SCRIPT;
use crate::services::put_service_rows;
use crate::sites::put_site_rows;
use crate::style::STYLE;
use crate::texts::{
    AFTER_PICTURE, AFTER_PLAN, AFTER_TITLE, BEFORE_PICTURE, BEFORE_PLAN, FAILURES, HEAD, SERVICES,
    SITES, TABLE_END, TITLE, TREE,
};
use crate::trees::{put_given, put_protocol};
use pb_cmd_survive::{Standing, are_forests, disconnects, is_converged};
use pb_frame::Memory;
use pb_lan::{Plan, Spanning};
use std::alloc::Global;

/// Appends all that comes before the counts.
fn put_head(out: &mut String, title: &str) -> Result<(), Memory>
    ensures { OnOk result (string_bytes out.new ≡ string_bytes out.old ++ head_text title.now) }
{
    out.push_str(HEAD)?;
    out.push_str(STYLE)?;
    out.push_str(TITLE)?;
    put_escaped(out, title)?;
    out.push_str(AFTER_TITLE)?;
    Ok(())
}

/// Returns how many failures disconnect a service.
fn count_disconnecting(base: &Analysis, analyses: &[Analysis]) -> usize
    ensures { result ≡ count_by (λ a. disconnects criteria base.now.impact a.impact) analyses.now }
{
    analyses
        .iter()
        .filter(|analysis| disconnects(CRITERIA, &base.impact, &analysis.impact))
        .count()
}

/// Returns how many failures leave a forwarding loop.
fn count_looping(analyses: &[Analysis]) -> usize
    ensures { result ≡ count_by (λ a. not (are_forests a.impact.views)) analyses.now }
{
    analyses
        .iter()
        .filter(|analysis| !are_forests(analysis.impact.views.as_slice()))
        .count()
}

/// Returns after how many failures the bridges do not converge.
fn count_not_converged(analyses: &[Analysis]) -> usize
    ensures { result ≡ count_by (λ a. not (is_converged a.impact.convergence)) analyses.now }
{
    analyses
        .iter()
        .filter(|analysis| !is_converged(analysis.impact.convergence))
        .count()
}

/// Appends what is counted, and its number.
fn put_count(out: &mut String, what: &str, number: usize) -> Result<(), Memory>
    ensures { OnOk result (string_bytes out.new ≡ string_bytes out.old ++ count_words what.now number) }
{
    write!(out, "{what}{number}")?;
    Ok(())
}

/// Appends how many failures were analysed, and how many do which harm.
fn put_counts(out: &mut String, base: &Analysis, analyses: &[Analysis]) -> Result<(), Memory>
    ensures { OnOk result (string_bytes out.new ≡ string_bytes out.old ++ counts_text base.now analyses.now) }
{
    let disconnecting = count_disconnecting(base, analyses);
    let looping = count_looping(analyses);
    let not_converged = count_not_converged(analyses);
    put_count(out, "<p id=\"counts\">Failures analysed: ", analyses.len())?;
    put_count(out, ". With a disconnected service: ", disconnecting)?;
    put_count(out, ". With a forwarding loop: ", looping)?;
    put_count(out, ". Without convergence: ", not_converged)?;
    out.push_str(".</p>\n")?;
    Ok(())
}

/// Appends the picture, with all that comes before it.
fn put_top(
    alloc: Global,
    out: &mut String,
    plan: &Plan,
    title: &str,
    base: &Analysis,
    analyses: &[Analysis],
) -> Result<(), Memory>
    requires { IsSound plan.now }
    ensures { OnOk result ((picture : List ℕ) × (string_bytes out.new ≡ string_bytes out.old
        ++ top_text title.now picture base.now analyses.now)
        × IsCalmPicture plan.now base.now picture) }
{
    put_head(out, title)?;
    put_counts(out, base, analyses)?;
    out.push_str(BEFORE_PICTURE)?;
    put_picture(alloc, out, plan, base)?;
    out.push_str(AFTER_PICTURE)?;
    Ok(())
}

/// Appends the table of failures, the first of which is that nothing is down.
fn put_failures(
    alloc: Global,
    out: &mut String,
    plan: &Plan,
    base: &Analysis,
    analyses: &[Analysis],
) -> Result<(), Memory>
    requires { IsSound plan.now }
    ensures { OnOk result (string_bytes out.new ≡ string_bytes out.old
        ++ failures_table plan.now base.now analyses.now) }
{
    out.push_str(FAILURES)?;
    put_failure_row(alloc, out, plan, &base.impact, base)?;
    put_failure_rows(alloc, out, plan, &base.impact, analyses)?;
    out.push_str(TABLE_END)?;
    Ok(())
}

/// Appends the table of services.
fn put_services(alloc: Global, out: &mut String, plan: &Plan, base: &Analysis) -> Result<(), Memory>
    ensures { OnOk result (string_bytes out.new ≡ string_bytes out.old ++ services_table plan.now base.now) }
{
    out.push_str(SERVICES)?;
    put_service_rows(alloc, out, plan, &base.shape, base.impact.views.as_slice())?;
    out.push_str(TABLE_END)?;
    Ok(())
}

/// Appends the table of sites.
fn put_sites(out: &mut String, plan: &Plan) -> Result<(), Memory>
    ensures { OnOk result (string_bytes out.new ≡ string_bytes out.old ++ sites_table plan.now) }
{
    out.push_str(SITES)?;
    put_site_rows(out, plan)?;
    out.push_str(TABLE_END)?;
    Ok(())
}

/// Appends the rows of the spanning tree with nothing down.
fn put_tree_rows(
    alloc: Global,
    out: &mut String,
    standing: &Standing<'_>,
    base: &Analysis,
) -> Result<(), Memory>
    requires { IsStanding standing.now }
    ensures { OnOk result ((trees : List ℕ) × (string_bytes out.new ≡ string_bytes out.old ++ trees)
        × AreTrees standing.now.plan.now standing.now.names.now standing.now.patience.ticks
        standing.now.patience.events base.now trees) }
{
    let plan = standing.plan;
    match plan.spanning {
        Spanning::Fixed => put_given(out, plan, &base.shape),
        Spanning::Rstp => put_protocol(alloc, out, plan, &standing.calm),
    }
}

/// Appends the table of the spanning tree.
fn put_tree(
    alloc: Global,
    out: &mut String,
    standing: &Standing<'_>,
    base: &Analysis,
) -> Result<(), Memory>
    requires { IsStanding standing.now }
    ensures { OnOk result ((trees : List ℕ) × (string_bytes out.new ≡ string_bytes out.old ++ table_of TREE.now trees)
        × AreTrees standing.now.plan.now standing.now.names.now standing.now.patience.ticks
        standing.now.patience.events base.now trees) }
{
    out.push_str(TREE)?;
    put_tree_rows(alloc, out, standing, base)?;
    out.push_str(TABLE_END)?;
    Ok(())
}

/// Appends the tables.
fn put_tables(
    alloc: Global,
    out: &mut String,
    standing: &Standing<'_>,
    base: &Analysis,
    analyses: &[Analysis],
) -> Result<(), Memory>
    requires { IsStanding standing.now }
    ensures { OnOk result ((trees : List ℕ) × (string_bytes out.new ≡ string_bytes out.old
        ++ tables_text standing.now.plan.now trees base.now analyses.now)
        × AreTrees standing.now.plan.now standing.now.names.now standing.now.patience.ticks
        standing.now.patience.events base.now trees) }
{
    let plan = standing.plan;
    put_failures(alloc, out, plan, base, analyses)?;
    put_services(alloc, out, plan, base)?;
    put_sites(out, plan)?;
    put_tree(alloc, out, standing, base)
}

/// Appends the text of the plan file, and the page's script.
fn put_source(out: &mut String, source: &str) -> Result<(), Memory>
    ensures { OnOk result (string_bytes out.new ≡ string_bytes out.old ++ source_text source.now) }
{
    out.push_str(BEFORE_PLAN)?;
    put_escaped(out, source)?;
    out.push_str(AFTER_PLAN)?;
    out.push_str(SCRIPT)?;
    Ok(())
}

/// Appends the page on a network that is up, from the text about a change, and the analyses of nothing and of each
/// failure.
pub(crate) fn put_page(
    alloc: Global,
    out: &mut String,
    standing: &Standing<'_>,
    title: &str,
    source: &str,
    change: &str,
    base: &Analysis,
    analyses: &[Analysis],
) -> Result<(), Memory>
    requires { IsStanding standing.now }
    ensures { OnOk result ((text : List ℕ) × (string_bytes out.new ≡ string_bytes out.old ++ text)
        × IsPageTextOn standing.now title.now source.now change.now base.now analyses.now text) }
{
    put_top(alloc, out, standing.plan, title, base, analyses)?;
    out.push_str(change)?;
    put_tables(alloc, out, standing, base, analyses)?;
    put_source(out, source)
}
