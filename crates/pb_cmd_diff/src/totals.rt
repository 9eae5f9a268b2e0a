//! Convergence, and the last line.

ghost use Rattle.std.specs.Prelude.{◌≡◌, ◌++◌, flat_map, count_by, string_bytes, OnOk, IfOk};
ghost use Rattle.std.specs.List.{list_any};
ghost use Rattle.pb_cmd_survive.specs.Reports.{has_converged};
ghost use Rattle.pb_cmd_diff.specs.Reports.{convergence_words, convergence_line, is_nothing, most_ticks};
ghost use Rattle.pb_cmd_diff.specs.Reports.{old_convergence, new_convergence};
ghost use Rattle.pb_cmd_diff.specs.Reports.{ticks_words, ticks_line, verdict_word, count_words, counts_words};
ghost use Rattle.pb_cmd_diff.specs.Reports.{summary_line, failure_line};
ghost use Rattle.pb_cmd_diff.specs.Verdicts.{is_better, is_worse};

use crate::effect::Effect;
use crate::lines::put_case;
use crate::verdict::{is_better, is_worse};
use pb_cmd_survive::{Failure, has_converged, is_converged, ticks_of};
use pb_converge::Convergence;
use pb_frame::Memory;
use pb_lan::Plan;
use std::alloc::Global;

/// Returns whether bridges converge, if that has changed.
fn convergence_words(was: bool, is: bool) -> &'static str
    ensures { result.now ≡ convergence_words was is }
{
    match (was, is) {
        (true, true) | (false, false) => "",
        (true, false) => ": bridges no longer converge\n",
        (false, true) => ": bridges now converge\n",
    }
}

/// Appends a line if the bridges of one plan alone converge under a failure.
pub(crate) fn put_convergence(
    out: &mut String,
    old: &Plan,
    new: &Plan,
    effect: &Effect,
) -> Result<(), Memory>
    ensures { OnOk result (string_bytes out.new ≡ string_bytes out.old ++ convergence_line old.now new.now effect.now) }
{
    let words = convergence_words(is_converged(effect.old), is_converged(effect.new));
    if words.is_empty() {
        return Ok(());
    }
    put_case(out, old, new, effect.what)?;
    out.push_str(words)?;
    Ok(())
}

/// Checks whether nothing fails.
fn is_nothing(failure: Failure) -> bool
    ensures { result ≡ is_nothing failure }
{
    match failure {
        Failure::Nothing => true,
        Failure::Link(_) | Failure::Pair(_, _) | Failure::Bridge(_) => false,
    }
}

/// Returns how the bridges of OLD converged after its failures.
fn old_convergences(alloc: Global, effects: &[Effect]) -> Result<Vec<Convergence>, Memory>
    ensures { IfOk result (λ convergences. convergences.items ≡ flat_map old_convergence effects.now) }
{
    let mut convergences = Vec::new(alloc);
    for effect in effects {
        if !is_nothing(effect.what.old) {
            convergences.push(effect.old)?;
        }
    }
    Ok(convergences)
}

/// Returns how the bridges of NEW converged after its failures.
fn new_convergences(alloc: Global, effects: &[Effect]) -> Result<Vec<Convergence>, Memory>
    ensures { IfOk result (λ convergences. convergences.items ≡ flat_map new_convergence effects.now) }
{
    let mut convergences = Vec::new(alloc);
    for effect in effects {
        if !is_nothing(effect.what.new) {
            convergences.push(effect.new)?;
        }
    }
    Ok(convergences)
}

/// Returns the most ticks of each bridge until they converged.
fn most_ticks(convergences: &[Convergence]) -> u32
    ensures { result ≡ most_ticks convergences.now }
{
    let mut most = 0;
    for convergence in convergences {
        most = most.max(ticks_of(*convergence));
    }
    most
}

/// Checks whether the bridges ticked and converged after some failure.
fn any_converged(convergences: &[Convergence]) -> bool
    ensures { result ≡ list_any has_converged convergences.now }
{
    convergences
        .iter()
        .any(|convergence| has_converged(*convergence))
}

/// Returns the most ticks until bridges converged, or `none`.
fn ticks_words(alloc: Global, convergences: &[Convergence]) -> Result<String, Memory>
    ensures { IfOk result (λ words. string_bytes words ≡ ticks_words convergences.now) }
{
    if any_converged(convergences) {
        let most = most_ticks(convergences);
        return Ok(format!(in alloc; "{most}")?);
    }
    Ok(String::from_str(alloc, "none")?)
}

/// Appends the most ticks until bridges converged, if they differ.
fn put_ticks_of(
    alloc: Global,
    out: &mut String,
    olds: &[Convergence],
    news: &[Convergence],
) -> Result<(), Memory>
    ensures { OnOk result (string_bytes out.new ≡ string_bytes out.old ++ ticks_line olds.now news.now) }
{
    let (before, after) = (ticks_words(alloc, olds)?, ticks_words(alloc, news)?);
    let (before, after) = (before.as_str(), after.as_str());
    if before != after {
        writeln!(out, "most ticks to convergence: {before} -> {after}")?;
    }
    Ok(())
}

/// Appends the most ticks until bridges converged after a failure, if they differ.
pub(crate) fn put_ticks(alloc: Global, out: &mut String, effects: &[Effect]) -> Result<(), Memory>
    ensures { OnOk result (string_bytes out.new ≡ string_bytes out.old
        ++ ticks_line (flat_map old_convergence effects.now) (flat_map new_convergence effects.now)) }
{
    let (olds, news) = (
        old_convergences(alloc, effects)?,
        new_convergences(alloc, effects)?,
    );
    put_ticks_of(alloc, out, olds.as_slice(), news.as_slice())
}

/// Returns how the network has changed, from whether something got better and whether something got worse.
fn verdict_word(better: bool, worse: bool) -> &'static str
    ensures { result.now ≡ verdict_word better worse }
{
    match (better, worse) {
        (true, true) => "better and worse",
        (true, false) => "better",
        (false, true) => "worse",
        (false, false) => "no change",
    }
}

/// Returns under how many failures something got better.
fn count_better(effects: &[Effect]) -> usize
    ensures { result ≡ count_by is_better effects.now }
{
    effects.iter().filter(|effect| is_better(effect)).count()
}

/// Returns under how many failures something got worse.
fn count_worse(effects: &[Effect]) -> usize
    ensures { result ≡ count_by is_worse effects.now }
{
    effects.iter().filter(|effect| is_worse(effect)).count()
}

/// Appends how many of all failures.
fn put_count(out: &mut String, count: usize, all: usize) -> Result<(), Memory>
    ensures { OnOk result (string_bytes out.new ≡ string_bytes out.old ++ count_words count all) }
{
    write!(out, "{count} of {all} failures")?;
    Ok(())
}

/// Appends under how many failures something got better, and worse.
fn put_counts(out: &mut String, effects: &[Effect]) -> Result<(), Memory>
    ensures { OnOk result (string_bytes out.new ≡ string_bytes out.old ++ counts_words effects.now) }
{
    out.push_str("better: ")?;
    put_count(out, count_better(effects), effects.len())?;
    out.push_str("; worse: ")?;
    put_count(out, count_worse(effects), effects.len())?;
    Ok(())
}

/// Appends the last line: under how many failures something got better, and worse, and how the network with nothing
/// down has changed.
pub(crate) fn put_summary(out: &mut String, base: &Effect, effects: &[Effect]) -> Result<(), Memory>
    ensures { OnOk result (string_bytes out.new ≡ string_bytes out.old ++ summary_line base.now effects.now) }
{
    put_counts(out, effects)?;
    out.push_str("; with nothing down: ")?;
    out.push_str(verdict_word(is_better(base), is_worse(base)))?;
    out.push_str("\n")?;
    Ok(())
}

/// Appends how the network has changed under a failure.
pub(crate) fn put_failure_line(
    out: &mut String,
    old: &Plan,
    new: &Plan,
    effect: &Effect,
) -> Result<(), Memory>
    ensures { OnOk result (string_bytes out.new ≡ string_bytes out.old ++ failure_line old.now new.now effect.now) }
{
    put_case(out, old, new, effect.what)?;
    out.push_str(": ")?;
    out.push_str(verdict_word(is_better(effect), is_worse(effect)))?;
    out.push_str("\n")?;
    Ok(())
}
