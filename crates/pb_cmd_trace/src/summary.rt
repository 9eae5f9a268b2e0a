//! The summary of all frames, in one line.

ghost use Rattle.std.specs.Prelude.{◌≡◌, ◌≤◌, ◌*◌, ◌^◌, ◌++◌, length, sum_by, string_bytes, OnOk};
ghost use Rattle.std.specs.List.{list_any};
ghost use Rattle.pb_lan.specs.Plans.{IsSound};
ghost use Rattle.pb_lan.specs.Records.{steps_of};
ghost use Rattle.pb_cmd_trace.specs.Summaries.{counts_text, dropped, drops, drops_frame, is_delivery, left_text};
ghost use Rattle.pb_cmd_trace.specs.Summaries.{left_word, left_words, losses, lost, refusals, refused, refused_by};
ghost use Rattle.pb_cmd_trace.specs.Summaries.{summary_line};

use crate::round::steps_of;
use pb_frame::{Memory, Seq};
use pb_lan::{Outcome, Plan, Record, Step};
use pb_names::port_name;
use std::alloc::Global;

/// Checks whether a step is a delivery.
fn is_delivery(step: &Step) -> bool
    ensures { result ≡ is_delivery step.now }
{
    matches!(step, Step::Deliver { .. })
}

/// Checks whether a customer port delivered a frame.
fn has_delivered(steps: &[Step]) -> bool
    ensures { result ≡ list_any is_delivery steps.now }
{
    steps.iter().any(|step| is_delivery(step))
}

/// Appends the name of a customer port, if it delivered a frame.
fn put_left(out: &mut String, plan: &Plan, rec: &Record, port: u8) -> Result<(), Memory>
    ensures { OnOk result (string_bytes out.new ≡ string_bytes out.old ++ left_word plan.now rec.now port) }
{
    if has_delivered(steps_of(rec.customers.as_slice(), port as usize)) {
        let name = port_name(plan, port);
        write!(out, " {name}")?;
    }
    Ok(())
}

/// Appends the names of the customer ports that delivered a frame.
fn put_all_left(out: &mut String, plan: &Plan, rec: &Record) -> Result<(), Memory>
    requires { IsSound plan.now }
    ensures { OnOk result (string_bytes out.new ≡ string_bytes out.old ++ left_words plan.now rec.now) }
{
    for place in 0..plan.customers.len() {
        put_left(out, plan, rec, place as u8 + 1)?;
    }
    Ok(())
}

/// Checks whether a frame was dropped, for a reason or as there was no port for it.
fn drops_frame(outcome: &Outcome) -> bool
    ensures { result ≡ drops_frame outcome.now }
{
    match outcome {
        Outcome::Relayed { chosen, .. } => chosen.list().as_slice().is_empty(),
        Outcome::Filtered(_) => true,
        Outcome::Heard => false,
    }
}

/// Returns how many customer frames a step dropped: 1 or 0.
fn drops(step: &Step) -> u8
    ensures exact { result ≡ drops step.now }
    ensures few { result ≤ 1 }
{
    match step {
        Step::Receive { item, outcome, .. } if item.mark.is_some() && drops_frame(outcome) => 1,
        _ => 0,
    }
}

/// Returns how many customer frames a bridge dropped.
fn dropped_at(steps: &[Step]) -> u128
    ensures exact { result ≡ sum_by drops steps.now }
    ensures few { result ≤ 2 ^ 64 }
{
    let mut sum = 0;
    for step in steps {
        sum += u128::from(drops(step));
    }
    sum
}

/// Returns how many customer frames all bridges dropped.
fn dropped(places: &[Seq<Step>]) -> u128
    requires { length places.now ≤ 128 }
    ensures { result ≡ dropped places.now }
{
    let mut sum = 0;
    for steps in places {
        sum += dropped_at(steps.as_slice());
    }
    sum
}

/// Returns how many chosen ports got no copy.
fn refused_by(outcome: &Outcome) -> u8
    ensures exact { result ≡ refused_by outcome.now }
    ensures few { result ≤ 16 }
{
    match outcome {
        Outcome::Relayed { refused, .. } => refused.list().as_slice().len() as u8,
        Outcome::Filtered(_) | Outcome::Heard => 0,
    }
}

/// Returns how many copies of a customer frame a step refused.
fn refusals(step: &Step) -> u8
    ensures exact { result ≡ refusals step.now }
    ensures few { result ≤ 16 }
{
    match step {
        Step::Receive { item, outcome, .. } if item.mark.is_some() => refused_by(outcome),
        _ => 0,
    }
}

/// Returns how many copies of customer frames a bridge refused.
fn refused_at(steps: &[Step]) -> u128
    ensures exact { result ≡ sum_by refusals steps.now }
    ensures few { result ≤ 16 * 2 ^ 64 }
{
    let mut sum = 0;
    for step in steps {
        sum += u128::from(refusals(step));
    }
    sum
}

/// Returns how many copies of customer frames all bridges refused.
fn refused(places: &[Seq<Step>]) -> u128
    requires { length places.now ≤ 128 }
    ensures { result ≡ refused places.now }
{
    let mut sum = 0;
    for steps in places {
        sum += refused_at(steps.as_slice());
    }
    sum
}

/// Returns how many customer frames a step lost: 1 or 0.
fn losses(step: &Step) -> u8
    ensures exact { result ≡ losses step.now }
    ensures few { result ≤ 1 }
{
    match step {
        Step::Take { item, lost, .. } if *lost && item.mark.is_some() => 1,
        _ => 0,
    }
}

/// Returns how many customer frames a lane lost.
fn lost_at(steps: &[Step]) -> u128
    ensures exact { result ≡ sum_by losses steps.now }
    ensures few { result ≤ 2 ^ 64 }
{
    let mut sum = 0;
    for step in steps {
        sum += u128::from(losses(step));
    }
    sum
}

/// Returns how many customer frames all lanes lost.
fn lost(places: &[Seq<Step>]) -> u128
    requires { length places.now ≤ 128 }
    ensures { result ≡ lost places.now }
{
    let mut sum = 0;
    for steps in places {
        sum += lost_at(steps.as_slice());
    }
    sum
}

/// Appends at which customer ports frames were delivered, from their names.
fn put_where(out: &mut String, names: &str) -> Result<(), Memory>
    ensures { OnOk result (string_bytes out.new ≡ string_bytes out.old ++ left_text names.now) }
{
    if names.is_empty() {
        out.push_str("not delivered")?;
        return Ok(());
    }
    write!(out, "delivered at{names}")?;
    Ok(())
}

/// Appends how many frames were dropped, how many copies were refused, and how many frames were lost.
fn put_counts(out: &mut String, dropped: u128, refused: u128, lost: u128) -> Result<(), Memory>
    ensures { OnOk result (string_bytes out.new ≡ string_bytes out.old ++ counts_text dropped refused lost) }
{
    writeln!(out, "; dropped {dropped}; refused {refused}; lost {lost}")?;
    Ok(())
}

/// Appends the summary: the customer ports at which frames were delivered, how many frames bridges dropped, how many
/// copies they refused, and how many frames lanes lost.
pub(crate) fn put_summary(
    alloc: Global,
    out: &mut String,
    plan: &Plan,
    rec: &Record,
) -> Result<(), Memory>
    requires sound { IsSound plan.now }
    requires bridges { length rec.now.bridges ≤ 128 }
    requires lanes { length rec.now.lanes ≤ 128 }
    ensures { OnOk result (string_bytes out.new ≡ string_bytes out.old ++ summary_line plan.now rec.now) }
{
    let mut names = String::new(alloc);
    put_all_left(&mut names, plan, rec)?;
    put_where(out, names.as_str())?;
    let bridges = rec.bridges.as_slice();
    let lost = lost(rec.lanes.as_slice());
    put_counts(out, dropped(bridges), refused(bridges), lost)
}
