//! The links of a forwarding loop.

ghost use Rattle.std.specs.Prelude.{◌≡◌, ◌++◌, ◌*◌, ◌-◌, count_by, string_bytes, OnOk};
ghost use Rattle.pb_lan.specs.Plans.{IsSound};
ghost use Rattle.pb_lan.specs.Records.{steps_of};
ghost use Rattle.pb_cmd_trace.specs.Summaries.{is_frame, is_passed_twice, passed_word, passed_words, round_line, takes};

use pb_forest::numbered;
use pb_frame::{Memory, Seq};
use pb_lan::{Mark, Plan, Record, Step};
use pb_names::link_name;

/// A customer's frame.
#[derive(Clone, Copy, Debug, PartialEq, Eq)]
pub struct FrameId {
    /// The customer port at which it was injected.
    pub port: u8,
    /// Its number among the frames of that port.
    pub number: u64,
}

/// Returns the steps of the place with this number, or none if there is no such place.
pub(crate) fn steps_of(places: &[Seq<Step>], number: usize) -> &[Step]
    ensures { result.now ≡ steps_of places.now number }
{
    match numbered(places, number) {
        Some(steps) => steps.as_slice(),
        None => &[],
    }
}

/// Checks whether a mark is that of a frame.
fn is_frame(frame: FrameId, mark: Option<Mark>) -> bool
    ensures { result ≡ is_frame frame mark }
{
    match mark {
        None => false,
        Some(mark) => mark.port == frame.port && mark.number.get() == frame.number,
    }
}

/// Checks whether a step is a lane's Take of a frame.
fn takes(frame: FrameId, step: &Step) -> bool
    ensures { result ≡ takes frame step.now }
{
    match step {
        Step::Take { item, .. } => is_frame(frame, item.mark),
        _ => false,
    }
}

/// Returns how many times a lane took a frame.
fn passes(frame: FrameId, steps: &[Step]) -> usize
    ensures { result ≡ count_by (takes frame) steps.now }
{
    steps.iter().filter(|step| takes(frame, step)).count()
}

/// Checks whether a frame passed a link twice or more in one direction.
fn is_passed_twice(rec: &Record, frame: FrameId, link: u8) -> bool
    ensures { result ≡ is_passed_twice rec.now frame link }
{
    let lane = 2 * usize::from(link);
    let there = passes(
        frame,
        steps_of(rec.lanes.as_slice(), lane.saturating_sub(1)),
    );
    let back = passes(frame, steps_of(rec.lanes.as_slice(), lane));
    1 < there || 1 < back
}

/// Appends the name of a link, if a frame passed it twice or more in one direction.
fn put_passed(
    out: &mut String,
    plan: &Plan,
    rec: &Record,
    frame: FrameId,
    link: u8,
) -> Result<(), Memory>
    ensures { OnOk result (string_bytes out.new ≡ string_bytes out.old ++ passed_word plan.now rec.now frame link) }
{
    if is_passed_twice(rec, frame, link) {
        let name = link_name(plan, link);
        write!(out, " {name}")?;
    }
    Ok(())
}

/// Appends the names of the links that a frame passed twice or more in one direction.
fn put_all_passed(out: &mut String, plan: &Plan, rec: &Record, frame: FrameId) -> Result<(), Memory>
    requires { IsSound plan.now }
    ensures { OnOk result (string_bytes out.new ≡ string_bytes out.old ++ passed_words plan.now rec.now frame) }
{
    for place in 0..plan.links.len() {
        put_passed(out, plan, rec, frame, place as u8 + 1)?;
    }
    Ok(())
}

/// Appends the line of a frame in a forwarding loop, with the links of the loop, if there is such a frame.
pub(crate) fn put_round(
    out: &mut String,
    plan: &Plan,
    rec: &Record,
    round: Option<FrameId>,
) -> Result<(), Memory>
    requires { IsSound plan.now }
    ensures { OnOk result (string_bytes out.new ≡ string_bytes out.old ++ round_line plan.now rec.now round) }
{
    let Some(frame) = round else {
        return Ok(());
    };
    out.push_str("loops over")?;
    put_all_passed(out, plan, rec, frame)?;
    writeln!(out, "; ended after 1000 events")?;
    Ok(())
}
