//! The last line of the report: the verdict.

ghost use Rattle.std.specs.Prelude.{◌≡◌, ◌++◌, string_bytes, OnOk};
ghost use Rattle.std.specs.List.{list_any};
ghost use Rattle.pb_cmd_survive.specs.Failures.{is_bridge, is_pair};
ghost use Rattle.pb_cmd_survive.specs.Reports.{tried_words, tried_text, but_words, surviving_line, last_line};

use crate::criteria::Criteria;
use crate::health::put_unhealthy;
use crate::impact::Impact;
use crate::totals::{is_bridge, is_pair};
use crate::verdict::is_healthy;
use pb_frame::Memory;

/// Returns what failed, from whether bridges did, and whether two links did.
fn tried_words(bridges: bool, pairs: bool) -> &'static str
    ensures { result.now ≡ tried_words bridges pairs }
{
    match (bridges, pairs) {
        (false, false) => "any one link",
        (true, false) => "any one link or bridge",
        (false, true) => "any two links",
        (true, true) => "any two links or one bridge",
    }
}

/// Checks whether some bridge fails.
fn any_bridge(impacts: &[Impact]) -> bool
    ensures { result ≡ list_any (λ o. is_bridge o.failure) impacts.now }
{
    impacts.iter().any(|impact| is_bridge(impact.failure))
}

/// Checks whether some two links fail.
fn any_pair(impacts: &[Impact]) -> bool
    ensures { result ≡ list_any (λ o. is_pair o.failure) impacts.now }
{
    impacts.iter().any(|impact| is_pair(impact.failure))
}

/// Returns what failed, by the failures that were analysed.
fn tried_text(impacts: &[Impact]) -> &'static str
    ensures { result.now ≡ tried_text impacts.now }
{
    tried_words(any_bridge(impacts), any_pair(impacts))
}

/// Returns that the network survives but for what is accepted, if something is.
fn but_words(accepted: bool) -> &'static str
    ensures { result.now ≡ but_words accepted }
{
    if accepted {
        ", but for accepted disconnections"
    } else {
        ""
    }
}

/// Appends that the network survives what failed, but for what is accepted.
fn put_surviving(out: &mut String, impacts: &[Impact], accepted: bool) -> Result<(), Memory>
    ensures { OnOk result (string_bytes out.new ≡ string_bytes out.old ++ surviving_line impacts.now accepted) }
{
    out.push_str("survives the failure of ")?;
    out.push_str(tried_text(impacts))?;
    out.push_str(but_words(accepted))?;
    out.push_str("\n")?;
    Ok(())
}

/// Appends the last line: that the network survives, or that it is not healthy with nothing down.
pub(crate) fn put_last(
    out: &mut String,
    criteria: Criteria,
    base: &Impact,
    impacts: &[Impact],
    survived: bool,
    accepted: bool,
) -> Result<(), Memory>
    ensures { OnOk result (string_bytes out.new
        ≡ string_bytes out.old ++ last_line criteria base.now impacts.now survived accepted) }
{
    if survived {
        return put_surviving(out, impacts, accepted);
    }
    if is_healthy(base) {
        return Ok(());
    }
    put_unhealthy(out, criteria, base)
}
