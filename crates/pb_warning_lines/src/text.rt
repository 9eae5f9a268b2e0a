//! The texts of warnings.

ghost use Rattle.std.specs.Prelude.{◌≡◌, ◌++◌, string_bytes, OnOk};
ghost use Rattle.pb_warning_lines.specs.Texts.{named, subject, reason, warning_text};

use pb_frame::Memory;
use pb_lan::Plan;
use pb_names::{bridge_name, link_name, service_name};
use pb_warnings::Warning;

/// Returns what is wrong.
fn reason(warning: Warning) -> &'static str
    ensures { result.now ≡ reason warning }
{
    match warning {
        Warning::NeverTicks => {
            "spanning = \"rstp\" without tick_ms or tick_every: bridges never tick in a run"
        }
        Warning::Unlinked(_) => "has no links",
        Warning::TooFar(_) =>
            "is more than 20 links from the root: the spanning tree never reaches it",
        Warning::Unequal(_) => "has ends that are members of different services",
        Warning::NoPort(_) => "has no port",
        Warning::OnePort(_) => "has one port",
        Warning::Split(_) => "has ports that no path of its links joins",
    }
}

/// Appends the kind and the name of a part of a plan.
fn put_named(out: &mut String, kind: &str, name: &str) -> Result<(), Memory>
    ensures { OnOk result (string_bytes out.new ≡ string_bytes out.old ++ named kind.now name.now) }
{
    write!(out, "{kind} \"{name}\" ")?;
    Ok(())
}

/// Appends the part of a plan that a warning is about. Nothing for the network.
fn put_subject(out: &mut String, plan: &Plan, warning: Warning) -> Result<(), Memory>
    ensures { OnOk result (string_bytes out.new ≡ string_bytes out.old ++ subject plan.now warning) }
{
    match warning {
        Warning::NeverTicks => Ok(()),
        Warning::Unlinked(bridge) | Warning::TooFar(bridge) => {
            put_named(out, "bridge", bridge_name(plan, bridge))
        }
        Warning::Unequal(link) => put_named(out, "link", link_name(plan, link)),
        Warning::NoPort(service) | Warning::OnePort(service) | Warning::Split(service) => {
            put_named(out, "service", service_name(plan, service))
        }
    }
}

/// Appends the text of a warning about a plan, as `service "data" has one port`.
///
/// # Errors
///
/// `Memory` if an allocation failed.
pub(crate) fn put_warning(out: &mut String, plan: &Plan, warning: Warning) -> Result<(), Memory>
    ensures { OnOk result (string_bytes out.new ≡ string_bytes out.old ++ warning_text plan.now warning) }
{
    put_subject(out, plan, warning)?;
    out.push_str(reason(warning))?;
    Ok(())
}
