//! The texts of fields.

ghost use Rattle.std.specs.Prelude.{◌≡◌, string_bytes, IfOk};
ghost use Rattle.pb_lan.specs.Plans.{IsSound};
ghost use Rattle.pb_plan_diff.specs.Parts.{spanning_word, queues_word, truth_word, is_member, services_text};
ghost use Rattle.pb_plan_diff.specs.Parts.{losses_text};
ghost use Rattle.std.specs.declared.option.Option.TheVariants.{Some as some_numbers};

use pb_frame::{Memory, Seq, Text};
use pb_lan::{Plan, Queues, Spanning};
use pb_names::service_named;
use std::alloc::Global;

/// Returns the word of the plan file for what decides the states of ports.
pub(crate) fn spanning_word(spanning: Spanning) -> &'static str
    ensures { result.now ≡ spanning_word spanning }
{
    match spanning {
        Spanning::Fixed => "fixed",
        Spanning::Rstp => "rstp",
    }
}

/// Returns the word of the plan file for what the capacity of a queue counts.
pub(crate) fn queues_word(queues: Queues) -> &'static str
    ensures { result.now ≡ queues_word queues }
{
    match queues {
        Queues::PerPort => "port",
        Queues::PerClass => "class",
    }
}

/// Returns the word of the plan file for a truth.
pub(crate) fn truth_word(truth: bool) -> &'static str
    ensures { result.now ≡ truth_word truth }
{
    if truth { "true" } else { "false" }
}

/// Checks whether the service with this name is among those with these numbers.
fn is_member(plan: &Plan, numbers: &[u8], name: &str) -> bool
    requires { IsSound plan.now }
    ensures { result ≡ is_member plan.now numbers.now name.now }
{
    let service = service_named(plan, name);
    numbers.iter().any(|number| *number == service)
}

/// Returns the names of the services with these numbers, in brackets and in the order of `names`.
///
/// # Errors
///
/// `Memory` if an allocation failed.
fn members_text(
    alloc: Global,
    names: &[Text],
    plan: &Plan,
    numbers: &[u8],
) -> Result<String, Memory>
    requires { IsSound plan.now }
    ensures { IfOk result (λ text. string_bytes text ≡ services_text names.now plan.now (some_numbers numbers.now)) }
{
    let mut text = String::from_str(alloc, "[")?;
    for name in names {
        if is_member(plan, numbers, name.as_str()) {
            text.push_str(" ")?;
            text.push_str(name.as_str())?;
        }
    }
    text.push_str(" ]")?;
    Ok(text)
}

/// Returns the services of a port: `all`, or their names in brackets and in the order of `names`.
///
/// # Errors
///
/// `Memory` if an allocation failed.
pub(crate) fn services_text(
    alloc: Global,
    names: &[Text],
    plan: &Plan,
    services: &Option<Seq<u8>>,
) -> Result<String, Memory>
    requires { IsSound plan.now }
    ensures { IfOk result (λ text. string_bytes text ≡ services_text names.now plan.now services.now) }
{
    match services {
        None => Ok(String::from_str(alloc, "all")?),
        Some(numbers) => members_text(alloc, names, plan, numbers.as_slice()),
    }
}

/// Returns the numbers of lost items, in brackets.
///
/// # Errors
///
/// `Memory` if an allocation failed.
pub(crate) fn losses_text(alloc: Global, losses: &[u64]) -> Result<String, Memory>
    ensures { IfOk result (λ text. string_bytes text ≡ losses_text losses.now) }
{
    let mut text = String::from_str(alloc, "[")?;
    for number in losses {
        write!(text, " {number}")?;
    }
    text.push_str(" ]")?;
    Ok(text)
}
