//! The fields of the parts of a plan, in the order of the plan file.

ghost use Rattle.std.specs.Prelude.{◌≡◌, ◌++◌, ◌∷◌, [], codes, IfOk, OnOk};
ghost use Rattle.pb_lan.specs.Plans.{IsSound};
ghost use Rattle.pb_names.specs.Names.{bridge_name, state_word};
ghost use Rattle.pb_plan_diff.specs.Parts.{field, number_field, network_fields, bridge_fields, end_fields};
ghost use Rattle.pb_plan_diff.specs.Parts.{loss_fields, link_fields, service_fields, port_fields, services_text};

use crate::part::{Field, number_field, text_field, word_field};
use crate::texts::{losses_text, queues_word, services_text, spanning_word, truth_word};
use pb_frame::{Memory, Text};
use pb_lan::{BridgePlan, CustomerPlan, End, LinkPlan, Plan, ServicePlan};
use pb_names::{bridge_name, service_name, state_word};
use std::alloc::Global;

/// Returns the fields of the network itself.
pub(crate) fn network_fields(alloc: Global, plan: &Plan) -> Result<Vec<Field>, Memory>
    ensures { IfOk result (λ fields. fields.items ≡ network_fields plan.now) }
{
    let mut fields = Vec::new(alloc);
    fields.push(word_field(alloc, "spanning", spanning_word(plan.spanning))?)?;
    fields.push(word_field(alloc, "prompt", truth_word(plan.prompt))?)?;
    fields.push(word_field(alloc, "queues", queues_word(plan.queues))?)?;
    fields.push(number_field(alloc, "ageing", plan.ageing as u64)?)?;
    fields.push(number_field(alloc, "ring", plan.ring as u64)?)?;
    fields.push(number_field(alloc, "steps", plan.steps)?)?;
    Ok(fields)
}

/// Returns the fields of a bridge.
pub(crate) fn bridge_fields(alloc: Global, bridge: &BridgePlan) -> Result<Vec<Field>, Memory>
    ensures { IfOk result (λ fields. fields.items ≡ bridge_fields bridge.now) }
{
    let mut fields = Vec::new(alloc);
    let address = bridge.address.text(alloc)?;
    fields.push(text_field(alloc, "address", address)?)?;
    fields.push(number_field(alloc, "priority", bridge.priority as u64)?)?;
    fields.push(number_field(alloc, "queue", bridge.queue as u64)?)?;
    Ok(fields)
}

/// Returns a field of an end of a link that holds a number. `side` is `a` or `b`, `what` the rest of the key.
fn end_number(alloc: Global, side: &str, what: &str, number: u64) -> Result<Field, Memory>
    ensures { IfOk result (λ made. made ≡ number_field (side.now ++ what.now) number) }
{
    let key = format!(in alloc; "{side}{what}")?;
    number_field(alloc, key.as_str(), number)
}

/// Returns a field of an end of a link that holds a text.
fn end_text(alloc: Global, side: &str, what: &str, text: &str) -> Result<Field, Memory>
    ensures { IfOk result (λ made. made ≡ field (side.now ++ what.now) text.now) }
{
    let key = format!(in alloc; "{side}{what}")?;
    word_field(alloc, key.as_str(), text)
}

/// Appends where an end of a link is.
fn put_place(
    alloc: Global,
    fields: &mut Vec<Field>,
    plan: &Plan,
    side: &str,
    end: &End,
) -> Result<(), Memory>
    ensures { OnOk result (fields.new.items ≡ fields.old.items ++ field side.now (bridge_name plan.now end.now.bridge)
        ∷ number_field (side.now ++ codes "_port") end.now.port ∷ []) }
{
    fields.push(word_field(alloc, side, bridge_name(plan, end.bridge))?)?;
    fields.push(end_number(alloc, side, "_port", end.port as u64)?)?;
    Ok(())
}

/// Appends what the spanning tree uses of an end of a link.
fn put_costs(alloc: Global, fields: &mut Vec<Field>, side: &str, end: &End) -> Result<(), Memory>
    ensures { OnOk result (fields.new.items ≡ fields.old.items ++ number_field (side.now ++ codes "_cost") end.now.cost
        ∷ number_field (side.now ++ codes "_priority") end.now.priority ∷ []) }
{
    fields.push(end_number(alloc, side, "_cost", end.cost as u64)?)?;
    fields.push(end_number(alloc, side, "_priority", end.priority as u64)?)?;
    Ok(())
}

/// Appends the state at the start and the services of an end of a link.
fn put_state(
    alloc: Global,
    fields: &mut Vec<Field>,
    names: &[Text],
    plan: &Plan,
    side: &str,
    end: &End,
) -> Result<(), Memory>
    requires { IsSound plan.now }
    ensures { OnOk result (fields.new.items ≡ fields.old.items
        ++ field (side.now ++ codes "_state") (state_word end.now.start)
        ∷ field (side.now ++ codes "_services") (services_text names.now plan.now end.now.services) ∷ []) }
{
    fields.push(end_text(alloc, side, "_state", state_word(end.start))?)?;
    let services = services_text(alloc, names, plan, &end.services)?;
    fields.push(end_text(alloc, side, "_services", services.as_str())?)?;
    Ok(())
}

/// Appends the fields of an end of a link.
fn put_end(
    alloc: Global,
    fields: &mut Vec<Field>,
    names: &[Text],
    plan: &Plan,
    side: &str,
    end: &End,
) -> Result<(), Memory>
    requires { IsSound plan.now }
    ensures { OnOk result (fields.new.items ≡ fields.old.items ++ end_fields names.now plan.now side.now end.now) }
{
    put_place(alloc, fields, plan, side, end)?;
    put_costs(alloc, fields, side, end)?;
    put_state(alloc, fields, names, plan, side, end)
}

/// Appends the items that a link loses.
fn put_losses(alloc: Global, fields: &mut Vec<Field>, link: &LinkPlan) -> Result<(), Memory>
    ensures { OnOk result (fields.new.items ≡ fields.old.items ++ loss_fields link.now) }
{
    let ab = losses_text(alloc, link.lost_ab.as_slice())?;
    fields.push(text_field(alloc, "lost_ab", ab)?)?;
    let ba = losses_text(alloc, link.lost_ba.as_slice())?;
    fields.push(text_field(alloc, "lost_ba", ba)?)?;
    Ok(())
}

/// Returns the fields of a link. Services are listed in the order of `names`.
pub(crate) fn link_fields(
    alloc: Global,
    names: &[Text],
    plan: &Plan,
    link: &LinkPlan,
) -> Result<Vec<Field>, Memory>
    requires { IsSound plan.now }
    ensures { IfOk result (λ fields. fields.items ≡ link_fields names.now plan.now link.now) }
{
    let mut fields = Vec::new(alloc);
    put_end(alloc, &mut fields, names, plan, "a", &link.a)?;
    put_end(alloc, &mut fields, names, plan, "b", &link.b)?;
    put_losses(alloc, &mut fields, link)?;
    Ok(fields)
}

/// Returns the fields of a service.
pub(crate) fn service_fields(alloc: Global, service: &ServicePlan) -> Result<Vec<Field>, Memory>
    ensures { IfOk result (λ fields. fields.items ≡ service_fields service.now) }
{
    let mut fields = Vec::new(alloc);
    fields.push(number_field(alloc, "vid", service.vid as u64)?)?;
    Ok(fields)
}

/// Returns the fields of a customer port.
pub(crate) fn port_fields(
    alloc: Global,
    plan: &Plan,
    port: &CustomerPlan,
) -> Result<Vec<Field>, Memory>
    ensures { IfOk result (λ fields. fields.items ≡ port_fields plan.now port.now) }
{
    let mut fields = Vec::new(alloc);
    fields.push(word_field(alloc, "bridge", bridge_name(plan, port.bridge))?)?;
    fields.push(number_field(alloc, "port", port.port as u64)?)?;
    fields.push(word_field(alloc, "service", service_name(plan, port.service))?)?;
    fields.push(number_field(alloc, "pcp", port.pcp as u64)?)?;
    fields.push(number_field(alloc, "queue", port.queue as u64)?)?;
    Ok(fields)
}
