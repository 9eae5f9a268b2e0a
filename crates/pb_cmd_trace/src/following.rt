//! The events that follow a step of a frame on its way.

ghost use Rattle.std.specs.Prelude.{◌≡◌, ◌++◌, ◌==◌, OnOk};
ghost use Rattle.std.specs.List.{list_any};
ghost use Rattle.pb_lan.specs.Plans.{IsSound};
ghost use Rattle.pb_cmd_trace.specs.Onwards.{arrival, copied, copies_of, fetch, follows, handed_on, is_lost, landings};
ghost use Rattle.pb_cmd_trace.specs.Onwards.{sendings, sent_on};

use crate::onward::Onward;
use crate::places::{customer_there, lane_from};
use pb_forest::numbered;
use pb_frame::Memory;
use pb_lan::{LinkPlan, NoRoom, Outcome, Plan, Step};

/// Queues the bridge's receipt of the frame that a customer port feeds.
fn push_handed_on(todo: &mut Vec<Onward>, plan: &Plan, port: u8) -> Result<(), Memory>
    ensures { OnOk result (todo.new.items ≡ todo.old.items ++ handed_on plan.now port) }
{
    if let Some(customer) = numbered(plan.customers.as_slice(), port as usize) {
        todo.push(Onward::Receive(customer.bridge, customer.port))?;
    }
    Ok(())
}

/// Checks whether a port is among those that got no copy.
fn is_refused(port: u8, refused: &[(u8, NoRoom)]) -> bool
    ensures { result ≡ list_any (λ r. r.0 == port) refused.now }
{
    refused.iter().any(|r| r.0 == port)
}

/// Queues the transmission of a port's copy, if the port got one.
fn push_sending(
    todo: &mut Vec<Onward>,
    bridge: u8,
    port: u8,
    refused: &[(u8, NoRoom)],
) -> Result<(), Memory>
    ensures { OnOk result (todo.new.items ≡ todo.old.items ++ copies_of bridge refused.now port) }
{
    if !is_refused(port, refused) {
        todo.push(Onward::Transmit(bridge, port))?;
    }
    Ok(())
}

/// Queues the transmissions of the chosen ports, the first port last: it is taken first.
fn push_sendings(
    todo: &mut Vec<Onward>,
    bridge: u8,
    chosen: &[u8],
    refused: &[(u8, NoRoom)],
) -> Result<(), Memory>
    ensures { OnOk result (todo.new.items ≡ todo.old.items ++ sendings bridge refused.now chosen.now) }
{
    for place in (0..chosen.len()).rev() {
        push_sending(todo, bridge, chosen[place], refused)?;
    }
    Ok(())
}

/// Queues the transmissions that follow from the outcome of a received frame.
fn push_copies(todo: &mut Vec<Onward>, bridge: u8, outcome: &Outcome) -> Result<(), Memory>
    ensures { OnOk result (todo.new.items ≡ todo.old.items ++ copied bridge outcome.now) }
{
    match outcome {
        Outcome::Relayed { chosen, refused } => {
            let (chosen, refused) = (chosen.list(), refused.list());
            push_sendings(todo, bridge, chosen.as_slice(), refused.as_slice())
        }
        Outcome::Filtered(_) | Outcome::Heard => Ok(()),
    }
}

/// Queues the transmissions that follow a bridge's Receive step.
fn push_received(todo: &mut Vec<Onward>, bridge: u8, step: &Step) -> Result<(), Memory>
    ensures { OnOk result (todo.new.items ≡ todo.old.items ++ sent_on bridge step.now) }
{
    match step {
        Step::Receive { outcome, .. } => push_copies(todo, bridge, outcome),
        _ => Ok(()),
    }
}

/// Returns the event that takes what a bridge sends at a port: a delivery at a customer port, or a Take of the lane
/// that starts there.
fn fetch(plan: &Plan, bridge: u8, port: u8) -> Onward
    requires { IsSound plan.now }
    ensures { result ≡ fetch plan.now bridge port }
{
    let customer = customer_there(plan, bridge, port);
    if 0 < customer {
        return Onward::Deliver(customer);
    }
    Onward::Take(lane_from(plan, bridge, port))
}

/// Checks whether a lane lost the item of a step.
fn is_lost(step: &Step) -> bool
    ensures { result ≡ is_lost step.now }
{
    match step {
        Step::Take { lost, .. } => *lost,
        _ => false,
    }
}

/// Returns the receipt at the end of a lane.
fn arrival(lane: u8, link: &LinkPlan) -> Onward
    ensures { result ≡ arrival lane link.now }
{
    if lane % 2 == 1 {
        Onward::Receive(link.b.bridge, link.b.port)
    } else {
        Onward::Receive(link.a.bridge, link.a.port)
    }
}

/// Queues the far bridge's receipt of the frame that a lane puts there.
fn push_landing(todo: &mut Vec<Onward>, plan: &Plan, lane: u8) -> Result<(), Memory>
    ensures { OnOk result (todo.new.items ≡ todo.old.items ++ landings plan.now lane) }
{
    if let Some(link) = numbered(plan.links.as_slice(), (lane as usize + 1) / 2) {
        todo.push(arrival(lane, link))?;
    }
    Ok(())
}

/// Appends the events that follow a step to the list of events to do.
pub(crate) fn push_following(
    todo: &mut Vec<Onward>,
    plan: &Plan,
    onward: Onward,
    step: &Step,
) -> Result<(), Memory>
    requires { IsSound plan.now }
    ensures { OnOk result (todo.new.items ≡ todo.old.items ++ follows plan.now onward step.now) }
{
    match onward {
        Onward::Feed(port) => push_handed_on(todo, plan, port),
        Onward::Deliver(_) => Ok(()),
        Onward::Receive(bridge, _) => push_received(todo, bridge, step),
        Onward::Transmit(bridge, port) => {
            todo.push(fetch(plan, bridge, port))?;
            Ok(())
        }
        Onward::Take(_) if is_lost(step) => Ok(()),
        Onward::Take(lane) => {
            todo.push(Onward::Put(lane))?;
            Ok(())
        }
        Onward::Put(lane) => push_landing(todo, plan, lane),
    }
}
