//! The states of ports, at the start and after steps.

ghost use Rattle.std.specs.Option.{option_copied};
ghost use Rattle.std.specs.Prelude.{◌≡◌, [], IfOk, length};
ghost use Rattle.std.specs.List.{list_any, flat_map};
ghost use Rattle.pb_frame.specs.Lists.{first};
ghost use Rattle.pb_lan.specs.LastShapes.{newest_state};
ghost use Rattle.pb_lan.specs.Plans.{IsSound};
ghost use Rattle.pb_lan.specs.Ports.{is_customer_at, is_end_at, ends_of};
ghost use Rattle.pb_lan.specs.Shapes.{start_by, states_after, start_shape};

use crate::plan::{CustomerPlan, End, LinkPlan, Plan, Spanning};
use crate::shape::{PortState, Shape};
use pb_frame::{Memory, Seq};
use std::alloc::Global;

/// Checks whether a customer port is at this local port of the bridge.
fn is_customer_there(customers: &[CustomerPlan], bridge: u8, port: u8) -> bool
    ensures { result ≡ list_any (is_customer_at bridge port) customers.now }
{
    customers.iter().any(|customer| customer.bridge == bridge && customer.port == port)
}

/// Returns the end of a link that is at this local port of the bridge, or None.
fn end_there(links: &[LinkPlan], bridge: u8, port: u8) -> Option<&End>
    ensures { option_copied result ≡ first (is_end_at bridge port) (flat_map ends_of links.now) }
{
    for link in links {
        if link.a.bridge == bridge && link.a.port == port {
            return Some(&link.a);
        }
        if link.b.bridge == bridge && link.b.port == port {
            return Some(&link.b);
        }
    }
    None
}

/// Returns the state in which the port of an end starts.
fn start_by(spanning: Spanning, planned: PortState) -> PortState
    ensures { result ≡ start_by spanning planned }
{
    match spanning {
        Spanning::Fixed => planned,
        Spanning::Rstp => PortState::Discarding,
    }
}

/// Returns the state of a bridge's local port.
///
/// `newest` is the state to which a step of the bridge last set the port, or None if no step did. A customer port is
/// always Forwarding, an unused one is Discarding, and a provider port that no step set has its start state.
pub fn port_state(plan: &Plan, bridge: u8, port: u8, newest: Option<PortState>) -> PortState
    ensures { result ≡ newest_state plan.now bridge port newest }
{
    if is_customer_there(plan.customers.as_slice(), bridge, port) {
        return PortState::Forwarding;
    }
    match end_there(plan.links.as_slice(), bridge, port) {
        Some(end) => newest.unwrap_or(start_by(plan.spanning, end.start)),
        None => PortState::Discarding,
    }
}

/// Returns the states in which the local ports of a bridge start.
fn start_states(alloc: Global, plan: &Plan, bridge: u8) -> Result<Seq<PortState>, Memory>
    ensures { IfOk result (λ states. states ≡ states_after plan.now bridge []) }
{
    let mut states = Vec::with_capacity(alloc, 16)?;
    for place in 0..16u8 {
        states.push(port_state(plan, bridge, place + 1, None))?;
    }
    Ok(Seq::from_vec(states))
}

/// Returns the states in which the ports of a network start.
///
/// A customer port starts Forwarding and an unused port Discarding. A provider port starts in the state that the plan
/// gives it, or Discarding if the spanning tree decides the states (IEEE 802.1D-2004 clause 17.30).
///
/// # Errors
///
/// `Memory` if an allocation failed.
pub fn start_shape(alloc: Global, plan: &Plan) -> Result<Shape, Memory>
    requires { IsSound plan.now }
    ensures { IfOk result (λ shape. shape ≡ start_shape plan.now) }
{
    let mut states = Vec::with_capacity(alloc, plan.bridges.len())?;
    for place in 0..plan.bridges.len() {
        states.push(start_states(alloc, plan, place as u8 + 1)?)?;
    }
    Ok(Shape {
        states: Seq::from_vec(states),
    })
}
