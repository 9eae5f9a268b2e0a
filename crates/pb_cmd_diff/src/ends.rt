//! The ends of links with nothing down.

ghost use Rattle.std.specs.Prelude.{◌≡◌, [], map, length, IfOk};
ghost use Rattle.pb_cmd_survive.specs.Impacts.{IsStanding};
ghost use Rattle.pb_converge.specs.Enough.{HasEnoughMemory};
ghost use Rattle.pb_lan.specs.Plans.{IsSound, IsNumber};
ghost use Rattle.pb_lan.specs.Records.{IsLawfulRecord};
ghost use Rattle.pb_relay.specs.Protocol.{spanning_tree};
ghost use Rattle.pb_lan.specs.declared.plan.Spanning.TheVariants.{Rstp as by_protocol};
ghost use Rattle.pb_cmd_diff.specs.Ends.{computed_at, protocol_end, given_at, given_link, protocol_link, ends_by};
ghost use Rattle.pb_cmd_diff.specs.Ends.{AreEnds};

use pb_cmd_survive::Standing;
use pb_converge::{check_tallies, copied, shape_of};
use pb_forest::state_in;
use pb_frame::Memory;
use pb_lan::{End, Plan, PortState, Shape, Spanning};
use pb_net::Net;
use pb_rstp::{Role, Rstp};
use std::alloc::Global;

/// An end of a link after the bridges have converged.
#[derive(Clone, Copy, PartialEq, Eq, Debug)]
pub enum EndView {
    /// Its state, if the plan gives the states.
    Given(PortState),
    /// Its role and its state, if the bridges run the rapid spanning tree.
    Computed(Role, PortState),
}

/// The two ends of a link.
#[derive(Clone, Copy, PartialEq, Eq, Debug)]
pub struct LinkEnds {
    /// The first end.
    pub a: EndView,
    /// The second end.
    pub b: EndView,
}

/// Returns role and state of a port.
fn computed_at(machine: &Rstp, port: u8) -> EndView
    ensures { result ≡ computed_at machine.now port }
{
    let roles = machine.roles();
    let states = machine.states();
    for place in 0..roles.len() {
        let (number, role) = roles[place];
        if number == port {
            return EndView::Computed(role, states[place].1);
        }
    }
    EndView::Given(PortState::Discarding)
}

/// Returns an end of a link of a network whose bridges run the rapid spanning tree.
fn protocol_end(net: &Net, plan: &Plan, end: &End) -> EndView
    requires plan { net.now.plan ≡ plan.now }
    requires protocol { plan.now.spanning ≡ by_protocol }
    requires there { IsNumber end.now.bridge (length plan.now.bridges) }
    ensures { result ≡ protocol_end plan.now net.now.rec end.now }
{
    let Some(machine) = net.rstp(end.bridge) else {
        unreachable!();
    };
    computed_at(machine, end.port)
}

/// Returns the ends of all links of a network whose bridges run the rapid spanning tree.
fn protocol_ends(alloc: Global, net: &Net, plan: &Plan) -> Result<Vec<LinkEnds>, Memory>
    requires sound { IsSound plan.now }
    requires plan { net.now.plan ≡ plan.now }
    requires protocol { plan.now.spanning ≡ by_protocol }
    ensures { IfOk result (λ ends. ends.items ≡ map (protocol_link plan.now net.now.rec) plan.now.links) }
{
    let mut ends = Vec::new(alloc);
    for link in plan.links.as_slice() {
        ends.push(LinkEnds {
            a: protocol_end(net, plan, &link.a),
            b: protocol_end(net, plan, &link.b),
        })?;
    }
    Ok(ends)
}

/// Returns an end of a link in a shape.
fn given_at(shape: &Shape, end: &End) -> EndView
    ensures { result ≡ given_at shape.now end.now }
{
    EndView::Given(state_in(shape, end.bridge, end.port))
}

/// Returns the ends of all links in a shape.
fn given_ends(alloc: Global, plan: &Plan, shape: &Shape) -> Result<Vec<LinkEnds>, Memory>
    ensures { IfOk result (λ ends. ends.items ≡ map (given_link shape.now) plan.now.links) }
{
    let mut ends = Vec::new(alloc);
    for link in plan.links.as_slice() {
        ends.push(LinkEnds {
            a: given_at(shape, &link.a),
            b: given_at(shape, &link.b),
        })?;
    }
    Ok(ends)
}

/// Returns the ends of all links at the end of a network.
fn ends_in(alloc: Global, net: Net, plan: &Plan) -> Result<Vec<LinkEnds>, Memory>
    requires sound { IsSound plan.now }
    requires plan { net.plan ≡ plan.now }
    ensures ends { IfOk result (λ ends. ends.items ≡ ends_by plan.now.spanning plan.now net.rec) }
    ensures lawful { IfOk result (λ _. IsLawfulRecord spanning_tree net.plan net.rec) }
    ensures enough { IfOk result (λ _. HasEnoughMemory net.rec) }
{
    match plan.spanning {
        Spanning::Rstp => {
            let ends = protocol_ends(alloc, &net, plan)?;
            let tallies = net.tallies()?;
            check_tallies(&tallies)?;
            Ok(ends)
        }
        Spanning::Fixed => {
            let tallies = net.tallies()?;
            let shape = shape_of(alloc, plan, &tallies)?;
            Ok(given_ends(alloc, plan, &shape)?)
        }
    }
}

/// Returns the ends of all links of a network that is up with nothing down, as they were when its bridges had converged
/// (IEEE 802.1D-2004 clause 17), in the plan's order. If the plan gives the states, they are the plan's.
///
/// # Errors
///
/// `Memory` if an allocation failed, also in a bridge.
pub fn ends_of(alloc: Global, standing: &Standing<'_>) -> Result<Vec<LinkEnds>, Memory>
    requires up { IsStanding standing.now }
    requires whole { standing.now.names.now ≡ [] }
    ensures { IfOk result (λ ends. AreEnds standing.now.plan.now standing.now.patience.ticks
        standing.now.patience.events ends.items) }
{
    let net = copied(&standing.calm)?;
    Ok(ends_in(alloc, net, standing.plan)?)
}
