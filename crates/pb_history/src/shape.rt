//! The states of all ports after the steps of their bridges.

ghost use Rattle.std.specs.Prelude.{◌≡◌, ◌≤◌, ◌+◌, [], IfOk};
ghost use Rattle.pb_lan.specs.LastShapes.{last_shape};
ghost use Rattle.pb_lan.specs.Plans.{IsSound};
ghost use Rattle.pb_lan.specs.Records.{steps_of};
ghost use Rattle.pb_lan.specs.Shapes.{state_after, states_after};

use crate::tallies::Tallies;
use crate::tally::Tally;
use pb_frame::{Memory, Seq};
use pb_lan::{Plan, PortState, Shape, port_state};
use std::alloc::Global;

/// Returns the state of a bridge's port after the bridge's steps.
fn state_after(plan: &Plan, bridge: u8, tally: &Tally, port: u8) -> PortState
    requires { port ≤ 16 }
    ensures { result ≡ state_after plan.now bridge tally.now port }
{
    port_state(plan, bridge, port, tally.newest_state(port))
}

/// Returns the states of a bridge's ports after its steps.
///
/// # Errors
///
/// `Memory` if an allocation failed.
fn states_after(
    alloc: Global,
    plan: &Plan,
    bridge: u8,
    tally: &Tally,
) -> Result<Seq<PortState>, Memory>
    ensures { IfOk result (λ states. states ≡ states_after plan.now bridge tally.now) }
{
    let mut states = Vec::with_capacity(alloc, 16)?;
    for place in 0..16u8 {
        states.push(state_after(plan, bridge, tally, place + 1))?;
    }
    Ok(Seq::from_vec(states))
}

/// Returns the tally of the bridge at this index, or `none` if there is no such bridge.
fn tally_at<'a>(bridges: &'a [Tally], place: usize, none: &'a Tally) -> &'a Tally
    requires { none.now ≡ [] }
    ensures { result.now ≡ steps_of bridges.now (place + 1) }
{
    match bridges.get(place) {
        Some(tally) => tally,
        None => none,
    }
}

/// Returns the states of the ports of a network at the end of its record: those of the start, changed in order by the
/// steps of each bridge.
///
/// # Errors
///
/// `Memory` if an allocation failed.
pub fn last_shape(alloc: Global, plan: &Plan, tallies: &Tallies) -> Result<Shape, Memory>
    requires { IsSound plan.now }
    ensures { IfOk result (λ shape. shape ≡ last_shape plan.now tallies.now) }
{
    let (bridges, none) = (tallies.bridges(), Tally::new());
    let mut states = Vec::with_capacity(alloc, plan.bridges.len())?;
    for place in 0..plan.bridges.len() {
        let tally = tally_at(bridges, place, &none);
        states.push(states_after(alloc, plan, place as u8 + 1, tally)?)?;
    }
    Ok(Shape {
        states: Seq::from_vec(states),
    })
}
