//! Networks before the first step and after the last one.

ghost use Rattle.std.specs.Prelude.{◌≡◌, IfOk, OnOk};
ghost use Rattle.pb_lan.specs.LastShapes.{last_shape};
ghost use Rattle.pb_lan.specs.Plans.{IsSound};
ghost use Rattle.pb_converge.specs.Enough.{HasEnoughMemory};
ghost use Rattle.pb_converge.specs.Falls.{fresh};

use pb_frame::Memory;
use pb_history::{Tallies, last_shape};
use pb_lan::{Plan, Record, Shape};
use pb_net::Net;
use std::alloc::Global;

/// Returns the network of a plan, in which no place has taken a step. It only counts its steps: its memory does not
/// grow with them.
///
/// # Errors
///
/// `Memory` if an allocation failed.
pub fn fresh(alloc: Global, plan: &Plan) -> Result<Net, Memory>
    requires { IsSound plan.now }
    ensures { IfOk result (λ net. net ≡ fresh plan.now) }
{
    Net::counting(alloc, plan.clone()?)
}

/// Returns a copy of a network: each of its places has taken the same steps, and both go on independently.
///
/// # Errors
///
/// `Memory` if an allocation failed.
pub fn copied(net: &Net) -> Result<Net, Memory>
    ensures { IfOk result (λ copy. copy ≡ net.now) }
{
    Ok(net.clone()?)
}

/// Checks that no allocation failed in the steps that tallies count. A bridge that lacks memory drops what it can't
/// store, also a BPDU, and such a record says nothing of the plan. Allocates nothing.
///
/// # Errors
///
/// `Memory` if an allocation failed in a step of a bridge.
pub fn check_tallies(tallies: &Tallies) -> Result<(), Memory>
    ensures { OnOk result (HasEnoughMemory tallies.now) }
{
    if tallies.lacked_memory() {
        return Err(Memory);
    }
    Ok(())
}

/// Checks that no allocation failed in the steps of a record, as [`check_tallies`] does.
///
/// # Errors
///
/// `Memory` if an allocation failed in a step of a bridge, or now.
pub fn check_memory(alloc: Global, rec: &Record) -> Result<(), Memory>
    ensures { OnOk result (HasEnoughMemory rec.now) }
{
    let tallies = Tallies::of(alloc, rec)?;
    check_tallies(&tallies)
}

/// Returns the states of all ports after the steps that tallies count, in none of which an allocation failed.
///
/// # Errors
///
/// `Memory` if an allocation failed in a step of a bridge, or now.
pub fn shape_of(alloc: Global, plan: &Plan, tallies: &Tallies) -> Result<Shape, Memory>
    requires { IsSound plan.now }
    ensures enough { IfOk result (λ _. HasEnoughMemory tallies.now) }
    ensures shape { IfOk result (λ shape. shape ≡ last_shape plan.now tallies.now) }
{
    check_tallies(tallies)?;
    last_shape(alloc, plan, tallies)
}
