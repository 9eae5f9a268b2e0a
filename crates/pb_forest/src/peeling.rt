//! Removing bridges, each with its last remaining link.

ghost use Rattle.std.specs.Prelude.{◌+◌, ◌<◌, [], IfOk, OnOk, length};
ghost use Rattle.pb_forest.specs.Counting.{IsCounted, IsCleared, TakesOff};

use crate::graph::{Branch, Graph};
use pb_frame::Memory;
use std::alloc::Global;

/// Removes the first bridge if one link remains at it, then the bridge at that link's other end, and so on.
///
/// # Errors
///
/// `Memory` if an allocation failed.
fn climb(graph: &mut Graph, first: usize, branches: &mut Vec<Branch>) -> Result<(), Memory>
    requires counted { IsCounted graph.old }
    requires there { first < length graph.old.degrees.items }
    ensures taken { OnOk result (TakesOff graph.old graph.new branches.old.items branches.new.items) }
    ensures cleared { OnOk result (IsCleared first graph.old → IsCleared (first + 1) graph.new) }
{
    let mut bridge = first;
    while let Some(branch) = graph.last_branch(bridge) {
        graph.take_off(branch);
        branches.push(branch)?;
        bridge = branch.above;
    }
    Ok(())
}

/// Removes bridges until none has exactly one remaining link, and returns them in order.
///
/// # Errors
///
/// `Memory` if an allocation failed.
pub(crate) fn peel(alloc: Global, graph: &mut Graph) -> Result<Vec<Branch>, Memory>
    requires { IsCounted graph.old }
    ensures taken { IfOk result (λ branches. TakesOff graph.old graph.new [] branches.items) }
    ensures cleared { OnOk result (IsCleared (length graph.new.degrees.items) graph.new) }
{
    let mut branches = Vec::new(alloc);
    for first in 0..graph.bridges() {
        climb(graph, first, &mut branches)?;
    }
    Ok(branches)
}
