//! Parents and depths from the removed bridges.

ghost use Rattle.std.specs.Prelude.{◌≤◌, IfOk, length};
ghost use Rattle.std.specs.List.{AllByRecursion};
ghost use Rattle.pb_forest.specs.Rooting.{IsNear, IsRootedBy};

use crate::graph::Branch;
use pb_frame::Memory;
use pb_lan::{Rooted, Seq};
use std::alloc::Global;

/// Returns the parents and depths of bridges of which these were removed. Each of the others is a root.
///
/// # Errors
///
/// `Memory` if an allocation failed.
pub(crate) fn rooted_by(
    alloc: Global,
    bridges: usize,
    mut branches: Vec<Branch>,
) -> Result<Rooted, Memory>
    requires near { AllByRecursion (IsNear bridges) branches.items }
    requires few { length branches.items ≤ 255 }
    ensures { IfOk result (IsRootedBy bridges branches.items) }
{
    let mut up = vec![in alloc; None; bridges]?;
    let mut depth = vec![in alloc; 0u8; bridges]?;
    while let Some(branch) = branches.pop() {
        up[branch.bridge] = Some(branch.link as u8 + 1);
        depth[branch.bridge] = depth[branch.above] + 1;
    }
    Ok(Rooted {
        up: Seq::from_vec(up),
        depth: Seq::from_vec(depth),
    })
}
