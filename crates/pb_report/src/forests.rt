//! Whether the active links of each service are a forest.

ghost use Rattle.std.specs.Prelude.{◌≡◌, ◌++◌, List, ℕ, map, string_bytes, IfOk, OnOk};
ghost use Rattle.pb_lan.specs.Plans.{IsSound};
ghost use Rattle.pb_report.specs.ForestTexts.{AreLooping, IsForestText, forest_lines};

use pb_forest::forest;
use pb_frame::Memory;
use pb_lan::{Plan, Shape};
use std::alloc::Global;

/// Returns the names of the services whose active links form a loop, in the order of the plan.
fn looping<'a>(alloc: Global, plan: &'a Plan, shape: &Shape) -> Result<Vec<&'a str>, Memory>
    requires { IsSound plan.now }
    ensures { IfOk result (λ names. AreLooping plan.now shape.now plan.now.services (map (λ n. n.now) names.items)) }
{
    let mut names = Vec::new(alloc);
    for (index, service) in plan.services.as_slice().iter().enumerate() {
        if forest(alloc, shape, plan, index as u8 + 1)?.is_none() {
            names.push(service.name.as_str())?;
        }
    }
    Ok(names)
}

/// Appends a line that says whether there are loops, and one line for each loop.
fn put_loops(out: &mut String, names: &[&str]) -> Result<(), Memory>
    ensures { OnOk result (string_bytes out.new ≡ string_bytes out.old ++ forest_lines (map (λ n. n.now) names.now)) }
{
    if names.is_empty() {
        writeln!(out, "forest yes")?;
        return Ok(());
    }
    writeln!(out, "forest no")?;
    for name in names {
        writeln!(out, "loop {name}")?;
    }
    Ok(())
}

/// Appends whether the active links of each service are a forest.
///
/// The text is `forest yes`, or `forest no` and a line `loop NAME` for each service whose active links form a loop,
/// sorted by name. The plan is sound.
///
/// # Errors
///
/// `Memory` if an allocation failed.
pub fn put_forest(alloc: Global, out: &mut String, plan: &Plan, shape: &Shape) -> Result<(), Memory>
    requires { IsSound plan.now }
    ensures { OnOk result ((text : List ℕ) × (string_bytes out.new ≡ string_bytes out.old ++ text)
        × IsForestText plan.now shape.now text) }
{
    let mut names = looping(alloc, plan, shape)?;
    names.sort_unstable();
    put_loops(out, names.as_slice())
}
