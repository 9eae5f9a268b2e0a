//! Copies of steps, and of their lists and tallies.

use super::tally::{CountedStep, DONE, step, take};
use pb_history::Steps;
use pb_lan::Step;
use std::alloc::{AllocError, Global};
use std::test::Fail;

/// Checks whether the copy of a step is equal to it.
fn is_copied(step: &Step) -> Result<bool, AllocError> {
    let copy = step.clone()?;
    Ok(copy == *step)
}

/// Checks whether the copy of each step is equal to it.
fn steps_copy(alloc: Global) -> Result<bool, AllocError> {
    for counted in DONE {
        let step = step(alloc, *counted)?;
        if !is_copied(&step)? {
            return Ok(false);
        }
    }
    Ok(true)
}

#[test]
fn copies_of_steps_are_equal(rt: HostRuntime) -> Result<(), Fail> {
    assert!(rt; steps_copy(rt.alloc())?);
    Ok(())
}

/// Takes one more step if space for it is reserved.
fn take_one(alloc: Global, steps: &mut Steps) -> Result<(), AllocError> {
    if steps.has_room() {
        let _ = steps.append(step(alloc, CountedStep::Poll)?);
    }
    Ok(())
}

/// Checks whether a copy of a list with space for one more step takes it, and leaves the list as it is.
fn goes_on_alone(alloc: Global, mut steps: Steps) -> Result<bool, Fail> {
    let _given = take(alloc, &mut steps)?;
    steps.reserve()?;
    let mut copy = steps.clone()?;
    let is_same = copy.as_slice() == steps.as_slice() && copy.len() == 14;
    take_one(alloc, &mut copy)?;
    let counts = (steps.tally().entered(), copy.tally().entered());
    Ok(is_same && steps.len() == 14 && copy.len() == 15 && counts == (2, 3))
}

#[test]
fn a_copy_of_steps_goes_on_alone(rt: HostRuntime) -> Result<(), Fail> {
    assert!(rt; goes_on_alone(rt.alloc(), Steps::kept(rt.alloc()))?, "kept");
    assert!(rt;
        goes_on_alone(rt.alloc(), Steps::counted(rt.alloc()))?,
        "counted"
    );
    Ok(())
}
