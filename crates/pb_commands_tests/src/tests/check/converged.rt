//! The forest of a network after convergence.

use pb_cmd_check::run_converged_check;
use pb_fakes::{Full, plans};
use pb_messages::CommandFault;
use std::alloc::Global;
use std::process::Abort;

/// Checks that the check of a plan file with so many ticks ends with this status and text.
fn converges(rt: &impl Abort, alloc: Global, plan: &str, ticks: u32, status: u8, want: &str) {
    let mut output = Vec::new(alloc);
    let result = run_converged_check(alloc, plan.as_bytes(), ticks, &mut output);
    assert_eq!(rt; result, Ok(status));
    assert!(rt; output.as_slice() == want.as_bytes());
}

#[test]
fn a_spanning_tree_converges(rt: HostRuntime) {
    let alloc = rt.alloc();
    let plan = plans::FAILOVER;
    converges(
        &rt,
        alloc,
        plan,
        200,
        0,
        "ok bridges 2 links 2 services 1 ports 2\nforest yes\nconverged ticks 2\nconverged forest yes\n",
    );
    converges(
        &rt,
        alloc,
        plan,
        1,
        0,
        "ok bridges 2 links 2 services 1 ports 2\nforest yes\nnot converged ticks 1\nconverged forest yes\n",
    );
}

#[test]
fn given_states_converge(rt: HostRuntime) {
    let alloc = rt.alloc();
    converges(
        &rt,
        alloc,
        plans::METRO,
        200,
        0,
        "ok bridges 6 links 6 services 3 ports 7\nforest yes\nconverged forest yes\n",
    );
    converges(
        &rt,
        alloc,
        "[network]\nageing = 9\n",
        200,
        1,
        "plan: 5 range network.ageing\n",
    );
}

#[test]
fn a_failed_write_is_told(rt: HostRuntime) {
    let result = run_converged_check(
        rt.alloc(),
        plans::METRO.as_bytes(),
        200,
        &mut Full { room: 0 },
    );
    assert_eq!(&rt; result, Err(CommandFault::Write));
}
