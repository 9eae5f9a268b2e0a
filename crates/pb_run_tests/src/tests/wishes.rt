//! Ports that are disabled and enabled during a run.

use super::gates::Parting;
use super::networks::LINE;
use super::runs::{LONG, Outer, Setup, Way, ran};
use super::told::Told;
use pb_run::Ended;
use std::test::Fail;

/// Four bridges in a line. C1 gives three broadcasts.
const SETUP: Setup<'static> = Setup {
    draft: LINE,
    ports: &[
        Outer::Memory(3),
        Outer::Memory(0),
        Outer::Memory(0),
        Outer::Memory(0),
    ],
    limits: LONG,
    left: &[],
};

/// How a run ended, whether its record has drained, what entered and left at each port, how often port 2 of B1 was
/// shown Forwarding, and how often Discarding after that.
type Seen = (Option<Ended>, bool, [(u64, u64); 4], (u64, u64));

fn seen(told: &Told, gate: &Parting) -> Seen {
    (told.ended, told.is_drained, told.passed, gate.shown())
}

#[test]
fn a_port_that_is_set_down_sends_no_frame(rt: HostRuntime) -> Result<(), Fail> {
    const PARTED: [(u64, u64); 4] = [(3, 0), (0, 0), (0, 0), (0, 0)];
    let gate = Parting::new();
    let told = ran(&rt, rt.alloc(), &SETUP, &gate, Way::Set)?;
    let wanted = (Some(Ended::Drained), true, PARTED, (1, 1));
    assert_eq!(rt; seen(&told, &gate), wanted);
    Ok(())
}

#[test]
fn a_run_that_leaves_ports_alone_fulfils_no_wish(rt: HostRuntime) -> Result<(), Fail> {
    const WHOLE: [(u64, u64); 4] = [(3, 0), (0, 3), (0, 3), (0, 3)];
    let gate = Parting::new();
    let told = ran(&rt, rt.alloc(), &SETUP, &gate, Way::Counted)?;
    let wanted = (Some(Ended::Drained), true, WHOLE, (2, 0));
    assert_eq!(rt; seen(&told, &gate), wanted);
    Ok(())
}
