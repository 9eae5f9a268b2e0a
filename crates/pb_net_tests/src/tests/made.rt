//! Rows that allocate, or that make an event.

use super::asked::{does, enters};
use super::draft::Draft;
use super::expected::{event_of, events_of, long};
use super::rows::Act;
use pb_net::{Did, Net, NetFault};
use std::alloc::Global;
use std::test::Fail;

/// Checks whether the act's place takes its step.
pub(super) fn acts(net: &mut Net, act: Act) -> bool {
    does(net, event_of(act))
}

/// Checks whether an act has this result.
pub(super) fn answers(net: &mut Net, act: Act, wanted: Result<Did, NetFault>) -> bool {
    net.step(event_of(act)) == wanted
}

/// Checks whether a run over all acts has this result.
pub(super) fn runs(
    alloc: Global,
    net: &mut Net,
    acts: &[Act],
    wanted: Result<(), (u64, NetFault)>,
) -> Result<bool, Fail> {
    let events = events_of(alloc, acts)?;
    Ok(net.run(&events) == wanted)
}

/// Checks whether a frame that begins with these octets and has this many is polled at a customer port, and its bridge
/// receives it.
pub(super) fn enters_long(
    alloc: Global,
    net: &mut Net,
    draft: &Draft,
    customer: u8,
    (head, octets): (&[u8], usize),
) -> Result<bool, Fail> {
    let frame = long(alloc, head, octets)?;
    Ok(enters(net, draft, customer, frame))
}
