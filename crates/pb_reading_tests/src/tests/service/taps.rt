//! Taps of links.

use super::NETWORK;
use super::faults::{Change, all_change};
use pb_service::{PlanFault, Stamp, TapDirection, read_plan_file};
use std::alloc::Global;

#[test]
fn taps_are_of_links(rt: HostRuntime) -> Result<(), PlanFault> {
    const CHANGES: &[Change] = &[
        (
            "[[service]]\nname = \"red\"",
            "[[tap]]\nlink = \"L1\"\nwrite = \"w\"\n[[service]]\nname = \"red\"",
            "0 ok",
        ),
        (
            "[[service]]\nname = \"red\"",
            "[[tap]]\nlink = \"L1\"\nwrite = \"w\"\n\
            [[tap]]\nlink = \"L1\"\nwrite = \"\"\ndirection = \"ab\"\nstamp = \"ticks\"\n[[service]]\nname = \"red\"",
            "0 ok",
        ),
        (
            "[[service]]\nname = \"red\"",
            "[[tap]]\nlink = \"L2\"\nwrite = \"w\"\n[[service]]\nname = \"red\"",
            "8 no-such L2",
        ),
        (
            "[[service]]\nname = \"red\"",
            "[[tap]]\nlink = \"B1\"\nwrite = \"w\"\n[[service]]\nname = \"red\"",
            "8 no-such B1",
        ),
        (
            "[[service]]\nname = \"red\"",
            "[[tap]]\nwrite = \"w\"\n[[service]]\nname = \"red\"",
            "3 missing tap[0].link",
        ),
        (
            "[[service]]\nname = \"red\"",
            "[[tap]]\nlink = \"L1\"\n[[service]]\nname = \"red\"",
            "3 missing tap[0].write",
        ),
        (
            "[[service]]\nname = \"red\"",
            "[[tap]]\nlink = 1\nwrite = \"w\"\n[[service]]\nname = \"red\"",
            "4 kind tap[0].link",
        ),
        (
            "[[service]]\nname = \"red\"",
            "[[tap]]\nlink = \"L1\"\nwrite = \"w\"\ndirection = \"a\"\n[[service]]\nname = \"red\"",
            "5 range tap[0].direction",
        ),
        (
            "[[service]]\nname = \"red\"",
            "[[tap]]\nlink = \"L1\"\nwrite = \"w\"\ndirection = \"BOTH\"\n[[service]]\nname = \"red\"",
            "5 range tap[0].direction",
        ),
        (
            "[[service]]\nname = \"red\"",
            "[[tap]]\nlink = \"L1\"\nwrite = \"w\"\ndirection = [\"ab\"]\n[[service]]\nname = \"red\"",
            "4 kind tap[0].direction",
        ),
        (
            "[[service]]\nname = \"red\"",
            "[[tap]]\nlink = \"L1\"\nwrite = \"w\"\nstamp = \"time\"\n[[service]]\nname = \"red\"",
            "5 range tap[0].stamp",
        ),
        (
            "[[service]]\nname = \"red\"",
            "[[tap]]\nlink = \"L1\"\nwrite = \"w\"\nname = \"T\"\n[[service]]\nname = \"red\"",
            "6 unknown tap[0].name",
        ),
    ];
    all_change(&rt, rt.alloc(), CHANGES)
}

/// Returns the directions and stamps of the taps of a file, if all are of the first link.
fn taps_with(alloc: Global, tables: &str) -> Result<Vec<(TapDirection, Stamp)>, PlanFault> {
    let text = format!(in alloc; "{NETWORK}{tables}")?;
    let file = read_plan_file(alloc, text.as_bytes())?;
    let mut found = Vec::new(alloc);
    for tap in file.taps.as_slice() {
        if tap.link == 1 && tap.write.as_str() == "w" {
            found.push((tap.direction, tap.stamp))?;
        }
    }
    Ok(found)
}

/// Taps that follow the network's file.
const TAPS: &str = "[[tap]]\nlink = \"L1\"\nwrite = \"w\"\n[[tap]]\nlink = \"L1\"\nwrite = \"w\"\n\
    direction = \"ab\"\nstamp = \"ticks\"\n[[tap]]\nlink = \"L1\"\nwrite = \"w\"\ndirection = \"ba\"\n\
    [[tap]]\nlink = \"L1\"\nwrite = \"w\"\ndirection = \"both\"\n";

#[test]
fn taps_are_read_in_order(rt: HostRuntime) -> Result<(), PlanFault> {
    let taps = taps_with(rt.alloc(), TAPS)?;
    let want = [
        (TapDirection::Both, Stamp::Ticks),
        (TapDirection::Ab, Stamp::Ticks),
        (TapDirection::Ba, Stamp::Ticks),
        (TapDirection::Both, Stamp::Ticks),
    ];
    assert_eq!(rt; taps.as_slice(), want.as_slice());
    assert_eq!(rt; taps_with(rt.alloc(), "")?.len(), 0);
    Ok(())
}
