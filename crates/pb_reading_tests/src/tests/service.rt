//! Tests of plan files without failing allocations.

mod both_ends;
mod faults;
mod framing;
mod kinds;
mod lossless;
mod order;
mod plans;
mod ranges;
mod taps;
mod udp;

use pb_service::{PlanFault, read_plan};
use std::alloc::Global;
use std::process::Abort;

/// The network of two bridges from which the tests begin.
const NETWORK: &str = "\
[[bridge]]
name = \"B1\"
address = \"02-00-00-00-00-01\"
[[bridge]]
name = \"B2\"
address = \"02-00-00-00-00-02\"
[[link]]
name = \"L1\"
a = \"B1\"
a_port = 1
b = \"B2\"
b_port = 1
[[service]]
name = \"red\"
vid = 100
[[service]]
name = \"blue\"
vid = 200
[[port]]
name = \"C1\"
bridge = \"B1\"
port = 2
service = \"red\"
[[port]]
name = \"C2\"
bridge = \"B2\"
port = 2
service = \"red\"
[[port]]
name = \"C3\"
bridge = \"B2\"
port = 3
service = \"blue\"
";

/// Returns whether the fault has this number and text.
fn is_fault(alloc: Global, fault: &PlanFault, want: &str) -> Result<bool, PlanFault> {
    let number = fault.number();
    let text = format!(in alloc; "{number} {fault}")?;
    Ok(text.as_str() == want)
}

/// Returns whether a file has the fault with this number and text, or none if that is `0 ok`.
fn tells(alloc: Global, file: &[u8], want: &str) -> Result<bool, PlanFault> {
    match read_plan(alloc, file).err() {
        Some(fault) => is_fault(alloc, &fault, want),
        None => Ok(want == "0 ok"),
    }
}

/// Asserts that a file has the fault with this number and text, or none if that is `0 ok`.
fn told(rt: &impl Abort, alloc: Global, file: &[u8], want: &str) -> Result<(), PlanFault> {
    assert!(rt; tells(alloc, file, want)?, "{want}");
    Ok(())
}
