//! A network with names.

use pb_fakes::plans::PAIR;
use pb_lan::Plan;
use pb_service::read_plan;
use std::alloc::Global;
use std::test::Fail;

/// Bridges, links and customer ports whose names are not in the order of their octets.
const UNORDERED: &str = r#"
[[bridge]]
name = "west"
address = "02-00-00-00-00-01"

[[bridge]]
name = "east"
address = "02-00-00-00-00-02"

[[link]]
name = "span"
a = "west"
a_port = 1
b = "east"
b_port = 1

[[link]]
name = "arch"
a = "west"
a_port = 2
b = "east"
b_port = 2
a_state = "discarding"

[[service]]
name = "red"
vid = 100

[[port]]
name = "z"
bridge = "west"
port = 3
service = "red"

[[port]]
name = "Z"
bridge = "east"
port = 3
service = "red"

[[port]]
name = "a"
bridge = "east"
port = 4
service = "red"
"#;

/// Returns the network.
pub(super) fn network(alloc: Global) -> Result<Plan, Fail> {
    let (plan, _) = read_plan(alloc, PAIR.as_bytes())?;
    Ok(plan)
}

/// Returns the network whose names are in another order.
pub(super) fn unordered(alloc: Global) -> Result<Plan, Fail> {
    let (plan, _) = read_plan(alloc, UNORDERED.as_bytes())?;
    Ok(plan)
}
