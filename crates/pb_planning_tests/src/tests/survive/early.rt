//! A network whose spanning tree is complete some ticks after its bridges look quiet.

use super::counted::Counted;
use super::{any, ended, examined};
use std::test::Fail;

/// Six bridges and thirteen links. After the failure of `L4` both services are joined again, but only one tick after
/// the ports look as if nothing more would change.
const PLAN: &str = "\
network = { spanning = \"rstp\", prompt = false, queues = \"class\" }\n\
bridge = [\
{ name = \"B0\", address = \"02-00-00-00-00-38\", priority = 0 },\
{ name = \"B1\", address = \"02-00-00-00-00-2d\", priority = 32768 },\
{ name = \"B2\", address = \"02-00-00-00-00-29\", priority = 4096 },\
{ name = \"B3\", address = \"02-00-00-00-00-f6\", priority = 0 },\
{ name = \"B4\", address = \"02-00-00-00-00-25\", priority = 4096 },\
{ name = \"B5\", address = \"02-00-00-00-00-a2\", priority = 32768 }]\n\
link = [\
{ name = \"L0\", a = \"B1\", a_port = 1, b = \"B0\", b_port = 1, a_cost = 1, b_cost = 200, a_priority = 128, \
b_priority = 128 },\
{ name = \"L1\", a = \"B2\", a_port = 1, b = \"B4\", b_port = 1, a_cost = 20000, b_cost = 200000, \
a_priority = 16, b_priority = 240 },\
{ name = \"L2\", a = \"B1\", a_port = 2, b = \"B0\", b_port = 2, a_cost = 200, b_cost = 20000, \
a_priority = 128, b_priority = 128 },\
{ name = \"L3\", a = \"B4\", a_port = 2, b = \"B1\", b_port = 3, a_cost = 200000000, b_cost = 20000, \
a_priority = 128, b_priority = 128 },\
{ name = \"L4\", a = \"B0\", a_port = 3, b = \"B5\", b_port = 1, a_cost = 200, b_cost = 200, a_priority = 240, \
b_priority = 128 },\
{ name = \"L5\", a = \"B3\", a_port = 1, b = \"B4\", b_port = 3, a_cost = 200000, b_cost = 2000, \
a_priority = 128, b_priority = 240 },\
{ name = \"L6\", a = \"B4\", a_port = 4, b = \"B5\", b_port = 2, a_cost = 200, b_cost = 2000, a_priority = 128, \
b_priority = 0 },\
{ name = \"L7\", a = \"B3\", a_port = 2, b = \"B0\", b_port = 4, a_cost = 200000000, b_cost = 200000000, \
a_priority = 128, b_priority = 128 },\
{ name = \"L8\", a = \"B5\", a_port = 3, b = \"B2\", b_port = 2, a_cost = 20000, b_cost = 20000, \
a_priority = 128, b_priority = 128 },\
{ name = \"L9\", a = \"B0\", a_port = 5, b = \"B4\", b_port = 5, a_cost = 2000, b_cost = 20000, \
a_priority = 128, b_priority = 240 },\
{ name = \"L10\", a = \"B2\", a_port = 3, b = \"B4\", b_port = 6, a_cost = 20000, b_cost = 200000000, \
a_priority = 0, b_priority = 16, b_services = [\"red\", \"blue\"] },\
{ name = \"L11\", a = \"B2\", a_port = 4, b = \"B4\", b_port = 7, a_cost = 20000, b_cost = 20000, \
a_priority = 0, b_priority = 240 },\
{ name = \"L12\", a = \"B5\", a_port = 4, b = \"B3\", b_port = 3, a_cost = 200, b_cost = 1, a_priority = 128, \
b_priority = 128 }]\n\
service = [\
{ name = \"red\", vid = 5 },\
{ name = \"blue\", vid = 6 }]\n\
port = [\
{ name = \"C0\", bridge = \"B2\", port = 5, service = \"blue\" },\
{ name = \"C1\", bridge = \"B1\", port = 4, service = \"red\" },\
{ name = \"C2\", bridge = \"B3\", port = 4, service = \"red\" },\
{ name = \"C3\", bridge = \"B3\", port = 5, service = \"blue\" },\
{ name = \"C4\", bridge = \"B1\", port = 5, service = \"blue\" },\
{ name = \"C5\", bridge = \"B0\", port = 6, service = \"red\" }]\n";

#[test]
fn no_link_disconnects_bridges_that_converge_late(rt: HostRuntime) -> Result<(), Fail> {
    let alloc = rt.alloc();
    let mut output = Vec::new(alloc);
    let progress = Counted::new();
    let result = examined(&rt, alloc, PLAN.as_bytes(), &any(), &progress, &mut output);
    let text = std::str::from_utf8(output.as_slice()).unwrap_or("");
    assert!(rt; text.contains("\n13 of 13 failures disconnect nothing\n"));
    assert!(rt; text.ends_with("\nsurvives the failure of any one link\n"));
    assert_eq!(rt; result, Ok(ended(0)));
    Ok(())
}
