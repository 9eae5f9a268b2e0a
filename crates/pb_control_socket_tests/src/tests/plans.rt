//! The networks of the tests.

ghost use Rattle.std.specs.Prelude.{IfOk};
ghost use Rattle.pb_lan.specs.Plans.{IsSound};

use pb_lan::Plan;
use pb_service::read_plan;
use std::alloc::Global;
use std::test::Fail;

/// Two bridges, a link between them, and three customer ports, none in the order of names.
const PLAN: &str = "\
bridge = [\n\
  { name = \"west\", address = \"02-00-00-00-00-01\" },\n\
  { name = \"east\", address = \"02-00-00-00-00-02\" },\n\
]\n\
link = [{ name = \"L1\", a = \"west\", a_port = 2, b = \"east\", b_port = 16 }]\n\
service = [{ name = \"red\", vid = 100 }]\n\
port = [\n\
  { name = \"shop\", bridge = \"west\", port = 1, service = \"red\" },\n\
  { name = \"Yard\", bridge = \"east\", port = 1, service = \"red\" },\n\
  { name = \"office\", bridge = \"east\", port = 2, service = \"red\" },\n\
]\n\
";

/// Four bridges, one of them without links, and three links, one of them with the name of a bridge.
const PARTS: &str = "\
bridge = [\n\
  { name = \"hub\", address = \"02-00-00-00-00-01\" },\n\
  { name = \"rim\", address = \"02-00-00-00-00-02\" },\n\
  { name = \"far\", address = \"02-00-00-00-00-03\" },\n\
  { name = \"alone\", address = \"02-00-00-00-00-04\" },\n\
]\n\
link = [\n\
  { name = \"spoke\", a = \"hub\", a_port = 1, b = \"rim\", b_port = 1 },\n\
  { name = \"chord\", a = \"rim\", a_port = 2, b = \"far\", b_port = 1 },\n\
  { name = \"far\", a = \"hub\", a_port = 2, b = \"far\", b_port = 2 },\n\
]\n\
service = [{ name = \"red\", vid = 100 }]\n\
port = [{ name = \"shop\", bridge = \"alone\", port = 1, service = \"red\" }]\n\
";

/// The reply to `counts`: capital letters come before small ones.
pub(super) const COUNTS: &str = "\
port Yard entered 102 left 18446744073709551613\n\
port office entered 103 left 18446744073709551612\n\
port shop entered 101 left 18446744073709551614\n\
bridge east refused 202 ticks 302\n\
bridge west refused 201 ticks 301\n\
peer Yard none\n\
peer shop connected\n\
ok\n\
";

/// The reply to `stations west`.
pub(super) const STATIONS: &str = "\
station west 100 02-00-00-00-00-01 port 16 age 0\n\
station west 4094 AB-CD-EF-09-90-FF port 1 age 999999\n\
ok\n\
";

/// The reply to `stations east`.
pub(super) const NO_STATIONS: &str = "no answer\n";

/// The reply to `tree`.
pub(super) const TREE: &str = "\
port east 1 root forwarding\n\
port east 16 alternate discarding\n\
port west 1 root forwarding\n\
port west 16 learning\n\
ok\n\
";

/// The reply to `drops`.
pub(super) const DROPS: &str = "\
bridge east port 1 not-forwarding 41\n\
bridge east port 2 no-port 42\n\
bridge east port 3 not-forwarding 43\n\
bridge east port 11 untagged 44\n\
bridge east port 16 no-port 18446744073709551615\n\
bridge west port 3 not-forwarding 1\n\
bridge west port 3 not-member 22\n\
bridge west port 3 untagged 333\n\
bridge west port 3 reserved 4\n\
bridge west port 3 malformed 55\n\
bridge west port 3 worn 666\n\
bridge west port 3 memory 7\n\
bridge west port 3 s-tagged 88\n\
bridge west port 3 long 999\n\
bridge west port 3 no-port 10\n\
ok\n\
";

/// The reply to `help`.
pub(super) const HELP: &str = "\
stop             end the run and print its report\n\
counts           frames that entered, left and found a full queue; peers\n\
tree             role and state of each port between bridges\n\
drops            frames that were dropped, by bridge, port and reason\n\
stations BRIDGE  stations that a bridge has learnt, with port and age\n\
down NAME        disable a link, a bridge or a port BRIDGE:PORT\n\
up NAME          enable it again\n\
help             print these lines\n\
ok\n\
";

/// Returns the plan of a plan file.
fn plan_of(alloc: Global, file: &str) -> Result<Plan, Fail>
    ensures { IfOk result (λ plan. IsSound plan) }
{
    match read_plan(alloc, file.as_bytes()) {
        Ok((plan, _ports)) => Ok(plan),
        Err(_) => Err(Fail::from("no plan")),
    }
}

/// Returns the network's plan.
pub(super) fn plan(alloc: Global) -> Result<Plan, Fail>
    ensures { IfOk result (λ plan. IsSound plan) }
{
    plan_of(alloc, PLAN)
}

/// Returns the plan with the parts.
pub(super) fn plan_with_parts(alloc: Global) -> Result<Plan, Fail>
    ensures { IfOk result (λ plan. IsSound plan) }
{
    plan_of(alloc, PARTS)
}
