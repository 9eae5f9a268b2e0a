//! Plan files.

/// Two bridges that a link joins. Two customers of the service red, one of blue.
pub(super) const TWO: &str = "\
bridge = [{ name = \"B1\", address = \"02-00-00-00-00-01\" }, { name = \"B2\", address = \"02-00-00-00-00-02\" }]
link = [{ name = \"L1\", a = \"B1\", a_port = 1, b = \"B2\", b_port = 1 }]
service = [{ name = \"red\", vid = 100 }, { name = \"blue\", vid = 200 }]
port = [
  { name = \"C1\", bridge = \"B1\", port = 2, service = \"red\" },
  { name = \"C2\", bridge = \"B2\", port = 2, service = \"red\" },
  { name = \"C3\", bridge = \"B2\", port = 3, service = \"blue\" },
]
";

/// The bridges of `pb_fakes::plans::FAILOVER` with its link L2 alone.
pub(super) const WITHOUT_L1: &str = "\
network = { spanning = \"rstp\" }
bridge = [{ name = \"B1\", address = \"02-00-00-00-00-01\" }, { name = \"B2\", address = \"02-00-00-00-00-02\" }]
link = [{ name = \"L2\", a = \"B1\", a_port = 3, b = \"B2\", b_port = 3 }]
service = [{ name = \"red\", vid = 100 }]
port = [
  { name = \"C1\", bridge = \"B1\", port = 2, service = \"red\" },
  { name = \"C2\", bridge = \"B2\", port = 2, service = \"red\" },
]
";

/// Two bridges with a link whose far end carries no service. C1 has priority 3.
pub(super) const UNSERVED: &str = "\
bridge = [{ name = \"B1\", address = \"02-00-00-00-00-01\" }, { name = \"B2\", address = \"02-00-00-00-00-02\" }]
link = [{ name = \"L1\", a = \"B1\", a_port = 1, b = \"B2\", b_port = 1, b_services = [] }]
service = [{ name = \"red\", vid = 100 }]
port = [
  { name = \"C1\", bridge = \"B1\", port = 2, service = \"red\", pcp = 3 },
  { name = \"C2\", bridge = \"B2\", port = 2, service = \"red\" },
]
";

/// Three customers at one bridge.
pub(super) const ONE_BRIDGE: &str = "\
bridge = [{ name = \"B1\", address = \"02-00-00-00-00-01\" }]
service = [{ name = \"red\", vid = 100 }]
port = [
  { name = \"C1\", bridge = \"B1\", port = 1, service = \"red\" },
  { name = \"C2\", bridge = \"B1\", port = 2, service = \"red\" },
  { name = \"C3\", bridge = \"B1\", port = 3, service = \"red\" },
]
";

/// Three bridges in a ring with a forwarding loop.
pub(super) const RING: &str = "\
bridge = [
  { name = \"B1\", address = \"02-00-00-00-00-01\" },
  { name = \"B2\", address = \"02-00-00-00-00-02\" },
  { name = \"B3\", address = \"02-00-00-00-00-03\" },
]
link = [
  { name = \"L1\", a = \"B1\", a_port = 1, b = \"B2\", b_port = 2 },
  { name = \"L2\", a = \"B2\", a_port = 1, b = \"B3\", b_port = 2 },
  { name = \"L3\", a = \"B3\", a_port = 1, b = \"B1\", b_port = 2 },
]
service = [{ name = \"red\", vid = 100 }]
port = [{ name = \"C1\", bridge = \"B1\", port = 3, service = \"red\" }]
";

/// The same ring, with queues of one frame.
pub(super) const NARROW_RING: &str = "\
bridge = [
  { name = \"B1\", address = \"02-00-00-00-00-01\", queue = 1 },
  { name = \"B2\", address = \"02-00-00-00-00-02\", queue = 1 },
  { name = \"B3\", address = \"02-00-00-00-00-03\", queue = 1 },
]
link = [
  { name = \"L1\", a = \"B1\", a_port = 1, b = \"B2\", b_port = 2 },
  { name = \"L2\", a = \"B2\", a_port = 1, b = \"B3\", b_port = 2 },
  { name = \"L3\", a = \"B3\", a_port = 1, b = \"B1\", b_port = 2 },
]
service = [{ name = \"red\", vid = 100 }]
port = [{ name = \"C1\", bridge = \"B1\", port = 3, service = \"red\" }]
";
