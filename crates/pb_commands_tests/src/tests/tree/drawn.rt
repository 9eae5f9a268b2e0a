//! Spanning trees of the standard.
//!
//! The wirings, the roles and the costs are those of figures 17-4 to 17-7 of IEEE 802.1D-2004 and of two series of
//! failures, as in the public tests of Open vSwitch's rapid spanning tree. None comes from this program. A Designated
//! port whose neighbour is disabled is Discarding after convergence: nobody agrees to its proposal, and it waits two
//! forward delays, 30 ticks.

pub(super) const ONE: &str = "\
network = { spanning = \"rstp\" }\n\
bridge = [\n\
  { name = \"B0\", address = \"02-00-00-00-01-11\" },\n\
  { name = \"B1\", address = \"02-00-00-00-02-22\" },\n\
  { name = \"B2\", address = \"02-00-00-00-03-33\" },\n\
]\n\
link = [\n\
  { name = \"a\", a = \"B0\", a_port = 1, a_cost = 200000, b = \"B1\", b_port = 1, b_cost = 200000 },\n\
  { name = \"b\", a = \"B0\", a_port = 2, a_cost = 200000, b = \"B2\", b_port = 1, b_cost = 200000 },\n\
  { name = \"c\", a = \"B1\", a_port = 2, a_cost = 200000, b = \"B2\", b_port = 2, b_cost = 200000 },\n\
]\n\
";

pub(super) const TWO: &str = "\
network = { spanning = \"rstp\" }\n\
bridge = [\n\
  { name = \"B0\", address = \"02-00-00-00-01-11\" },\n\
  { name = \"B1\", address = \"02-00-00-00-02-22\" },\n\
  { name = \"B2\", address = \"02-00-00-00-03-33\" },\n\
  { name = \"B3\", address = \"02-00-00-00-04-44\" },\n\
  { name = \"B4\", address = \"02-00-00-00-05-55\" },\n\
]\n\
link = [\n\
  { name = \"a\", a = \"B0\", a_port = 1, a_cost = 200000, b = \"B1\", b_port = 1, b_cost = 200000 },\n\
  { name = \"b\", a = \"B0\", a_port = 2, a_cost = 200000, b = \"B2\", b_port = 1, b_cost = 200000 },\n\
  { name = \"c\", a = \"B1\", a_port = 2, a_cost = 200000, b = \"B2\", b_port = 2, b_cost = 200000 },\n\
  { name = \"d\", a = \"B1\", a_port = 3, a_cost = 200000, b = \"B3\", b_port = 1, b_cost = 200000 },\n\
  { name = \"e\", a = \"B2\", a_port = 3, a_cost = 200000, b = \"B4\", b_port = 1, b_cost = 200000 },\n\
  { name = \"f\", a = \"B3\", a_port = 2, a_cost = 200000, b = \"B4\", b_port = 2, b_cost = 200000 },\n\
]\n\
";

pub(super) const FIGURE_4: &str = "\
network = { spanning = \"rstp\" }\n\
bridge = [\n\
  { name = \"B0\", address = \"02-00-00-00-01-11\" },\n\
  { name = \"B1\", address = \"02-00-00-00-02-22\" },\n\
  { name = \"B2\", address = \"02-00-00-00-03-33\" },\n\
  { name = \"B3\", address = \"02-00-00-00-04-44\" },\n\
  { name = \"B4\", address = \"02-00-00-00-05-55\" },\n\
  { name = \"B5\", address = \"02-00-00-00-06-66\" },\n\
  { name = \"B6\", address = \"02-00-00-00-07-77\" },\n\
  { name = \"B7\", address = \"02-00-00-00-08-88\" },\n\
]\n\
link = [\n\
  { name = \"a\", a = \"B0\", a_port = 1, a_cost = 200000, b = \"B1\", b_port = 1, b_cost = 200000 },\n\
  { name = \"b\", a = \"B0\", a_port = 2, a_cost = 200000, b = \"B1\", b_port = 2, b_cost = 200000 },\n\
  { name = \"c\", a = \"B0\", a_port = 4, a_cost = 200000, b = \"B2\", b_port = 1, b_cost = 200000 },\n\
  { name = \"d\", a = \"B1\", a_port = 3, a_cost = 200000, b = \"B2\", b_port = 2, b_cost = 200000 },\n\
  { name = \"e\", a = \"B0\", a_port = 3, a_cost = 200000, b = \"B3\", b_port = 1, b_cost = 200000 },\n\
  { name = \"f\", a = \"B1\", a_port = 4, a_cost = 200000, b = \"B3\", b_port = 2, b_cost = 200000 },\n\
  { name = \"g\", a = \"B2\", a_port = 6, a_cost = 200000, b = \"B4\", b_port = 1, b_cost = 200000 },\n\
  { name = \"h\", a = \"B2\", a_port = 5, a_cost = 200000, b = \"B5\", b_port = 1, b_cost = 200000 },\n\
  { name = \"i\", a = \"B3\", a_port = 6, a_cost = 200000, b = \"B4\", b_port = 2, b_cost = 200000 },\n\
  { name = \"j\", a = \"B2\", a_port = 4, a_cost = 200000, b = \"B6\", b_port = 1, b_cost = 200000 },\n\
  { name = \"k\", a = \"B3\", a_port = 5, a_cost = 200000, b = \"B5\", b_port = 2, b_cost = 200000 },\n\
  { name = \"l\", a = \"B2\", a_port = 3, a_cost = 200000, b = \"B7\", b_port = 1, b_cost = 200000 },\n\
  { name = \"m\", a = \"B3\", a_port = 4, a_cost = 200000, b = \"B6\", b_port = 2, b_cost = 200000 },\n\
  { name = \"n\", a = \"B3\", a_port = 3, a_cost = 200000, b = \"B7\", b_port = 2, b_cost = 200000 },\n\
]\n\
";

pub(super) const FIGURE_5: &str = "\
network = { spanning = \"rstp\" }\n\
bridge = [\n\
  { name = \"B0\", address = \"02-00-00-00-01-11\" },\n\
  { name = \"B1\", address = \"02-00-00-00-02-22\" },\n\
  { name = \"B2\", address = \"02-00-00-00-03-33\" },\n\
  { name = \"B3\", address = \"02-00-00-00-04-44\" },\n\
  { name = \"B4\", address = \"02-00-00-00-05-55\" },\n\
  { name = \"B5\", address = \"02-00-00-00-06-66\" },\n\
  { name = \"B6\", address = \"02-00-00-00-07-77\" },\n\
  { name = \"B7\", address = \"02-00-00-00-08-88\" },\n\
]\n\
link = [\n\
  { name = \"a\", a = \"B0\", a_port = 1, a_cost = 200000, b = \"B1\", b_port = 1, b_cost = 200000 },\n\
  { name = \"b\", a = \"B0\", a_port = 2, a_cost = 200000, b = \"B1\", b_port = 2, b_cost = 200000 },\n\
  { name = \"c\", a = \"B0\", a_port = 4, a_cost = 200000, b = \"B2\", b_port = 1, b_cost = 200000 },\n\
  { name = \"d\", a = \"B1\", a_port = 3, a_cost = 200000, b = \"B2\", b_port = 2, b_cost = 200000 },\n\
  { name = \"e\", a = \"B0\", a_port = 3, a_cost = 200000, b = \"B3\", b_port = 1, b_cost = 200000 },\n\
  { name = \"f\", a = \"B1\", a_port = 4, a_cost = 200000, b = \"B3\", b_port = 2, b_cost = 200000 },\n\
  { name = \"g\", a = \"B2\", a_port = 6, a_cost = 200000, b = \"B4\", b_port = 1, b_cost = 200000 },\n\
  { name = \"h\", a = \"B2\", a_port = 5, a_cost = 200000, b = \"B5\", b_port = 1, b_cost = 200000 },\n\
  { name = \"i\", a = \"B3\", a_port = 6, a_cost = 200000, b = \"B4\", b_port = 2, b_cost = 200000 },\n\
  { name = \"j\", a = \"B2\", a_port = 4, a_cost = 200000, b = \"B6\", b_port = 1, b_cost = 200000 },\n\
  { name = \"k\", a = \"B3\", a_port = 5, a_cost = 200000, b = \"B5\", b_port = 2, b_cost = 200000 },\n\
  { name = \"l\", a = \"B2\", a_port = 3, a_cost = 200000, b = \"B7\", b_port = 1, b_cost = 200000 },\n\
  { name = \"m\", a = \"B3\", a_port = 4, a_cost = 200000, b = \"B6\", b_port = 2, b_cost = 200000 },\n\
  { name = \"n\", a = \"B3\", a_port = 3, a_cost = 200000, b = \"B7\", b_port = 2, b_cost = 200000 },\n\
  { name = \"o\", a = \"B7\", a_port = 3, a_cost = 200000, b = \"B7\", b_port = 4, b_cost = 200000 },\n\
]\n\
";

pub(super) const FIGURE_6: &str = "\
network = { spanning = \"rstp\" }\n\
bridge = [\n\
  { name = \"B0\", address = \"02-00-00-00-01-11\" },\n\
  { name = \"B1\", address = \"02-00-00-00-02-22\" },\n\
  { name = \"B2\", address = \"02-00-00-00-03-33\" },\n\
  { name = \"B3\", address = \"02-00-00-00-04-44\" },\n\
  { name = \"B4\", address = \"02-00-00-00-05-55\" },\n\
  { name = \"B5\", address = \"02-00-00-00-06-66\" },\n\
]\n\
link = [\n\
  { name = \"b\", a = \"B0\", a_port = 2, a_cost = 200000, b = \"B1\", b_port = 1, b_cost = 200000 },\n\
  { name = \"d\", a = \"B1\", a_port = 3, a_cost = 200000, b = \"B2\", b_port = 1, b_cost = 200000 },\n\
  { name = \"f\", a = \"B2\", a_port = 3, a_cost = 200000, b = \"B3\", b_port = 1, b_cost = 200000 },\n\
  { name = \"h\", a = \"B3\", a_port = 3, a_cost = 200000, b = \"B4\", b_port = 2, b_cost = 200000 },\n\
  { name = \"j\", a = \"B4\", a_port = 1, a_cost = 200000, b = \"B5\", b_port = 2, b_cost = 200000 },\n\
  { name = \"l\", a = \"B0\", a_port = 3, a_cost = 200000, b = \"B5\", b_port = 1, b_cost = 200000 },\n\
]\n\
";

pub(super) const FIGURE_7: &str = "\
network = { spanning = \"rstp\" }\n\
bridge = [\n\
  { name = \"B0\", address = \"02-00-00-00-00-00\" },\n\
  { name = \"B1\", address = \"02-00-00-00-01-11\" },\n\
  { name = \"B2\", address = \"02-00-00-00-02-22\" },\n\
]\n\
link = [\n\
  { name = \"b\", a = \"B0\", a_port = 1, a_cost = 200000, b = \"B1\", b_port = 2, b_cost = 200000 },\n\
  { name = \"g\", a = \"B1\", a_port = 6, a_cost = 200000, b = \"B2\", b_port = 1, b_cost = 200000 },\n\
  { name = \"h\", a = \"B1\", a_port = 5, a_cost = 200000, b = \"B2\", b_port = 2, b_cost = 200000 },\n\
]\n\
";

pub(super) const ONE_TREES: &str = "\
converged ticks 2\n\
bridge B0 root B0 cost 0\n\
port B0 1 link a designated forwarding cost 200000 from B0\n\
port B0 2 link b designated forwarding cost 200000 from B0\n\
bridge B1 root B0 cost 200000 port 1\n\
port B1 1 link a root forwarding cost 200000 from B0\n\
port B1 2 link c designated forwarding cost 200000 from B1\n\
bridge B2 root B0 cost 200000 port 1\n\
port B2 1 link b root forwarding cost 200000 from B0\n\
port B2 2 link c alternate discarding cost 200000 from B1\n\
forest yes\n";

pub(super) const ONE_DOWN_TREES: &str = "\
converged ticks 2\n\
bridge B0 root B0 cost 0\n\
port B0 1 link a designated forwarding cost 200000 from B0\n\
port B0 2 link b designated discarding cost 200000 from B0\n\
bridge B1 root B0 cost 200000 port 1\n\
port B1 1 link a root forwarding cost 200000 from B0\n\
port B1 2 link c designated forwarding cost 200000 from B1\n\
bridge B2 root B0 cost 400000 port 2\n\
port B2 1 link b disabled discarding cost 200000 from B2\n\
port B2 2 link c root forwarding cost 200000 from B1\n\
forest yes\n";

/// The trees of `ONE` without the link b.
pub(super) const ONE_LINK_TREES: &str = "\
converged ticks 2\n\
bridge B0 root B0 cost 0\n\
port B0 1 link a designated forwarding cost 200000 from B0\n\
port B0 2 link b disabled discarding cost 200000 from B0\n\
bridge B1 root B0 cost 200000 port 1\n\
port B1 1 link a root forwarding cost 200000 from B0\n\
port B1 2 link c designated forwarding cost 200000 from B1\n\
bridge B2 root B0 cost 400000 port 2\n\
port B2 1 link b disabled discarding cost 200000 from B2\n\
port B2 2 link c root forwarding cost 200000 from B1\n\
forest yes\n";

/// The trees of `ONE` without the links a and c of the bridge B1, which is its own root.
pub(super) const ONE_BRIDGE_TREES: &str = "\
converged ticks 2\n\
bridge B0 root B0 cost 0\n\
port B0 1 link a disabled discarding cost 200000 from B0\n\
port B0 2 link b designated forwarding cost 200000 from B0\n\
bridge B1 root B1 cost 0\n\
port B1 1 link a disabled discarding cost 200000 from B1\n\
port B1 2 link c disabled discarding cost 200000 from B1\n\
bridge B2 root B0 cost 200000 port 1\n\
port B2 1 link b root forwarding cost 200000 from B0\n\
port B2 2 link c disabled discarding cost 200000 from B2\n\
forest yes\n";

pub(super) const TWO_TREES: &str = "\
converged ticks 2\n\
bridge B0 root B0 cost 0\n\
port B0 1 link a designated forwarding cost 200000 from B0\n\
port B0 2 link b designated forwarding cost 200000 from B0\n\
bridge B1 root B0 cost 200000 port 1\n\
port B1 1 link a root forwarding cost 200000 from B0\n\
port B1 2 link c designated forwarding cost 200000 from B1\n\
port B1 3 link d designated forwarding cost 200000 from B1\n\
bridge B2 root B0 cost 200000 port 1\n\
port B2 1 link b root forwarding cost 200000 from B0\n\
port B2 2 link c alternate discarding cost 200000 from B1\n\
port B2 3 link e designated forwarding cost 200000 from B2\n\
bridge B3 root B0 cost 400000 port 1\n\
port B3 1 link d root forwarding cost 200000 from B1\n\
port B3 2 link f designated forwarding cost 200000 from B3\n\
bridge B4 root B0 cost 400000 port 1\n\
port B4 1 link e root forwarding cost 200000 from B2\n\
port B4 2 link f alternate discarding cost 200000 from B3\n\
forest yes\n";

pub(super) const TWO_DOWN_TREES: &str = "\
converged ticks 2\n\
bridge B0 root B0 cost 0\n\
port B0 1 link a designated forwarding cost 200000 from B0\n\
port B0 2 link b designated discarding cost 200000 from B0\n\
bridge B1 root B0 cost 200000 port 1\n\
port B1 1 link a root forwarding cost 200000 from B0\n\
port B1 2 link c designated forwarding cost 200000 from B1\n\
port B1 3 link d designated forwarding cost 200000 from B1\n\
bridge B2 root B0 cost 400000 port 2\n\
port B2 1 link b disabled discarding cost 200000 from B2\n\
port B2 2 link c root forwarding cost 200000 from B1\n\
port B2 3 link e designated forwarding cost 200000 from B2\n\
bridge B3 root B0 cost 400000 port 1\n\
port B3 1 link d root forwarding cost 200000 from B1\n\
port B3 2 link f designated forwarding cost 200000 from B3\n\
bridge B4 root B0 cost 600000 port 1\n\
port B4 1 link e root forwarding cost 200000 from B2\n\
port B4 2 link f alternate discarding cost 200000 from B3\n\
forest yes\n";

pub(super) const TWO_BOTH_TREES: &str = "\
converged ticks 2\n\
bridge B0 root B0 cost 0\n\
port B0 1 link a designated forwarding cost 200000 from B0\n\
port B0 2 link b designated discarding cost 200000 from B0\n\
bridge B1 root B0 cost 200000 port 1\n\
port B1 1 link a root forwarding cost 200000 from B0\n\
port B1 2 link c designated forwarding cost 200000 from B1\n\
port B1 3 link d designated forwarding cost 200000 from B1\n\
bridge B2 root B0 cost 400000 port 2\n\
port B2 1 link b disabled discarding cost 200000 from B2\n\
port B2 2 link c root forwarding cost 200000 from B1\n\
port B2 3 link e designated discarding cost 200000 from B2\n\
bridge B3 root B0 cost 400000 port 1\n\
port B3 1 link d root forwarding cost 200000 from B1\n\
port B3 2 link f designated forwarding cost 200000 from B3\n\
bridge B4 root B0 cost 600000 port 2\n\
port B4 1 link e disabled discarding cost 200000 from B4\n\
port B4 2 link f root forwarding cost 200000 from B3\n\
forest yes\n";

pub(super) const FIGURE_4_TREES: &str = "\
converged ticks 2\n\
bridge B0 root B0 cost 0\n\
port B0 1 link a designated forwarding cost 200000 from B0\n\
port B0 2 link b designated forwarding cost 200000 from B0\n\
port B0 3 link e designated forwarding cost 200000 from B0\n\
port B0 4 link c designated forwarding cost 200000 from B0\n\
bridge B1 root B0 cost 200000 port 1\n\
port B1 1 link a root forwarding cost 200000 from B0\n\
port B1 2 link b alternate discarding cost 200000 from B0\n\
port B1 3 link d designated forwarding cost 200000 from B1\n\
port B1 4 link f designated forwarding cost 200000 from B1\n\
bridge B2 root B0 cost 200000 port 1\n\
port B2 1 link c root forwarding cost 200000 from B0\n\
port B2 2 link d alternate discarding cost 200000 from B1\n\
port B2 3 link l designated forwarding cost 200000 from B2\n\
port B2 4 link j designated forwarding cost 200000 from B2\n\
port B2 5 link h designated forwarding cost 200000 from B2\n\
port B2 6 link g designated forwarding cost 200000 from B2\n\
bridge B3 root B0 cost 200000 port 1\n\
port B3 1 link e root forwarding cost 200000 from B0\n\
port B3 2 link f alternate discarding cost 200000 from B1\n\
port B3 3 link n designated forwarding cost 200000 from B3\n\
port B3 4 link m designated forwarding cost 200000 from B3\n\
port B3 5 link k designated forwarding cost 200000 from B3\n\
port B3 6 link i designated forwarding cost 200000 from B3\n\
bridge B4 root B0 cost 400000 port 1\n\
port B4 1 link g root forwarding cost 200000 from B2\n\
port B4 2 link i alternate discarding cost 200000 from B3\n\
bridge B5 root B0 cost 400000 port 1\n\
port B5 1 link h root forwarding cost 200000 from B2\n\
port B5 2 link k alternate discarding cost 200000 from B3\n\
bridge B6 root B0 cost 400000 port 1\n\
port B6 1 link j root forwarding cost 200000 from B2\n\
port B6 2 link m alternate discarding cost 200000 from B3\n\
bridge B7 root B0 cost 400000 port 1\n\
port B7 1 link l root forwarding cost 200000 from B2\n\
port B7 2 link n alternate discarding cost 200000 from B3\n\
forest yes\n";

pub(super) const FIGURE_5_TREES: &str = "\
converged ticks 2\n\
bridge B0 root B0 cost 0\n\
port B0 1 link a designated forwarding cost 200000 from B0\n\
port B0 2 link b designated forwarding cost 200000 from B0\n\
port B0 3 link e designated forwarding cost 200000 from B0\n\
port B0 4 link c designated forwarding cost 200000 from B0\n\
bridge B1 root B0 cost 200000 port 1\n\
port B1 1 link a root forwarding cost 200000 from B0\n\
port B1 2 link b alternate discarding cost 200000 from B0\n\
port B1 3 link d designated forwarding cost 200000 from B1\n\
port B1 4 link f designated forwarding cost 200000 from B1\n\
bridge B2 root B0 cost 200000 port 1\n\
port B2 1 link c root forwarding cost 200000 from B0\n\
port B2 2 link d alternate discarding cost 200000 from B1\n\
port B2 3 link l designated forwarding cost 200000 from B2\n\
port B2 4 link j designated forwarding cost 200000 from B2\n\
port B2 5 link h designated forwarding cost 200000 from B2\n\
port B2 6 link g designated forwarding cost 200000 from B2\n\
bridge B3 root B0 cost 200000 port 1\n\
port B3 1 link e root forwarding cost 200000 from B0\n\
port B3 2 link f alternate discarding cost 200000 from B1\n\
port B3 3 link n designated forwarding cost 200000 from B3\n\
port B3 4 link m designated forwarding cost 200000 from B3\n\
port B3 5 link k designated forwarding cost 200000 from B3\n\
port B3 6 link i designated forwarding cost 200000 from B3\n\
bridge B4 root B0 cost 400000 port 1\n\
port B4 1 link g root forwarding cost 200000 from B2\n\
port B4 2 link i alternate discarding cost 200000 from B3\n\
bridge B5 root B0 cost 400000 port 1\n\
port B5 1 link h root forwarding cost 200000 from B2\n\
port B5 2 link k alternate discarding cost 200000 from B3\n\
bridge B6 root B0 cost 400000 port 1\n\
port B6 1 link j root forwarding cost 200000 from B2\n\
port B6 2 link m alternate discarding cost 200000 from B3\n\
bridge B7 root B0 cost 400000 port 1\n\
port B7 1 link l root forwarding cost 200000 from B2\n\
port B7 2 link n alternate discarding cost 200000 from B3\n\
port B7 3 link o designated forwarding cost 200000 from B7\n\
port B7 4 link o backup discarding cost 200000 from B7\n\
forest yes\n";

pub(super) const FIGURE_6_TREES: &str = "\
converged ticks 3\n\
bridge B0 root B0 cost 0\n\
port B0 2 link b designated forwarding cost 200000 from B0\n\
port B0 3 link l designated forwarding cost 200000 from B0\n\
bridge B1 root B0 cost 200000 port 1\n\
port B1 1 link b root forwarding cost 200000 from B0\n\
port B1 3 link d designated forwarding cost 200000 from B1\n\
bridge B2 root B0 cost 400000 port 1\n\
port B2 1 link d root forwarding cost 200000 from B1\n\
port B2 3 link f designated forwarding cost 200000 from B2\n\
bridge B3 root B0 cost 600000 port 1\n\
port B3 1 link f root forwarding cost 200000 from B2\n\
port B3 3 link h alternate discarding cost 200000 from B4\n\
bridge B4 root B0 cost 400000 port 1\n\
port B4 1 link j root forwarding cost 200000 from B5\n\
port B4 2 link h designated forwarding cost 200000 from B4\n\
bridge B5 root B0 cost 200000 port 1\n\
port B5 1 link l root forwarding cost 200000 from B0\n\
port B5 2 link j designated forwarding cost 200000 from B5\n\
forest yes\n";

pub(super) const FIGURE_7_TREES: &str = "\
converged ticks 2\n\
bridge B0 root B0 cost 0\n\
port B0 1 link b designated forwarding cost 200000 from B0\n\
bridge B1 root B0 cost 200000 port 2\n\
port B1 2 link b root forwarding cost 200000 from B0\n\
port B1 5 link h designated forwarding cost 200000 from B1\n\
port B1 6 link g designated forwarding cost 200000 from B1\n\
bridge B2 root B0 cost 400000 port 2\n\
port B2 1 link g alternate discarding cost 200000 from B1\n\
port B2 2 link h root forwarding cost 200000 from B1\n\
forest yes\n";
