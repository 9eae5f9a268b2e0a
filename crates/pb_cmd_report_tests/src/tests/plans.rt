//! Plan files, and the rows of the tables of their pages.

/// Three bridges in a line with given states. The link L2 does not carry the service blue. A comment has the characters
/// that HTML escapes.
pub(super) const LINE: &str = "\
# <b>A & \"B\"</b>\n\
bridge = [\n\
  { name = \"B1\", address = \"02-00-00-00-00-01\" },\n\
  { name = \"B2\", address = \"02-00-00-00-00-02\" },\n\
  { name = \"B3\", address = \"02-00-00-00-00-03\" },\n\
]\n\
link = [\n\
  { name = \"L1\", a = \"B1\", a_port = 1, b = \"B2\", b_port = 2 },\n\
  { name = \"L2\", a = \"B2\", a_port = 1, b = \"B3\", b_port = 2, a_services = [\"red\"] },\n\
]\n\
service = [{ name = \"red\", vid = 100 }, { name = \"blue\", vid = 200 }]\n\
port = [\n\
  { name = \"C1\", bridge = \"B1\", port = 3, service = \"red\" },\n\
  { name = \"C2\", bridge = \"B2\", port = 3, service = \"red\" },\n\
  { name = \"C3\", bridge = \"B3\", port = 3, service = \"red\" },\n\
  { name = \"C4\", bridge = \"B1\", port = 4, service = \"blue\" },\n\
  { name = \"C5\", bridge = \"B2\", port = 4, service = \"blue\" },\n\
]\n\
";

/// The rows of nothing down, of each link, of each bridge and of both links, of `LINE`.
pub(super) const LINE_FAILURES: &str = "\
<tr data-states=\"affaff\"><td>nothing down</td><td>states given</td><td></td><td></td></tr>\n\
<tr data-states=\"xxxaff\"><td>link L1 down</td><td>states given</td><td></td><td>red: C1 | C2 C3\n\
blue: C4 | C5\n\
</td></tr>\n\
<tr data-states=\"affxxx\"><td>link L2 down</td><td>states given</td><td></td><td>red: C1 C2 | C3\n\
</td></tr>\n\
<tr data-states=\"xxxaff\"><td>bridge B1 down</td><td>states given</td><td></td><td></td></tr>\n\
<tr data-states=\"xxxxxx\"><td>bridge B2 down</td><td>states given</td><td></td><td>red: C1 | C2 | C3\n\
</td></tr>\n\
<tr data-states=\"affxxx\"><td>bridge B3 down</td><td>states given</td><td></td><td></td></tr>\n\
<tr data-states=\"xxxxxx\"><td>links L1 L2 down</td><td>states given</td><td></td><td>red: C1 | C2 | C3\n\
blue: C4 | C5\n\
</td></tr>\n\
";

/// The rows of its services.
pub(super) const LINE_SERVICES: &str = "\
<tr><td>red</td><td>100</td><td> C1 C2 C3</td><td> L1 L2</td><td>healthy</td></tr>\n\
<tr><td>blue</td><td>200</td><td> C4 C5</td><td> L1</td><td>healthy</td></tr>\n\
";

/// The rows of its sites.
pub(super) const LINE_SITES: &str = "\
<tr><td>C1</td><td>red</td><td>B1</td><td>3</td></tr>\n\
<tr><td>C2</td><td>red</td><td>B2</td><td>3</td></tr>\n\
<tr><td>C3</td><td>red</td><td>B3</td><td>3</td></tr>\n\
<tr><td>C4</td><td>blue</td><td>B1</td><td>4</td></tr>\n\
<tr><td>C5</td><td>blue</td><td>B2</td><td>4</td></tr>\n\
";

/// The rows of its ports to other bridges.
pub(super) const LINE_TREE: &str = "\
<tr><td>B1</td><td>1</td><td>L1</td><td></td><td>forwarding</td></tr>\n\
<tr><td>B2</td><td>1</td><td>L2</td><td></td><td>forwarding</td></tr>\n\
<tr><td>B2</td><td>2</td><td>L1</td><td></td><td>forwarding</td></tr>\n\
<tr><td>B3</td><td>2</td><td>L2</td><td></td><td>forwarding</td></tr>\n\
";

/// The beginning of its text on the page.
pub(super) const LINE_PLAN: &str = "<pre># &lt;b&gt;A &amp; &quot;B&quot;&lt;/b&gt;\nbridge = [\n";

/// Three bridges in a ring that run the rapid spanning tree, with a customer port at two of them, and a service of one.
pub(super) const RING: &str = "\
network = { spanning = \"rstp\" }\n\
bridge = [\n\
  { name = \"B1\", address = \"02-00-00-00-00-01\" },\n\
  { name = \"B2\", address = \"02-00-00-00-00-02\" },\n\
  { name = \"B3\", address = \"02-00-00-00-00-03\" },\n\
]\n\
link = [\n\
  { name = \"L1\", a = \"B1\", a_port = 1, b = \"B2\", b_port = 2 },\n\
  { name = \"L2\", a = \"B2\", a_port = 1, b = \"B3\", b_port = 2 },\n\
  { name = \"L3\", a = \"B3\", a_port = 1, b = \"B1\", b_port = 2 },\n\
]\n\
service = [{ name = \"red\", vid = 100 }, { name = \"blue\", vid = 200 }]\n\
port = [\n\
  { name = \"C1\", bridge = \"B2\", port = 3, service = \"red\" },\n\
  { name = \"C2\", bridge = \"B3\", port = 3, service = \"red\" },\n\
  { name = \"C3\", bridge = \"B1\", port = 3, service = \"blue\" },\n\
]\n\
";

/// The rows of its ports to other bridges: B1 is the root, and L2 stands by at B3 (IEEE 802.1D-2004 clause 17).
pub(super) const RING_TREE: &str = "\
<tr><td>B1</td><td>1</td><td>L1</td><td>designated</td><td>forwarding</td><td>20000</td><td>B1</td></tr>\n\
<tr><td>B1</td><td>2</td><td>L3</td><td>designated</td><td>forwarding</td><td>20000</td><td>B1</td></tr>\n\
<tr><td>B2</td><td>1</td><td>L2</td><td>designated</td><td>forwarding</td><td>20000</td><td>B2</td></tr>\n\
<tr><td>B2</td><td>2</td><td>L1</td><td>root</td><td>forwarding</td><td>20000</td><td>B1</td></tr>\n\
<tr><td>B3</td><td>1</td><td>L3</td><td>root</td><td>forwarding</td><td>20000</td><td>B1</td></tr>\n\
<tr><td>B3</td><td>2</td><td>L2</td><td>alternate</td><td>discarding</td><td>20000</td><td>B2</td></tr>\n\
";

/// The rows of its services.
pub(super) const RING_SERVICES: &str = "\
<tr><td>red</td><td>100</td><td> C1 C2</td><td> L1 L3</td><td>healthy</td></tr>\n\
<tr><td>blue</td><td>200</td><td> C3</td><td> L1 L3</td><td>fewer than two sites</td></tr>\n\
";

/// The beginnings of the rows of nothing down and of each link.
pub(super) const RING_STATES: [&str; 4] = [
    "<tr data-states=\"affsfdaff\"><td>nothing down</td>",
    "<tr data-states=\"xxxaffaff\"><td>link L1 down</td>",
    "<tr data-states=\"affxxxaff\"><td>link L2 down</td>",
    "<tr data-states=\"affaffxxx\"><td>link L3 down</td>",
];

/// Two bridges that are joined by one link.
pub(super) const PAIR: &str = "\
bridge = [\n\
  { name = \"B1\", address = \"02-00-00-00-00-01\" },\n\
  { name = \"B2\", address = \"02-00-00-00-00-02\" },\n\
]\n\
link = [{ name = \"L1\", a = \"B1\", a_port = 1, b = \"B2\", b_port = 1 }]\n\
service = [{ name = \"red\", vid = 100 }]\n\
port = [\n\
  { name = \"C1\", bridge = \"B1\", port = 3, service = \"red\" },\n\
  { name = \"C2\", bridge = \"B2\", port = 3, service = \"red\" },\n\
]\n\
";

/// The same with a second link, which discards at B2.
pub(super) const PAIR_TWICE: &str = "\
bridge = [\n\
  { name = \"B1\", address = \"02-00-00-00-00-01\" },\n\
  { name = \"B2\", address = \"02-00-00-00-00-02\" },\n\
]\n\
link = [\n\
  { name = \"L1\", a = \"B1\", a_port = 1, b = \"B2\", b_port = 1 },\n\
  { name = \"L2\", a = \"B1\", a_port = 2, b = \"B2\", b_port = 2, b_state = \"discarding\" },\n\
]\n\
service = [{ name = \"red\", vid = 100 }]\n\
port = [\n\
  { name = \"C1\", bridge = \"B1\", port = 3, service = \"red\" },\n\
  { name = \"C2\", bridge = \"B2\", port = 3, service = \"red\" },\n\
]\n\
";

/// What `diff` prints for the two.
pub(super) const PAIR_CHANGE: &str = "\
link L2: added\n\
better: 0 of 2 failures; worse: 0 of 2 failures; with nothing down: no change\n\
";

/// The rows of nothing down and of each link, of the second.
pub(super) const PAIR_FAILURES: &str = "\
<tr data-states=\"affsfd\"><td>nothing down</td><td>states given</td><td></td><td></td></tr>\n\
<tr data-states=\"xxxsfd\"><td>link L1 down</td><td>states given</td><td></td><td>red: C1 | C2\n\
</td></tr>\n\
<tr data-states=\"affxxx\"><td>link L2 down</td><td>states given</td><td></td><td></td></tr>\n\
";
