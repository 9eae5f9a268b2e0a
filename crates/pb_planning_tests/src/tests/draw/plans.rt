//! Plans, and the pieces of their pictures.
//!
//! The states follow from the plan files, or, if the bridges run the protocol, from IEEE 802.1D-2004 clause 17.6: the
//! root is the bridge with the lowest identifier, and of two bridges that are as far from it the lower one is the
//! Designated bridge of their link.

/// A ring of three bridges with given states: L3 is Discarding at B3. L2 does not carry the service blue, and loses two
/// frames.
pub(super) const GIVEN: &str = "\
bridge = [\n\
  { name = \"B1\", address = \"02-00-00-00-00-01\" },\n\
  { name = \"B2\", address = \"02-00-00-00-00-02\", priority = 4096 },\n\
  { name = \"B3\", address = \"02-00-00-00-00-03\" },\n\
]\n\
link = [\n\
  { name = \"L1\", a = \"B1\", a_port = 1, b = \"B2\", b_port = 2 },\n\
  { name = \"L2\", a = \"B2\", a_port = 1, b = \"B3\", b_port = 2, a_services = [\"red\"], lost_ab = [0, 4] },\n\
  { name = \"L3\", a = \"B3\", a_port = 1, a_state = \"discarding\", b = \"B1\", b_port = 2 },\n\
]\n\
service = [{ name = \"red\", vid = 100 }, { name = \"blue\", vid = 200 }]\n\
port = [\n\
  { name = \"C1\", bridge = \"B1\", port = 3, service = \"red\" },\n\
  { name = \"C2\", bridge = \"B3\", port = 3, service = \"red\" },\n\
  { name = \"C3\", bridge = \"B2\", port = 16, service = \"blue\" },\n\
]\n\
";

/// A bridge and a link with the name B1.
pub(super) const SAME_NAMES: &str = "\
bridge = [\n\
  { name = \"B1\", address = \"02-00-00-00-00-01\" },\n\
  { name = \"B2\", address = \"02-00-00-00-00-02\" },\n\
]\n\
link = [{ name = \"B1\", a = \"B1\", a_port = 1, b = \"B2\", b_port = 2 }]\n\
";

/// A ring of three bridges that run the protocol, without a service.
pub(super) const RING: &str = "\
network = { spanning = \"rstp\" }\n\
bridge = [\n\
  { name = \"B0\", address = \"02-00-00-00-01-11\" },\n\
  { name = \"B1\", address = \"02-00-00-00-02-22\" },\n\
  { name = \"B2\", address = \"02-00-00-00-03-33\" },\n\
]\n\
link = [\n\
  { name = \"a\", a = \"B0\", a_port = 1, b = \"B1\", b_port = 1 },\n\
  { name = \"b\", a = \"B0\", a_port = 2, b = \"B2\", b_port = 1 },\n\
  { name = \"c\", a = \"B1\", a_port = 2, b = \"B2\", b_port = 2 },\n\
]\n\
";

/// A forwarding loop of three bridges. The service red has one customer port, and the service blue two at one bridge.
pub(super) const LOOP: &str = "\
bridge = [\n\
  { name = \"B1\", address = \"02-00-00-00-00-01\" },\n\
  { name = \"B2\", address = \"02-00-00-00-00-02\" },\n\
  { name = \"B3\", address = \"02-00-00-00-00-03\" },\n\
]\n\
link = [\n\
  { name = \"L1\", a = \"B1\", a_port = 1, b = \"B2\", b_port = 2 },\n\
  { name = \"L2\", a = \"B2\", a_port = 1, b = \"B3\", b_port = 2 },\n\
  { name = \"L3\", a = \"B3\", a_port = 1, b = \"B1\", b_port = 2 },\n\
]\n\
service = [{ name = \"red\", vid = 100 }, { name = \"blue\", vid = 200 }]\n\
port = [\n\
  { name = \"C1\", bridge = \"B1\", port = 3, service = \"red\" },\n\
  { name = \"C2\", bridge = \"B2\", port = 3, service = \"blue\" },\n\
  { name = \"C3\", bridge = \"B2\", port = 4, service = \"blue\" },\n\
]\n\
";

/// No path leads from the only port of red to another one.
pub(super) const LOOP_RED_PIECES: &[Piece] = &[
    ("class=\"link active faint\"", 3),
    ("class=\"bridge up lit\"", 1),
];

/// A frame from one port of blue reaches the other one round the loop.
pub(super) const LOOP_BLUE_PIECES: &[Piece] = &[
    ("class=\"link active lit\"", 3),
    ("class=\"bridge up lit\"", 3),
];

/// A piece of a text, and how often it is there.
pub(super) type Piece = (&'static str, usize);

pub(super) const GIVEN_PIECES: &[Piece] = &[
    ("<svg xmlns=\"http://www.w3.org/2000/svg\"", 1),
    ("<title>Bridges 3, links 3</title>", 1),
    (
        "<title>bridge B1, address 02-00-00-00-00-01, priority 32768</title>",
        1,
    ),
    (
        "<title>bridge B2, address 02-00-00-00-00-02, priority 4096</title>",
        1,
    ),
    (
        "<title>bridge B3, address 02-00-00-00-00-03, priority 32768</title>",
        1,
    ),
    (
        "<title>link L1: B1 port 1 forwarding, B2 port 2 forwarding</title>",
        1,
    ),
    (
        "<title>link L2: B2 port 1 forwarding, B3 port 2 forwarding, loses 2 to B3 and 0 to B2</title>",
        1,
    ),
    (
        "<title>link L3: B3 port 1 discarding, B1 port 2 forwarding</title>",
        1,
    ),
    ("<title>port C1: B1 port 3, service red, VID 100</title>", 1),
    ("<title>port C2: B3 port 3, service red, VID 100</title>", 1),
    (
        "<title>port C3: B2 port 16, service blue, VID 200</title>",
        1,
    ),
    ("<title>service red, VID 100</title>", 1),
    ("<title>service blue, VID 200</title>", 1),
    ("class=\"link active plain\"", 2),
    ("class=\"link standby plain\"", 1),
    ("class=\"ends active plain\"", 2),
    ("class=\"bridge up plain\"", 3),
    ("class=\"port c0 d1 plain up\"", 2),
    ("class=\"port c1 d1 plain up\"", 1),
    ("<g id=\"bridge-B2\" ", 1),
    ("<g id=\"link-L1\" ", 1),
    ("<g id=\"ends-L1\" ", 1),
    ("<g id=\"port-C3\" ", 1),
    ("<g id=\"service-blue\" ", 1),
    (
        "data-bridge=\"B2\" data-role=\"bridge\" data-state=\"up\"",
        1,
    ),
    (
        "data-link=\"L2\" data-a=\"B2:1\" data-b=\"B3:2\" data-state=\"active\"",
        2,
    ),
    (
        "data-port=\"C3\" data-bridge=\"B2\" data-service=\"blue\" data-state=\"up\"",
        1,
    ),
    ("data-service=\"blue\" data-vid=\"200\"", 1),
    (
        "class=\"discarding\" data-bridge=\"B3\" data-port=\"1\" data-state=\"discarding\"",
        1,
    ),
    ("class=\"forwarding\" data-", 5),
    ("data-key=\"active\"", 1),
    ("data-key=\"standby\"", 1),
    ("data-key=\"discarding\"", 1),
    ("data-key=", 3),
    (">L1</text>", 1),
    (">L2 (loses)</text>", 1),
    (">C2 red</text>", 1),
    (">blue 200</text>", 1),
    ("</svg>\n", 1),
];

/// The service blue: L1 carries it, and has a customer port on one side alone.
pub(super) const BLUE_PIECES: &[Piece] = &[
    ("<g class=\"c1\">", 1),
    ("class=\"link active lit\"", 0),
    ("class=\"link active faint\"", 2),
    ("class=\"link standby faint\"", 1),
    ("class=\"bridge up lit\"", 1),
    ("class=\"bridge up faint\"", 2),
    ("class=\"port c1 d1 lit up\"", 1),
    ("class=\"port c0 d1 faint up\"", 2),
    ("class=\"service c1 d1 lit\"", 1),
    ("class=\"service c0 d1 faint\"", 1),
];

/// The service red: the path from C1 to C2 is L1 and L2.
pub(super) const RED_PIECES: &[Piece] = &[
    ("<g class=\"c0\">", 1),
    ("<g id=\"link-L1\" class=\"link active lit\" ", 1),
    ("<g id=\"link-L2\" class=\"link active lit\" ", 1),
    ("<g id=\"link-L3\" class=\"link standby faint\" ", 1),
    ("class=\"bridge up lit\"", 3),
    ("class=\"port c0 d1 lit up\"", 2),
    ("data-state=\"cut-off\"", 0),
];

/// The service red without L2: C1 and C2 are cut off from each other.
pub(super) const CUT_PIECES: &[Piece] = &[
    ("<g id=\"link-L1\" class=\"link active faint\" ", 1),
    ("<g id=\"link-L2\" class=\"link failed faint\" ", 1),
    ("class=\"bridge up lit\"", 2),
    ("class=\"port c0 d1 lit cut-off\"", 2),
    ("class=\"port c1 d1 faint up\"", 1),
    ("data-state=\"cut-off\"", 2),
    ("data-key=\"cut-off\"", 1),
];

/// L1 is disabled at B2.
pub(super) const DOWN_PIECES: &[Piece] = &[
    (
        "<title>link L1: B1 port 1 forwarding, B2 port 2 disabled</title>",
        1,
    ),
    ("class=\"link active plain\"", 1),
    ("class=\"link standby plain\"", 1),
    ("class=\"link failed plain\"", 1),
    (
        "class=\"disabled\" data-bridge=\"B2\" data-port=\"2\" data-state=\"disabled\"",
        1,
    ),
    ("class=\"forwarding\" data-bridge=\"B1\" data-port=\"1\"", 1),
    ("data-key=\"failed\"", 1),
    ("data-key=\"failed-bridge\"", 0),
];

/// L1 is disabled at both ends.
pub(super) const LINK_PIECES: &[Piece] = &[
    (
        "<title>link L1: B1 port 1 disabled, B2 port 2 disabled</title>",
        1,
    ),
    (
        "<title>link L3: B3 port 1 discarding, B1 port 2 forwarding</title>",
        1,
    ),
    ("class=\"link active plain\"", 1),
    ("class=\"link standby plain\"", 1),
    ("class=\"link failed plain\"", 1),
    ("class=\"disabled\" data-", 2),
];

/// L1 and L2 are disabled at both ends, with the bridge B2.
pub(super) const BRIDGE_PIECES: &[Piece] = &[
    (
        "<title>link L1: B1 port 1 disabled, B2 port 2 disabled</title>",
        1,
    ),
    (
        "<title>link L2: B2 port 1 disabled, B3 port 2 disabled, loses 2 to B3 and 0 to B2</title>",
        1,
    ),
    (
        "<title>link L3: B3 port 1 discarding, B1 port 2 forwarding</title>",
        1,
    ),
    ("class=\"link failed plain\"", 2),
    ("class=\"link standby plain\"", 1),
    ("class=\"bridge failed plain\"", 1),
    ("class=\"bridge up plain\"", 2),
    ("<path d=\"M0 0L", 1),
    ("data-key=\"failed-bridge\"", 1),
];

/// The link B1 is disabled at both ends, with the bridge B2.
pub(super) const SAME_NAMES_PIECES: &[Piece] = &[(
    "<title>link B1: B1 port 1 disabled, B2 port 2 disabled</title>",
    1,
)];

pub(super) const RING_PIECES: &[Piece] = &[
    (
        "<title>link a: B0 port 1 forwarding, B1 port 1 forwarding</title>",
        1,
    ),
    (
        "<title>link b: B0 port 2 forwarding, B2 port 1 forwarding</title>",
        1,
    ),
    (
        "<title>link c: B1 port 2 forwarding, B2 port 2 discarding</title>",
        1,
    ),
    ("class=\"link active plain\"", 2),
    ("class=\"link standby plain\"", 1),
    ("data-bridge=\"B0\" data-role=\"root\" data-state=\"up\"", 1),
    ("data-role=\"root\"", 1),
    (">root</text>", 1),
    ("data-key=\"root\"", 1),
];

/// Before the first tick every port is Discarding, and each bridge is the root of its own tree.
pub(super) const NOT_CONVERGED_PIECES: &[Piece] = &[
    ("class=\"discarding\" data-", 6),
    ("class=\"link standby plain\"", 3),
    ("data-role=\"root\"", 3),
];

pub(super) const DOT_PIECES: &[Piece] = &[
    ("graph network {\n", 1),
    (
        "b2 [shape=box, label=\"B2\", tooltip=\"bridge B2, address 02-00-00-00-00-02, priority 4096\"];\n",
        1,
    ),
    (
        "b1 -- b2 [taillabel=\"1\", headlabel=\"2\", dir=both, arrowtail=none, arrowhead=none, label=\"L1\", \
        tooltip=\"link L1: B1 port 1 forwarding, B2 port 2 forwarding\"];\n",
        1,
    ),
    (
        "b3 -- b1 [taillabel=\"1\", headlabel=\"2\", dir=both, arrowtail=box, arrowhead=none, style=dashed, \
        color=gray50, label=\"L3\", tooltip=\"link L3: B3 port 1 discarding, B1 port 2 forwarding\"];\n",
        1,
    ),
    (
        "p3 [color=\"#e69f00\", label=\"C3 blue\", tooltip=\"port C3: B2 port 16, service blue, VID 200\"];\n\
        b2 -- p3 [color=\"#e69f00\"];\n",
        1,
    ),
    ("label=\"L2 (loses)\"", 1),
];

/// L1 and L2 are disabled at both ends, with the bridge B2.
pub(super) const DOT_DOWN_PIECES: &[Piece] = &[
    (
        "b2 [shape=box, color=red, fontcolor=red, label=\"B2\", tooltip=\"bridge B2, ",
        1,
    ),
    ("arrowhead=box, color=red, fontcolor=red, label=\"L", 2),
    ("style=dashed, color=gray50, label=\"L3\"", 1),
    ("color=red, fontcolor=red", 3),
];
