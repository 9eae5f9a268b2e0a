//! Plan files that tests of several commands read.

/// The plan of two bridges B1 and B2, joined by the link L1 at their ports 1. The customer ports C1 and C2 of the
/// service red are at their ports 2, and no frames come in.
pub const PAIR: &str = r#"
[[bridge]]
name = "B1"
address = "02-00-00-00-00-01"

[[bridge]]
name = "B2"
address = "02-00-00-00-00-02"

[[link]]
name = "L1"
a = "B1"
a_port = 1
b = "B2"
b_port = 1

[[service]]
name = "red"
vid = 100

[[port]]
name = "C1"
bridge = "B1"
port = 2
service = "red"

[[port]]
name = "C2"
bridge = "B2"
port = 2
service = "red"
"#;

/// A plan with a link that loses a frame: the example `losses`.
pub const LOSSES: &str =
    r#"# A link that loses the second frame from Near to Far. Nothing is sent again, and the frames that are not
# lost arrive in order.

[[bridge]]
name = "Near"
address = "02-00-00-00-00-01"

[[bridge]]
name = "Far"
address = "02-00-00-00-00-02"

[[link]]
name = "fibre"
a = "Near"
a_port = 1
b = "Far"
b_port = 1
lost_ab = [1]

[[service]]
name = "line"
vid = 100

[[port]]
name = "sender"
bridge = "Near"
port = 2
service = "line"

[[port]]
name = "receiver"
bridge = "Far"
port = 2
service = "line"
"#;

/// A plan of two bridges with two links that run the spanning tree: the example `failover`.
pub const FAILOVER: &str =
    r#"# Two bridges with two links, which decide their own spanning tree: one link stands by until the other is
# set down.

[network]
spanning = "rstp"
prompt = true
queues = "class"
tick_ms = 10

[[bridge]]
name = "B1"
address = "02-00-00-00-00-01"

[[bridge]]
name = "B2"
address = "02-00-00-00-00-02"

[[link]]
name = "L1"
a = "B1"
a_port = 1
b = "B2"
b_port = 1

[[link]]
name = "L2"
a = "B1"
a_port = 3
b = "B2"
b_port = 3

[[service]]
name = "red"
vid = 100

[[port]]
name = "C1"
bridge = "B1"
port = 2
service = "red"

[[port]]
name = "C2"
bridge = "B2"
port = 2
service = "red"
"#;

/// A plan of a metro ring of six bridges with three services: the example `metro`.
pub const METRO: &str =
    r#"# A metro ring of six bridges with three services. The ring is open between Lakeside and Station: a frame
# goes both ways round from where it enters, and is filtered at the end that is discarding.

[[bridge]]
name = "Centre"
address = "02-00-00-00-00-01"

[[bridge]]
name = "Harbour"
address = "02-00-00-00-00-02"

[[bridge]]
name = "Lakeside"
address = "02-00-00-00-00-03"

[[bridge]]
name = "Station"
address = "02-00-00-00-00-04"

[[bridge]]
name = "Airport"
address = "02-00-00-00-00-05"

[[bridge]]
name = "Campus"
address = "02-00-00-00-00-06"

[[link]]
name = "ring1"
a = "Centre"
a_port = 1
b = "Harbour"
b_port = 2

[[link]]
name = "ring2"
a = "Harbour"
a_port = 1
b = "Lakeside"
b_port = 2

[[link]]
name = "ring3"
a = "Lakeside"
a_port = 1
b = "Station"
b_port = 2
b_state = "discarding"

[[link]]
name = "ring4"
a = "Station"
a_port = 1
b = "Airport"
b_port = 2

[[link]]
name = "ring5"
a = "Airport"
a_port = 1
b = "Campus"
b_port = 2

[[link]]
name = "ring6"
a = "Campus"
a_port = 1
b = "Centre"
b_port = 2

[[service]]
name = "internet"
vid = 100

[[service]]
name = "voice"
vid = 200

[[service]]
name = "surveillance"
vid = 300

[[port]]
name = "provider"
bridge = "Centre"
port = 3
service = "internet"

[[port]]
name = "shop"
bridge = "Lakeside"
port = 3
service = "internet"

[[port]]
name = "hotel"
bridge = "Airport"
port = 3
service = "internet"

[[port]]
name = "exchange"
bridge = "Centre"
port = 4
service = "voice"
pcp = 5

[[port]]
name = "office"
bridge = "Station"
port = 4
service = "voice"
pcp = 5

[[port]]
name = "camera"
bridge = "Harbour"
port = 5
service = "surveillance"

[[port]]
name = "desk"
bridge = "Campus"
port = 5
service = "surveillance"
"#;

/// A plan of two bridges with a service at both and another at one: the example `two-bridges`.
pub const TWO_BRIDGES: &str =
    r#"# Two bridges with one link. Two customers of the service red, one of blue.

[[bridge]]
name = "B1"
address = "02-00-00-00-00-01"

[[bridge]]
name = "B2"
address = "02-00-00-00-00-02"

[[link]]
name = "L1"
a = "B1"
a_port = 1
b = "B2"
b_port = 1

[[service]]
name = "red"
vid = 100

[[service]]
name = "blue"
vid = 200

[[port]]
name = "C1"
bridge = "B1"
port = 2
service = "red"

[[port]]
name = "C2"
bridge = "B2"
port = 2
service = "red"

[[port]]
name = "C3"
bridge = "B2"
port = 3
service = "blue"
"#;

/// A plan of two sites as on one wire: the example `e-line`.
pub const E_LINE: &str =
    r#"# An E-Line: two sites of a customer, joined as by a wire. What one sends the other gets octet for octet,
# the customer's own BPDUs and tags too; an address that bridges keep to themselves is filtered.

[[bridge]]
name = "West"
address = "02-00-00-00-00-01"

[[bridge]]
name = "East"
address = "02-00-00-00-00-02"

[[link]]
name = "trunk"
a = "West"
a_port = 1
b = "East"
b_port = 1

[[service]]
name = "line"
vid = 1000

[[port]]
name = "plant"
bridge = "West"
port = 2
service = "line"

[[port]]
name = "warehouse"
bridge = "East"
port = 2
service = "line"
"#;

/// A plan of four sites around a hub: the example `e-lan`.
pub const E_LAN: &str =
    r#"# An E-LAN over four sites, around one hub. The first frame for a station goes to all sites; once the
# station has answered, frames for it go to its site alone.

[[bridge]]
name = "Hub"
address = "02-00-00-00-00-01"

[[bridge]]
name = "North"
address = "02-00-00-00-00-02"

[[bridge]]
name = "South"
address = "02-00-00-00-00-03"

[[bridge]]
name = "Coast"
address = "02-00-00-00-00-04"

[[link]]
name = "north"
a = "Hub"
a_port = 1
b = "North"
b_port = 1

[[link]]
name = "south"
a = "Hub"
a_port = 2
b = "South"
b_port = 1

[[link]]
name = "coast"
a = "Hub"
a_port = 3
b = "Coast"
b_port = 1

[[service]]
name = "lan"
vid = 500

[[port]]
name = "head-office"
bridge = "Hub"
port = 4
service = "lan"

[[port]]
name = "branch-north"
bridge = "North"
port = 2
service = "lan"

[[port]]
name = "branch-south"
bridge = "South"
port = 2
service = "lan"

[[port]]
name = "branch-coast"
bridge = "Coast"
port = 2
service = "lan"
"#;

/// A plan of two parallel links, one for each service: the example `parallel`.
pub const PARALLEL: &str =
    r#"# Two parallel links, one for each service: as each carries its own service alone, neither closes a ring, and
# both are used. Then the port of one is set down, and the other is not used in its place.

[[bridge]]
name = "Left"
address = "02-00-00-00-00-01"

[[bridge]]
name = "Right"
address = "02-00-00-00-00-02"

[[link]]
name = "upper"
a = "Left"
a_port = 1
b = "Right"
b_port = 1
a_services = ["red"]
b_services = ["red"]

[[link]]
name = "lower"
a = "Left"
a_port = 2
b = "Right"
b_port = 2
a_services = ["blue"]
b_services = ["blue"]

[[service]]
name = "red"
vid = 100

[[service]]
name = "blue"
vid = 200

[[port]]
name = "red-left"
bridge = "Left"
port = 3
service = "red"

[[port]]
name = "red-right"
bridge = "Right"
port = 3
service = "red"

[[port]]
name = "blue-left"
bridge = "Left"
port = 4
service = "blue"

[[port]]
name = "blue-right"
bridge = "Right"
port = 4
service = "blue"
"#;

/// A plan with ports of several kinds: the example `plan-file`.
pub const PLAN_FILE: &str = r#"[network]
ageing = 300

[[bridge]]
name = "B1"
address = "02-00-00-00-00-01"

[[bridge]]
name = "B2"
address = "02-00-00-00-00-02"

[[link]]
name = "L1"
a = "B1"
a_port = 1
b = "B2"
b_port = 1

[[service]]
name = "red"
vid = 100

[[service]]
name = "blue"
vid = 200

[[port]]
name = "C1"
bridge = "B1"
port = 2
service = "red"
in = ["ffffffffffff02000000010108004142"]

[[port]]
name = "C2"
bridge = "B2"
port = 2
service = "red"
kind = "capture"
read = "c2-in.pcap"
write = "c2-out.pcap"

[[port]]
name = "C3"
bridge = "B2"
port = 3
service = "blue"
kind = "socket"
path = "c3.sock"

[[port]]
name = "C4"
bridge = "B1"
port = 3
service = "blue"
"#;
