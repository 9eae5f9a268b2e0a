//! The example of `init`, as in its file.

/// Two bridges in a line.
pub(super) const INIT: &str = r#"# A starter plan for pbnet. If this is the file FILE,
#
#   pbnet check FILE   validates the plan, and reports forwarding loops;
#   pbnet run FILE     runs the network, and counts the frames that enter and leave;
#   pbnet step FILE    drives the network event by event from a script on standard input.
#
# docs/PLAN_FILE.md describes every key, and pbnet help plan lists them. Remove a # directly before
# a key or a table to use it.

[network]
# The links form no loop: each port between bridges is forwarding from the start. With these keys
# the bridges compute a spanning tree (RSTP) first:
#spanning = "rstp"
#prompt = true
#tick_ms = 10
#hold = 200
# With this key each traffic class of a port has a queue of its own:
#queues = "class"
# The ticks until a learned station is forgotten, and the frames that wait between two places of a run:
#ageing = 300
#ring = 64
# The most steps of a place and turns of a thread, and, in place of tick_ms, the turns of a tick:
#steps = 1000000
#turns = 1000000000
#tick_every = 0
# What a run does at a full queue: true: frames wait; false: copies are lost; "auto": as true without sockets:
#lossless = "auto"

# The bridges, each with an address and the ports 1 to 16, and the links between them.

[[bridge]]
name = "B1"
address = "02-00-00-00-00-01"
# The priority (the bridge with the least is the root of the tree), and the frames that wait at a port:
#priority = 32768
#queue = 64

[[bridge]]
name = "B2"
address = "02-00-00-00-00-02"

[[link]]
name = "L1"
a = "B1"
a_port = 1
b = "B2"
b_port = 2
# Of each end: path cost, port priority, state without RSTP, and services (default: all).
#a_cost = 20000
#b_cost = 20000
#a_priority = 128
#b_priority = 128
#a_state = "forwarding"
#b_state = "forwarding"
#a_services = ["red"]
#b_services = ["red"]
# Of both ends, in place of those keys of an end:
#cost = 20000
#services = ["red"]
# The numbers of the frames that the link loses from a to b, and back. The first frame has number 0.
#lost_ab = [0]
#lost_ba = [2, 3]

# A service connects customer ports: a frame that enters one of them can leave only the others of this
# service. Between bridges its frames have an S-tag with this VID, 1 to 4094.
[[service]]
name = "red"
vid = 100

# The customer ports. Each is a port of a bridge.

[[port]]
name = "C1"
bridge = "B1"
port = 3
service = "red"
# The frames that enter here, in hexadecimal digits: one broadcast (destination, source, type, data).
in = ["ffffffffffff02000000010108004142"]
# The kind, the priority of frames without a priority tag, and the frames that wait for the device:
#kind = "memory"
#pcp = 0
#queue = 64

[[port]]
name = "C2"
bridge = "B2"
port = 3
service = "red"

# Ports of other kinds: a capture port reads frames from one file (pcap) and writes to another, a replay
# port only reads one, a record port only writes one, and a socket port exchanges frames over a Unix
# socket. The file to read must exist, and a peer must listen. With listen in place of path the port
# creates the socket. With stay = true another peer may follow one that has left. A plan has at most 128
# customer ports. With replay = "times", which needs tick_ms, the frames of a file enter as far apart as
# their times are, divided by speed.
# A udp port sends frames in UDP datagrams from local to remote, and receives them from there: each after a
# VXLAN header of the network vni or, with encap = "none", alone. With framing = 4 the lengths before the
# frames of a socket port have four octets, as in QEMU.

#[[port]]
#name = "capture"
#bridge = "B1"
#port = 4
#service = "red"
#kind = "capture"
#read = "in.pcap"
#write = "out.pcap"
#stamp = "ticks"

#[[port]]
#name = "socket"
#bridge = "B1"
#port = 5
#service = "red"
#kind = "socket"
#path = "port.sock"
#stay = false

# An event of a run: at tick 300 of B1 its port 1 is disabled. With up = true it is enabled.
#[[event]]
#at = 300
#bridge = "B1"
#port = 1
#up = false

# A capture of the frames that cross a link, S-tags and BPDUs included: both, or "ab" or "ba" alone.
#[[tap]]
#link = "L1"
#write = "link.pcap"
#direction = "both"
#stamp = "ticks"

# A failure that survive accepts, for all services or for one. In place of link: bridge, or links
# with two names.
#[[accept]]
#link = "L1"
#service = "red"
"#;
