//! The parts of a starter plan that occur once: head, keys, ports of other kinds, and failures.

ghost use Rattle.std.specs.Prelude.{◌≡◌, ◌≤◌, ◌++◌, string_bytes, OnOk};
ghost use Rattle.pb_cmd_init.specs.PlanTexts.{head_text, keys_text, further_text, places_text};
ghost use Rattle.pb_cmd_init.specs.PlanTexts.{capture_text, socket_text, kinds_text, failures_text};

use crate::topology::Topology;
use pb_frame::Memory;

/// The head of the file: what it is, and the next commands.
const HEAD: &str = "\
# A starter plan for pbnet. If this is the file FILE,\n\
#\n\
#   pbnet check FILE   validates the plan, and reports forwarding loops;\n\
#   pbnet run FILE     runs the network, and counts the frames that enter and leave;\n\
#   pbnet step FILE    drives the network event by event from a script on standard input.\n\
#\n\
# docs/PLAN_FILE.md describes every key, and pbnet help plan lists them. Remove a # directly before\n\
# a key or a table to use it.\n\
\n\
[network]\n";

/// The keys of a network whose links form no loop.
const FIXED: &str = "\
# The links form no loop: each port between bridges is forwarding from the start. With these keys\n\
# the bridges compute a spanning tree (RSTP) first:\n\
#spanning = \"rstp\"\n\
#prompt = true\n\
#tick_ms = 10\n\
#hold = 200\n\
# With this key each traffic class of a port has a queue of its own:\n\
#queues = \"class\"\n";

/// The keys of a network whose links form a loop.
const RSTP: &str = "\
# The links form a loop. The spanning tree (RSTP) opens it: no frame circulates.\n\
spanning = \"rstp\"\n\
# A bridge sends its BPDUs as soon as its tree changes, and not with the next hello.\n\
prompt = true\n\
# Each traffic class has a queue of its own, and no flood drops the BPDUs.\n\
queues = \"class\"\n\
# The clock: a tick represents a second of the standard, and takes 10 milliseconds here. A\n\
# large ring on a busy machine needs more.\n\
tick_ms = 10\n\
# No frame enters before 200 ticks, while the bridges converge.\n\
hold = 200\n";

/// The other keys of a network.
const FURTHER: &str = "\
# The ticks until a learned station is forgotten, and the frames that wait between two places of a run:\n\
#ageing = 300\n\
#ring = 64\n\
# The most steps of a place and turns of a thread, and, in place of tick_ms, the turns of a tick:\n\
#steps = 1000000\n\
#turns = 1000000000\n\
#tick_every = 0\n\
# What a run does at a full queue: true: frames wait; false: copies are lost; \"auto\": as true without sockets:\n\
#lossless = \"auto\"\n";

/// The comment on bridges and links.
const PLACES: &str = "\
\n\
# The bridges, each with an address and the ports 1 to 16, and the links between them.\n";

/// The comment on ports of other kinds.
const KINDS: &str = "\
\n\
# Ports of other kinds: a capture port reads frames from one file (pcap) and writes to another, a replay\n\
# port only reads one, a record port only writes one, and a socket port exchanges frames over a Unix\n\
# socket. The file to read must exist, and a peer must listen. With listen in place of path the port\n\
# creates the socket. With stay = true another peer may follow one that has left. A plan has at most 128\n\
# customer ports. With replay = \"times\", which needs tick_ms, the frames of a file enter as far apart as\n\
# their times are, divided by speed.\n\
# A udp port sends frames in UDP datagrams from local to remote, and receives them from there: each after a\n\
# VXLAN header of the network vni or, with encap = \"none\", alone. With framing = 4 the lengths before the\n\
# frames of a socket port have four octets, as in QEMU.\n";

/// An event and a tap of a run, and an acceptance.
const FAILURES: &str = "\
\n\
# An event of a run: at tick 300 of B1 its port 1 is disabled. With up = true it is enabled.\n\
#[[event]]\n\
#at = 300\n\
#bridge = \"B1\"\n\
#port = 1\n\
#up = false\n\
\n\
# A capture of the frames that cross a link, S-tags and BPDUs included: both, or \"ab\" or \"ba\" alone.\n\
#[[tap]]\n\
#link = \"L1\"\n\
#write = \"link.pcap\"\n\
#direction = \"both\"\n\
#stamp = \"ticks\"\n\
\n\
# A failure that survive accepts, for all services or for one. In place of link: bridge, or links\n\
# with two names.\n\
#[[accept]]\n\
#link = \"L1\"\n\
#service = \"red\"\n";

/// Returns the keys of the network.
fn keys_of(topology: Topology) -> &'static str
    ensures { result.now ≡ keys_text topology }
{
    match topology {
        Topology::Line(_) | Topology::Star(_) => FIXED,
        Topology::Ring(_) | Topology::DualHomed(_) => RSTP,
    }
}

/// Appends all that comes before the bridges to a text.
///
/// # Errors
///
/// `Memory` if an allocation failed. A part of it may follow the text then.
pub(crate) fn put_head(out: &mut String, topology: Topology) -> Result<(), Memory>
    ensures { OnOk result (string_bytes out.new ≡ string_bytes out.old
        ++ (head_text ++ keys_text topology ++ further_text ++ places_text)) }
{
    out.push_str(HEAD)?;
    out.push_str(keys_of(topology))?;
    out.push_str(FURTHER)?;
    out.push_str(PLACES)?;
    Ok(())
}

/// Returns an event, a tap and an acceptance: nothing for a network without links.
fn failures_of(topology: Topology) -> &'static str
    ensures { result.now ≡ failures_text topology }
{
    if topology.links() == 0 { "" } else { FAILURES }
}

/// Appends a port between capture files to a text, as a comment.
///
/// # Errors
///
/// `Memory` if an allocation failed. A part of it may follow the text then.
fn put_capture(out: &mut String, bridge: u8, port: u8) -> Result<(), Memory>
    ensures { OnOk result (string_bytes out.new ≡ string_bytes out.old ++ capture_text bridge port) }
{
    write!(
        out,
        "\n#[[port]]\n#name = \"capture\"\n#bridge = \"B{bridge}\"\n#port = {port}\n#service = \"red\"\n\
        #kind = \"capture\"\n#read = \"in.pcap\"\n#write = \"out.pcap\"\n#stamp = \"ticks\"\n"
    )?;
    Ok(())
}

/// Appends a port at a socket to a text, as a comment.
///
/// # Errors
///
/// `Memory` if an allocation failed. A part of it may follow the text then.
fn put_socket(out: &mut String, bridge: u8, port: u8) -> Result<(), Memory>
    ensures { OnOk result (string_bytes out.new ≡ string_bytes out.old ++ socket_text bridge port) }
{
    write!(
        out,
        "\n#[[port]]\n#name = \"socket\"\n#bridge = \"B{bridge}\"\n#port = {port}\n#service = \"red\"\n\
        #kind = \"socket\"\n#path = \"port.sock\"\n#stay = false\n"
    )?;
    Ok(())
}

/// Appends ports of other kinds at this bridge, as comments. Their local ports follow those of so many services.
///
/// # Errors
///
/// `Memory` if an allocation failed. A part of them may follow the text then.
pub(crate) fn put_kinds(out: &mut String, bridge: u8, services: u8) -> Result<(), Memory>
    requires { services ≤ 4 }
    ensures { OnOk result (string_bytes out.new ≡ string_bytes out.old ++ kinds_text bridge services) }
{
    out.push_str(KINDS)?;
    put_capture(out, bridge, services + 3)?;
    put_socket(out, bridge, services + 4)
}

/// Appends an event, a tap and an acceptance to a text, as comments. A network without links has none of them.
///
/// # Errors
///
/// `Memory` if an allocation failed. The text is unchanged then.
pub(crate) fn put_failures(out: &mut String, topology: Topology) -> Result<(), Memory>
    ensures { OnOk result (string_bytes out.new ≡ string_bytes out.old ++ failures_text topology) }
{
    out.push_str(failures_of(topology))?;
    Ok(())
}
