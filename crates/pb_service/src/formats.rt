//! The keys of the tables of a plan file.

ghost use Rattle.std.specs.Prelude.{◌≡◌};
ghost use Rattle.toml.specs.View.{table_view};
ghost use Rattle.pb_service.specs.Keys.{rules_of};
ghost use Rattle.pb_service.specs.Formats.{network_keys, is_bare, port_keys, keys_of};

use crate::rule::{Key, Rule};
use crate::section::Section;
use crate::told::{has_key, text_at};
use toml::Table;

/// A key without a default, and the rule or range of its value.
macro_rules! needed {
    ($name:literal, $low:literal..=$high:literal) => {
        needed!($name, Rule::Number { low: $low, high: $high })
    };
    ($name:literal, $rule:expr) => {
        Key { name: $name, needed: true, rule: $rule }
    };
}

/// A key with a default, and the rule or range of its value.
macro_rules! optional {
    ($name:literal, $low:literal..=$high:literal) => {
        optional!($name, Rule::Number { low: $low, high: $high })
    };
    ($name:literal, $rule:expr) => {
        Key { name: $name, needed: false, rule: $rule }
    };
}

/// The keys of a customer port: those of every kind, followed by those of its own kind.
macro_rules! port_keys {
    ($($own:expr),+ $(,)?) => {
        [
            needed!("name", Rule::Name),
            needed!("bridge", Rule::Name),
            needed!("port", 1..=16),
            needed!("service", Rule::Name),
            optional!("pcp", 0..=7),
            optional!("queue", 1..=4096),
            optional!("kind", Rule::PortKind),
            $($own),+
        ]
    };
}

/// The keys of the network.
static NETWORK: [Key; 11] = [
    optional!("spanning", Rule::Spanning),
    optional!("ageing", 10..=1_000_000),
    optional!("ring", 1..=4096),
    optional!("steps", 1..=1_000_000),
    optional!("turns", 1..=1_000_000_000),
    optional!("tick_every", 0..=1_000_000),
    optional!("tick_ms", 0..=60_000),
    optional!("hold", 0..=1_000_000),
    optional!("prompt", Rule::Flag),
    optional!("queues", Rule::Queues),
    optional!("lossless", Rule::FlagOrAuto),
];

/// The keys of a bridge.
static BRIDGE: [Key; 4] = [
    needed!("name", Rule::Name),
    needed!("address", Rule::Address),
    optional!("priority", Rule::BridgePriority),
    optional!("queue", 1..=4096),
];

/// The keys of a link.
static LINK: [Key; 17] = [
    needed!("name", Rule::Name),
    needed!("a", Rule::Name),
    needed!("a_port", 1..=16),
    needed!("b", Rule::Name),
    needed!("b_port", 1..=16),
    optional!("a_cost", 1..=200_000_000),
    optional!("b_cost", 1..=200_000_000),
    optional!("a_priority", Rule::PortPriority),
    optional!("b_priority", Rule::PortPriority),
    optional!("a_state", Rule::State),
    optional!("b_state", Rule::State),
    optional!("a_services", Rule::Names),
    optional!("b_services", Rule::Names),
    optional!("lost_ab", Rule::Losses),
    optional!("lost_ba", Rule::Losses),
    optional!("cost", 1..=200_000_000),
    optional!("services", Rule::Names),
];

/// The keys of a service.
static SERVICE: [Key; 2] = [needed!("name", Rule::Name), needed!("vid", 1..=4094)];

/// The keys of a customer port that is a script in memory.
static MEMORY: [Key; 8] = port_keys![optional!("in", Rule::Frames)];

/// The keys of a customer port over capture files.
static CAPTURE: [Key; 12] = port_keys![
    needed!("read", Rule::Path),
    optional!("replay", Rule::Replay),
    optional!("speed", 1..=1000),
    needed!("write", Rule::Path),
    optional!("stamp", Rule::Stamp),
];

/// The keys of a customer port that only writes a capture file.
static RECORD: [Key; 9] = port_keys![
    needed!("write", Rule::Path),
    optional!("stamp", Rule::Stamp)
];

/// The keys of a customer port that only reads a capture file.
static REPLAY: [Key; 10] = port_keys![
    needed!("read", Rule::Path),
    optional!("replay", Rule::Replay),
    optional!("speed", 1..=1000),
];

/// The keys of a customer port that connects to a socket.
static SOCKET: [Key; 10] = port_keys![
    needed!("path", Rule::Path),
    optional!("stay", Rule::Flag),
    optional!("framing", Rule::Framing),
];

/// The keys of a customer port that listens at a socket.
static LISTENER: [Key; 10] = port_keys![
    needed!("listen", Rule::Path),
    optional!("stay", Rule::Flag),
    optional!("framing", Rule::Framing),
];

/// The keys of a customer port over datagrams with a VXLAN header.
static UDP: [Key; 11] = port_keys![
    needed!("local", Rule::SocketAddress),
    needed!("remote", Rule::SocketAddress),
    optional!("encap", Rule::Encap),
    needed!("vni", 0..=16_777_215),
];

/// The keys of a customer port over datagrams that are frames alone.
static BARE_UDP: [Key; 10] = port_keys![
    needed!("local", Rule::SocketAddress),
    needed!("remote", Rule::SocketAddress),
    optional!("encap", Rule::Encap),
];

/// The keys of an event.
static EVENT: [Key; 4] = [
    needed!("at", 0..=4_294_967_295),
    needed!("bridge", Rule::Name),
    needed!("port", 1..=16),
    needed!("up", Rule::Flag),
];

/// The keys of a tap.
static TAP: [Key; 4] = [
    needed!("link", Rule::Name),
    needed!("write", Rule::Path),
    optional!("direction", Rule::Direction),
    optional!("stamp", Rule::Stamp),
];

/// Returns the keys of the network.
pub(crate) fn network_keys() -> &'static [Key]
    ensures { rules_of result.now ≡ network_keys }
{
    &NETWORK
}

/// Returns whether the datagrams of a customer port are to be frames alone.
pub(crate) fn is_bare(row: &Table) -> bool
    ensures { result ≡ is_bare (table_view row.now) }
{
    text_at(row, "encap") == "none"
}

/// Returns the keys of a customer port of a kind. A port over a socket has other keys if it listens, and a port over
/// datagrams if they are frames alone.
fn port_keys(kind: &str, listens: bool, is_bare: bool) -> &'static [Key]
    ensures { rules_of result.now ≡ port_keys kind.now listens is_bare }
{
    if kind == "capture" {
        &CAPTURE
    } else if kind == "record" {
        &RECORD
    } else if kind == "replay" {
        &REPLAY
    } else if kind == "socket" {
        if listens { &LISTENER } else { &SOCKET }
    } else if kind == "udp" {
        if is_bare { &BARE_UDP } else { &UDP }
    } else {
        &MEMORY
    }
}

/// Returns the keys of a table of an array. Those of a customer port depend on its kind.
pub(crate) fn keys_of(section: Section, row: &Table) -> &'static [Key]
    ensures { rules_of result.now ≡ keys_of section (table_view row.now) }
{
    match section {
        Section::Bridge => &BRIDGE,
        Section::Link => &LINK,
        Section::Service => &SERVICE,
        Section::Port => port_keys(text_at(row, "kind"), has_key(row, "listen"), is_bare(row)),
        Section::Event => &EVENT,
        Section::Tap => &TAP,
    }
}
