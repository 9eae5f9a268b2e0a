//! What the value of a key must be, in words.

ghost use Rattle.std.specs.Prelude.{◌≡◌, map};
ghost use Rattle.pb_plan_errors.specs.Rules.{keys_of};

/// What the value of a key must be.
#[derive(Clone, Copy)]
pub(crate) struct Rule {
    /// The key.
    pub key: &'static str,
    /// The TOML type of its value.
    pub kind: &'static str,
    /// The values that are allowed.
    pub range: &'static str,
}

/// The rule of a key.
macro_rules! rule {
    ($key:literal, $kind:expr, $range:expr) => {
        Rule { key: $key, kind: $kind, range: $range }
    };
}

const INTEGER: &str = "an integer";

const STRING: &str = "a string";

const FLAG: &str = "true or false";

const FLAG_OR_AUTO: &str = "true, false or \"auto\"";

const INTEGERS: &str = "an array of integers";

const STRINGS: &str = "an array of strings";

const NAME: &str = "a name of 1 to 32 letters, digits, hyphens and underscores";

const NAMES: &str = "an array of different names";

const PORT: &str = "in 1..16";

const STAMP: &str = "\"ticks\" or \"time\"";

const QUEUE: &str = "in 1..4096";

const COST: &str = "in 1..200000000";

const PRIORITY: &str = "a multiple of 16 in 0..240";

const STATE: &str = "\"discarding\", \"learning\" or \"forwarding\"";

const KIND: &str = "\"memory\", \"capture\", \"record\", \"replay\", \"socket\" or \"udp\"";

const SOCKET: &str =
    "an address with a port in 1..65535 such as \"127.0.0.1:4790\" or \"[::1]:4790\"";

const RISING: &str = "an array of rising numbers";

const FAILURE: &str = "a name, and the only one of link, bridge and links";

const ADDRESS: &str = "an individual address such as \"02-00-00-00-00-01\"";

static NETWORK: [Rule; 11] = [
    rule!("spanning", STRING, "\"fixed\" or \"rstp\""),
    rule!("ageing", INTEGER, "in 10..1000000"),
    rule!("ring", INTEGER, QUEUE),
    rule!("steps", INTEGER, "in 1..1000000"),
    rule!("turns", INTEGER, "in 1..1000000000"),
    rule!("tick_every", INTEGER, "in 0..1000000"),
    rule!("tick_ms", INTEGER, "in 0..60000"),
    rule!("hold", INTEGER, "in 0..1000000"),
    rule!("prompt", FLAG, FLAG),
    rule!("queues", STRING, "\"port\" or \"class\""),
    rule!("lossless", FLAG_OR_AUTO, FLAG_OR_AUTO),
];

static BRIDGE: [Rule; 4] = [
    rule!("name", STRING, NAME),
    rule!("address", STRING, ADDRESS),
    rule!("priority", INTEGER, "a multiple of 4096 in 0..61440"),
    rule!("queue", INTEGER, QUEUE),
];

static LINK: [Rule; 17] = [
    rule!("name", STRING, NAME),
    rule!("a", STRING, NAME),
    rule!("a_port", INTEGER, PORT),
    rule!("b", STRING, NAME),
    rule!("b_port", INTEGER, PORT),
    rule!("a_cost", INTEGER, COST),
    rule!("b_cost", INTEGER, COST),
    rule!("a_priority", INTEGER, PRIORITY),
    rule!("b_priority", INTEGER, PRIORITY),
    rule!("a_state", STRING, STATE),
    rule!("b_state", STRING, STATE),
    rule!("a_services", STRINGS, NAMES),
    rule!("b_services", STRINGS, NAMES),
    rule!("lost_ab", INTEGERS, RISING),
    rule!("lost_ba", INTEGERS, RISING),
    rule!("cost", INTEGER, COST),
    rule!("services", STRINGS, NAMES),
];

static SERVICE: [Rule; 2] = [
    rule!("name", STRING, NAME),
    rule!("vid", INTEGER, "in 1..4094"),
];

static PORTS: [Rule; 21] = [
    rule!("name", STRING, NAME),
    rule!("bridge", STRING, NAME),
    rule!("port", INTEGER, PORT),
    rule!("service", STRING, NAME),
    rule!("pcp", INTEGER, "in 0..7"),
    rule!("queue", INTEGER, QUEUE),
    rule!("kind", STRING, KIND),
    rule!("in", STRINGS, "an array of pairs of hexadecimal digits"),
    rule!("read", STRING, STRING),
    rule!("replay", STRING, "\"times\""),
    rule!("speed", INTEGER, "in 1..1000"),
    rule!("write", STRING, STRING),
    rule!("stamp", STRING, STAMP),
    rule!("path", STRING, STRING),
    rule!("listen", STRING, STRING),
    rule!("stay", FLAG, FLAG),
    rule!("framing", INTEGER, "2 or 4"),
    rule!("local", STRING, SOCKET),
    rule!("remote", STRING, SOCKET),
    rule!("encap", STRING, "\"vxlan\" or \"none\""),
    rule!("vni", INTEGER, "in 0..16777215"),
];

static EVENT: [Rule; 4] = [
    rule!("at", INTEGER, "in 0..4294967295"),
    rule!("bridge", STRING, NAME),
    rule!("port", INTEGER, PORT),
    rule!("up", FLAG, FLAG),
];

static TAP: [Rule; 4] = [
    rule!("link", STRING, NAME),
    rule!("write", STRING, STRING),
    rule!("direction", STRING, "\"ab\", \"ba\" or \"both\""),
    rule!("stamp", STRING, STAMP),
];

static ACCEPT: [Rule; 4] = [
    rule!("link", STRING, FAILURE),
    rule!("bridge", STRING, FAILURE),
    rule!(
        "links",
        STRINGS,
        "an array of two different names, and the only one of link, bridge and links"
    ),
    rule!("service", STRING, NAME),
];

const TABLES: &str = "an array of tables";

static TOP: [Rule; 8] = [
    rule!("network", "a table", "a table"),
    rule!("bridge", TABLES, TABLES),
    rule!("link", TABLES, TABLES),
    rule!("service", TABLES, TABLES),
    rule!("port", TABLES, TABLES),
    rule!("event", TABLES, TABLES),
    rule!("tap", TABLES, TABLES),
    rule!("accept", TABLES, TABLES),
];

/// Returns the rules of the keys of a table, by the key of the table or array of tables. Those at the top have the
/// empty text.
#[tactic(auto, unfolding(crate::specs::Rules::keys_of))]
pub(crate) fn rules_of(word: &str) -> &'static [Rule]
    ensures { map (λ r. r.key.now) result.now ≡ keys_of word.now }
{
    if word == "network" {
        &NETWORK
    } else if word == "bridge" {
        &BRIDGE
    } else if word == "link" {
        &LINK
    } else if word == "service" {
        &SERVICE
    } else if word == "port" {
        &PORTS
    } else if word == "event" {
        &EVENT
    } else if word == "tap" {
        &TAP
    } else if word == "accept" {
        &ACCEPT
    } else {
        &TOP
    }
}

/// Returns the rule of a key, if the table has such a key.
pub(crate) fn rule_of(word: &str, key: &str) -> Option<&'static Rule> {
    for rule in rules_of(word) {
        if rule.key == key {
            return Some(rule);
        }
    }
    None
}
