//! The help on the keys of a plan file.

use clap::Command;
use std::alloc::Global;

/// The keys of a plan file by table: values, default and range of each, as docs/PLAN_FILE.md describes them.
const PLAN_KEYS: &str =
    r#"The keys of a plan file (TOML). A key without a default is required. docs/PLAN_FILE.md has the rules.

[network]
  spanning                "fixed": the plan gives port states; "rstp": the bridges decide [default: "fixed"]
  ageing                  Ticks until a learned station is forgotten [default: 300] [range: 10-1000000]
  ring                    Frames that wait between two places [default: 64] [range: 1-4096]
  steps                   The most steps of a place [default: 2^64-1] [range: 1-1000000]
  turns                   The most turns of a thread of run [default: 2^64-1] [range: 1-1000000000]
  tick_every              Turns from tick to tick of run, 0: never [default: 0] [range: 0-1000000]
  tick_ms                 Milliseconds from tick to tick of run, 0: never [default: 0] [range: 0-60000]
  hold                    Ticks before a frame enters [default: 0] [range: 0-1000000]
  prompt                  true: send a BPDU at each change; false: with the next hello [default: false]
  queues                  "port": queue counts all frames of a port; "class": each class [default: "port"]
  lossless                true: frames of run wait for full queues; false: they are lost [default: "auto"]

[[bridge]], at most 32
  name                    A name: 1 to 32 letters, digits, hyphens and underscores
  address                 Six pairs of hexadecimal digits with hyphens, no group address
  priority                A multiple of 4096; the root has the least [default: 32768] [range: 0-61440]
  queue                   Frames that wait at each of its ports [default: 64] [range: 1-4096]

[[link]], at most 64
  name                    A name
  a, b                    The bridges at its ends, by name
  a_port, b_port          The local ports of its ends [range: 1-16]
  a_cost, b_cost          The path costs of its ends [default: 20000] [range: 1-200000000]
  a_priority, b_priority  The port priorities of its ends, multiples of 16 [default: 128] [range: 0-240]
  a_state, b_state        "discarding", "learning", "forwarding", if "fixed" [default: "forwarding"]
  a_services, b_services  The services that each end carries, a list of names [default: all services]
  lost_ab, lost_ba        Numbers of the frames lost from a to b, or back, from 0 on [default: []]
  cost                    The path cost of both ends, in place of a_cost and b_cost [range: 1-200000000]
  services                The services that both ends carry, in place of a_services and b_services

[[service]], at most 64
  name                    A name
  vid                     The VID of its S-tags [range: 1-4094]

[[port]], at most 128
  name                    A name
  bridge, port            Its bridge, by name, and its local port [range: 1-16]
  service                 Its service, by name
  pcp                     Priority of frames without a priority tag [default: 0] [range: 0-7]
  queue                   Frames that wait for the customer's device [default: 64] [range: 1-4096]
  kind                    "memory", "capture", "record", "replay", "socket" or "udp" [default: "memory"]
  in                      "memory": the frames that enter, hexadecimal texts [default: []]
  read                    "capture", "replay": the path of the capture to read
  replay                  "capture", "replay": "times": frames enter by their times; needs tick_ms [default: at once]
  speed                   "capture", "replay": divides the distances of these times [default: 1] [range: 1-1000]
  write                   "capture", "record": the path of the capture to write
  stamp                   "capture", "record": times of records, "ticks" or "time" [default: "ticks"]
  path                    "socket": the path of the socket to which the port connects
  listen                  "socket", in place of path: the path of the socket that the port creates
  stay                    "socket": true: another peer may follow one that has left [default: false]
  framing                 "socket": the octets of the length before each frame, 2 or 4 [default: 2]
  local, remote           "udp": the address and port here, and the peer's: "127.0.0.1:4790", "[::1]:4790"
  encap                   "udp": "vxlan": a VXLAN header precedes each frame; "none" [default: "vxlan"]
  vni                     "udp" with "vxlan": the network in this header [range: 0-16777215]

[[event]], at most 128: run enables or disables a port to another bridge
  at                      Ticks of the bridge before the event [range: 0-4294967295]
  bridge, port            The bridge, by name, and its local port [range: 1-16]
  up                      true: enable the port; false: disable it

[[tap]], at most 128: run captures the frames that cross a link
  link                    The link, by name
  write                   The path of the capture to write
  direction               "ab", "ba" or "both" [default: "both"]
  stamp                   Times of records, "ticks" or "time" [default: "ticks"]

[[accept]]: survive accepts what a failure disconnects; exactly one of link, bridge and links
  link                    The failure of this link, by name [default: no]
  bridge                  The failure of this bridge, by name [default: no]
  links                   The failure of two links together, a list of their names [default: no]
  service                 The only service that it may disconnect, by name [default: all services]
"#;

/// Returns the command `plan`, whose help is the table of the keys of a plan file. It is not listed, and does nothing
/// else.
pub(crate) fn plan_help<'a>(alloc: Global) -> Command<'a> {
    Command::new(alloc, "plan")
        .about("Print the keys of a plan file")
        .override_help(PLAN_KEYS)
        .arg_required_else_help(true)
        .hide(true)
}
