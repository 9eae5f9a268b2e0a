//! The plan files, and the reports on their changes.

/// Three bridges in a line that run the rapid spanning tree, with two services.
pub(super) const LINE: &str = "network = { spanning = 'rstp', prompt = true }
bridge = [
  { name = 'A', address = '02-00-00-00-00-01' },
  { name = 'B', address = '02-00-00-00-00-02' },
  { name = 'C', address = '02-00-00-00-00-03' },
]
link = [
  { name = 'L1', a = 'A', a_port = 1, b = 'B', b_port = 2 },
  { name = 'L2', a = 'B', a_port = 1, b = 'C', b_port = 2 },
]
service = [{ name = 'red', vid = 100 }, { name = 'blue', vid = 200 }]
port = [
  { name = 'a', bridge = 'A', port = 3, service = 'red' },
  { name = 'b', bridge = 'B', port = 3, service = 'red' },
  { name = 'c', bridge = 'C', port = 3, service = 'red' },
  { name = 'd', bridge = 'C', port = 4, service = 'blue' },
]
";

/// The same bridges in a ring.
pub(super) const CLOSED: &str = "network = { spanning = 'rstp', prompt = true }
bridge = [
  { name = 'A', address = '02-00-00-00-00-01' },
  { name = 'B', address = '02-00-00-00-00-02' },
  { name = 'C', address = '02-00-00-00-00-03' },
]
link = [
  { name = 'L1', a = 'A', a_port = 1, b = 'B', b_port = 2 },
  { name = 'L2', a = 'B', a_port = 1, b = 'C', b_port = 2 },
  { name = 'L3', a = 'C', a_port = 1, b = 'A', b_port = 2, a_services = ['red', 'blue'] },
]
service = [{ name = 'red', vid = 100 }, { name = 'blue', vid = 200 }]
port = [
  { name = 'a', bridge = 'A', port = 3, service = 'red' },
  { name = 'b', bridge = 'B', port = 3, service = 'red' },
  { name = 'c', bridge = 'C', port = 3, service = 'red' },
  { name = 'd', bridge = 'C', port = 4, service = 'blue' },
]
";

/// The ring with its parts in another order.
pub(super) const REORDERED: &str = "network = { spanning = 'rstp', prompt = true }
bridge = [
  { name = 'C', address = '02-00-00-00-00-03' },
  { name = 'A', address = '02-00-00-00-00-01' },
  { name = 'B', address = '02-00-00-00-00-02' },
]
link = [
  { name = 'L3', a = 'C', a_port = 1, b = 'A', b_port = 2, a_services = ['blue', 'red'] },
  { name = 'L2', a = 'B', a_port = 1, b = 'C', b_port = 2 },
  { name = 'L1', a = 'A', a_port = 1, b = 'B', b_port = 2 },
]
service = [{ name = 'blue', vid = 200 }, { name = 'red', vid = 100 }]
port = [
  { name = 'd', bridge = 'C', port = 4, service = 'blue' },
  { name = 'c', bridge = 'C', port = 3, service = 'red' },
  { name = 'b', bridge = 'B', port = 3, service = 'red' },
  { name = 'a', bridge = 'A', port = 3, service = 'red' },
]
";

/// From the line to the ring.
pub(super) const CLOSING: &str = "link L3: added
service red: link L1 down: now reach each other: a | b c
service red: link L2 down: now reach each other: a b | c
link L2 with nothing down: a designated forwarding, b root forwarding -> a designated forwarding, b alternate discarding
better: 2 of 3 failures; worse: 0 of 3 failures; with nothing down: no change
";

/// The same with pairs of links: the new link and another one fail as the other one alone in the line.
pub(super) const CLOSING_PAIRS: &str = "link L3: added
service red: link L1 down: now reach each other: a | b c
service red: link L2 down: now reach each other: a b | c
service red: links L1 L2 down: now reach each other: a | c
link L2 with nothing down: a designated forwarding, b root forwarding -> a designated forwarding, b alternate discarding
better: 3 of 6 failures; worse: 0 of 6 failures; with nothing down: no change
";

/// From the ring to the line.
pub(super) const OPENING: &str = "link L3: removed
service red: link L1 down: no longer reach each other: a | b c
service red: link L2 down: no longer reach each other: a b | c
link L2 with nothing down: a designated forwarding, b alternate discarding -> a designated forwarding, b root forwarding
better: 0 of 3 failures; worse: 2 of 3 failures; with nothing down: no change
";

/// The same for the service that has one port.
pub(super) const OPENING_BLUE: &str = "link L3: removed
link L2 with nothing down: a designated forwarding, b alternate discarding -> a designated forwarding, b root forwarding
better: 0 of 3 failures; worse: 0 of 3 failures; with nothing down: no change
";

/// Three bridges in a line, whose plan gives the states.
pub(super) const FIXED: &str = "bridge = [
  { name = 'A', address = '02-00-00-00-00-01' },
  { name = 'B', address = '02-00-00-00-00-02' },
  { name = 'C', address = '02-00-00-00-00-03' },
]
link = [
  { name = 'L1', a = 'A', a_port = 1, b = 'B', b_port = 2 },
  { name = 'L2', a = 'B', a_port = 1, b = 'C', b_port = 2 },
]
service = [{ name = 'red', vid = 100 }, { name = 'blue', vid = 200 }]
port = [
  { name = 'a', bridge = 'A', port = 3, service = 'red' },
  { name = 'b', bridge = 'B', port = 3, service = 'red' },
  { name = 'c', bridge = 'C', port = 3, service = 'red' },
  { name = 'd', bridge = 'C', port = 4, service = 'blue' },
]
";

/// The same with a discarding end.
pub(super) const FIXED_CUT: &str = "bridge = [
  { name = 'A', address = '02-00-00-00-00-01' },
  { name = 'B', address = '02-00-00-00-00-02' },
  { name = 'C', address = '02-00-00-00-00-03' },
]
link = [
  { name = 'L1', a = 'A', a_port = 1, b = 'B', b_port = 2 },
  { name = 'L2', a = 'B', a_port = 1, b = 'C', b_port = 2, b_state = 'discarding' },
]
service = [{ name = 'red', vid = 100 }, { name = 'blue', vid = 200 }]
port = [
  { name = 'a', bridge = 'A', port = 3, service = 'red' },
  { name = 'b', bridge = 'B', port = 3, service = 'red' },
  { name = 'c', bridge = 'C', port = 3, service = 'red' },
  { name = 'd', bridge = 'C', port = 4, service = 'blue' },
]
";

/// To the discarding end.
pub(super) const CUTTING: &str = "link L2: b_state: forwarding -> discarding
service red: nothing down: no longer reach each other: a b | c
service red: link L1 down: no longer reach each other: b | c
link L2 with nothing down: a forwarding, b forwarding -> a forwarding, b discarding
better: 0 of 2 failures; worse: 1 of 2 failures; with nothing down: worse
";

/// The same with a third link.
pub(super) const FIXED_RING: &str = "bridge = [
  { name = 'A', address = '02-00-00-00-00-01' },
  { name = 'B', address = '02-00-00-00-00-02' },
  { name = 'C', address = '02-00-00-00-00-03' },
]
link = [
  { name = 'L1', a = 'A', a_port = 1, b = 'B', b_port = 2 },
  { name = 'L2', a = 'B', a_port = 1, b = 'C', b_port = 2 },
  { name = 'L3', a = 'C', a_port = 1, b = 'A', b_port = 2, b_services = ['red'] },
]
service = [{ name = 'red', vid = 100 }, { name = 'blue', vid = 200 }]
port = [
  { name = 'a', bridge = 'A', port = 3, service = 'red' },
  { name = 'b', bridge = 'B', port = 3, service = 'red' },
  { name = 'c', bridge = 'C', port = 3, service = 'red' },
  { name = 'd', bridge = 'C', port = 4, service = 'blue' },
]
";

/// To the ring, which has a loop.
pub(super) const LOOPING: &str = "link L3: added
service red: nothing down: now forms a forwarding loop
service red: link L1 down: now reach each other: a | b c
service red: link L2 down: now reach each other: a b | c
better: 2 of 3 failures; worse: 0 of 3 failures; with nothing down: worse
";

/// From the ring to the line.
pub(super) const UNLOOPING: &str = "link L3: removed
service red: nothing down: no longer forms a forwarding loop
service red: link L1 down: no longer reach each other: a | b c
service red: link L2 down: no longer reach each other: a b | c
better: 0 of 3 failures; worse: 2 of 3 failures; with nothing down: better
";

/// The same with a line for each failure.
pub(super) const UNLOOPING_ALL: &str = "link L3: removed
service red: nothing down: no longer forms a forwarding loop
service red: link L1 down: no longer reach each other: a | b c
service red: link L2 down: no longer reach each other: a b | c
link L1 down: worse
link L2 down: worse
link L3 down: no change
better: 0 of 3 failures; worse: 2 of 3 failures; with nothing down: better
";

/// The same with other values, and in another order.
pub(super) const ALTERED: &str =
    "network = { queues = 'class', ageing = 400, ring = 32, steps = 1000 }
bridge = [
  { name = 'C', address = '02-00-00-00-00-0a', priority = 4096, queue = 32 },
  { name = 'A', address = '02-00-00-00-00-01' },
  { name = 'B', address = '02-00-00-00-00-02' },
]
link = [
  { name = 'L2', a = 'B', a_port = 9, b = 'C', b_port = 2, a_cost = 5, b_priority = 16, b_services = ['red'] },
  { name = 'L1', a = 'B', a_port = 2, b = 'A', b_port = 1, lost_ab = [0, 4] },
]
service = [{ name = 'blue', vid = 201 }, { name = 'red', vid = 100 }]
port = [
  { name = 'd', bridge = 'A', port = 4, service = 'red', pcp = 3, queue = 8 },
  { name = 'a', bridge = 'A', port = 3, service = 'red' },
  { name = 'b', bridge = 'B', port = 3, service = 'red' },
  { name = 'c', bridge = 'C', port = 3, service = 'red' },
]
";

/// To other values.
pub(super) const ALTERING: &str = "network: queues: port -> class
network: ageing: 300 -> 400
network: ring: 64 -> 32
network: steps: 18446744073709551615 -> 1000
bridge C: address: 02-00-00-00-00-03 -> 02-00-00-00-00-0A
bridge C: priority: 32768 -> 4096
bridge C: queue: 64 -> 32
link L1: a: A -> B
link L1: a_port: 1 -> 2
link L1: b: B -> A
link L1: b_port: 2 -> 1
link L1: lost_ab: [ ] -> [ 0 4 ]
link L2: a_port: 1 -> 9
link L2: a_cost: 20000 -> 5
link L2: b_priority: 128 -> 16
link L2: b_services: all -> [ red ]
service blue: vid: 200 -> 201
port d: bridge: C -> A
port d: service: blue -> red
port d: pcp: 0 -> 3
port d: queue: 64 -> 8
better: 0 of 2 failures; worse: 0 of 2 failures; with nothing down: no change
";

/// The same with another name for a bridge, to which a port has moved.
pub(super) const RENAMED: &str = "bridge = [
  { name = 'A', address = '02-00-00-00-00-01' },
  { name = 'B', address = '02-00-00-00-00-02' },
  { name = 'Z', address = '02-00-00-00-00-03' },
]
link = [
  { name = 'L1', a = 'A', a_port = 1, b = 'B', b_port = 2 },
  { name = 'L2', a = 'B', a_port = 1, b = 'Z', b_port = 2 },
]
service = [{ name = 'red', vid = 100 }, { name = 'blue', vid = 200 }]
port = [
  { name = 'a', bridge = 'A', port = 3, service = 'red' },
  { name = 'b', bridge = 'B', port = 3, service = 'red' },
  { name = 'c', bridge = 'B', port = 4, service = 'red' },
  { name = 'd', bridge = 'Z', port = 4, service = 'blue' },
]
";

/// To the other name. The failure of C leaves NEW whole, and that of Z leaves OLD whole.
pub(super) const RENAMING: &str = "bridge C: removed
link L2: b: C -> Z
port c: bridge: C -> B
port c: port: 3 -> 4
port d: bridge: C -> Z
bridge Z: added
service red: link L2 down: now reach each other: a b | c
service red: bridge C down: now reach each other: a b | c
better: 2 of 6 failures; worse: 0 of 6 failures; with nothing down: no change
";

/// To bridges that cannot converge within one tick.
pub(super) const UNREADY: &str = "network: spanning: fixed -> rstp
network: prompt: false -> true
link L1 with nothing down: a forwarding, b forwarding -> a designated forwarding, b root forwarding
link L2 with nothing down: a forwarding, b forwarding -> a designated forwarding, b root forwarding
nothing down: bridges no longer converge
link L1 down: bridges no longer converge
link L2 down: bridges no longer converge
better: 0 of 2 failures; worse: 2 of 2 failures; with nothing down: worse
";
