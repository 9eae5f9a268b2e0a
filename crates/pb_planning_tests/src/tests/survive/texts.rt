//! The reports on the networks.
//!
//! The groups follow from the remaining links. The numbers of ticks are those that the bridges took.

/// A ring: the other links replace each link.
pub(super) const RING: &str = "\
nothing down: converged ticks 3 forest yes\n\
\x20 service red: C1 C2 C3 C4 C5 C6\n\
healthy with nothing down\n\
checked 6 links\n\
6 of 6 failures disconnect nothing\n\
converges within 4 ticks\n\
survives the failure of any one link\n";

/// A ring: without two links two arcs remain.
pub(super) const ARCS: &str = "\
nothing down: converged ticks 3 forest yes\n\
\x20 service red: C1 C2 C3 C4 C5 C6\n\
healthy with nothing down\n\
links L1 L2 down: converged ticks 2 forest yes\n\
\x20 service red: C1 C3 C4 C5 C6 | C2\n\
links L1 L3 down: converged ticks 2 forest yes\n\
\x20 service red: C1 C4 C5 C6 | C2 C3\n\
links L1 L4 down: converged ticks 4 forest yes\n\
\x20 service red: C1 C5 C6 | C2 C3 C4\n\
links L1 L5 down: converged ticks 6 forest yes\n\
\x20 service red: C1 C6 | C2 C3 C4 C5\n\
links L1 L6 down: converged ticks 8 forest yes\n\
\x20 service red: C1 | C2 C3 C4 C5 C6\n\
links L2 L3 down: converged ticks 2 forest yes\n\
\x20 service red: C1 C2 C4 C5 C6 | C3\n\
links L2 L4 down: converged ticks 2 forest yes\n\
\x20 service red: C1 C2 C5 C6 | C3 C4\n\
links L2 L5 down: converged ticks 4 forest yes\n\
\x20 service red: C1 C2 C6 | C3 C4 C5\n\
links L2 L6 down: converged ticks 3 forest yes\n\
\x20 service red: C1 C2 | C3 C4 C5 C6\n\
links L3 L4 down: converged ticks 2 forest yes\n\
\x20 service red: C1 C2 C3 C5 C6 | C4\n\
links L3 L5 down: converged ticks 2 forest yes\n\
\x20 service red: C1 C2 C3 C6 | C4 C5\n\
links L3 L6 down: converged ticks 2 forest yes\n\
\x20 service red: C1 C2 C3 | C4 C5 C6\n\
links L4 L5 down: converged ticks 2 forest yes\n\
\x20 service red: C1 C2 C3 C4 C6 | C5\n\
links L4 L6 down: converged ticks 2 forest yes\n\
\x20 service red: C1 C2 C3 C4 | C5 C6\n\
links L5 L6 down: converged ticks 2 forest yes\n\
\x20 service red: C1 C2 C3 C4 C5 | C6\n\
checked 6 links, 15 pairs\n\
6 of 21 failures disconnect nothing\n\
converges within 8 ticks\n\
15 of 21 failures disconnect a service\n";

/// A ring: without a bridge the ports of the others stay connected.
pub(super) const BRIDGES: &str = "\
nothing down: converged ticks 3 forest yes\n\
\x20 service red: C1 C2 C3 C4 C5 C6\n\
healthy with nothing down\n\
checked 6 links, 6 bridges\n\
12 of 12 failures disconnect nothing\n\
converges within 8 ticks\n\
survives the failure of any one link or bridge\n";

/// A ring, with the ports of a failed bridge: each is alone.
pub(super) const OWN: &str = "\
nothing down: converged ticks 3 forest yes\n\
\x20 service red: C1 C2 C3 C4 C5 C6\n\
healthy with nothing down\n\
bridge B1 down: converged ticks 8 forest yes\n\
\x20 service red: C1 | C2 C3 C4 C5 C6\n\
bridge B2 down: converged ticks 2 forest yes\n\
\x20 service red: C1 C3 C4 C5 C6 | C2\n\
bridge B3 down: converged ticks 2 forest yes\n\
\x20 service red: C1 C2 C4 C5 C6 | C3\n\
bridge B4 down: converged ticks 2 forest yes\n\
\x20 service red: C1 C2 C3 C5 C6 | C4\n\
bridge B5 down: converged ticks 2 forest yes\n\
\x20 service red: C1 C2 C3 C4 C6 | C5\n\
bridge B6 down: converged ticks 2 forest yes\n\
\x20 service red: C1 C2 C3 C4 C5 | C6\n\
checked 6 links, 6 bridges\n\
6 of 12 failures disconnect nothing\n\
converges within 8 ticks\n\
6 of 12 failures disconnect a service\n";

/// A line: without the middle bridge the ports of the outer ones are disconnected. The groups show its own ports too.
pub(super) const SHARED: &str = "\
nothing down: converged ticks 2 forest yes\n\
\x20 service red: C1 C2 C3 C4\n\
healthy with nothing down\n\
link L1 down: converged ticks 3 forest yes\n\
\x20 service red: C1 C3 C4 | C2\n\
link L2 down: converged ticks 2 forest yes\n\
\x20 service red: C1 C2 C3 | C4\n\
bridge B2 down: converged ticks 2 forest yes\n\
\x20 service red: C1 | C2 | C3 | C4\n\
checked 2 links, 3 bridges\n\
2 of 5 failures disconnect nothing\n\
converges within 3 ticks\n\
3 of 5 failures disconnect a service\n";

/// The same line from a port at the middle bridge, whose own failure does not count.
pub(super) const FROM_SHARED: &str = "\
nothing down: converged ticks 2 forest yes\n\
\x20 service red: C1 C2 C3 C4\n\
healthy with nothing down\n\
link L1 down: converged ticks 3 forest yes\n\
\x20 C1 cut off from: C2\n\
link L2 down: converged ticks 2 forest yes\n\
\x20 C1 cut off from: C4\n\
checked 2 links, 3 bridges\n\
3 of 5 failures disconnect nothing\n\
converges within 3 ticks\n\
2 of 5 failures disconnect a service\n";

/// A line: each link disconnects it.
pub(super) const LINE: &str = "\
nothing down: converged ticks 2 forest yes\n\
\x20 service red: C1 C2 C3 C4\n\
healthy with nothing down\n\
link L1 down: converged ticks 5 forest yes\n\
\x20 service red: C1 | C2 C3 C4\n\
link L2 down: converged ticks 3 forest yes\n\
\x20 service red: C1 C2 | C3 C4\n\
link L3 down: converged ticks 2 forest yes\n\
\x20 service red: C1 C2 C3 | C4\n\
checked 3 links\n\
converges within 5 ticks\n\
3 of 3 failures disconnect a service\n";

/// A line, from its second port.
pub(super) const FROM: &str = "\
nothing down: converged ticks 2 forest yes\n\
\x20 service red: C1 C2 C3 C4\n\
healthy with nothing down\n\
link L1 down: converged ticks 5 forest yes\n\
\x20 C2 cut off from: C1\n\
link L2 down: converged ticks 3 forest yes\n\
\x20 C2 cut off from: C3 C4\n\
link L3 down: converged ticks 2 forest yes\n\
\x20 C2 cut off from: C4\n\
checked 3 links\n\
converges within 5 ticks\n\
3 of 3 failures disconnect a service\n";

/// Two links: one is enough.
pub(super) const PARALLEL: &str = "\
nothing down: converged ticks 2 forest yes\n\
\x20 service red: C1 C2\n\
healthy with nothing down\n\
checked 2 links\n\
2 of 2 failures disconnect nothing\n\
converges within 2 ticks\n\
survives the failure of any one link\n";

/// Two links: without both the bridges are disconnected.
pub(super) const BOTH: &str = "\
nothing down: converged ticks 2 forest yes\n\
\x20 service red: C1 C2\n\
healthy with nothing down\n\
links L1 L2 down: converged ticks 2 forest yes\n\
\x20 service red: C1 | C2\n\
checked 2 links, 1 pair\n\
2 of 3 failures disconnect nothing\n\
converges within 2 ticks\n\
1 of 3 failures disconnect a service\n";

/// A star: each link cuts off the port at its far end.
pub(super) const STAR: &str = "\
nothing down: states given forest yes\n\
\x20 service red: C1 C2 C3\n\
healthy with nothing down\n\
link L1 down: states given forest yes\n\
\x20 service red: C1 | C2 C3\n\
link L2 down: states given forest yes\n\
\x20 service red: C1 C3 | C2\n\
link L3 down: states given forest yes\n\
\x20 service red: C1 C2 | C3\n\
checked 3 links\n\
3 of 3 failures disconnect a service\n";

/// A ring with a forwarding loop: without any one link it is a forest, but it is not healthy.
pub(super) const LOOPING: &str = "\
nothing down: states given forest no\n\
\x20 loop red\n\
\x20 service red: C1 C2\n\
service red has a forwarding loop\n\
not healthy with nothing down: 1 service\n\
checked 3 links\n\
3 of 3 failures disconnect nothing\n\
not healthy with nothing down: 1 service\n";

/// A ring with two loops: without one link a loop may remain.
pub(super) const TWO_LOOPS: &str = "\
nothing down: states given forest no\n\
\x20 loop red\n\
\x20 service red: C1 C2\n\
service red has a forwarding loop\n\
not healthy with nothing down: 1 service\n\
link L1 down: states given forest no\n\
\x20 loop red\n\
link L2 down: states given forest no\n\
\x20 loop red\n\
link L3 down: states given forest no\n\
\x20 loop red\n\
checked 3 links\n\
3 of 3 failures disconnect nothing\n\
3 of 3 failures form a forwarding loop\n\
not healthy with nothing down: 1 service\n";

/// Two bridges without a link: the service is disconnected with nothing down.
pub(super) const CUT: &str = "\
nothing down: converged ticks 2 forest yes\n\
\x20 service red: C1 | C2\n\
\x20 service blue:\n\
service red is disconnected\n\
service blue has fewer than two ports\n\
not healthy with nothing down: 2 services\n\
checked 0 links\n\
not healthy with nothing down: 2 services\n";

/// One service with one port.
pub(super) const ONE_PORT: &str = "\
nothing down: converged ticks 2 forest yes\n\
\x20 service red: C1\n\
service red has fewer than two ports\n\
not healthy with nothing down: 1 service\n\
checked 2 links\n\
2 of 2 failures disconnect nothing\n\
converges within 2 ticks\n\
not healthy with nothing down: 1 service\n";

/// A ring with a link for one service: the other service has only a line.
pub(super) const LISTED: &str = "\
nothing down: converged ticks 2 forest yes\n\
\x20 service red: C1 C2\n\
\x20 service blue: C3 C4\n\
healthy with nothing down\n\
link L1 down: converged ticks 3 forest yes\n\
\x20 service blue: C3 | C4\n\
checked 3 links\n\
2 of 3 failures disconnect nothing\n\
converges within 3 ticks\n\
1 of 3 failures disconnect a service\n";

/// The standard's network: each link is redundant.
pub(super) const FIGURE: &str = "\
nothing down: converged ticks 2 forest yes\n\
\x20 service red: C1 C2 C3 C4 C5 C6 C7 C8\n\
healthy with nothing down\n\
checked 14 links\n\
14 of 14 failures disconnect nothing\n\
converges within 2 ticks\n\
survives the failure of any one link\n";

/// A ring whose bridges tick at most three times. After one failure that is not enough, and no number of ticks is
/// printed.
pub(super) const NOT_CONVERGED: &str = "\
nothing down: converged ticks 3 forest yes\n\
\x20 service red: C1 C2 C3 C4 C5 C6\n\
healthy with nothing down\n\
link L1 down: not converged ticks 3 forest yes\n\
checked 6 links\n\
6 of 6 failures disconnect nothing\n\
1 of 6 failures do not converge\n";

/// A ring whose bridges tick once, and do not converge with nothing down either.
pub(super) const UNREADY: &str = "\
nothing down: not converged ticks 1 forest yes\n\
\x20 service red: C1 C2\n\
bridges do not converge\n\
not healthy with nothing down: 0 services, bridges do not converge\n\
link L1 down: not converged ticks 1 forest yes\n\
link L2 down: not converged ticks 1 forest yes\n\
checked 2 links\n\
2 of 2 failures disconnect nothing\n\
2 of 2 failures do not converge\n\
not healthy with nothing down: 0 services, bridges do not converge\n";

/// An empty plan.
pub(super) const EMPTY: &str = "\
nothing down: states given forest yes\n\
not healthy with nothing down: no service\n\
checked 0 links\n\
not healthy with nothing down: no service\n";

/// A ring without a link: no other link replaces another.
pub(super) const RING_WITHOUT_L1: &str = "\
down: L1\n\
nothing else down: converged ticks 3 forest yes\n\
\x20 service red: C1 C2 C3 C4 C5 C6\n\
healthy with nothing else down\n\
link L2 down: converged ticks 2 forest yes\n\
\x20 service red: C1 C3 C4 C5 C6 | C2\n\
link L3 down: converged ticks 2 forest yes\n\
\x20 service red: C1 C4 C5 C6 | C2 C3\n\
link L4 down: converged ticks 2 forest yes\n\
\x20 service red: C1 C5 C6 | C2 C3 C4\n\
link L5 down: converged ticks 2 forest yes\n\
\x20 service red: C1 C6 | C2 C3 C4 C5\n\
link L6 down: converged ticks 3 forest yes\n\
\x20 service red: C1 | C2 C3 C4 C5 C6\n\
checked 6 links\n\
1 of 6 failures disconnect nothing\n\
converges within 3 ticks\n\
5 of 6 failures disconnect a service\n";

/// Two bridges with two links, of which one has an end down.
pub(super) const PARALLEL_WITHOUT_AN_END: &str = "\
down: B1:1\n\
nothing else down: converged ticks 2 forest yes\n\
\x20 service red: C1 C2\n\
healthy with nothing else down\n\
link L2 down: converged ticks 2 forest yes\n\
\x20 service red: C1 | C2\n\
checked 2 links\n\
1 of 2 failures disconnect nothing\n\
converges within 2 ticks\n\
1 of 2 failures disconnect a service\n";

/// Two bridges with all customer ports at the one that is down: each port is alone, whatever fails.
pub(super) const HUB_WITHOUT_B1: &str = "\
down: B1\n\
nothing else down: converged ticks 2 forest yes\n\
\x20 service red: C1 | C2\n\
service red is disconnected\n\
not healthy with nothing else down: 1 service\n\
checked 2 links, 2 bridges\n\
4 of 4 failures disconnect nothing\n\
converges within 2 ticks\n\
not healthy with nothing else down: 1 service\n";

/// The same with the other bridge down: no port is lost.
pub(super) const HUB_WITHOUT_B2: &str = "\
down: B2\n\
nothing else down: converged ticks 2 forest yes\n\
\x20 service red: C1 C2\n\
healthy with nothing else down\n\
checked 2 links, 2 bridges\n\
4 of 4 failures disconnect nothing\n\
converges within 2 ticks\n\
survives the failure of any one link or bridge\n";

/// Four bridges of which each has a link to each other: no two links and no bridge disconnect the rest.
pub(super) const MESH: &str = "\
nothing down: converged ticks 2 forest yes\n\
\x20 service red: C1 C2 C3 C4\n\
healthy with nothing down\n\
checked 6 links, 15 pairs\n\
21 of 21 failures disconnect nothing\n\
converges within 3 ticks\n\
survives the failure of any two links\n";

/// The same with the failures of bridges.
pub(super) const MESH_BRIDGES: &str = "\
nothing down: converged ticks 2 forest yes\n\
\x20 service red: C1 C2 C3 C4\n\
healthy with nothing down\n\
checked 6 links, 4 bridges, 15 pairs\n\
25 of 25 failures disconnect nothing\n\
converges within 18 ticks\n\
survives the failure of any two links or one bridge\n";
