//! The topologies of a starter plan, and the ends of their links.

ghost use Rattle.std.specs.Prelude.{◌≡◌, ◌+◌, ◌≤◌};
ghost use Rattle.pb_cmd_init.specs.Topologies.{bridge_count, link_count, site_count, site_bridge, access_count};
ghost use Rattle.pb_cmd_init.specs.Topologies.{next_in_ring, ring_ends, uplink_ends, ends_of};

/// The topology of a network: how its bridges are connected, and how many there are.
#[derive(Clone, Copy, PartialEq, Eq, Debug)]
pub enum Topology {
    /// A line: each bridge is connected to the next. A plan allows 1 to 32 bridges.
    Line(u8),
    /// A ring: a line whose last bridge is connected to the first. A plan allows 3 to 32 bridges.
    Ring(u8),
    /// A star: the first bridge, the centre, is connected to each of the others and has no customer ports. A plan
    /// allows 2 to 17 bridges, because the centre has sixteen ports.
    Star(u8),
    /// A ring of four core bridges, and so many access bridges, each connected to two neighbouring core bridges. Core
    /// bridges have no customer ports. A plan allows 2 to 24 access bridges; more are as 24.
    DualHomed(u8),
}

/// The ends of a link: the bridges `a` and `b`, and the local port of each.
#[derive(Clone, Copy)]
pub(crate) struct Ends {
    pub(crate) a: u8,
    pub(crate) a_port: u8,
    pub(crate) b: u8,
    pub(crate) b_port: u8,
}

/// The number of core bridges.
const CORE: u8 = 4;

/// The most access bridges.
const MOST_ACCESS: u8 = 24;

/// Returns the number of access bridges, if there are to be so many.
fn access_bridges(asked: u8) -> u8
    ensures { result ≡ access_count asked }
{
    asked.min(MOST_ACCESS)
}

/// Returns the bridge after this one in a ring of so many bridges.
fn next_in_ring(bridge: u8, bridges: u8) -> u8
    requires { bridge ≤ bridges }
    ensures { result ≡ next_in_ring bridge bridges }
{
    if bridge == bridges { 1 } else { bridge + 1 }
}

/// Returns the ends of a link of a ring of so many bridges.
fn ring_ends(link: u8, bridges: u8) -> Ends
    requires { link ≤ bridges }
    ensures { result ≡ ring_ends bridges link }
{
    Ends {
        a: link,
        a_port: 1,
        b: next_in_ring(link, bridges),
        b_port: 2,
    }
}

/// Returns the ends of a link between a core bridge and an access bridge. The links 5 and 6 are those of the first
/// access bridge.
fn uplink_ends(link: u8) -> Ends
    requires { 5 ≤ link }
    ensures { result ≡ uplink_ends link }
{
    let uplink = link - CORE - 1;
    let access = uplink / 2;
    let side = uplink % 2;
    Ends {
        a: (access + side) % CORE + 1,
        a_port: access / CORE * 2 + side + 3,
        b: CORE + access + 1,
        b_port: side + 1,
    }
}

impl Topology {
    /// Returns the number of bridges.
    pub(crate) fn bridges(self) -> u8
        ensures { result ≡ bridge_count self }
    {
        match self {
            Topology::Line(bridges) | Topology::Ring(bridges) | Topology::Star(bridges) => bridges,
            Topology::DualHomed(access) => CORE + access_bridges(access),
        }
    }

    /// Returns the number of links.
    pub(crate) fn links(self) -> u8
        ensures { result ≡ link_count self }
    {
        match self {
            Topology::Line(bridges) | Topology::Star(bridges) => bridges.saturating_sub(1),
            Topology::Ring(bridges) => bridges,
            Topology::DualHomed(access) => CORE + 2 * access_bridges(access),
        }
    }

    /// Returns the number of sites: of bridges with customer ports.
    pub(crate) fn sites(self) -> u8
        ensures { result ≡ site_count self }
    {
        match self {
            Topology::Line(bridges) | Topology::Ring(bridges) => bridges,
            Topology::Star(bridges) => bridges.saturating_sub(1),
            Topology::DualHomed(access) => access_bridges(access),
        }
    }

    /// Returns the bridge of the site with this number.
    pub(crate) fn site_bridge(self, site: u8) -> u8
        requires { site ≤ site_count self }
        ensures { result ≡ site_bridge self site }
    {
        match self {
            Topology::Line(_) | Topology::Ring(_) => site,
            Topology::Star(_) => site + 1,
            Topology::DualHomed(_) => CORE + site,
        }
    }

    /// Returns the bridge of the first site.
    pub(crate) fn first_site(self) -> u8
        ensures { result ≡ site_bridge self 1 }
    {
        match self {
            Topology::Line(_) | Topology::Ring(_) => 1,
            Topology::Star(_) => 2,
            Topology::DualHomed(_) => CORE + 1,
        }
    }

    /// Returns the ends of the link with this number.
    pub(crate) fn ends(self, link: u8) -> Ends
        requires { link ≤ link_count self }
        ensures { result ≡ ends_of self link }
    {
        match self {
            Topology::Line(_) => Ends {
                a: link,
                a_port: 1,
                b: link + 1,
                b_port: 2,
            },
            Topology::Ring(bridges) => ring_ends(link, bridges),
            Topology::Star(_) => Ends {
                a: 1,
                a_port: link,
                b: link + 1,
                b_port: 1,
            },
            Topology::DualHomed(_) if link <= CORE => ring_ends(link, CORE),
            Topology::DualHomed(_) => uplink_ends(link),
        }
    }
}
