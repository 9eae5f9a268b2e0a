//! The options of `init`.

ghost use Rattle.std.specs.Prelude.{IfSome};
ghost use Rattle.pb_cli.specs.CommandLines.{IsNetwork, IsAsked, AreServices, AreInitOptions};

use crate::table::{Argument, Takes};
use clap::ArgMatches;

/// The help of `init`.
pub(crate) const INIT: &str = "Print a starter plan";

/// The help of `--line`.
const LINE: &str = "Connect N bridges in a line [default: 2] [range: 1-32]";

/// The help of `--ring`.
const RING: &str = "Connect N bridges in a ring, with RSTP [range: 3-32]";

/// The help of `--star`.
const STAR: &str = "Connect N bridges in a star, with the first as its centre [range: 2-17]";

/// The help of `--dual-homed`.
const DUAL_HOMED: &str =
    "Connect N access bridges to two bridges each of a ring of four, with RSTP [range: 2-24]";

/// The help of `--services`.
const SERVICES: &str = "Give N services a customer port at each site [default: 1] [range: 1-4]";

/// The most services.
const MOST_SERVICES: u8 = 4;

/// The arguments of `init`.
pub(crate) const ARGUMENTS: &[Argument] = &[
    Argument {
        name: "line",
        value: "N",
        help: LINE,
        takes: Takes::Small(1, 32),
        excludes: &["ring", "star", "dual-homed"],
    },
    Argument {
        name: "ring",
        value: "N",
        help: RING,
        takes: Takes::Small(3, 32),
        excludes: &["line", "star", "dual-homed"],
    },
    Argument {
        name: "star",
        value: "N",
        help: STAR,
        takes: Takes::Small(2, 17),
        excludes: &["line", "ring", "dual-homed"],
    },
    Argument {
        name: "dual-homed",
        value: "N",
        help: DUAL_HOMED,
        takes: Takes::Small(2, 24),
        excludes: &["line", "ring", "star"],
    },
    Argument {
        name: "services",
        value: "N",
        help: SERVICES,
        takes: Takes::Small(1, 4),
        excludes: &[],
    },
];

/// The network of a starter plan.
#[derive(Clone, Copy, PartialEq, Eq, Debug)]
pub enum InitNetwork {
    /// A line of 1 to 32 bridges.
    Line(u8),
    /// A ring of 3 to 32 bridges.
    Ring(u8),
    /// A star of 2 to 17 bridges, its centre among them.
    Star(u8),
    /// A ring of four core bridges with 2 to 24 access bridges.
    DualHomed(u8),
}

/// The options of `init`: the network of the starter plan, and 1 to 4 services.
#[derive(Clone, Copy, PartialEq, Eq, Debug)]
pub struct InitOptions {
    /// The network.
    pub network: InitNetwork,
    /// The number of services.
    pub services: u8,
}

/// Returns the network of these arguments: a line of two bridges without any. None if a number is out of range or two
/// arguments are present.
fn network_of(
    line: Option<u8>,
    ring: Option<u8>,
    star: Option<u8>,
    dual_homed: Option<u8>,
) -> Option<InitNetwork>
    ensures { IfSome result (λ network. IsNetwork network × IsAsked line ring star dual_homed network) }
{
    match (line, ring, star, dual_homed) {
        (None, None, None, None) => Some(InitNetwork::Line(2)),
        (Some(bridges), None, None, None) if 1 <= bridges && bridges <= 32 => {
            Some(InitNetwork::Line(bridges))
        }
        (None, Some(bridges), None, None) if 3 <= bridges && bridges <= 32 => {
            Some(InitNetwork::Ring(bridges))
        }
        (None, None, Some(bridges), None) if 2 <= bridges && bridges <= 17 => {
            Some(InitNetwork::Star(bridges))
        }
        (None, None, None, Some(access)) if 2 <= access && access <= 24 => {
            Some(InitNetwork::DualHomed(access))
        }
        _ => None,
    }
}

/// Returns the number of services: 1 without `--services`.
fn services_of(given: &ArgMatches<'_>) -> u8
    ensures { AreServices result }
{
    match given.get_one::<u8>("services") {
        Some(services) if 1 <= services && services <= MOST_SERVICES => services,
        _ => 1,
    }
}

/// Returns the options of `init`. None is never returned, because a parsed argument is in its range and excludes the
/// others; no contract says so.
pub(crate) fn init_options(given: &ArgMatches<'_>) -> Option<InitOptions>
    ensures { IfSome result AreInitOptions }
{
    let network = network_of(
        given.get_one::<u8>("line"),
        given.get_one::<u8>("ring"),
        given.get_one::<u8>("star"),
        given.get_one::<u8>("dual-homed"),
    )?;
    Some(InitOptions {
        network,
        services: services_of(given),
    })
}
