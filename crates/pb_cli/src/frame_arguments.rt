//! The options of `trace` that describe a frame.

ghost use Rattle.std.specs.Prelude.{IfOk, IfSome};
ghost use Rattle.pb_cli.specs.CommandLines.{AreFrameOptions, IsLength, IsPriority};

use crate::arguments::text_of;
use crate::table::{Argument, Takes};
use clap::ArgMatches;
use std::alloc::{AllocError, Global};

/// The largest priority.
const MOST_PRIORITY: u8 = 7;

/// The least value of `--length`: two addresses and a type.
const LEAST_LENGTH: u32 = 14;

/// The largest value of `--length`.
const MOST_LENGTH: u32 = 65_535;

/// The argument for the destination address.
pub(crate) const TO: Argument = Argument {
    name: "to",
    value: "ADDRESS",
    help: "Destination: an address, broadcast, or a customer port for its station [default: broadcast]",
    takes: Takes::Text,
    excludes: &["HEX"],
};

/// The argument for the source address.
pub(crate) const FROM: Argument = Argument {
    name: "from",
    value: "MAC",
    help: "Source address [default: the station of <PORT>, 02-00-00-00-01-NN]",
    takes: Takes::Text,
    excludes: &["HEX"],
};

/// The argument for the customer's tag.
pub(crate) const CTAG: Argument = Argument {
    name: "ctag",
    value: "TAG",
    help: "Customer's tag, VID or VID:PCP [default: no tag, PCP 0] [range: VID 0-4094, PCP 0-7]",
    takes: Takes::Text,
    excludes: &["HEX"],
};

/// The argument for the priority tag.
pub(crate) const PCP: Argument = Argument {
    name: "pcp",
    value: "N",
    help: "Priority tag: an S-tag with VID 0 and this priority [default: no tag] [range: 0-7]",
    takes: Takes::Small(0, 7),
    excludes: &["HEX"],
};

/// The argument for a BPDU.
pub(crate) const BPDU: Argument = Argument {
    name: "bpdu",
    value: "",
    help: "BPDU of a customer: to 01-80-C2-00-00-00, with LLC 42 42 03",
    takes: Takes::Nothing,
    excludes: &["HEX", "to", "ethertype"],
};

/// The argument for the EtherType.
pub(crate) const ETHERTYPE: Argument = Argument {
    name: "ethertype",
    value: "HHHH",
    help: "EtherType in four hexadecimal digits [default: 0800] [range: 0600-ffff]",
    takes: Takes::Text,
    excludes: &["HEX"],
};

/// The argument for the least number of octets.
pub(crate) const LENGTH: Argument = Argument {
    name: "length",
    value: "N",
    help: "Fill the frame with zeros to N octets [default: not filled] [range: 14-65535]",
    takes: Takes::Number(14, 65_535),
    excludes: &["HEX"],
};

/// The frame that options describe.
#[derive(PartialEq, Eq, Debug, Drop)]
pub struct TraceFrame {
    /// The destination: an address, `broadcast`, or the name of a customer port. None: a broadcast.
    pub to: Option<String>,
    /// The source address. None: the station of the port at which the frame enters.
    pub from: Option<String>,
    /// The customer's tag, as `VID` or `VID:PCP`.
    pub ctag: Option<String>,
    /// The priority of a priority tag, 0 to 7.
    pub pcp: Option<u8>,
    /// Whether the frame is a BPDU. It has no destination and no type then.
    pub bpdu: bool,
    /// The EtherType in hexadecimal digits. None: 0800.
    pub ethertype: Option<String>,
    /// The least number of octets, 14 to 65,535. None: the frame is not filled.
    pub length: Option<u32>,
}

/// Returns the priority of the priority tag, if it is present.
fn priority_of(given: &ArgMatches<'_>) -> Option<u8>
    ensures { IfSome result IsPriority }
{
    match given.get_one::<u8>("pcp") {
        Some(pcp) if pcp <= MOST_PRIORITY => Some(pcp),
        _ => None,
    }
}

/// Returns the least number of octets, if it is present.
fn length_of(given: &ArgMatches<'_>) -> Option<u32>
    ensures { IfSome result IsLength }
{
    match given.get_one::<u32>("length") {
        Some(length) if LEAST_LENGTH <= length && length <= MOST_LENGTH => Some(length),
        _ => None,
    }
}

/// Returns the frame that the options describe.
///
/// # Errors
///
/// `AllocError` if an allocation failed.
pub(crate) fn trace_frame(alloc: Global, given: &ArgMatches<'_>) -> Result<TraceFrame, AllocError>
    ensures { IfOk result AreFrameOptions }
{
    let to = text_of(alloc, given, "to")?;
    let from = text_of(alloc, given, "from")?;
    let ctag = text_of(alloc, given, "ctag")?;
    let ethertype = text_of(alloc, given, "ethertype")?;
    Ok(TraceFrame {
        to,
        from,
        ctag,
        pcp: priority_of(given),
        bpdu: given.get_flag("bpdu"),
        ethertype,
        length: length_of(given),
    })
}
