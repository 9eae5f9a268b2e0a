//! The frame that options of `trace` describe.

ghost use Rattle.pb_lan.specs.Plans.{IsSound};

use crate::messages::complain;
use crate::telling::WRONG_ARGUMENTS;
use pb_cli::TraceFrame;
use pb_frame::{Mac, Memory, Tci, hex_text};
use pb_frame_options::{
    Content, FrameOptions, address_of, customer_tag_of, ethertype_of, frame_of, priority_tag,
    station_of,
};
use pb_lan::Plan;
use pb_names::port_named;
use std::process::ExitCode;

/// The destination of a broadcast.
const BROADCAST: Mac = Mac([0xff; 6]);

/// The destination of a customer's BPDU.
const BPDU_ADDRESS: Mac = Mac([0x01, 0x80, 0xc2, 0, 0, 0]);

/// The EtherType without `--ethertype`: IPv4.
const ETHERTYPE: u16 = 0x0800;

/// Why there is no frame.
#[derive(Drop)]
pub(crate) enum NoFrame {
    /// An option was refused, and a message was printed. This is the exit status.
    Refused(ExitCode),
    /// An allocation failed.
    Memory,
}

impl From<Memory> for NoFrame {
    fn from(_e: Memory) -> NoFrame {
        NoFrame::Memory
    }
}

/// Returns the end of the command after a message about an option.
fn refused() -> NoFrame {
    NoFrame::Refused(ExitCode::from(WRONG_ARGUMENTS))
}

/// Returns the destination address that a text means: `broadcast`, an address, or the station of a customer port.
///
/// # Errors
///
/// The end of the command, after a message, if the text is none of these.
fn destination_of(rt: &(impl Eprint + AllocGlobal), plan: &Plan, text: &str) -> Result<Mac, NoFrame>
    requires { IsSound plan.now }
{
    if text == "broadcast" {
        return Ok(BROADCAST);
    }
    if let Some(address) = address_of(text) {
        return Ok(address);
    }
    match port_named(plan, text) {
        0 => {
            complain(
                rt,
                format!(in rt.alloc();
                    "error: --to: \"{text}\" is not an address, a customer port or broadcast"
                ),
            );
            Err(refused())
        }
        number => Ok(station_of(number)),
    }
}

/// Returns the destination address of a frame.
///
/// # Errors
///
/// The end of the command, after a message, if `--to` is refused.
fn to_of(
    rt: &(impl Eprint + AllocGlobal),
    plan: &Plan,
    described: &TraceFrame,
) -> Result<Mac, NoFrame>
    requires { IsSound plan.now }
{
    match &described.to {
        _ if described.bpdu => Ok(BPDU_ADDRESS),
        Some(text) => destination_of(rt, plan, text.as_str()),
        None => Ok(BROADCAST),
    }
}

/// Returns the source address of a frame that enters at the customer port with this number.
///
/// # Errors
///
/// The end of the command, after a message, if `--from` is no address.
fn from_of(
    rt: &(impl Eprint + AllocGlobal),
    port: u8,
    described: &TraceFrame,
) -> Result<Mac, NoFrame> {
    let Some(text) = &described.from else {
        return Ok(station_of(port));
    };
    match address_of(text.as_str()) {
        Some(address) => Ok(address),
        None => {
            complain(
                rt,
                format!(in rt.alloc();
                    "error: --from: \"{text}\" is not an address like 02-00-00-00-01-01"
                ),
            );
            Err(refused())
        }
    }
}

/// Returns the customer's tag of a frame, if there is one.
///
/// # Errors
///
/// The end of the command, after a message, if `--ctag` is refused.
fn customer_of(rt: &impl Eprint, described: &TraceFrame) -> Result<Option<Tci>, NoFrame> {
    let Some(text) = &described.ctag else {
        return Ok(None);
    };
    match customer_tag_of(text.as_str()) {
        Ok(tag) => Ok(Some(tag)),
        Err(fault) => {
            let _ = eprintln!(rt; "error: --ctag: {fault}");
            Err(refused())
        }
    }
}

/// Returns what follows the tags of a frame.
///
/// # Errors
///
/// The end of the command, after a message, if `--ethertype` is refused.
fn content_of(
    rt: &(impl Eprint + AllocGlobal),
    described: &TraceFrame,
) -> Result<Content, NoFrame> {
    if described.bpdu {
        return Ok(Content::Bpdu);
    }
    let Some(text) = &described.ethertype else {
        return Ok(Content::EtherType(ETHERTYPE));
    };
    match ethertype_of(text.as_str()) {
        Ok(number) => Ok(Content::EtherType(number)),
        Err(fault) => {
            complain(
                rt,
                format!(in rt.alloc(); "error: --ethertype: {text} is {fault}"),
            );
            Err(refused())
        }
    }
}

/// Returns the options of a frame that enters at the customer port with this name.
///
/// # Errors
///
/// The end of the command, after a message, if an option is refused.
fn options_of(
    rt: &(impl Eprint + AllocGlobal),
    plan: &Plan,
    port: &str,
    described: &TraceFrame,
) -> Result<FrameOptions, NoFrame>
    requires { IsSound plan.now }
{
    Ok(FrameOptions {
        to: to_of(rt, plan, described)?,
        from: from_of(rt, port_named(plan, port), described)?,
        service: match described.pcp {
            Some(pcp) => priority_tag(pcp),
            None => None,
        },
        customer: customer_of(rt, described)?,
        content: content_of(rt, described)?,
        least: match described.length {
            Some(length) => length as usize,
            None => 0,
        },
    })
}

/// Returns the octets of a frame that enters at the customer port with this name, as pairs of hexadecimal digits.
///
/// # Errors
///
/// `Refused` after a message if an option is refused, `Memory` if an allocation failed.
pub(crate) fn described_hex(
    rt: &(impl Eprint + AllocGlobal),
    plan: &Plan,
    port: &str,
    described: &TraceFrame,
) -> Result<String, NoFrame>
    requires { IsSound plan.now }
{
    let options = options_of(rt, plan, port, described)?;
    let Ok(frame) = frame_of(rt.alloc(), &options) else {
        return Err(NoFrame::Memory);
    };
    if 0 < options.least && options.least < frame.len() {
        let (length, least) = (options.least, frame.len());
        let _ = eprintln!(rt; "error: --length: {length} is below the {least} octets of the frame");
        return Err(refused());
    }
    Ok(hex_text(rt.alloc(), frame.as_slice())?)
}
