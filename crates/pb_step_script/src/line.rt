//! Lines that ask for one event.

ghost use Rattle.std.specs.Prelude.{◌≡◌, ℕ, List, Bool, codes, true, false, length, IfOk, IfSome, IfNone, ◌<◌};
ghost use Rattle.pb_frame.specs.Hex.{IsHex};
ghost use Rattle.pb_lan.specs.declared.event.Event.{Event};
ghost use Rattle.pb_step_script.specs.Lines.{IsFrameAt, IsBridgePort, IsBridgeWay, IsWay, IsLinkLane, AsksFor, Asks};
ghost use Rattle.pb_lan.specs.Names.{is_name};

use crate::names::Names;
use crate::verb::{Verb, verb_of};
use bytes::Bytes;
use pb_frame::{HexFault, Memory, hex_octets};
use pb_lan::{Event, is_name};
use pb_messages::{cut, local_port, read_port};
use std::alloc::Global;

/// Reads a frame of at least one octet from pairs of hexadecimal digits in either case.
///
/// Returns `None` if there are no digits, an odd number of them, or another octet among them.
///
/// # Errors
///
/// `Memory` if an allocation failed.
pub fn read_frame(alloc: Global, hex: &[u8]) -> Result<Option<Bytes>, Memory>
    ensures some { IfOk result (λ o. IfSome o (λ frame. IsHex hex.now frame)) }
    ensures filled { IfOk result (λ o. IfSome o (λ frame. 0 < length frame)) }
    ensures none { IfOk result (λ o. IfNone o ((frame : List ℕ) → IsHex hex.now frame → 0 < length frame → ⊥)) }
{
    if hex.is_empty() {
        return Ok(None);
    }
    match hex_octets(alloc, hex) {
        Ok(frame) => Ok(Some(frame)),
        Err(HexFault::Memory) => Err(Memory),
        Err(HexFault::Digit) => Ok(None),
        Err(HexFault::Odd) => Ok(None),
    }
}

/// Reads the arguments `NAME HEX`: the number of a customer port and a frame.
///
/// # Errors
///
/// `Memory` if an allocation failed.
fn read_frame_at(
    alloc: Global,
    names: &Names<'_>,
    words: &[u8],
) -> Result<Option<(u8, Bytes)>, Memory>
    ensures some { IfOk result (λ o. IfSome o (λ e. IsFrameAt names.now.plan.now words.now e.0 e.1)) }
    ensures none { IfOk result (λ o. IfNone o ((port : ℕ) (frame : List ℕ) →
        IsFrameAt names.now.plan.now words.now port frame → ⊥)) }
{
    let Some((name, hex)) = cut(words) else {
        return Ok(None);
    };
    if !is_name(name) {
        return Ok(None);
    }
    match read_frame(alloc, hex)? {
        Some(frame) => Ok(Some((names.customer(name), frame))),
        None => Ok(None),
    }
}

/// Reads the arguments `BRIDGE PORT`: the number of a bridge and a local port of it.
fn read_bridge_port(names: &Names<'_>, words: &[u8]) -> Option<(u8, u8)>
    ensures some { IfSome result (λ at. IsBridgePort names.now.plan.now words.now at.0 at.1) }
    ensures none { IfNone result ((bridge port : ℕ) → IsBridgePort names.now.plan.now words.now bridge port → ⊥) }
{
    let (name, digits) = cut(words)?;
    if !is_name(name) {
        return None;
    }
    let number = read_port(digits)?;
    Some((names.bridge(name), local_port(number)))
}

/// Reads `up` or `down`: whether to enable the port.
fn read_way(word: &[u8]) -> Option<bool>
    ensures some { IfSome result (λ up. IsWay word.now up) }
    ensures none { IfNone result ((up : Bool) → IsWay word.now up → ⊥) }
{
    match word {
        b"up" => Some(true),
        b"down" => Some(false),
        _ => None,
    }
}

/// A local port of a bridge, and whether to enable or disable it.
#[derive(Clone, Copy)]
struct PortSetting {
    /// The bridge's number.
    bridge: u8,
    /// The local port.
    port: u8,
    /// Whether to enable it. Otherwise it is disabled.
    up: bool,
}

/// Reads the arguments `BRIDGE PORT up` or `BRIDGE PORT down`.
fn read_bridge_way(names: &Names<'_>, words: &[u8]) -> Option<PortSetting>
    ensures some { IfSome result (λ at. IsBridgeWay names.now.plan.now words.now at.bridge at.port at.up) }
    ensures none { IfNone result ((bridge port : ℕ) (up : Bool) →
        IsBridgeWay names.now.plan.now words.now bridge port up → ⊥) }
{
    let (name, rest) = cut(words)?;
    let (digits, way) = cut(rest)?;
    if !is_name(name) {
        return None;
    }
    let number = read_port(digits)?;
    match read_way(way) {
        Some(up) => Some(PortSetting {
            bridge: names.bridge(name),
            port: local_port(number),
            up,
        }),
        None => None,
    }
}

/// Reads the arguments `LINK ab` or `LINK ba`: the number of a lane.
fn read_link_lane(names: &Names<'_>, words: &[u8]) -> Option<u8>
    ensures some { IfSome result (λ lane. IsLinkLane names.now.plan.now words.now lane) }
    ensures none { IfNone result ((lane : ℕ) → IsLinkLane names.now.plan.now words.now lane → ⊥) }
{
    let (name, way) = cut(words)?;
    if !is_name(name) {
        return None;
    }
    let link = names.link(name);
    match way {
        b"ab" => Some((2 * link).saturating_sub(1)),
        b"ba" => Some(2 * link),
        _ => None,
    }
}

/// Reads the arguments after the verb. Returns the event that the line asks for.
///
/// # Errors
///
/// `Memory` if an allocation failed.
fn read_words(
    alloc: Global,
    names: &Names<'_>,
    verb: Verb,
    words: &[u8],
) -> Result<Option<Event>, Memory>
    ensures some { IfOk result (λ o. IfSome o (λ event. AsksFor names.now.plan.now verb words.now event)) }
    ensures none { IfOk result (λ o. IfNone o ((event : Event) → AsksFor names.now.plan.now verb words.now event → ⊥)) }
{
    let event = match verb {
        Verb::Poll => match read_frame_at(alloc, names, words)? {
            Some((port, frame)) => Event::Poll { port, frame },
            None => return Ok(None),
        },
        Verb::Receive => match read_bridge_port(names, words) {
            Some((bridge, port)) => Event::Receive { bridge, port },
            None => return Ok(None),
        },
        Verb::Transmit => match read_bridge_port(names, words) {
            Some((bridge, port)) => Event::Transmit { bridge, port },
            None => return Ok(None),
        },
        Verb::Admin => match read_bridge_way(names, words) {
            Some(PortSetting { bridge, port, up }) => Event::Admin { bridge, port, up },
            None => return Ok(None),
        },
        Verb::Take => match read_link_lane(names, words) {
            Some(lane) => Event::Take { lane },
            None => return Ok(None),
        },
        Verb::Put => match read_link_lane(names, words) {
            Some(lane) => Event::Put { lane },
            None => return Ok(None),
        },
        Verb::Feed if is_name(words) => Event::Feed {
            port: names.customer(words),
        },
        Verb::Deliver if is_name(words) => Event::Deliver {
            port: names.customer(words),
        },
        Verb::Tick if is_name(words) => Event::Tick {
            bridge: names.bridge(words),
        },
        Verb::Feed | Verb::Deliver | Verb::Tick => return Ok(None),
    };
    Ok(Some(event))
}

/// Reads a line of a step script: a verb and its arguments, separated by one space each.
///
/// Returns the event that the line asks for. A name that the plan lacks, or a port above 16, gives the number 0, which
/// no part of a plan has. Returns `None` for any other line, for an empty line, and for a line of more than `limit`
/// octets.
///
/// # Errors
///
/// `Memory` if an allocation failed.
///
/// # Examples
///
/// ```
/// use pb_lan::Event;
/// use pb_service::read_plan;
/// use pb_step_script::{Names, read_line};
///
/// let file = b"bridge = [{ name = 'B1', address = '02-00-00-00-00-01' }]";
/// let (plan, _) = read_plan(rt.alloc(), file)?;
/// let names = Names::new(rt.alloc(), &plan)?;
/// let event = read_line(rt.alloc(), 80, &names, b"tick B1")?;
/// assert_eq!(rt; event, Some(Event::Tick { bridge: 1 }));
/// let event = read_line(rt.alloc(), 80, &names, b"tick")?;
/// assert_eq!(rt; event, None);
/// ```
pub fn read_line(
    alloc: Global,
    limit: usize,
    names: &Names<'_>,
    line: &[u8],
) -> Result<Option<Event>, Memory>
    ensures some { IfOk result (λ o. IfSome o (λ event. Asks limit names.now.plan.now line.now event)) }
    ensures none { IfOk result (λ o. IfNone o ((event : Event) → Asks limit names.now.plan.now line.now event → ⊥)) }
{
    if line.len() > limit {
        return Ok(None);
    }
    let Some((word, words)) = cut(line) else {
        return Ok(None);
    };
    match verb_of(word) {
        Some(verb) => read_words(alloc, names, verb, words),
        None => Ok(None),
    }
}
