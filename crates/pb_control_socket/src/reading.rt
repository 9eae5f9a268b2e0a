//! Reads the request of a line.

ghost use Rattle.std.specs.Prelude.{◌≡◌, ◌≢◌, ◌⊎◌, ◌==◌, ◌<◌, ℕ, Bool, false, Some, None, IfSome, IfNone, length};
ghost use Rattle.std.specs.List.{position};
ghost use Rattle.pb_control_socket.specs.Sizes.{IsFew};
ghost use Rattle.pb_lan.specs.Names.{is_name};
ghost use Rattle.pb_lan.specs.declared.plan.Plan.{Plan};
ghost use Rattle.pb_step_script.specs.Lines.{IsBridgePort};
ghost use Rattle.pb_control_socket.specs.Requests.{way_word, colon_cut, IsColonPort, AsksFor, AsksToSet};
ghost use Rattle.pb_control_socket.specs.Requests.{Asks, AsksForStations, IsNoWord, Reads, is_there};
ghost use Rattle.pb_control_socket.specs.declared.request.Request.{Request};

use crate::places::{bridge_named, is_part, leads_on, part_named};
use crate::request::{Refused, Request};
use pb_lan::{Plan, is_name};
use pb_messages::{cut, local_port, read_port};

/// The first argument of a line that asks for stations.
const STATIONS: &[u8] = b"stations";

/// Returns the bridge and its local port from the arguments `BRIDGE PORT`. Each is 0 if the plan or the bridge lacks
/// it. `None` if the arguments do not read so.
fn read_bridge_port(plan: &Plan, words: &[u8]) -> Option<(u8, u8)>
    requires { IsFew plan.now }
    ensures some { IfSome result (λ at. IsBridgePort plan.now words.now at.0 at.1) }
    ensures none { IfNone result ((bridge port : ℕ) → IsBridgePort plan.now words.now bridge port → ⊥) }
{
    let (name, digits) = cut(words)?;
    if !is_name(name) {
        return None;
    }
    let number = read_port(digits)?;
    Some((bridge_named(plan, name), local_port(number)))
}

/// Returns the index of the first colon.
fn colon_in(text: &[u8]) -> Option<usize>
    ensures place { result ≡ position (λ c. c == 58) text.now }
    ensures some { IfSome result (λ i. i < length text.now) }
{
    text.iter().position(|c| *c == b':')
}

/// Splits a text at its first colon, which is in neither part. Returns `None` if there is no colon.
fn cut_at_colon(text: &[u8]) -> Option<(&[u8], &[u8])>
    ensures some { IfSome result (λ parts. colon_cut text.now ≡ Some (parts.0.now, parts.1.now)) }
    ensures none { IfNone result (colon_cut text.now ≡ None) }
{
    match colon_in(text) {
        Some(i) => Some((&text[..i], &text[i + 1..])),
        None => None,
    }
}

/// Returns the bridge and its local port from the argument `BRIDGE:PORT`. Each is 0 if the plan or the bridge lacks it.
/// `None` if the argument does not read so.
fn read_colon_port(plan: &Plan, word: &[u8]) -> Option<(u8, u8)>
    requires { IsFew plan.now }
    ensures some { IfSome result (λ at. IsColonPort plan.now word.now at.0 at.1) }
    ensures none { IfNone result ((bridge port : ℕ) → IsColonPort plan.now word.now bridge port → ⊥) }
{
    let (name, digits) = cut_at_colon(word)?;
    if !is_name(name) {
        return None;
    }
    let number = read_port(digits)?;
    Some((bridge_named(plan, name), local_port(number)))
}

/// Returns the bridge and its local port from the arguments `BRIDGE PORT` or `BRIDGE:PORT`. Each is 0 if the plan or
/// the bridge lacks it. `None` if the arguments do not read so.
fn read_port_at(plan: &Plan, words: &[u8]) -> Option<(u8, u8)>
    requires { IsFew plan.now }
    ensures some { IfSome result (λ at.
        IsBridgePort plan.now words.now at.0 at.1 ⊎ IsColonPort plan.now words.now at.0 at.1) }
    ensures none { IfNone result ((bridge port : ℕ)
        → IsBridgePort plan.now words.now bridge port ⊎ IsColonPort plan.now words.now bridge port → ⊥) }
{
    match read_bridge_port(plan, words) {
        Some(at) => Some(at),
        None => read_colon_port(plan, words),
    }
}

/// Returns whether a port is to be enabled, from the argument `up` or `down`.
fn read_way(word: &[u8]) -> Option<bool>
    ensures some { IfSome result (λ up. word.now ≡ way_word up) }
    ensures none { IfNone result ((up : Bool) → word.now ≡ way_word up → ⊥) }
{
    match word {
        b"up" => Some(true),
        b"down" => Some(false),
        _ => None,
    }
}

/// Returns the request to set the part that a name means. `None` if the text is no name.
fn read_part(plan: &Plan, name: &[u8], up: bool) -> Option<Request>
    requires { IsFew plan.now }
    ensures some { IfSome result (λ request. AsksFor plan.now name.now up request) }
    ensures none { IfNone result (is_name name.now ≡ false) }
{
    if !is_name(name) {
        return None;
    }
    let part = part_named(plan, name);
    Some(Request::SetPart { part, up })
}

/// Returns the request that the arguments after `up` or `down` ask for.
fn read_change(plan: &Plan, words: &[u8], up: bool) -> Option<Request>
    requires { IsFew plan.now }
    ensures some { IfSome result (λ request. AsksFor plan.now words.now up request) }
    ensures none { IfNone result ((request : Request) → AsksFor plan.now words.now up request → ⊥) }
{
    match read_port_at(plan, words) {
        Some((bridge, port)) => Some(Request::Set { bridge, port, up }),
        None => read_part(plan, words, up),
    }
}

/// Returns the request of a line that begins with `up` or `down`.
fn read_setting(plan: &Plan, line: &[u8]) -> Option<Request>
    requires { IsFew plan.now }
    ensures some { IfSome result (λ request. AsksToSet plan.now line.now request) }
    ensures none { IfNone result ((request : Request) → AsksToSet plan.now line.now request → ⊥) }
{
    let (word, words) = cut(line)?;
    let up = read_way(word)?;
    read_change(plan, words, up)
}

/// Returns the number of the bridge that a line `stations BRIDGE` names, or 0 if the plan has none of this name. `None`
/// if the line does not read so.
fn read_stations(plan: &Plan, line: &[u8]) -> Option<u8>
    requires { IsFew plan.now }
    ensures some { IfSome result (λ bridge. AsksForStations plan.now line.now bridge) }
    ensures none { IfNone result ((bridge : ℕ) → AsksForStations plan.now line.now bridge → ⊥) }
{
    let (word, name) = cut(line)?;
    if word != STATIONS || !is_name(name) {
        return None;
    }
    Some(bridge_named(plan, name))
}

/// Returns the request of a line that begins with `up`, `down` or `stations`.
fn read_named(plan: &Plan, line: &[u8]) -> Option<Request>
    requires { IsFew plan.now }
    ensures some { IfSome result (λ request. Asks plan.now line.now request) }
    ensures unset { IfNone result ((request : Request) → AsksToSet plan.now line.now request → ⊥) }
    ensures unshown { IfNone result ((bridge : ℕ) → AsksForStations plan.now line.now bridge → ⊥) }
{
    match read_setting(plan, line) {
        Some(request) => Some(request),
        None => {
            let bridge = read_stations(plan, line)?;
            Some(Request::Stations { bridge })
        }
    }
}

/// Returns the request that is a single argument: `stop`, `counts`, `tree`, `drops` or `help`.
fn read_word(line: &[u8]) -> Option<Request>
    ensures some { IfSome result (λ request. (plan : Plan) → Reads plan line.now (Ok request)) }
    ensures none { IfNone result (IsNoWord line.now) }
{
    match line {
        b"stop" => Some(Request::Stop),
        b"counts" => Some(Request::Counts),
        b"tree" => Some(Request::Tree),
        b"drops" => Some(Request::Drops),
        b"help" => Some(Request::Help),
        _ => None,
    }
}

/// Checks whether the port, the part or the bridge of a request exists.
fn is_there(plan: &Plan, request: Request) -> bool
    ensures { result ≡ is_there plan.now request }
{
    match request {
        Request::Stop | Request::Counts | Request::Tree | Request::Drops | Request::Help => true,
        Request::Stations { bridge } => bridge != 0,
        Request::Set { bridge, port, .. } => leads_on(plan, bridge, port),
        Request::SetPart { part, .. } => is_part(part),
    }
}

/// Returns the request of a line that is no single argument.
///
/// # Errors
///
/// `NoSuch` if the plan lacks the port, the part or the bridge that the line names. `Bad` if the line does not read so.
fn read_set(plan: &Plan, line: &[u8]) -> Result<Request, Refused>
    requires { IsFew plan.now }
    ensures read { result ≢ Err Refused.Bad → Reads plan.now line.now result }
    ensures unset { result ≡ Err Refused.Bad → (request : Request) → AsksToSet plan.now line.now request → ⊥ }
    ensures unshown { result ≡ Err Refused.Bad → (bridge : ℕ) → AsksForStations plan.now line.now bridge → ⊥ }
{
    let Some(request) = read_named(plan, line) else {
        return Err(Refused::Bad);
    };
    if is_there(plan, request) {
        Ok(request)
    } else {
        Err(Refused::NoSuch)
    }
}

/// Reads the request of a line: one of `stop`, `counts`, `tree`, `drops`, `stations BRIDGE`, `help`, `up NAME` and
/// `down NAME`, without its LF. One space is between two arguments. BRIDGE is the name of a bridge.
///
/// NAME is the name of a link, for both of its ends; or of a bridge, for both ends of each of its links, which may be
/// none; or a port to another bridge as `BRIDGE:PORT` or `BRIDGE PORT`, for that end alone. A name has 1 to 32 letters,
/// digits, hyphens and underscores. PORT is one to three digits, the first not 0. No such line has more than 41 octets:
/// of a longer one only the first 42 matter.
///
/// # Errors
///
/// `NoSuch` if a line reads so but the plan has no link and no bridge of the name, or has both, the bridge's port leads
/// to no other bridge, or BRIDGE names none. `Bad` if the line does not read so. A carriage return is part of no
/// argument, and makes the line `Bad`.
pub fn read_request(plan: &Plan, line: &[u8]) -> Result<Request, Refused>
    requires { IsFew plan.now }
    ensures { Reads plan.now line.now result }
{
    match read_word(line) {
        Some(request) => Ok(request),
        None => read_set(plan, line),
    }
}
