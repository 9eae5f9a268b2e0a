//! Checks of the values of a TOML document.

ghost use Rattle.std.specs.Prelude.{◌≡◌, false, ◌^◌, ◌<◌, ◌↔◌, IsTrue, IsSome, IfSome, IfNone, IfOk};
ghost use Rattle.std.specs.Prelude.{nat_le, ◌==◌, ◌%◌, ◌&&◌, ◌||◌, codes};
ghost use Rattle.std.specs.List.{list_all};
ghost use Rattle.toml.specs.View.{view};
ghost use Rattle.pb_frame.specs.Admission.{same};
ghost use Rattle.pb_frame.specs.Frames.{is_group};
ghost use Rattle.pb_frame.specs.Hex.{is_digit, IsMacText};
ghost use Rattle.pb_lan.specs.Names.{is_name};
ghost use Rattle.pb_service.specs.Values.{natural_of, is_text, is_natural, is_hex, is_file_kind, is_port_kind};
ghost use Rattle.pb_service.specs.Values.{text_in, IsAddress, is_of_kind, IsAllowed};

use crate::lists::{are_frames, are_integers, are_listed, are_losses, are_texts};
use crate::rule::Rule;
use crate::udp::socket_address;
use pb_frame::Mac;
use std::alloc::{AllocError, Global};
use toml::Value;

/// Returns the number of an integer that isn't negative.
pub(crate) fn natural_of(value: &Value) -> Option<u64>
    ensures value { result ≡ natural_of (view value.now) }
    ensures signed { IfSome result (λ n. n < 2 ^ 63) }
{
    let n = value.as_integer()?;
    if n < 0 { None } else { Some(n as u64) }
}

/// Returns the text of a value, or the empty text if the value isn't a text.
pub(crate) fn text_in(value: &Value) -> &str
    ensures { result.now ≡ text_in (view value.now) }
{
    match value.as_str() {
        Some(text) => text,
        None => "",
    }
}

/// Returns whether the value is a number from `low` to `high`.
fn is_number(value: &Value, low: u64, high: u64) -> bool
    ensures { result ≡ is_natural (λ n. nat_le low n && nat_le n high) (view value.now) }
{
    match natural_of(value) {
        Some(n) => low <= n && n <= high,
        None => false,
    }
}

/// Returns whether the value is a multiple of 4,096 up to 61,440.
fn is_bridge_priority(value: &Value) -> bool
    ensures { result ≡ is_natural (λ n. n % 4096 == 0 && nat_le n 61440) (view value.now) }
{
    match natural_of(value) {
        Some(n) => n % 4096 == 0 && n <= 61_440,
        None => false,
    }
}

/// Returns whether the value is a multiple of 16 up to 240.
fn is_port_priority(value: &Value) -> bool
    ensures { result ≡ is_natural (λ n. n % 16 == 0 && nat_le n 240) (view value.now) }
{
    match natural_of(value) {
        Some(n) => n % 16 == 0 && n <= 240,
        None => false,
    }
}

/// Returns whether the value is 2 or 4.
fn is_framing(value: &Value) -> bool
    ensures { result ≡ is_natural (λ n. n == 2 || n == 4) (view value.now) }
{
    match natural_of(value) {
        Some(n) => n == 2 || n == 4,
        None => false,
    }
}

/// Returns whether the value is a text that is a name.
pub(crate) fn is_name(value: &Value) -> bool
    ensures { result ≡ is_text is_name (view value.now) }
{
    match value.as_str() {
        Some(text) => pb_lan::is_name(text.as_bytes()),
        None => false,
    }
}

/// Returns whether the octet is a hexadecimal digit, in either case.
fn is_digit(c: u8) -> bool
    ensures { result ≡ is_digit c }
{
    matches!(c, b'0'..=b'9' | b'A'..=b'F' | b'a'..=b'f')
}

/// Returns whether all octets are hexadecimal digits.
fn are_digits(text: &[u8]) -> bool
    ensures { result ≡ list_all is_digit text.now }
{
    text.iter().all(|c| is_digit(*c))
}

/// Returns whether the text consists of pairs of hexadecimal digits.
fn is_hex_text(text: &str) -> bool
    ensures { result ≡ is_hex text.now }
{
    let digits = are_digits(text.as_bytes());
    digits && text.len() % 2 == 0
}

/// Returns whether the value is a text of pairs of hexadecimal digits.
pub(crate) fn is_hex(value: &Value) -> bool
    ensures { result ≡ is_text is_hex (view value.now) }
{
    match value.as_str() {
        Some(text) => is_hex_text(text),
        None => false,
    }
}

/// Returns the individual MAC address that the text denotes. Returns `None` for a group address and for other texts.
pub(crate) fn station(text: &str) -> Option<Mac>
    ensures found { IfSome result (λ m. IsMacText text.now m.0) }
    ensures individual { IfSome result (λ m. is_group m.0 ≡ false) }
    ensures none { IfNone result (IsAddress text.now → ⊥) }
    ensures some { IsAddress text.now → IsSome result }
{
    match Mac::read(text) {
        None => None,
        Some(mac) => { if mac.is_group() { None } else { Some(mac) } }
    }
}

/// Returns whether the value is `fixed` or `rstp`.
fn is_spanning(value: &Value) -> bool
    ensures { result ≡ is_text (λ t. same t (codes "fixed") || same t (codes "rstp")) (view value.now) }
{
    match value.as_str() {
        Some(text) => text == "fixed" || text == "rstp",
        None => false,
    }
}

/// Returns whether the value is `port` or `class`.
fn is_queues(value: &Value) -> bool
    ensures { result ≡ is_text (λ t. same t (codes "port") || same t (codes "class")) (view value.now) }
{
    match value.as_str() {
        Some(text) => text == "port" || text == "class",
        None => false,
    }
}

/// Returns whether the value is `discarding`, `learning` or `forwarding`.
fn is_state(value: &Value) -> bool
    ensures { result ≡ is_text (λ t. same t (codes "discarding")
        || (same t (codes "learning") || same t (codes "forwarding"))) (view value.now) }
{
    match value.as_str() {
        Some(text) => text == "discarding" || (text == "learning" || text == "forwarding"),
        None => false,
    }
}

/// Returns whether the text is `capture`, `record` or `replay`: the kind of a port over capture files.
fn is_file_kind(text: &str) -> bool
    ensures { result ≡ is_file_kind text.now }
{
    text == "capture" || (text == "record" || text == "replay")
}

/// Returns whether the value is `memory`, `capture`, `record`, `replay`, `socket` or `udp`.
fn is_port_kind(value: &Value) -> bool
    ensures { result ≡ is_text is_port_kind (view value.now) }
{
    match value.as_str() {
        Some(text) => {
            text == "memory" || (is_file_kind(text) || (text == "socket" || text == "udp"))
        }
        None => false,
    }
}

/// Returns whether the value is `ticks` or `time`.
fn is_stamp(value: &Value) -> bool
    ensures { result ≡ is_text (λ t. same t (codes "ticks") || same t (codes "time")) (view value.now) }
{
    match value.as_str() {
        Some(text) => text == "ticks" || text == "time",
        None => false,
    }
}

/// Returns whether the value is `times`.
fn is_replay(value: &Value) -> bool
    ensures { result ≡ is_text (same (codes "times")) (view value.now) }
{
    is_same(value, "times")
}

/// Returns whether the value is `vxlan` or `none`.
fn is_encap(value: &Value) -> bool
    ensures { result ≡ is_text (λ t. same t (codes "vxlan") || same t (codes "none")) (view value.now) }
{
    match value.as_str() {
        Some(text) => text == "vxlan" || text == "none",
        None => false,
    }
}

/// Returns whether the value is `ab`, `ba` or `both`.
fn is_direction(value: &Value) -> bool
    ensures { result ≡ is_text (λ t. same t (codes "ab") || (same t (codes "ba") || same t (codes "both")))
        (view value.now) }
{
    match value.as_str() {
        Some(text) => text == "ab" || (text == "ba" || text == "both"),
        None => false,
    }
}

/// Returns whether the value is this text.
pub(crate) fn is_same(value: &Value, text: &str) -> bool
    ensures { result ≡ is_text (same text.now) (view value.now) }
{
    match value.as_str() {
        Some(other) => text == other,
        None => false,
    }
}

/// Returns whether the value is of the TOML type that the rule requires. The items of a list are checked too.
pub(crate) fn is_of_kind(rule: Rule, value: &Value) -> bool
    ensures { result ≡ is_of_kind rule (view value.now) }
{
    match rule {
        Rule::Number { .. } | Rule::BridgePriority | Rule::PortPriority | Rule::Framing => {
            value.is_integer()
        }
        Rule::Losses => match value.as_array() {
            Some(items) => are_integers(items.as_slice()),
            None => false,
        },
        Rule::Names | Rule::Frames => match value.as_array() {
            Some(items) => are_texts(items.as_slice()),
            None => false,
        },
        Rule::Flag => value.is_bool(),
        Rule::FlagOrAuto => value.is_bool() || value.is_str(),
        Rule::Name
        | Rule::Address
        | Rule::Spanning
        | Rule::Queues
        | Rule::State
        | Rule::PortKind
        | Rule::Stamp
        | Rule::Replay
        | Rule::Direction
        | Rule::Path
        | Rule::SocketAddress
        | Rule::Encap => value.is_str(),
    }
}

/// Checks whether the rule allows the value.
///
/// # Errors
///
/// `AllocError` if an allocation failed.
pub(crate) fn is_allowed(alloc: Global, rule: Rule, value: &Value) -> Result<bool, AllocError>
    ensures { IfOk result (λ allowed. IsTrue allowed ↔ IsAllowed rule (view value.now)) }
{
    let is_allowed = match rule {
        Rule::Number { low, high } => is_number(value, low, high),
        Rule::BridgePriority => is_bridge_priority(value),
        Rule::PortPriority => is_port_priority(value),
        Rule::Name => is_name(value),
        Rule::Address => station(text_in(value)).is_some(),
        Rule::Spanning => is_spanning(value),
        Rule::Queues => is_queues(value),
        Rule::State => is_state(value),
        Rule::PortKind => is_port_kind(value),
        Rule::Stamp => is_stamp(value),
        Rule::Replay => is_replay(value),
        Rule::Direction => is_direction(value),
        Rule::Path => value.is_str(),
        Rule::Framing => is_framing(value),
        Rule::SocketAddress => socket_address(text_in(value)).is_some(),
        Rule::Encap => is_encap(value),
        Rule::Losses => are_losses(value),
        Rule::Names => are_listed(alloc, value)?,
        Rule::Frames => are_frames(value),
        Rule::Flag => value.is_bool(),
        Rule::FlagOrAuto => value.is_bool() || is_same(value, "auto"),
    };
    Ok(is_allowed)
}
