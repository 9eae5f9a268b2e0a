//! The signs that a picture uses.

ghost use Rattle.std.specs.Prelude.{◌≡◌, map, IfOk};
ghost use Rattle.std.specs.List.{filter, list_any};
ghost use Rattle.pb_draw_layout.specs.Keys.{all_keys, is_active, is_standby, is_failed, is_discarding, is_learning};
ghost use Rattle.pb_draw_layout.specs.Keys.{has_discarding, has_learning, is_used, keys_of};

use crate::facts::{LinkFacts, LinkState};
use crate::layout::Layout;
use crate::scene::{BridgeMark, Key, KeyMark, LinkMark, PortMark};
use pb_frame::{Memory, Seq};
use pb_lan::PortState;
use std::alloc::Global;

/// All signs, in the order of the legend.
const ALL_KEYS: [Key; 8] = [
    Key::Root,
    Key::FailedBridge,
    Key::ActiveLink,
    Key::StandbyLink,
    Key::FailedLink,
    Key::DiscardingPort,
    Key::LearningPort,
    Key::CutOff,
];

/// Checks whether a link is active.
fn is_active(state: LinkState) -> bool
    ensures { result ≡ is_active state }
{
    match state {
        LinkState::Active => true,
        LinkState::Standby | LinkState::Failed => false,
    }
}

/// Checks whether a link is on standby.
fn is_standby(state: LinkState) -> bool
    ensures { result ≡ is_standby state }
{
    match state {
        LinkState::Standby => true,
        LinkState::Active | LinkState::Failed => false,
    }
}

/// Checks whether a link has failed.
fn is_failed(state: LinkState) -> bool
    ensures { result ≡ is_failed state }
{
    match state {
        LinkState::Failed => true,
        LinkState::Active | LinkState::Standby => false,
    }
}

/// Checks whether a port is Discarding.
fn is_discarding(state: PortState) -> bool
    ensures { result ≡ is_discarding state }
{
    match state {
        PortState::Discarding => true,
        PortState::Learning | PortState::Forwarding => false,
    }
}

/// Checks whether a port is Learning.
fn is_learning(state: PortState) -> bool
    ensures { result ≡ is_learning state }
{
    match state {
        PortState::Learning => true,
        PortState::Discarding | PortState::Forwarding => false,
    }
}

/// Checks whether an end of a link is shown as Discarding: it is, and is not disabled.
fn has_discarding(facts: LinkFacts) -> bool
    ensures { result ≡ has_discarding facts }
{
    (is_discarding(facts.a) && !facts.failed.a) || (is_discarding(facts.b) && !facts.failed.b)
}

/// Checks whether an end of a link is shown as Learning: it is, and is not disabled.
fn has_learning(facts: LinkFacts) -> bool
    ensures { result ≡ has_learning facts }
{
    (is_learning(facts.a) && !facts.failed.a) || (is_learning(facts.b) && !facts.failed.b)
}

/// Checks whether a root is among these bridges.
fn has_root(bridges: &[BridgeMark]) -> bool
    ensures { result ≡ list_any (λ m. m.facts.is_root) bridges.now }
{
    bridges.iter().any(|m| m.facts.is_root)
}

/// Checks whether one of these bridges has failed.
fn has_failed_bridge(bridges: &[BridgeMark]) -> bool
    ensures { result ≡ list_any (λ m. m.facts.is_failed) bridges.now }
{
    bridges.iter().any(|m| m.facts.is_failed)
}

/// Checks whether one of these links is active.
fn has_active_link(links: &[LinkMark]) -> bool
    ensures { result ≡ list_any (λ m. is_active m.facts.state) links.now }
{
    links.iter().any(|m| is_active(m.facts.state))
}

/// Checks whether one of these links is on standby.
fn has_standby_link(links: &[LinkMark]) -> bool
    ensures { result ≡ list_any (λ m. is_standby m.facts.state) links.now }
{
    links.iter().any(|m| is_standby(m.facts.state))
}

/// Checks whether one of these links has failed.
fn has_failed_link(links: &[LinkMark]) -> bool
    ensures { result ≡ list_any (λ m. is_failed m.facts.state) links.now }
{
    links.iter().any(|m| is_failed(m.facts.state))
}

/// Checks whether an end of one of these links is shown as Discarding.
fn has_discarding_port(links: &[LinkMark]) -> bool
    ensures { result ≡ list_any (λ m. has_discarding m.facts) links.now }
{
    links.iter().any(|m| has_discarding(m.facts))
}

/// Checks whether an end of one of these links is shown as Learning.
fn has_learning_port(links: &[LinkMark]) -> bool
    ensures { result ≡ list_any (λ m. has_learning m.facts) links.now }
{
    links.iter().any(|m| has_learning(m.facts))
}

/// Checks whether one of these customer ports is cut off.
fn has_cut_off(ports: &[PortMark]) -> bool
    ensures { result ≡ list_any (λ m. m.facts.is_cut_off) ports.now }
{
    ports.iter().any(|m| m.facts.is_cut_off)
}

/// Checks whether a picture of these parts uses a sign.
fn is_used(key: Key, bridges: &[BridgeMark], links: &[LinkMark], ports: &[PortMark]) -> bool
    ensures { result ≡ is_used bridges.now links.now ports.now key }
{
    match key {
        Key::Root => has_root(bridges),
        Key::FailedBridge => has_failed_bridge(bridges),
        Key::ActiveLink => has_active_link(links),
        Key::StandbyLink => has_standby_link(links),
        Key::FailedLink => has_failed_link(links),
        Key::DiscardingPort => has_discarding_port(links),
        Key::LearningPort => has_learning_port(links),
        Key::CutOff => has_cut_off(ports),
    }
}

/// Returns the signs among these that a picture of these parts uses.
///
/// # Errors
///
/// `Memory` if an allocation failed.
fn used_keys(
    alloc: Global,
    keys: &[Key],
    bridges: &[BridgeMark],
    links: &[LinkMark],
    ports: &[PortMark],
) -> Result<Vec<Key>, Memory>
    ensures { IfOk result (λ used. used.items ≡ filter (is_used bridges.now links.now ports.now) keys.now) }
{
    let mut used = Vec::new(alloc);
    for key in keys {
        if is_used(*key, bridges, links, ports) {
            used.push(*key)?;
        }
    }
    Ok(used)
}

/// Returns the marks of signs.
///
/// # Errors
///
/// `Memory` if an allocation failed.
fn marks_of(alloc: Global, layout: &Layout, keys: &[Key]) -> Result<Seq<KeyMark>, Memory>
    ensures { IfOk result (λ marks. map (λ m. m.key) marks ≡ keys.now) }
{
    let mut marks = Vec::new(alloc);
    for key in keys {
        let corner = layout.entry_corner(0, marks.len());
        marks.push(KeyMark { key: *key, corner })?;
    }
    Ok(Seq::from_vec(marks))
}

/// Returns the signs that a picture of these parts uses.
///
/// # Errors
///
/// `Memory` if an allocation failed.
pub(crate) fn key_marks(
    alloc: Global,
    layout: &Layout,
    bridges: &[BridgeMark],
    links: &[LinkMark],
    ports: &[PortMark],
) -> Result<Seq<KeyMark>, Memory>
    ensures { IfOk result (λ marks. map (λ m. m.key) marks ≡ keys_of bridges.now links.now ports.now) }
{
    let used = used_keys(alloc, &ALL_KEYS, bridges, links, ports)?;
    marks_of(alloc, layout, used.as_slice())
}
