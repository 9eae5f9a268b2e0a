//! Topology changes are reported, and the stations of other ports are forgotten.

ghost use Rattle.std.specs.Prelude.{◌≡◌, ◌==◌, ◌&&◌, ◌||◌, not, if◌then◌else◌, true, IfOk, option_to_list};
ghost use Rattle.std.specs.List.{list_any};
ghost use Rattle.pb_rstp.specs.Ports.{is_root_or_designated};
ghost use Rattle.pb_rstp.specs.Settling.{moved_on, has_opened, has_closed, changed_at, with_topology, flushed};
ghost use Rattle.pb_rstp.specs.Settling.{is_reporting};

use crate::moving::{Heard, Moving};
use crate::port::{Port, is_discarding, is_forwarding};
use pb_frame::Memory;
use std::alloc::Global;

/// Returns whether the port became Forwarding in this call.
fn has_opened(p: &Moving) -> bool
    ensures { result ≡ has_opened p.entry.now }
{
    is_forwarding(p.now.state) && !is_forwarding(p.was.state)
}

/// Returns whether the port left Learning or Forwarding for Discarding in this call.
fn has_closed(p: &Moving) -> bool
    ensures { result ≡ has_closed p.entry.now }
{
    is_discarding(p.now.state) && !is_discarding(p.was.state)
}

/// Returns whether a port became Forwarding in this call.
fn has_any_opened(ports: &[Moving]) -> bool
    ensures { result ≡ list_any has_opened ports.now }
{
    for p in ports {
        if has_opened(p) {
            return true;
        }
    }
    false
}

/// Returns whether another port than this became Forwarding in this call.
fn has_other_opened(number: u8, ports: &[Moving]) -> bool
    ensures { result ≡ list_any (λ p. has_opened p && not (p.now.number == number)) ports.now }
{
    for p in ports {
        if has_opened(p) && p.now.number != number {
            return true;
        }
    }
    false
}

/// Returns whether the port of this number is Root or Designated.
fn is_in_tree(number: u8, ports: &[Moving]) -> bool
    ensures { result ≡ list_any (λ p. p.now.number == number && is_root_or_designated p.now.role) ports.now }
{
    for p in ports {
        if p.now.number == number && p.now.role.is_root_or_designated() {
            return true;
        }
    }
    false
}

/// Returns the port that received a topology change, if it is Root or Designated.
fn changed_at(heard: Option<Heard>, ports: &[Moving]) -> Option<u8>
    ensures { option_to_list result ≡ changed_at heard ports.now }
{
    let heard = heard?;
    if heard.bpdu.change && is_in_tree(heard.port, ports) {
        Some(heard.port)
    } else {
        None
    }
}

/// Returns whether the port that received a topology change, if there is one, is another than this.
fn is_elsewhere(changed: Option<u8>, number: u8) -> bool
    ensures { result ≡ list_any (λ other. not (other == number)) (option_to_list changed) }
{
    match changed {
        None => false,
        Some(other) => other != number,
    }
}

/// Returns whether the stations of the port are to be forgotten, given the port that received a topology change (IEEE
/// 802.1D-2004 clause 17.21.18, setTcPropTree).
fn is_flushed(changed: Option<u8>, ports: &[Moving], p: &Moving) -> bool
    ensures { result ≡ ((list_any (λ q. has_opened q && not (q.now.number == p.entry.now.now.number)) ports.now
        || list_any (λ other. not (other == p.entry.now.now.number)) (option_to_list changed))
        || has_closed p.entry.now) }
{
    has_other_opened(p.now.number, ports) || is_elsewhere(changed, p.now.number) || has_closed(p)
}

/// Returns the ports whose stations are to be forgotten.
pub(crate) fn flushed(
    alloc: Global,
    heard: Option<Heard>,
    ports: &[Moving],
) -> Result<Vec<u8>, Memory>
    ensures { IfOk result (λ numbers. numbers.items ≡ flushed heard ports.now) }
{
    let changed = changed_at(heard, ports);
    let mut numbers = Vec::new(alloc);
    for p in ports {
        if is_flushed(changed, ports, p) {
            numbers.push(p.now.number)?;
        }
    }
    Ok(numbers)
}

/// Returns whether the port of a prompt bridge reports a topology change already (IEEE 802.1D-2004 clause 17.21.7,
/// newTcWhile).
fn is_reporting(prompt: bool, p: &Port) -> bool
    ensures { result ≡ is_reporting prompt p.now }
{
    prompt && p.tc_while > 0
}

/// Returns whether the port starts to report a topology change: a port of the bridge became Forwarding, itself too, or
/// another port received one. A port of a prompt bridge that reports one already does not start anew.
fn is_telling(prompt: bool, is_any_opened: bool, changed: Option<u8>, p: &Port) -> bool
    ensures { result ≡ (is_root_or_designated p.now.role
        && (is_any_opened || list_any (λ number. not (number == p.now.number)) (option_to_list changed))
        && not (is_reporting prompt p.now)) }
{
    p.role.is_root_or_designated()
        && (is_any_opened || is_elsewhere(changed, p.number))
        && !is_reporting(prompt, p)
}

/// Starts `tc_while` and sets `new_info`, if the port starts to report a topology change.
fn report_at(prompt: bool, is_any_opened: bool, changed: Option<u8>, p: &mut Moving)
    ensures { p.exit.now ≡ moved_on (λ was now. if is_root_or_designated now.role
        && (is_any_opened || list_any (λ number. not (number == now.number)) (option_to_list changed))
        && not (is_reporting prompt now)
        then record now { tc_while = 3; new_info = true } else now) p.entry.now }
{
    if is_telling(prompt, is_any_opened, changed, &p.now) {
        p.now.tc_while = 3;
        p.now.new_info = true;
    }
}

/// Starts the reports of topology changes: step 6 of 8 (IEEE 802.1D-2004 clauses 17.21.7 and 17.31). A prompt bridge
/// leaves a running `tc_while` alone. Others start it anew.
pub(crate) fn report(prompt: bool, heard: Option<Heard>, ports: &mut [Moving])
    ensures { ports.new ≡ with_topology prompt heard ports.old }
{
    let is_any_opened = has_any_opened(ports);
    let changed = changed_at(heard, ports);
    for p in ports.iter_mut() {
        report_at(prompt, is_any_opened, changed, p);
    }
}
