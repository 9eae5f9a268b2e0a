//! BPDUs are sent, and the changes of the call are reported.

ghost use Rattle.std.specs.Prelude.{◌≡◌, ◌++◌, IfOk, OnOk};
ghost use Rattle.pb_lan.specs.Rules.{from_to, is_same};
ghost use Rattle.pb_rstp.specs.Settling.{befores, nows, each, moved_on, is_sending, after_sending, with_sent};
ghost use Rattle.pb_rstp.specs.Settling.{state_changes, sent, change_of, settled, is_updated, offer_by, with_update};
ghost use Rattle.pb_rstp.specs.Settling.{with_updates};

use crate::change::Change;
use crate::message::{Offer, is_same_offer, message, offer_by};
use crate::moving::{Heard, Moving};
use crate::port::Port;
use crate::proposal::answer_proposal;
use crate::settle::bring_in_line;
use crate::topology::{flushed, report};
use pb_bpdu::Bpdu;
use pb_frame::{Memory, Seq};
use pb_lan::PortState;
use std::alloc::Global;

/// The greatest `tx_count`: TxHoldCount (IEEE 802.1D-2004 clause 17.13.12).
const HOLD_COUNT: u8 = 6;

/// Returns whether the port sends a BPDU: it is enabled, `new_info` is set and `tx_count` is below TxHoldCount (IEEE
/// 802.1D-2004 clause 17.26).
fn is_sending(p: &Port) -> bool
    ensures { result ≡ is_sending p.now }
{
    p.port_enabled && p.new_info && p.tx_count < HOLD_COUNT
}

/// Clears `new_info` and counts one more in `tx_count`, if the port sends a BPDU.
fn send_at(p: &mut Moving)
    ensures { p.exit.now ≡ moved_on after_sending p.entry.now }
{
    if is_sending(&p.now) {
        p.now.new_info = false;
        p.now.tx_count += 1;
    }
}

/// Sends the BPDUs: step 8 of 8.
pub(crate) fn send(ports: &mut [Moving])
    ensures { ports.new ≡ with_sent ports.old }
{
    for p in ports.iter_mut() {
        send_at(p);
    }
}

/// Returns whether the port stays Designated and offers another vector or other times than before the call.
fn is_updated(id: u64, before: &Offer, after: &Offer, p: &Moving) -> bool
    ensures { result ≡ is_updated id before.now after.now p.entry.now.was p.entry.now.now }
{
    p.was.role.is_designated()
        && p.now.role.is_designated()
        && !is_same_offer(id, before, &p.was, after, &p.now)
}

/// Sets `new_info`, if the port's offer is another.
fn update_at(id: u64, before: &Offer, after: &Offer, p: &mut Moving)
    ensures { p.exit.now ≡ moved_on (with_update id before.now after.now) p.entry.now }
{
    if is_updated(id, before, after, p) {
        p.now.new_info = true;
    }
}

/// Sets `new_info` at each port whose offer is another.
fn update_all(id: u64, before: &Offer, after: &Offer, ports: &mut [Moving])
    ensures { ports.new ≡ each (with_update id before.now after.now) ports.old }
{
    for p in ports.iter_mut() {
        update_at(id, before, after, p);
    }
}

/// Has each port of a prompt bridge send that stays Designated and offers another vector or other times than before the
/// call: step 7 of 8 (IEEE 802.1D-2004 clauses 17.21.25, updtRolesTree, and 17.27). Takes what was offered before the
/// call.
fn update(prompt: bool, id: u64, before: &Offer, ports: &mut [Moving])
    requires { before.now ≡ offer_by id (befores ports.old) }
    ensures { ports.new ≡ with_updates prompt id ports.old }
{
    if !prompt {
        return;
    }
    let after = offer_by(id, ports);
    update_all(id, before, &after, ports);
}

/// Runs steps 1 to 7, before BPDUs are sent, given what was offered before the call.
pub(crate) fn settle(
    prompt: bool,
    id: u64,
    heard: Option<Heard>,
    before: &Offer,
    ports: &mut [Moving],
)
    requires { before.now ≡ offer_by id (befores ports.old) }
    ensures { ports.new ≡ settled prompt id heard ports.old }
{
    bring_in_line(id, &before.root, ports);
    answer_proposal(heard, ports);
    report(prompt, heard, ports);
    update(prompt, id, before, ports);
}

/// Returns whether the states are the same.
fn is_same(old: PortState, new: PortState) -> bool
    ensures { result ≡ is_same old new }
{
    old == new
}

/// Adds the change of the port's state, if there is one.
fn add_state(changes: &mut Vec<(u8, PortState)>, p: &Moving) -> Result<(), Memory>
    ensures { OnOk result (changes.new.items ≡ changes.old.items
        ++ from_to p.entry.now.now.number p.entry.now.was.state p.entry.now.now.state) }
{
    if !is_same(p.was.state, p.now.state) {
        changes.push((p.now.number, p.now.state))?;
    }
    Ok(())
}

/// Returns the ports whose state is another than before the call, with their new states.
fn state_changes(alloc: Global, ports: &[Moving]) -> Result<Vec<(u8, PortState)>, Memory>
    ensures { IfOk result (λ changes. changes.items ≡ state_changes ports.now) }
{
    let mut changes = Vec::new(alloc);
    for p in ports {
        add_state(&mut changes, p)?;
    }
    Ok(changes)
}

/// Returns the BPDUs that are sent, each with its port.
fn sent(alloc: Global, id: u64, ports: &[Moving]) -> Result<Vec<(u8, Bpdu)>, Memory>
    ensures { IfOk result (λ bpdus. bpdus.items ≡ sent id (nows ports.now)) }
{
    let offer = offer_by(id, ports);
    let mut bpdus = Vec::new(alloc);
    for p in ports {
        if is_sending(&p.now) {
            bpdus.push((p.now.number, message(id, &offer, &p.now)))?;
        }
    }
    Ok(bpdus)
}

/// Returns the changes of the call, given the ports before BPDUs are sent.
pub(crate) fn change_of(
    alloc: Global,
    id: u64,
    heard: Option<Heard>,
    ports: &[Moving],
) -> Result<Change, Memory>
    ensures { IfOk result (λ change. change ≡ change_of id heard ports.now) }
{
    let states = state_changes(alloc, ports)?;
    let flush = flushed(alloc, heard, ports)?;
    let send = sent(alloc, id, ports)?;
    Ok(Change {
        states: Seq::from_vec(states),
        flush: Seq::from_vec(flush),
        send: Seq::from_vec(send),
    })
}
