//! Steps of a bridge, with the queues at its ports.

ghost use Rattle.std.specs.Prelude.{◌≡◌, ◌<◌, ◌↔◌, length, true, OnOk, OnErr, IsErrOf};
ghost use Rattle.pb_lan.specs.Ports.{is_used, port_at};
ghost use Rattle.pb_lan.specs.Queues.{waiting};
ghost use Rattle.pb_net.specs.Moves.{HasReceivedFrom, HasTransmittedTo, IsUnmoved};

use pb_lan::Item;
use pb_relay::{Bridge, BridgeFault};
use std::collections::VecDeque;

/// Receives the oldest item of the port's inbox.
///
/// # Errors
///
/// The bridge's fault. The bridge and the inbox are unchanged then.
pub(crate) fn receive_at(
    bridge: &mut Bridge,
    port: u8,
    inbox: &mut VecDeque<Item>,
) -> Result<(), BridgeFault>
    requires used { is_used (port_at bridge.old.plan bridge.old.number port) ≡ true }
    requires some { 0 < length inbox.old.items }
    ensures plan { bridge.new.plan ≡ bridge.old.plan }
    ensures number { bridge.new.number ≡ bridge.old.number }
    ensures kept { bridge.new.is_kept ≡ bridge.old.is_kept }
    ensures ok { OnOk result (HasReceivedFrom bridge.old port inbox.old.items bridge.new inbox.new.items) }
    ensures limit { IsErrOf result BridgeFault.StepLimit ↔ (length bridge.old.steps ≡ bridge.old.plan.steps) }
    ensures err { OnErr result (IsUnmoved bridge.old inbox.old.items bridge.new inbox.new.items) }
{
    let Some(item) = inbox.pop_front() else {
        unreachable!();
    };
    match bridge.take_in(port, item) {
        Ok(()) => Ok(()),
        Err((fault, item)) => {
            let _ = inbox.push_front(item);
            Err(fault)
        }
    }
}

/// Transmits the next item of the port to its outbox.
///
/// # Errors
///
/// `StepLimit` if the bridge has taken the plan's number of steps, `Memory` if an allocation failed. The bridge and the
/// outbox are unchanged then.
pub(crate) fn transmit_at(
    bridge: &mut Bridge,
    port: u8,
    outbox: &mut VecDeque<Item>,
) -> Result<(), BridgeFault>
    requires used { is_used (port_at bridge.old.plan bridge.old.number port) ≡ true }
    requires some { 0 < length (waiting bridge.old.plan bridge.old.number port bridge.old.steps) }
    ensures plan { bridge.new.plan ≡ bridge.old.plan }
    ensures number { bridge.new.number ≡ bridge.old.number }
    ensures kept { bridge.new.is_kept ≡ bridge.old.is_kept }
    ensures ok { OnOk result (HasTransmittedTo bridge.old port outbox.old.items bridge.new outbox.new.items) }
    ensures limit { IsErrOf result BridgeFault.StepLimit ↔ (length bridge.old.steps ≡ bridge.old.plan.steps) }
    ensures err { OnErr result (IsUnmoved bridge.old outbox.old.items bridge.new outbox.new.items) }
{
    bridge.reserve_step()?;
    outbox.reserve(1)?;
    let item = bridge.pop_out(port);
    let _ = outbox.push_back(item);
    Ok(())
}
