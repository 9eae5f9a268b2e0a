//! Calls of a bridge's spanning tree.

ghost use Rattle.std.specs.Prelude.{◌≡◌, IfOk, OnOk, OnErr};
ghost use Rattle.pb_lan.specs.Rules.Cause.{Hears, Ticks, Sets};
ghost use Rattle.pb_relay.specs.Machines.{machine_next, change_next};
ghost use Rattle.pb_rstp.specs.Machine.{nothing};
ghost use Rattle.pb_rstp.specs.Profile.{after};

use pb_frame::{Memory, Seq};
use pb_rstp::{Change, Rstp};
use std::alloc::Global;

/// Returns a change of nothing. Allocates nothing.
fn nothing_changes(alloc: Global) -> Change
    ensures { result ≡ nothing }
{
    Change {
        states: Seq::from_vec(Vec::new(alloc)),
        flush: Seq::from_vec(Vec::new(alloc)),
        send: Seq::from_vec(Vec::new(alloc)),
    }
}

/// Passes a frame to the spanning tree, and returns the changes. A frame that is not a readable BPDU changes nothing.
fn hear_frame(alloc: Global, rstp: &mut Rstp, port: u8, frame: &[u8]) -> Result<Change, Memory>
    ensures ok { OnOk result (rstp.new ≡ (after rstp.old (Hears port frame.now)).machine) }
    ensures change { IfOk result (λ change. change ≡ (after rstp.old (Hears port frame.now)).change) }
    ensures err { OnErr result (rstp.new ≡ rstp.old) }
{
    let Ok(bpdu) = pb_bpdu::read(frame) else {
        return Ok(nothing_changes(alloc));
    };
    rstp.hear(port, &bpdu)
}

/// Passes a frame to the spanning tree, if there is one, and returns the changes.
///
/// # Errors
///
/// `Memory` if an allocation failed. The spanning tree is unchanged then.
#[tactic(auto, unfolding(crate::specs::Machines::machine_next, crate::specs::Machines::change_next))]
pub fn hear(
    alloc: Global,
    rstp: &mut Option<Rstp>,
    port: u8,
    frame: &[u8],
) -> Result<Option<Change>, Memory>
    ensures ok { OnOk result (rstp.new ≡ machine_next rstp.old (Hears port frame.now)) }
    ensures change { IfOk result (λ change. change ≡ change_next rstp.old (Hears port frame.now)) }
    ensures err { OnErr result (rstp.new ≡ rstp.old) }
{
    let Some(rstp) = rstp else {
        return Ok(None);
    };
    let change = hear_frame(alloc, rstp, port, frame)?;
    Ok(Some(change))
}

/// Advances the spanning tree by one second, if there is one, and returns the changes.
///
/// # Errors
///
/// `Memory` if an allocation failed. The spanning tree is unchanged then.
#[tactic(auto, unfolding(crate::specs::Machines::machine_next, crate::specs::Machines::change_next))]
pub fn tick(rstp: &mut Option<Rstp>) -> Result<Option<Change>, Memory>
    ensures ok { OnOk result (rstp.new ≡ machine_next rstp.old Ticks) }
    ensures change { IfOk result (λ change. change ≡ change_next rstp.old Ticks) }
    ensures err { OnErr result (rstp.new ≡ rstp.old) }
{
    let Some(rstp) = rstp else {
        return Ok(None);
    };
    let change = rstp.tick()?;
    Ok(Some(change))
}

/// Enables or disables a port of the spanning tree, if there is one, and returns the changes.
///
/// # Errors
///
/// `Memory` if an allocation failed. The spanning tree is unchanged then.
#[tactic(auto, unfolding(crate::specs::Machines::machine_next, crate::specs::Machines::change_next))]
pub fn admin(rstp: &mut Option<Rstp>, port: u8, up: bool) -> Result<Option<Change>, Memory>
    ensures ok { OnOk result (rstp.new ≡ machine_next rstp.old (Sets port up)) }
    ensures change { IfOk result (λ change. change ≡ change_next rstp.old (Sets port up)) }
    ensures err { OnErr result (rstp.new ≡ rstp.old) }
{
    let Some(rstp) = rstp else {
        return Ok(None);
    };
    let change = rstp.admin(port, up)?;
    Ok(Some(change))
}
