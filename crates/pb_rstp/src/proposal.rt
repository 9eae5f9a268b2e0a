//! Proposals are agreed to.

ghost use Rattle.std.specs.Prelude.{◌≡◌, if◌then◌else◌};
ghost use Rattle.std.specs.List.{list_any};
ghost use Rattle.pb_rstp.specs.Ports.{fwd_delay_of};
ghost use Rattle.pb_rstp.specs.Settling.{nows, each, moved_on, is_proposed, is_agreeing, is_root_agreeing, synced};
ghost use Rattle.pb_rstp.specs.Settling.{agreeing, with_agreement_at, with_proposal};

use crate::moving::{Heard, Moving};
use crate::port::{Port, fwd_delay_of, is_discarding};
use crate::settle::hold_back;

/// Returns whether the BPDU is a proposal that was stored.
fn is_proposed(heard: &Heard) -> bool
    ensures { result ≡ is_proposed heard.now }
{
    heard.bpdu.proposal && heard.stored
}

/// Returns whether the port has this number and is not Designated. It agrees then.
fn is_agreeing(number: u8, p: &Port) -> bool
    ensures { result ≡ is_agreeing number p.now }
{
    p.number == number && !p.role.is_designated()
}

/// Returns whether the port has this number and is the Root port.
fn is_root_agreeing(number: u8, p: &Port) -> bool
    ensures { result ≡ is_root_agreeing number p.now }
{
    p.number == number && p.role.is_root()
}

/// Returns whether the port of this number is the Root port.
fn has_root_agreeing(number: u8, ports: &[Moving]) -> bool
    ensures { result ≡ list_any (is_root_agreeing number) (nows ports.now) }
{
    for p in ports {
        if is_root_agreeing(number, &p.now) {
            return true;
        }
    }
    false
}

/// Holds back a Designated port whose neighbour has not agreed. The call forms no forwarding loop then.
fn sync(fwd_delay: u16, p: &mut Moving)
    ensures { p.exit.now ≡ moved_on (synced fwd_delay) p.entry.now }
{
    if p.now.role.is_designated() && !p.now.agreed && !is_discarding(p.now.state) {
        hold_back(fwd_delay, &mut p.now);
    }
}

/// Holds back each Designated port whose neighbour has not agreed.
fn sync_all(fwd_delay: u16, ports: &mut [Moving])
    ensures { ports.new ≡ each (synced fwd_delay) ports.old }
{
    for p in ports.iter_mut() {
        sync(fwd_delay, p);
    }
}

/// Holds back each Designated port whose neighbour has not agreed, if the port of this number is the Root port (IEEE
/// 802.1D-2004 clause 17.21.14, setSyncTree).
fn sync_behind_root(number: u8, ports: &mut [Moving])
    ensures { ports.new ≡ (if list_any (is_root_agreeing number) (nows ports.old)
        then each (synced (fwd_delay_of (nows ports.old))) ports.old else ports.old) }
{
    if has_root_agreeing(number, ports) {
        let fwd_delay = fwd_delay_of(ports);
        sync_all(fwd_delay, ports);
    }
}

/// Sets `agree` and `new_info`, if the port is the one that agrees.
fn agree(number: u8, p: &mut Moving)
    ensures { p.exit.now ≡ moved_on (agreeing number) p.entry.now }
{
    if is_agreeing(number, &p.now) {
        p.now.agree = true;
        p.now.new_info = true;
    }
}

/// Sets `agree` at the port of this number. If it is the Root port, the others are held back first.
fn agree_at(number: u8, ports: &mut [Moving])
    ensures { ports.new ≡ with_agreement_at number ports.old }
{
    sync_behind_root(number, ports);
    for p in ports.iter_mut() {
        agree(number, p);
    }
}

/// Agrees to a stored proposal: step 5 of 8.
pub(crate) fn answer_proposal(heard: Option<Heard>, ports: &mut [Moving])
    ensures { ports.new ≡ with_proposal heard ports.old }
{
    if let Some(heard) = heard {
        if is_proposed(&heard) {
            agree_at(heard.port, ports);
        }
    }
}
