//! A second passes.

ghost use Rattle.std.specs.Prelude.{◌≡◌};
ghost use Rattle.pb_rstp.specs.Machine.{aged_by, aged, with_timers, opened_by, opened, with_opening, is_hello};
ghost use Rattle.pb_rstp.specs.Machine.{with_hello, ticking};

use crate::port::{Info, Port, is_forwarding};
use pb_lan::PortState;

/// Returns the stored information with `rcvd_info_while` one lower, or None if it expires (IEEE 802.1D-2004 clause
/// 17.22).
fn aged_by(info: Info) -> Option<Info>
    ensures { result ≡ aged_by info }
{
    if info.rcvd_info_while > 1 {
        Some(Info {
            rcvd_info_while: info.rcvd_info_while - 1,
            ..info
        })
    } else {
        None
    }
}

/// Returns the stored information, if any, one tick later.
fn aged(info: Option<Info>) -> Option<Info>
    ensures { result ≡ aged info }
{
    match info {
        None => None,
        Some(info) => aged_by(info),
    }
}

/// Runs down `tx_count`, `tc_while` and `rcvd_info_while` by one.
fn run_timers(p: &mut Port)
    ensures { p.new ≡ with_timers p.old }
{
    p.tx_count = p.tx_count.saturating_sub(1);
    p.tc_while = p.tc_while.saturating_sub(1);
    p.info = aged(p.info);
}

/// Puts the port into the state that follows this one, with `fd_while` set for it.
fn open_by(fwd_delay: u16, state: PortState, p: &mut Port)
    ensures { p.new ≡ opened_by fwd_delay state p.old }
{
    match state {
        PortState::Discarding => {
            p.state = PortState::Learning;
            p.fd_while = fwd_delay;
        }
        PortState::Learning => {
            p.state = PortState::Forwarding;
            p.fd_while = 0;
        }
        PortState::Forwarding => {}
    }
}

/// Runs down `fd_while` by one, or puts the port into its next state if `fd_while` expires.
fn run_fd_while(fwd_delay: u16, p: &mut Port)
    ensures { p.new ≡ opened fwd_delay p.old }
{
    if p.fd_while > 1 {
        p.fd_while -= 1;
    } else {
        open_by(fwd_delay, p.state, p);
    }
}

/// Advances a Designated port that is not Forwarding towards Forwarding (IEEE 802.1D-2004 clause 17.29.3).
fn open_designated(fwd_delay: u16, p: &mut Port)
    ensures { p.new ≡ with_opening fwd_delay p.old }
{
    if p.role.is_designated() && !is_forwarding(p.state) {
        run_fd_while(fwd_delay, p);
    }
}

/// Returns whether the port sends a BPDU when `hello_when` expires (IEEE 802.1D-2004 clause 17.26).
fn is_hello(p: &Port) -> bool
    ensures { result ≡ is_hello p.now }
{
    p.role.is_designated() || (p.role.is_root() && p.tc_while > 0)
}

/// Sets `new_info`, if `hello_when` expires and the port sends then.
fn note_hello(hello: bool, p: &mut Port)
    ensures { p.new ≡ with_hello hello p.old }
{
    if hello && is_hello(p) {
        p.new_info = true;
    }
}

/// Advances the port by one tick.
pub(crate) fn tick(fwd_delay: u16, hello: bool, p: &mut Port)
    ensures { p.new ≡ ticking fwd_delay hello p.old }
{
    run_timers(p);
    open_designated(fwd_delay, p);
    note_hello(hello, p);
}
