//! A prompt bridge beside a plain one. Port 1 leads to the first bridge, which is the root, and port 2 is Designated.

use super::walk::{Speech, bpdu_of};
use super::{prompt_with_two_ports, with_two_ports};
use pb_bpdu::Bpdu;
use pb_rstp::Rstp;
use std::process::Abort;
use std::test::Fail;

/// What the first bridge says after its proposal, and whether port 2 of a plain and of a prompt bridge sends then.
const ROWS: [(Speech, bool, bool); 4] = [
    // The same as before.
    (Speech::First(0x0e), false, false),
    // A root path cost that is not the one of before.
    (Speech::Costly(5), false, true),
    // A message age that is not the one of before.
    (Speech::Aged(256), false, true),
    // A topology change while both ports report one, since port 1 became Forwarding: a plain bridge starts anew.
    (Speech::First(0x0f), true, false),
];

/// Returns whether the bridge sends on port 2 when it hears the speech on port 1.
fn does_port_2_send(bridge: &mut Rstp, heard: &Bpdu) -> Result<bool, Fail> {
    let change = bridge.hear(1, heard)?;
    Ok(change.send.as_slice().iter().any(|sent| sent.0 == 2))
}

/// Checks whether port 2 sends in the call in which the second speech comes.
fn check(rt: &impl Abort, mut bridge: Rstp, second: Speech, is_sent: bool) -> Result<(), Fail> {
    let _ = bridge.hear(1, &bpdu_of(Speech::First(0x0e))?)?;
    assert!(rt; does_port_2_send(&mut bridge, &bpdu_of(second)?)? == is_sent);
    Ok(())
}

#[test]
fn a_prompt_port_sends_what_changed(rt: HostRuntime) -> Result<(), Fail> {
    for (second, plain, prompt) in ROWS {
        check(&rt, with_two_ports(rt.alloc(), 2)?, second, plain)?;
        check(&rt, prompt_with_two_ports(rt.alloc(), 2)?, second, prompt)?;
    }
    Ok(())
}
