//! A port is enabled or disabled.

ghost use Rattle.std.specs.Prelude.{◌≡◌};
ghost use Rattle.pb_rstp.specs.Machine.{with_admin, setting};

use crate::port::Port;

/// Enables the port, or disables it and clears its timers, agreements and `new_info`. It stores nothing then.
fn enable(up: bool, p: &mut Port)
    ensures { p.new ≡ with_admin up p.old }
{
    p.info = None;
    if up {
        p.port_enabled = true;
    } else {
        p.port_enabled = false;
        p.agreed = false;
        p.agree = false;
        p.new_info = false;
        p.fd_while = 0;
        p.tc_while = 0;
    }
}

/// Enables or disables the port, if it has this number.
pub(crate) fn set_enabled(port: u8, up: bool, p: &mut Port)
    ensures { p.new ≡ setting port up p.old }
{
    if p.number == port {
        enable(up, p);
    }
}
