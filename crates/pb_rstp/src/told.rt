//! The roles and states that callers read.

ghost use Rattle.std.specs.Prelude.{◌≡◌, length};
ghost use Rattle.pb_rstp.specs.Readings.{roles_of, states_of};
ghost use Rattle.pb_rstp.specs.Settling.{nows};

use crate::moving::Moving;
use crate::role::Role;
use pb_lan::PortState;

/// Writes the number and the role of each port over those of another time.
pub(crate) fn tell_roles(ports: &[Moving], roles: &mut [(u8, Role)])
    requires { length roles.old ≡ length ports.now }
    ensures { roles.new ≡ roles_of (nows ports.now) }
{
    for i in 0..ports.len() {
        roles[i] = (ports[i].now.number, ports[i].now.role);
    }
}

/// Writes the number and the state of each port over those of another time.
pub(crate) fn tell_states(ports: &[Moving], states: &mut [(u8, PortState)])
    requires { length states.old ≡ length ports.now }
    ensures { states.new ≡ states_of (nows ports.now) }
{
    for i in 0..ports.len() {
        states[i] = (ports[i].now.number, ports[i].now.state);
    }
}
