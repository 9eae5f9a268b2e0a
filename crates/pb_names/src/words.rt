//! The printed names of port roles and port states.

ghost use Rattle.std.specs.Prelude.{◌≡◌};
ghost use Rattle.pb_names.specs.Names.{role_word, state_word};

use pb_lan::PortState;
use pb_rstp::Role;

/// Returns the name of a port role, in lower case.
pub fn role_word(role: Role) -> &'static str
    ensures { result.now ≡ role_word role }
{
    match role {
        Role::Disabled => "disabled",
        Role::Root => "root",
        Role::Designated => "designated",
        Role::Alternate => "alternate",
        Role::Backup => "backup",
    }
}

/// Returns the name of a port state, in lower case.
pub fn state_word(state: PortState) -> &'static str
    ensures { result.now ≡ state_word state }
{
    match state {
        PortState::Discarding => "discarding",
        PortState::Learning => "learning",
        PortState::Forwarding => "forwarding",
    }
}
