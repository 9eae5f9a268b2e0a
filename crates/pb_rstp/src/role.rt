//! Port roles.

ghost use Rattle.std.specs.Prelude.{◌≡◌, ◌<◌};
ghost use Rattle.pb_rstp.specs.Ports.{is_root, is_designated, is_root_or_designated};
ghost use Rattle.pb_rstp.specs.Messages.{role_code};

/// The role of a port (IEEE 802.1D-2004 clause 17.7).
#[derive(Clone, Copy, PartialEq, Eq, Debug)]
pub enum Role {
    /// It is disabled.
    Disabled,
    /// It is the bridge's best path to the root.
    Root,
    /// It is the best path to the root for its link.
    Designated,
    /// Another bridge offers its link a better path.
    Alternate,
    /// Another port of the same bridge offers its link a better path.
    Backup,
}

impl Role {
    pub(crate) fn is_root(self) -> bool
        ensures { result ≡ is_root self }
    {
        matches!(self, Role::Root)
    }

    pub(crate) fn is_designated(self) -> bool
        ensures { result ≡ is_designated self }
    {
        matches!(self, Role::Designated)
    }

    pub(crate) fn is_root_or_designated(self) -> bool
        ensures { result ≡ is_root_or_designated self }
    {
        matches!(self, Role::Root | Role::Designated)
    }

    /// Returns the code of the role in a BPDU (IEEE 802.1D-2004 clause 9.3.3).
    pub(crate) fn code(self) -> u8
        ensures value { result ≡ role_code self }
        ensures fits { result < 4 }
    {
        match self {
            Role::Disabled => 0,
            Role::Alternate | Role::Backup => 1,
            Role::Root => 2,
            Role::Designated => 3,
        }
    }
}
