//! Ports as members of services.

ghost use Rattle.std.specs.Prelude.{◌≡◌, ◌≤◌};

use crate::vid::Vid;
use pb_frame::Seq;
use std::alloc::AllocError;

/// The service of a customer port, and the priority of frames that arrive there without a priority tag.
#[derive(Clone, Copy, Debug, PartialEq, Eq)]
pub struct Join {
    /// The VID of the service.
    pub vid: Vid,
    /// The priority, 0 to 7 (IEEE 802.1Q clause 6.9).
    pub pcp: u8,
    ghost pcp_fits: { pcp ≤ 7 },
}

/// The role of a port in the services.
#[derive(Debug, Drop)]
pub enum PortKind {
    /// A customer port of one service.
    Customer(Join),
    /// A port to other bridges, a trunk, with the VIDs of the services that it carries. `None` is every service, also
    /// one that is added later.
    Trunk(Option<Seq<Vid>>),
}

/// A port with a role.
#[derive(Debug, Drop)]
pub struct Attachment {
    /// The port's number.
    pub port: u8,
    /// The role of the port.
    pub kind: PortKind,
}

/// The copy is equal.
impl Clone for PortKind {
    ghost is_clone = { λ kind copy. copy ≡ kind };

    fn clone(&self) -> Result<PortKind, AllocError> {
        Ok(match self {
            PortKind::Customer(join) => PortKind::Customer(*join),
            PortKind::Trunk(vids) => PortKind::Trunk(vids.clone()?),
        })
    }
}

/// The copy is equal.
impl Clone for Attachment {
    ghost is_clone = { λ attachment copy. copy ≡ attachment };

    fn clone(&self) -> Result<Attachment, AllocError> {
        Ok(Attachment {
            port: self.port,
            kind: self.kind.clone()?,
        })
    }
}
