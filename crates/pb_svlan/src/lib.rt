//! The services of a provider bridge: their VIDs, the ports that are their members, and the admission of customers'
//! frames (IEEE 802.1Q clause 15, port-based service interfaces; IEEE 802.1ad). It builds on pb_frame and
//! pb_reserved. Begin with [`Services`].
#![tactic(auto)]

mod attachments;
mod enter;
mod entered;
mod fault;
mod port;
mod services;
mod vid;

pub use enter::refusal;
pub use entered::Entered;
pub use fault::{AddFault, JoinFault};
pub use port::{Attachment, Join, PortKind};
pub use services::Services;
pub use vid::Vid;
