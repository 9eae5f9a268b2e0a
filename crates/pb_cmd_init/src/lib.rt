//! The command `init`: writes a starter plan for a line, a ring, a star or dual-homed bridges. Uses pb_frame and
//! pb_messages. Begin with [`write_plan`].
#![tactic(auto)]

mod parts;
mod plan_file;
mod ports;
mod services;
mod texts;
mod topology;

pub use plan_file::write_plan;
pub use topology::Topology;
