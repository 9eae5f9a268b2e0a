//! Line and column at which a plan file breaks a rule.
//!
//! It finds the place for a fault of pb_service: an octet of the file, or the header of a table.
//! Begin with [`spot_of`] in `locate.rt`.
#![tactic(auto)]

mod header;
mod line;
mod locate;
mod place;
mod spot;

pub use locate::{refused_at, spot_of, table_line};
pub use spot::Spot;
