//! The filtering database of a bridge (IEEE 802.1Q clause 8, the learning process and ageing): where stations were
//! last seen, by service and address. It builds on pb_frame and indexmap. Begin with [`Fdb`].
#![tactic(auto)]

mod entries;
mod entry;
mod journal;
mod law;
mod station;
mod table;

pub use entries::Entries;
pub use entry::Entry;
pub use law::tables_tell_what_stands;
pub use pb_frame::Learnt;
pub use table::Fdb;
