//! The result of learning the source address of a frame.

/// The result of learning the source address of a frame (IEEE 802.1Q clause 8, the learning process).
#[derive(Clone, Copy, PartialEq, Eq, Debug)]
pub enum Learnt {
    /// A new entry: no entry of the station was live.
    New,
    /// A live entry with the same port, renewed.
    Kept,
    /// A live entry with another port, moved to this one.
    Moved,
    /// No entry: none was live, and the table holds its limit of live entries.
    Full,
    /// No entry: the source is a group address.
    Group,
    /// No entry: an allocation failed.
    Memory,
}
