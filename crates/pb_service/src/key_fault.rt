//! The reasons to refuse the value of a key.

/// A reason to refuse the value of a key.
#[derive(Clone, Copy)]
pub(crate) enum KeyFault {
    /// The key is missing, and has no default.
    Missing,
    /// The value is of another TOML type.
    Kind,
    /// The value is of that type but not allowed.
    Range,
}
