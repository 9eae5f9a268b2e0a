//! The frames to inject.

/// A frame to inject.
#[derive(PartialEq, Eq, Debug, Drop)]
pub struct Entry {
    /// The name of the customer port at which it is injected.
    pub port: String,
    /// Its octets from the destination address on, as pairs of hexadecimal digits.
    pub hex: String,
}
