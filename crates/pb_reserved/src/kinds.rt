//! What a bridge does with a frame by its destination.

/// What a port of a provider bridge does with a frame, by its destination address.
#[derive(Clone, Copy, Debug, PartialEq, Eq)]
pub enum Fate {
    /// A frame that is relayed, as customer data or as any other frame.
    Carry,
    /// A frame for the provider bridges themselves, to the provider bridge group address 01-80-C2-00-00-08.
    Provider,
    /// A frame that no provider bridge relays, to another reserved address 01-80-C2-00-00-XX, with its last octet.
    Filter(u8),
}
