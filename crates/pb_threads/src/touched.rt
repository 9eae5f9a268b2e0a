//! The local ports at which turns had something to do.

/// The highest number of a local port.
pub(crate) const MOST_PORT: u8 = 16;

/// Numbers of local ports, 0 to 16: those at which turns of a place had something to do. 0 is that of a place without
/// local ports.
#[derive(Clone, Copy)]
pub(crate) struct Touched {
    ports: [bool; 17],
}

impl Touched {
    /// Returns the set without ports.
    pub(crate) fn new() -> Touched {
        Touched { ports: [false; 17] }
    }

    /// Adds a port. One over 16 counts as 16.
    pub(crate) fn add(&mut self, port: u8) {
        self.ports[usize::from(port).min(16)] = true;
    }

    /// Checks whether a port is among them. One over 16 counts as 16.
    pub(crate) fn has(&self, port: u8) -> bool {
        self.ports[usize::from(port).min(16)]
    }
}
