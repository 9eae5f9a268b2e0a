//! The mode in which the places of a run work.

/// The mode in which the places of a run work.
#[derive(Clone, Copy, PartialEq, Eq, Debug)]
pub struct Mode {
    /// Whether places keep their steps in memory. Otherwise they only count them.
    pub keeps: bool,
    /// Whether bridges enable and disable ports as their gate wishes. Otherwise they leave them.
    pub sets: bool,
    /// Whether an item waits on its ring while a queue is full to which its bridge may copy it. Otherwise the bridge
    /// receives it, and a port whose queue is full gets no copy.
    pub waits: bool,
}

impl Mode {
    /// The mode that counts steps, leaves ports as they are, and waits for no queue.
    pub const COUNTED: Mode = Mode {
        keeps: false,
        sets: false,
        waits: false,
    };

    /// The mode that counts steps, sets ports as the gate wishes, and waits for no queue.
    pub const SET: Mode = Mode {
        keeps: false,
        sets: true,
        waits: false,
    };

    /// The mode that keeps steps, leaves ports as they are, and waits for no queue.
    pub const KEPT: Mode = Mode {
        keeps: true,
        sets: false,
        waits: false,
    };
}
