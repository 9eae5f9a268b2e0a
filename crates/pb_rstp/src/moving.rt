//! Ports during a call.

use crate::port::Port;
use pb_bpdu::Bpdu;

/// A port as it was before the latest call, and as it is at this point of that call or after it.
#[derive(Clone, Copy, PartialEq, Eq, Debug)]
pub(crate) struct Moving {
    pub(crate) was: Port,
    pub(crate) now: Port,
}

/// A received BPDU, its port, and whether the port stored it.
#[derive(Clone, Copy, PartialEq, Eq, Debug)]
pub(crate) struct Heard {
    pub(crate) port: u8,
    pub(crate) bpdu: Bpdu,
    pub(crate) stored: bool,
}
