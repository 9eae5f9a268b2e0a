//! Ports over datagrams.

mod cases;
mod device;
mod headers;
mod receiving;
mod sending;
mod sockets;
