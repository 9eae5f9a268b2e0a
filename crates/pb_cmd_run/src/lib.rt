//! The command `run`: the network of a plan file in threads, between files and sockets.
//!
//! It runs the workers of pb_run over the ports of pb_port, opens them with pb_run_ports, and takes events and the
//! control socket from pb_run_control. Begin with [`run_network`] in `network.rt`. The other files open ports and print
//! texts.
#![tactic(auto)]

mod any_port;
mod attended;
mod completing;
mod customer_ports;
mod cut;
mod datagram_drops;
mod datagram_report;
mod datagram_socket;
mod door;
mod file_ports;
mod input;
mod linger;
mod network;
mod network_fault;
mod outcome;
mod outside;
mod pacing;
mod pcapng;
mod peer;
mod pipe;
mod plug;
mod port_faults;
mod readers;
mod report;
mod rest;
mod run_files;
mod settings;
mod sink;
mod socket_ports;
mod stalls;
mod system;
mod taps;
mod telling;
mod users;
mod visits;
mod watch;
mod watched;

pub use mio::net::UdpSocket;
pub use network::{run_network, run_network_over};
pub use network_fault::NetworkFault;
pub use pacing::GateClock;
pub use pb_run_control::{Opening, PeerChange, RunProgress, SocketFailure, Traffic};
pub use pb_run_losses::{Strictness, lost_of};
pub use pb_run_ports::{
    Deed, ExposedPort, FileUser, OpenFault, Opened, Openings, PathFault, SharedFile, Verb, open_all,
};
pub use peer::Peer;
pub use pipe::open_unwaiting;
pub use report::write_report;
pub use run_files::{FilePair, RunFiles};
pub use settings::RunSettings;
