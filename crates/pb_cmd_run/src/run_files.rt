//! The files and sockets that a run opens, and its ports over files.

ghost use Rattle.std.specs.Prelude.{◌≡◌, ◌≢◌, ◌<◌, ◌≤◌, ℕ, Bool, false, List, [], None, Some, is_some};
ghost use Rattle.std.specs.Prelude.{IfOk, IfSome, OnOk};
ghost use Rattle.pb_cmd_run.specs.Carried.{frames_in, octets_of, started};

use crate::pacing::GateClock;
use crate::peer::Peer;
use bytes::Bytes;
use mio::net::UdpSocket;
use pb_port::{Port, Timescale};
use pb_run_ports::Openings;
use pb_service::Pace;
use std::alloc::{AllocError, Global};
use std::collections::VecDeque;
use std::io;

/// The files of a port of a run, of which it has one at least.
#[derive(Drop)]
pub struct FilePair<I, O> {
    /// The file that it reads, if it reads one.
    pub input: Option<I>,
    /// The file that it writes, if it writes one.
    pub output: Option<O>,
}

/// An opener of files and sockets that also makes the ports over files, and closes them after the run: the operating
/// system, or files of a caller, who sees them before and after. Sockets are those of the operating system.
pub trait RunFiles: Openings<Stream = Peer, Datagrams = UdpSocket> {
    /// A port over files.
    type FilePort: Port + Send;

    /// The ports report the octets that they write.
    ghost reports: { Bool } = { false };

    /// Returns the port of this number, from 1, or that of a tap, whose number is 0, over its files. In it `capacity`
    /// frames may wait, 1 to 4,096. It reads a capture at its pace, and writes a capture with times on this scale.
    ///
    /// # Errors
    ///
    /// `AllocError` if an allocation failed.
    fn file_port(
        &mut self,
        alloc: Global,
        capacity: u16,
        number: u8,
        scale: Timescale,
        pace: Pace,
        files: FilePair<Self::Input, Self::Output>,
    ) -> Result<Self::FilePort, AllocError>
        requires { (0 < capacity) × (capacity ≤ 4096) }
        ensures script { IfOk result (λ port. Self.FilePort.script port ≡ None) }
        ensures fresh { IfOk result (λ port. Self.FilePort.waiting port ≡ []) }
        ensures unread { IfOk result (λ port. Self.FilePort.unread port
            ≡ frames_in (octets_of Self.unread files.input)) }
        ensures output { IfOk result (λ port. Self.FilePort.output port ≡ started (is_some files.output) reports) };

    /// Checks whether an output is a pipe that nobody has open for reading.
    fn lacks_reader(&self, _output: &Self::Output) -> bool {
        false
    }

    /// Takes the clocks that the gate of the run is to set, of ports whose frames enter by the times of their records.
    fn take_clocks(&mut self, alloc: Global) -> Vec<GateClock> {
        Vec::new(alloc)
    }

    /// Completes an output after the run: one that is empty becomes a capture without records, and one to which a write
    /// failed keeps its whole records. Outputs are counted from 0, in the order in which ports and taps were made over
    /// them.
    ///
    /// # Errors
    ///
    /// The error with which a write failed, or that of the system.
    fn complete(&self, _output: usize) -> io::Result<()> {
        Ok(())
    }

    /// Checks whether the file at a path is pcapng.
    fn is_pcapng(&self, _path: &str) -> bool {
        false
    }

    /// Closes a port after the run, and returns the frames that wait in it. The file at the path, which it wrote, has
    /// the octets that the port wrote.
    ///
    /// # Errors
    ///
    /// `AllocError` if an allocation failed.
    fn close(
        &mut self,
        alloc: Global,
        port: Self::FilePort,
        path: &str,
    ) -> Result<VecDeque<Bytes>, AllocError>
        ensures waiting { IfOk result (λ unsent. unsent.items ≡ Self.FilePort.waiting port) }
        ensures file { OnOk result (IfSome (Self.FilePort.output port) (λ output.
            Self.holds self.new path.now ≡ Some output.written)) }
        ensures others { OnOk result ((other : List ℕ) → other ≢ path.now
            → Self.holds self.new other ≡ Self.holds self.old other) };

    /// Removes the sockets that were made.
    fn remove_sockets(&self) {}
}
