//! The files and sockets of the operating system.

ghost use Rattle.std.specs.Prelude.{◌≡◌, ◌<◌, ◌≤◌, [], false, None, is_some, IfOk};
ghost use Rattle.pb_cmd_run.specs.Carried.{frames_in, octets_of, started};

use crate::completing::{WrittenFile, finish};
use crate::file_ports::{FilePort, capture_port, parted, record_port};
use crate::input::{Input, input_path, open_input};
use crate::pacing::{GateClock, paced};
use crate::pcapng::is_pcapng;
use crate::peer::{Peer, SocketFile, remove_sockets};
use crate::pipe::open_unwaiting;
use crate::readers::has_reader;
use crate::run_files::{FilePair, RunFiles};
use crate::sink::Sink;
use bytes::Bytes;
use mio::net::{UdpSocket, UnixStream};
use pb_control_socket::{listen, node_at};
use pb_frame::{Memory, Text};
use pb_port::{Port, Shelf, Timescale};
use pb_run_ports::Openings;
use pb_service::Pace;
use std::alloc::{AllocError, Global};
use std::collections::VecDeque;
use std::fs::{File, Files, Metadata, OpenOptions};
use std::io::ErrorKind;
use std::net::{Net, SocketAddr};
use std::os::fd::OwnedFd;
use std::os::unix::fs::{FileTypeExt, MetadataExt};
use std::path::Path;
use std::time::Clock;
use std::{fs, io, mem};

/// The operating system as an opener of files and sockets.
#[derive(Drop)]
pub(crate) struct System<'a, R> {
    pub rt: &'a R,
    pub alloc: Global,
    /// Standard input, if it need not be opened by its path.
    pub input: Option<OwnedFd>,
    /// The sockets that were made, or whose making was tried.
    pub sockets: Vec<SocketFile>,
    /// The files that ports and taps write, in the order in which these were made.
    pub written: Vec<WrittenFile>,
    /// The clocks of ports whose frames enter by the times of their records.
    pub clocks: Vec<GateClock>,
}

impl<'a, R> System<'a, R> {
    /// Returns the operating system, of which nothing was opened yet. Standard input need not be opened by its path if
    /// a handle of it is given.
    pub(crate) fn new(rt: &'a R, alloc: Global, input: &Option<OwnedFd>) -> System<'a, R> {
        System {
            rt,
            alloc,
            input: another_input(input),
            sockets: Vec::new(alloc),
            written: Vec::new(alloc),
            clocks: Vec::new(alloc),
        }
    }

    /// Returns what a port writes to, if it writes a file. The other handle of the file is kept.
    ///
    /// # Errors
    ///
    /// `AllocError` if an allocation failed.
    fn sink_of(&mut self, alloc: Global, output: Option<Output>) -> Result<Sink, AllocError> {
        let Some(output) = output else {
            return Ok(Sink::Nowhere);
        };
        let (sink, written) = parted(alloc, output)?;
        self.written.push(written)?;
        Ok(sink)
    }
}

/// Returns another handle of standard input, if it is given and the system makes one.
fn another_input(input: &Option<OwnedFd>) -> Option<OwnedFd> {
    match input {
        Some(input) => input.try_clone().ok(),
        None => None,
    }
}

/// A file that is written.
#[derive(Drop)]
pub(crate) struct Output {
    /// The handle that its port has.
    pub file: File,
    /// Another handle of it, which is kept until the run is over.
    pub twin: File,
    /// Its path.
    pub path: Text,
    /// Whether the file was made when it was opened.
    pub is_made: bool,
    /// Whether it is a pipe or a device, so that its writes don't block.
    pub is_pipe: bool,
}

/// Returns the device number and the inode of a file, as a text.
fn number_of(alloc: Global, metadata: &Metadata) -> Result<String, AllocError> {
    let (device, number) = (metadata.dev(), metadata.ino());
    format!(in alloc; "{device} {number}")
}

/// Returns a text that identifies a missing file: the device number and the inode of its folder, and its name. If the
/// folder can't be found it is the path.
fn missing_file(rt: &impl Files, alloc: Global, path: &str) -> Result<String, AllocError> {
    let whole = Path::new(path);
    let (Some(folder), Some(name)) = (whole.parent(), whole.file_name()) else {
        return format!(in alloc; "/{path}");
    };
    let folder = if folder.as_str().is_empty() {
        "."
    } else {
        folder.as_str()
    };
    let Ok(metadata) = fs::metadata(rt, folder) else {
        return format!(in alloc; "/{path}");
    };
    let folder = number_of(alloc, &metadata)?;
    format!(in alloc; "{folder}/{name}")
}

/// Returns a text that identifies the file at a path, in which `-` is standard input. Returns `None` for a character
/// device such as `/dev/null`, which may have several uses.
fn file_at(rt: &impl Files, alloc: Global, path: &str) -> Result<Option<String>, AllocError> {
    let path = input_path(path);
    match fs::metadata(rt, path) {
        Ok(metadata) if metadata.file_type().is_char_device() => Ok(None),
        Ok(metadata) => Ok(Some(number_of(alloc, &metadata)?)),
        Err(_) => Ok(Some(missing_file(rt, alloc, path)?)),
    }
}

/// Makes a file for writing. Returns it, and whether it may be removed again. A file that is made through a symbolic
/// link stays.
fn make<R: Files<File = File>>(rt: &R, path: &str) -> io::Result<(File, bool)> {
    match OpenOptions::new()
        .write(true)
        .create_new(true)
        .open(rt, path)
    {
        Ok(file) => Ok((file, true)),
        Err(e) if e.kind() == ErrorKind::AlreadyExists => {
            let file = OpenOptions::new().write(true).create(true).open(rt, path)?;
            Ok((file, false))
        }
        Err(e) => Err(e),
    }
}

/// Opens a file for writing, or makes it. Returns it, and whether it was made.
fn open_or_make<R: Files<File = File>>(rt: &R, path: &str) -> io::Result<(File, bool)> {
    match OpenOptions::new().write(true).open(rt, path) {
        Ok(file) => Ok((file, false)),
        Err(e) if e.kind() == ErrorKind::NotFound => make(rt, path),
        Err(e) => Err(e),
    }
}

/// Removes a file if it was made.
fn remove_made(rt: &impl Files, path: &str, is_made: bool) {
    if is_made {
        let _ = fs::remove_file(rt, path);
    }
}

impl<R: Files<File = File> + Net + Clock> Openings for System<'_, R> {
    type Input = Input;

    type Output = Output;

    type Stream = Peer;

    type Datagrams = UdpSocket;

    fn file_at(&self, alloc: Global, path: &str) -> Result<Option<Text>, Memory> {
        let file = file_at(self.rt, alloc, path)?;
        Ok(file.map(|text| Text::from_string(text)))
    }

    fn open_read(&mut self, path: &str) -> io::Result<Input> {
        open_input(self.rt, path, self.input.as_ref())
    }

    fn connect(&mut self, path: &str, stays: bool) -> io::Result<Peer> {
        let stream = UnixStream::connect(self.rt, path)?;
        let path = if stays {
            Some(Text::from_string(String::from_str(self.alloc, path)?))
        } else {
            None
        };
        Ok(Peer::here(stream, path))
    }

    fn listen(&mut self, path: &str, _stays: bool) -> io::Result<Peer> {
        let kept = String::from_str(self.alloc, path)?;
        self.sockets.push(SocketFile {
            path: Text::from_string(kept),
            node: None,
        })?;
        let listener = listen(self.rt, self.alloc, path)?;
        if let Some(last) = self.sockets.last_mut() {
            last.node = node_at(self.rt, path);
        }
        Ok(Peer::awaited(listener))
    }

    fn bind(&mut self, local: SocketAddr) -> io::Result<UdpSocket> {
        UdpSocket::bind(self.rt, local)
    }

    fn open_write(&mut self, path: &str) -> io::Result<Output> {
        let kept = Text::from_string(String::from_str(self.alloc, path)?);
        if let Some(file) = open_unwaiting(self.rt, path)? {
            let twin = file.try_clone()?;
            return Ok(Output {
                file,
                twin,
                path: kept,
                is_made: false,
                is_pipe: true,
            });
        }
        let (file, is_made) = open_or_make(self.rt, path)?;
        match file.try_clone() {
            Ok(twin) => Ok(Output {
                file,
                twin,
                path: kept,
                is_made,
                is_pipe: false,
            }),
            Err(e) => {
                remove_made(self.rt, path, is_made);
                Err(e)
            }
        }
    }

    fn empty(&mut self, output: &Output, _path: &str) -> io::Result<()> {
        let metadata = output.twin.metadata()?;
        if metadata.is_file() && metadata.len() != 0 {
            output.twin.set_len(0)?;
        }
        Ok(())
    }

    fn forget(&mut self, output: Output, path: &str) {
        remove_made(self.rt, path, output.is_made);
    }
}

impl<R: Files<File = File> + Net + Clock> RunFiles for System<'_, R> {
    type FilePort = FilePort;

    #[tactic(auto, using(crate::proofs::CarriedLemmas::not_started))]
    fn file_port(
        &mut self,
        alloc: Global,
        capacity: u16,
        number: u8,
        scale: Timescale,
        pace: Pace,
        files: FilePair<Input, Output>,
    ) -> Result<FilePort, AllocError>
        requires { (0 < capacity) × (capacity ≤ 4096) }
        ensures script { IfOk result (λ port. ⟦<FilePort as Port>⟧.script port ≡ None) }
        ensures fresh { IfOk result (λ port. ⟦<FilePort as Port>⟧.waiting port ≡ []) }
        ensures unread { IfOk result (λ port. ⟦<FilePort as Port>⟧.unread port
            ≡ frames_in (octets_of (λ _. None) files.input)) }
        ensures output { IfOk result (λ port. ⟦<FilePort as Port>⟧.output port ≡ started (is_some files.output) false) }
    {
        let FilePair { input, output } = files;
        let sink = self.sink_of(alloc, output)?;
        match input {
            Some(input) => {
                let input = paced(alloc, number, pace, input, &mut self.clocks)?;
                Ok(capture_port(alloc, capacity, scale, input, sink))
            }
            None => Ok(record_port(alloc, capacity, scale, sink)),
        }
    }

    fn lacks_reader(&self, output: &Output) -> bool {
        output.is_pipe && matches!(has_reader(self.rt, self.alloc, &output.twin), Ok(false))
    }

    fn take_clocks(&mut self, alloc: Global) -> Vec<GateClock> {
        mem::replace(&mut self.clocks, Vec::new(alloc))
    }

    fn complete(&self, output: usize) -> io::Result<()> {
        match self.written.get(output) {
            Some(written) => finish(self.rt, self.alloc, written),
            None => Ok(()),
        }
    }

    fn is_pcapng(&self, path: &str) -> bool {
        is_pcapng(self.rt, path)
    }

    fn close(
        &mut self,
        alloc: Global,
        mut port: FilePort,
        _path: &str,
    ) -> Result<VecDeque<Bytes>, AllocError> {
        let mut shelf = Shelf {
            unsent: VecDeque::new(alloc),
            sent: Vec::new(alloc),
        };
        port.shelve(&mut shelf);
        Ok(shelf.unsent)
    }

    fn remove_sockets(&self) {
        remove_sockets(self.rt, self.sockets.as_slice());
    }
}
