//! The order in which files and sockets are opened, with a replacement for the operating system.

ghost use Rattle.std.specs.Prelude.{◌≡◌, Some, IfOk};

use bytes::Bytes;
use pb_cmd_run::{Deed, FileUser, OpenFault, Opened, Openings, open_all};
use pb_frame::{Memory, Seq, Text};
use pb_service::{LengthField, Pace, PortSpec, Stamp};
use std::alloc::{AllocError, Global};
use std::io;
use std::io::{Error, ErrorKind};
use std::net::SocketAddr;
use std::test::Fail;

/// An opener that records its operations. One path can't be opened, and one can't be emptied.
#[derive(Drop)]
struct Desk {
    alloc: Global,
    deeds: Vec<Deed>,
    missing: &'static str,
    stuck: &'static str,
    forgotten: usize,
}

impl Desk {
    /// Returns a path as it is recorded, or an error if it can't be opened.
    fn text(&self, path: &str) -> io::Result<Text>
        ensures { IfOk result (λ text. text ≡ path.now) }
    {
        if path == self.missing {
            return Err(Error::from(ErrorKind::NotFound));
        }
        Ok(Text::from_string(String::from_str(self.alloc, path)?))
    }
}

impl Openings for Desk {
    type Input = ();

    type Output = ();

    type Stream = ();

    type Datagrams = ();

    ghost done = { λ desk. Some desk.deeds.items };

    ghost named = { λ _. Some (λ path. Some path) };

    fn file_at(&self, alloc: Global, path: &str) -> Result<Option<Text>, Memory> {
        let text = Text::from_string(String::from_str(alloc, path)?);
        Ok(Some(text))
    }

    fn open_read(&mut self, path: &str) -> io::Result<()> {
        let text = self.text(path)?;
        self.deeds.push(Deed::Read(text))?;
        Ok(())
    }

    fn connect(&mut self, path: &str, _stays: bool) -> io::Result<()> {
        let text = self.text(path)?;
        self.deeds.push(Deed::Connect(text))?;
        Ok(())
    }

    fn listen(&mut self, path: &str, _stays: bool) -> io::Result<()> {
        let text = self.text(path)?;
        self.deeds.push(Deed::Listen(text))?;
        Ok(())
    }

    fn bind(&mut self, local: SocketAddr) -> io::Result<()> {
        self.deeds.push(Deed::Bind(local))?;
        Ok(())
    }

    fn open_write(&mut self, path: &str) -> io::Result<()> {
        let text = self.text(path)?;
        self.deeds.push(Deed::Write(text))?;
        Ok(())
    }

    fn empty(&mut self, _output: &(), path: &str) -> io::Result<()> {
        if path == self.stuck {
            return Err(Error::from(ErrorKind::PermissionDenied));
        }
        let text = self.text(path)?;
        self.deeds.push(Deed::Empty(text))?;
        Ok(())
    }

    fn forget(&mut self, _output: (), _path: &str) {
        self.forgotten = self.forgotten.saturating_add(1);
    }
}

/// The kind of a port of a row.
#[derive(Clone, Copy)]
enum Kind {
    Memory,
    Capture(&'static str, &'static str),
    Record(&'static str),
    Replay(&'static str),
    Socket(&'static str),
    Listener(&'static str),
}

/// Returns a text of the plan.
fn text(alloc: Global, text: &str) -> Result<Text, AllocError> {
    Ok(Text::from_string(String::from_str(alloc, text)?))
}

/// Returns a port over two captures.
fn capture(alloc: Global, read: &str, write: &str) -> Result<PortSpec, AllocError> {
    let read = text(alloc, read)?;
    Ok(PortSpec::Capture {
        read,
        pace: Pace::AtOnce,
        write: text(alloc, write)?,
        stamp: Stamp::Ticks,
    })
}

/// Returns a port that writes a capture.
fn record(alloc: Global, write: &str) -> Result<PortSpec, AllocError> {
    Ok(PortSpec::Record {
        write: text(alloc, write)?,
        stamp: Stamp::Ticks,
    })
}

/// Returns a port that reads a capture.
fn replay(alloc: Global, read: &str) -> Result<PortSpec, AllocError> {
    Ok(PortSpec::Replay {
        read: text(alloc, read)?,
        pace: Pace::Times(7),
    })
}

/// Returns a port over a socket.
fn socket(alloc: Global, path: &str, listens: bool) -> Result<PortSpec, AllocError> {
    let path = text(alloc, path)?;
    Ok(PortSpec::Socket {
        path,
        listens,
        stays: false,
        framing: LengthField::Two,
    })
}

/// Returns a port of a row.
fn spec_of(alloc: Global, kind: Kind) -> Result<PortSpec, AllocError> {
    match kind {
        Kind::Memory => Ok(PortSpec::Memory(Seq::from_vec(Vec::<Bytes>::new(alloc)))),
        Kind::Capture(read, write) => capture(alloc, read, write),
        Kind::Record(write) => record(alloc, write),
        Kind::Replay(read) => replay(alloc, read),
        Kind::Socket(path) => socket(alloc, path, false),
        Kind::Listener(path) => socket(alloc, path, true),
    }
}

/// Returns the ports of a row.
fn specs_of(alloc: Global, kinds: &[Kind]) -> Result<Vec<PortSpec>, AllocError> {
    let mut specs = Vec::new(alloc);
    for kind in kinds {
        specs.push(spec_of(alloc, *kind)?)?;
    }
    Ok(specs)
}

/// An operation, by its path.
#[derive(Clone, Copy)]
enum Done {
    Read(&'static str),
    Connect(&'static str),
    Listen(&'static str),
    Write(&'static str),
    Empty(&'static str),
}

/// The result of the opening. A port goes by its place in the plan, from 0.
#[derive(Clone, Copy)]
enum End {
    /// So many ports are open.
    Open(usize),
    /// A port's path can't be opened.
    Unopened(usize, &'static str),
    /// A port's output can't be emptied.
    Unemptied(usize, &'static str),
    /// A path that a port would write has another user.
    Shared(&'static str, usize, FileUser),
}

/// Returns whether this operation was done.
fn is_done(deed: &Deed, done: Done) -> bool {
    match (deed, done) {
        (Deed::Read(path), Done::Read(wanted)) => path.as_str() == wanted,
        (Deed::Connect(path), Done::Connect(wanted)) => path.as_str() == wanted,
        (Deed::Listen(path), Done::Listen(wanted)) => path.as_str() == wanted,
        (Deed::Write(path), Done::Write(wanted)) => path.as_str() == wanted,
        (Deed::Empty(path), Done::Empty(wanted)) => path.as_str() == wanted,
        _ => false,
    }
}

/// Returns the number of operations before the first that differs from the wanted ones.
fn deeds_done(deeds: &[Deed], done: &[Done]) -> usize {
    for (place, deed) in deeds.iter().enumerate() {
        match done.get(place) {
            Some(done) if is_done(deed, *done) => {}
            _ => return place,
        }
    }
    deeds.len()
}

/// Returns whether this is the result.
fn is_end(outcome: &Result<Vec<Opened<(), (), (), ()>>, OpenFault>, end: End) -> bool {
    match (outcome, end) {
        (Ok(ports), End::Open(count)) => ports.len() == count,
        (Err(OpenFault::Unopened(fault)), End::Unopened(place, path)) => {
            fault.place == place && fault.path.as_str() == path
        }
        (Err(OpenFault::Unemptied(fault)), End::Unemptied(place, path)) => {
            fault.place == place && fault.path.as_str() == path
        }
        (Err(OpenFault::Shared(file)), End::Shared(path, place, other)) => {
            file.place == place && file.path.as_str() == path && file.other == other
        }
        _ => false,
    }
}

/// The ports of a plan that was read at `plan`, the path that can't be opened, the path that can't be emptied, the
/// operations, the result, and the number of outputs that are closed again.
struct Row {
    kinds: &'static [Kind],
    missing: &'static str,
    stuck: &'static str,
    done: &'static [Done],
    end: End,
    forgotten: usize,
}

/// Two captures, a port in memory and a socket.
const TWO: &[Kind] = &[
    Kind::Capture("a.in", "a.out"),
    Kind::Memory,
    Kind::Socket("s"),
    Kind::Capture("b.in", "b.out"),
];

/// Ports with the operations and results of their opening.
const ROWS: &[Row] = &[
    Row {
        kinds: TWO,
        missing: "",
        stuck: "",
        done: &[
            Done::Read("a.in"),
            Done::Connect("s"),
            Done::Read("b.in"),
            Done::Write("a.out"),
            Done::Write("b.out"),
            Done::Empty("a.out"),
            Done::Empty("b.out"),
        ],
        end: End::Open(4),
        forgotten: 0,
    },
    // The socket after a capture is missing: no output is emptied.
    Row {
        kinds: TWO,
        missing: "s",
        stuck: "",
        done: &[Done::Read("a.in")],
        end: End::Unopened(2, "s"),
        forgotten: 0,
    },
    Row {
        kinds: TWO,
        missing: "b.in",
        stuck: "",
        done: &[Done::Read("a.in"), Done::Connect("s")],
        end: End::Unopened(3, "b.in"),
        forgotten: 0,
    },
    // The last output can't be made: the first is not emptied.
    Row {
        kinds: TWO,
        missing: "b.out",
        stuck: "",
        done: &[
            Done::Read("a.in"),
            Done::Connect("s"),
            Done::Read("b.in"),
            Done::Write("a.out"),
        ],
        end: End::Unopened(3, "b.out"),
        forgotten: 1,
    },
    Row {
        kinds: TWO,
        missing: "",
        stuck: "b.out",
        done: &[
            Done::Read("a.in"),
            Done::Connect("s"),
            Done::Read("b.in"),
            Done::Write("a.out"),
            Done::Write("b.out"),
            Done::Empty("a.out"),
        ],
        end: End::Unemptied(3, "b.out"),
        forgotten: 0,
    },
    // One path is read and written: nothing is opened.
    Row {
        kinds: &[Kind::Memory, Kind::Capture("a", "a")],
        missing: "",
        stuck: "",
        done: &[],
        end: End::Shared("a", 1, FileUser::Reader(1)),
        forgotten: 0,
    },
    // Two ports write one path: nothing is opened.
    Row {
        kinds: &[Kind::Capture("a", "c"), Kind::Capture("b", "c")],
        missing: "",
        stuck: "",
        done: &[],
        end: End::Shared("c", 1, FileUser::Writer(0)),
        forgotten: 0,
    },
    // The later port reads what the earlier one writes.
    Row {
        kinds: &[Kind::Capture("a", "c"), Kind::Capture("c", "d")],
        missing: "",
        stuck: "",
        done: &[],
        end: End::Shared("c", 0, FileUser::Reader(1)),
        forgotten: 0,
    },
    // A file may be read twice.
    Row {
        kinds: &[Kind::Capture("a", "c"), Kind::Capture("a", "d")],
        missing: "",
        stuck: "",
        done: &[
            Done::Read("a"),
            Done::Read("a"),
            Done::Write("c"),
            Done::Write("d"),
            Done::Empty("c"),
            Done::Empty("d"),
        ],
        end: End::Open(2),
        forgotten: 0,
    },
    // A port writes the plan: nothing is opened.
    Row {
        kinds: &[Kind::Memory, Kind::Capture("a", "plan")],
        missing: "",
        stuck: "",
        done: &[],
        end: End::Shared("plan", 1, FileUser::Plan),
        forgotten: 0,
    },
    // A port would write standard output, to which the report goes.
    Row {
        kinds: &[Kind::Memory, Kind::Record("/dev/stdout")],
        missing: "",
        stuck: "",
        done: &[],
        end: End::Shared("/dev/stdout", 1, FileUser::Report),
        forgotten: 0,
    },
    // The plan may be read.
    Row {
        kinds: &[Kind::Capture("plan", "c")],
        missing: "",
        stuck: "",
        done: &[Done::Read("plan"), Done::Write("c"), Done::Empty("c")],
        end: End::Open(1),
        forgotten: 0,
    },
    // Of two ports over one capture each, one reads it and the other writes it.
    Row {
        kinds: &[Kind::Record("w"), Kind::Replay("r")],
        missing: "",
        stuck: "",
        done: &[Done::Read("r"), Done::Write("w"), Done::Empty("w")],
        end: End::Open(2),
        forgotten: 0,
    },
    Row {
        kinds: &[Kind::Record("c"), Kind::Replay("c")],
        missing: "",
        stuck: "",
        done: &[],
        end: End::Shared("c", 0, FileUser::Reader(1)),
        forgotten: 0,
    },
    Row {
        kinds: &[Kind::Record("c"), Kind::Record("c")],
        missing: "",
        stuck: "",
        done: &[],
        end: End::Shared("c", 1, FileUser::Writer(0)),
        forgotten: 0,
    },
    // The first output is closed again, since the second can't be made.
    Row {
        kinds: &[Kind::Record("a"), Kind::Record("b")],
        missing: "b",
        stuck: "",
        done: &[Done::Write("a")],
        end: End::Unopened(1, "b"),
        forgotten: 1,
    },
    // A socket is made in the same pass in which others are connected to.
    Row {
        kinds: &[
            Kind::Socket("s"),
            Kind::Listener("l"),
            Kind::Capture("a", "c"),
        ],
        missing: "",
        stuck: "",
        done: &[
            Done::Connect("s"),
            Done::Listen("l"),
            Done::Read("a"),
            Done::Write("c"),
            Done::Empty("c"),
        ],
        end: End::Open(3),
        forgotten: 0,
    },
    Row {
        kinds: &[
            Kind::Socket("s"),
            Kind::Listener("l"),
            Kind::Capture("a", "c"),
        ],
        missing: "l",
        stuck: "",
        done: &[Done::Connect("s")],
        end: End::Unopened(1, "l"),
        forgotten: 0,
    },
];

/// Returns the number of operations that are those of the row, the number of all operations, whether the result is the
/// row's, and the number of outputs that were closed again.
fn seen(alloc: Global, row: &Row) -> Result<(usize, usize, bool, usize), AllocError> {
    let specs = specs_of(alloc, row.kinds)?;
    let mut desk = Desk {
        alloc,
        deeds: Vec::new(alloc),
        missing: row.missing,
        stuck: row.stuck,
        forgotten: 0,
    };
    let outcome = open_all(alloc, &mut desk, "plan", specs, false);
    let done = deeds_done(&desk.deeds, row.done);
    Ok((
        done,
        desk.deeds.len(),
        is_end(&outcome, row.end),
        desk.forgotten,
    ))
}

#[test]
fn inputs_are_opened_first_and_outputs_emptied_last(rt: HostRuntime) -> Result<(), Fail> {
    for (place, row) in ROWS.iter().enumerate() {
        let wanted = (row.done.len(), row.done.len(), true, row.forgotten);
        assert_eq!(rt; seen(rt.alloc(), row)?, wanted, "row {place}");
    }
    Ok(())
}
