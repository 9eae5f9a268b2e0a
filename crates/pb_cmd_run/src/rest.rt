//! Ports after a run: they are closed, and the frames that wait in them remain.

ghost use Rattle.std.specs.Prelude.{◌≡◌, [], false, true, map, length, vec_len, Some, None, IfOk, OnOk};
ghost use Rattle.pb_cmd_run.specs.AnyPorts.{of_file};
ghost use Rattle.pb_cmd_run.specs.Carried.{AreClosed, ClosesOne};
ghost use Rattle.pb_cmd_run.specs.Unsent.{waiting_at};
ghost use Rattle.pb_port.specs.declared.answers.Ending.TheVariants.{End as ending_end};

use crate::any_port::AnyPort;
use crate::customer_ports::{Customer, CustomerPort};
use crate::run_files::RunFiles;
use crate::watched::Watched;
use bytes::Bytes;
use pb_frame::Text;
use pb_port::{Offered, Polled, Port, Pumped, Shelf};
use std::alloc::{AllocError, Global};
use std::collections::VecDeque;
use std::mem;

/// A port that was closed. It takes no frames, and keeps those that waited in it.
#[derive(Drop)]
pub(crate) struct Rest {
    pub unsent: VecDeque<Bytes>,
}

impl Port for Rest {
    ghost script = { λ _. None };

    ghost given = { λ _. [] };

    ghost tally = { λ _. [] };

    ghost keeps_sent = { λ _. false };

    ghost waiting = { λ p. p.unsent.items };

    ghost capacity = { λ _. 0 };

    ghost ended = { λ _. Some ending_end };

    ghost is_shelved = { λ _. true };

    ghost is_failed = { λ _. false };

    ghost failed = { λ _. 0 };

    fn poll(&mut self) -> Polled {
        Polled::End
    }

    fn offer(&mut self, _f: &Bytes) -> Offered {
        Offered::Gone
    }

    fn pump(&mut self, _now: u32) -> Pumped {
        Pumped::Nothing
    }

    fn unsent(&self) -> &VecDeque<Bytes> {
        &self.unsent
    }

    fn shelve(&mut self, home: &mut Shelf) {
        mem::swap(&mut self.unsent, &mut home.unsent);
    }
}

/// Takes a port out of use, and returns the frames that wait in it.
fn shelved<P: Port>(alloc: Global, mut port: P) -> VecDeque<Bytes>
    ensures { result.items ≡ P.waiting port }
{
    let mut shelf = Shelf {
        unsent: VecDeque::new(alloc),
        sent: Vec::new(alloc),
    };
    port.shelve(&mut shelf);
    shelf.unsent
}

/// Closes a port of a run, whose file, if it writes one, has this path. Returns the frames that wait in it.
///
/// # Errors
///
/// `AllocError` if an allocation failed.
#[tactic(auto, using(crate::proofs::CarriedLemmas::one_still))]
fn close_one<O: RunFiles>(
    alloc: Global,
    opener: &mut O,
    port: CustomerPort<O::FilePort>,
    path: &Option<Text>,
) -> Result<VecDeque<Bytes>, AllocError>
    ensures waiting { IfOk result (λ unsent. unsent.items ≡ waiting_at O.FilePort.waiting port) }
    ensures file { OnOk result (ClosesOne (O.holds opener.old) (O.holds opener.new)
        (of_file O.FilePort.output port) path.now) }
{
    match port {
        AnyPort::Memory(port) => Ok(shelved(alloc, port)),
        AnyPort::Capture(port) => match path {
            Some(path) => opener.close(alloc, port, path.as_str()),
            None => Ok(shelved(alloc, port)),
        },
        AnyPort::Socket(port) => Ok(shelved(alloc, port)),
        AnyPort::Staying(port) => Ok(shelved(alloc, port)),
        AnyPort::Datagrams(port) => Ok(shelved(alloc, port)),
    }
}

/// Closes the ports of a run, whose files, if they write any, have these paths. Returns closed ports in which the same
/// frames wait.
///
/// # Errors
///
/// `AllocError` if an allocation failed.
pub(crate) fn close_all<O: RunFiles>(
    alloc: Global,
    opener: &mut O,
    ports: Vec<Customer<O::FilePort>>,
    paths: &[Option<Text>],
) -> Result<Vec<Rest>, AllocError>
    requires { vec_len ports ≡ length paths.now }
    ensures count { IfOk result (λ rests. vec_len rests ≡ vec_len ports) }
    ensures waiting { IfOk result (λ rests. map (λ rest. rest.unsent.items) rests.items
        ≡ map (λ w. waiting_at O.FilePort.waiting w.port) ports.items) }
    ensures files { IfOk result (λ _. AreClosed (O.holds opener.old) (O.holds opener.new)
        (map (λ w. of_file O.FilePort.output w.port) ports.items) paths.now) }
{
    let mut rests = Vec::new(alloc);
    for watched in ports {
        let place = rests.len();
        let Watched { port, .. } = watched;
        let unsent = close_one(alloc, opener, port, &paths[place])?;
        rests.push(Rest { unsent })?;
    }
    Ok(rests)
}
