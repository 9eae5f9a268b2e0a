//! What wakes the workers of ports over sockets.

use mio::event::Source;
use mio::{Events, Interest, Poll, Registry, Token, Waker};
use std::alloc::{AllocError, Global};
use std::io;
use std::net::Net;
use std::sync::Mutex;
use std::time::Duration;

/// The token of a port's sockets.
const SOCKET: Token = Token(0);

/// The token of what rouses a port.
const WAKER: Token = Token(1);

/// The number of events that one wait reports at most.
const EVENTS: usize = 8;

/// What the worker of a port waits on.
#[derive(Drop)]
struct Waiting {
    poll: Poll,
    events: Events,
}

/// The watch over the sockets of one port, in the gate of the run. Only the port's worker waits on it.
#[derive(Drop)]
pub(crate) struct Watch {
    waiting: Mutex<Waiting>,
    waker: Waker,
}

/// The place at which a port puts its sockets under its watch. Without a watch it does nothing.
#[derive(Drop)]
pub(crate) struct Post {
    registry: Option<Registry>,
}

impl Watch {
    /// Returns the watch over a port and the port's post.
    ///
    /// # Errors
    ///
    /// `OutOfMemory` if an allocation failed. Any other error is the system's.
    fn new(net: &impl Net, alloc: Global) -> io::Result<(Watch, Post)> {
        let poll = Poll::new(net)?;
        let registry = poll.registry().try_clone()?;
        let waker = Waker::new(poll.registry(), WAKER)?;
        let events = Events::with_capacity(alloc, EVENTS)?;
        let waiting = Mutex::new(Waiting { poll, events });
        let post = Post {
            registry: Some(registry),
        };
        Ok((Watch { waiting, waker }, post))
    }

    /// Sleeps until a socket of the port has octets or room, or the port is roused, at most this long. Returns whether
    /// one of these came, or `None` if the system could not wait.
    fn sleep(&self, time: Duration) -> Option<bool> {
        let mut held = self.waiting.try_lock()?;
        let waiting = &mut *held;
        waiting.poll.poll(&mut waiting.events, Some(time)).ok()?;
        Some(!waiting.events.is_empty())
    }

    /// Ends the sleep of the port's worker, or its next one.
    fn rouse(&self) {
        let _ = self.waker.wake();
    }
}

impl Post {
    /// Returns the post of a port without a watch.
    pub(crate) fn none() -> Post {
        Post { registry: None }
    }

    /// Puts a socket under the watch. It leaves the watch when it is closed. A socket that the system refuses is not
    /// watched.
    pub(crate) fn register<S: Source>(&self, socket: &mut S) {
        if let Some(registry) = &self.registry {
            let _ = registry.register(socket, SOCKET, Interest::READABLE | Interest::WRITABLE);
        }
    }
}

/// The watches over the ports of a run, in the order of the plan.
#[derive(Drop)]
pub(crate) struct Watches {
    watches: Vec<Option<Watch>>,
}

impl Watches {
    /// Returns no watches.
    pub(crate) fn new(alloc: Global) -> Watches {
        Watches {
            watches: Vec::new(alloc),
        }
    }

    /// Appends the next port, and returns its post. The port is watched if it has sockets and the system allows it.
    ///
    /// # Errors
    ///
    /// `AllocError` if an allocation failed.
    pub(crate) fn add(
        &mut self,
        net: &impl Net,
        alloc: Global,
        has_sockets: bool,
    ) -> Result<Post, AllocError> {
        if has_sockets {
            if let Ok((watch, post)) = Watch::new(net, alloc) {
                self.watches.push(Some(watch))?;
                return Ok(post);
            }
        }
        self.watches.push(None)?;
        Ok(Post::none())
    }

    /// Returns the watch over the port of this number, from 1, if it has one.
    fn at(&self, number: u8) -> Option<&Watch> {
        self.watches
            .get(usize::from(number).wrapping_sub(1))?
            .as_ref()
    }

    /// Checks whether the sockets of the port of this number, from 1, are watched.
    pub(crate) fn has(&self, number: u8) -> bool {
        self.at(number).is_some()
    }

    /// Sleeps until a socket of the port of this number, from 1, has octets or room, or the port is roused, at most
    /// this long. Returns whether one of these came, or `None` if its sockets are not watched.
    pub(crate) fn sleep(&self, number: u8, time: Duration) -> Option<bool> {
        self.at(number)?.sleep(time)
    }

    /// Ends the sleep of the worker of the port of this number, from 1, or its next one.
    pub(crate) fn rouse(&self, number: u8) {
        if let Some(watch) = self.at(number) {
            watch.rouse();
        }
    }
}
