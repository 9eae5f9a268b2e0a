//! The actions of a control socket and its peers.

ghost use Rattle.pb_lan.specs.Plans.{IsSound};

use super::board::Fake;
use super::talk::{floods, hear, settles, talks};
use mio::net::UnixStream;
use pb_control_socket::{Control, Request};
use pb_lan::Plan;
use std::alloc::Global;
use std::io::{self, Write};
use std::net::{Net, Shutdown};
use std::test::Fail;

/// The socket's path.
pub(super) const PATH: &str = "control.sock";

/// One of two peers.
#[derive(Clone, Copy)]
pub(super) enum Who {
    First,
    Second,
}

/// An action of a peer or of the socket, or a check.
#[derive(Clone, Copy)]
pub(super) enum Action {
    /// A peer connects.
    Connects(Who),
    /// A peer sends octets, the socket takes its turns, and the peer hears the reply. It is not disconnected.
    Says(Who, &'static [u8]),
    /// A peer sends octets this many times, and the socket takes no turn.
    Sends(Who, &'static [u8], u32),
    /// A peer sends no more.
    IsDone(Who),
    /// The socket takes one turn, and does something.
    Turns,
    /// The socket takes its turns.
    Settles,
    /// The clock shows this many seconds.
    Shows(u64),
    /// A peer hears the replies, and whether it is disconnected.
    Hears(Who, bool),
    /// A peer disconnects.
    HangsUp(Who),
    /// All that both peers have heard so far.
    HaveHeard(&'static str),
    /// The board holds back the results for those who ask for stations, or holds them back no longer.
    Holds(bool),
    /// How often the board was asked for stations so far.
    HasQuestions(u64),
    /// All requests made of the board so far.
    IsAsked(&'static [Request]),
    /// A peer asks for counts this many times. Nothing is read from it while it takes no reply, and no reply is lost.
    Floods(Who, usize),
}

/// The streams of both peers, if they are connected.
#[derive(Drop)]
struct Peers {
    first: Option<UnixStream>,
    second: Option<UnixStream>,
}

impl Peers {
    fn of(&mut self, who: Who) -> &mut Option<UnixStream> {
        match who {
            Who::First => &mut self.first,
            Who::Second => &mut self.second,
        }
    }
}

/// Two peers, the octets that they have heard, and the board of the socket.
#[derive(Drop)]
pub(super) struct Stage {
    alloc: Global,
    peers: Peers,
    heard: Vec<u8>,
    board: Fake,
}

impl Stage {
    /// Returns a stage without peers, on which nothing has happened.
    pub(super) fn new(alloc: Global) -> Stage {
        Stage {
            alloc,
            peers: Peers {
                first: None,
                second: None,
            },
            heard: Vec::new(alloc),
            board: Fake::new(alloc),
        }
    }

    fn connects(&mut self, rt: &impl Net, who: Who) -> io::Result<bool> {
        *self.peers.of(who) = Some(UnixStream::connect(rt, PATH)?);
        Ok(true)
    }

    fn holds(&self, is_held: bool) -> bool {
        self.board.hold(is_held);
        true
    }

    fn hangs_up(&mut self, who: Who) -> bool {
        let was_connected = self.peers.of(who).is_some();
        *self.peers.of(who) = None;
        was_connected
    }

    fn says(
        &mut self,
        control: &mut Control,
        plan: &Plan,
        who: Who,
        octets: &[u8],
    ) -> Result<bool, Fail>
        requires { IsSound plan.now }
    {
        let (board, heard) = (&self.board, &mut self.heard);
        match self.peers.of(who) {
            Some(stream) => talks(control, plan, board, stream, octets, heard),
            None => Ok(false),
        }
    }

    fn sends(&mut self, who: Who, octets: &[u8], times: u32) -> io::Result<bool> {
        let Some(stream) = self.peers.of(who) else {
            return Ok(false);
        };
        for _ in 0..times {
            stream.write_all(octets)?;
        }
        Ok(true)
    }

    fn is_done(&mut self, who: Who) -> bool {
        match self.peers.of(who) {
            Some(stream) => stream.shutdown(Shutdown::Write).is_ok(),
            None => false,
        }
    }

    fn hears(&mut self, who: Who, is_end: bool) -> Result<bool, Fail> {
        match self.peers.of(who) {
            Some(stream) => Ok(hear(stream, &mut self.heard)? == is_end),
            None => Ok(false),
        }
    }

    fn floods(
        &mut self,
        control: &mut Control,
        plan: &Plan,
        who: Who,
        count: usize,
    ) -> Result<bool, Fail>
        requires { IsSound plan.now }
    {
        let line: &[u8] = b"counts\n";
        let lines = line.repeat(self.alloc, count)?;
        let (board, heard) = (&self.board, &mut self.heard);
        match self.peers.of(who) {
            Some(stream) => floods(control, plan, board, stream, lines.as_slice(), heard),
            None => Ok(false),
        }
    }
}

/// Lets the socket read a clock. Returns true.
fn shows(control: &mut Control, seconds: u64) -> bool {
    control.make_way(seconds);
    true
}

/// Performs an action, and returns whether it went as stated.
pub(super) fn happens(
    rt: &impl Net,
    control: &mut Control,
    plan: &Plan,
    stage: &mut Stage,
    action: Action,
) -> Result<bool, Fail>
    requires { IsSound plan.now }
{
    match action {
        Action::Connects(who) => Ok(stage.connects(rt, who)?),
        Action::Says(who, octets) => stage.says(control, plan, who, octets),
        Action::Sends(who, octets, times) => Ok(stage.sends(who, octets, times)?),
        Action::IsDone(who) => Ok(stage.is_done(who)),
        Action::Turns => Ok(control.turn(plan, &stage.board)),
        Action::Settles => Ok(settles(control, plan, &stage.board)),
        Action::Shows(seconds) => Ok(shows(control, seconds)),
        Action::Hears(who, is_end) => stage.hears(who, is_end),
        Action::HangsUp(who) => Ok(stage.hangs_up(who)),
        Action::HaveHeard(text) => Ok(stage.heard.as_slice() == text.as_bytes()),
        Action::Holds(is_held) => Ok(stage.holds(is_held)),
        Action::HasQuestions(count) => Ok(stage.board.questions() == count),
        Action::IsAsked(requests) => Ok(stage.board.has_done(requests)),
        Action::Floods(who, count) => stage.floods(control, plan, who, count),
    }
}
