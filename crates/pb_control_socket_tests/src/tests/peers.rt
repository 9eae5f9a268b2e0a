//! Peers that send lines to a control socket.

ghost use Rattle.pb_lan.specs.Plans.{IsSound};

use super::folder::{enter, leave};
use super::plans::{COUNTS, plan};
use super::stage::Action::{Connects, HaveHeard, Says};
use super::stage::Who::{First, Second};
use super::stage::{Action, PATH, Stage, happens};
use pb_control_socket::{Control, Request};
use pb_lan::Plan;
use std::alloc::Global;
use std::fs::{File, Files};
use std::net::Net;
use std::process::{Abort, Process};
use std::rt::Env;
use std::test::Fail;
use std::time::Clock;

/// The replies to `stations west` and `stop`.
const ONE_BRIDGE: &str = "\
station west 100 02-00-00-00-00-01 port 16 age 0\n\
station west 4094 AB-CD-EF-09-90-FF port 1 age 999999\n\
ok\n\
ok\n\
";

/// The same, and then the reply to `stations east`.
const BOTH_BRIDGES: &str = "\
station west 100 02-00-00-00-00-01 port 16 age 0\n\
station west 4094 AB-CD-EF-09-90-FF port 1 age 999999\n\
ok\n\
ok\n\
no answer\n\
";

/// A list of actions with peers of its own.
type Story = &'static [Action];

/// Performs stories at a socket, one after the other, and checks each action.
fn are_told<R: Abort + Net>(
    rt: &R,
    alloc: Global,
    control: &mut Control,
    plan: &Plan,
    stories: &[Story],
) -> Result<(), Fail>
    requires { IsSound plan.now }
{
    for (story, steps) in stories.iter().enumerate() {
        let mut stage = Stage::new(alloc);
        for (step, what) in steps.iter().enumerate() {
            let is_so = happens(rt, control, plan, &mut stage, *what)?;
            assert!(rt; is_so, "story {story}, step {step}");
        }
    }
    Ok(())
}

/// Performs stories at a socket in a folder of its own.
fn come_to_pass<R: Abort + Env + Files<File = File> + Net + Clock + AllocGlobal>(
    rt: &R,
    alloc: Global,
    process: Process,
    stories: &[Story],
) -> Result<(), Fail> {
    enter(rt, process)?;
    let plan = plan(alloc)?;
    let mut control = Control::open(rt, alloc, PATH)?;
    are_told(rt, alloc, &mut control, &plan, stories)?;
    control.close(rt);
    Ok(leave(rt, process)?)
}

/// 256 octets that are no line.
const LONG: &[u8] = &[b'a'; 256];

/// A peer of each story sends lines, in pieces or whole, and hears the replies.
const ANSWERED: &[Story] = &[
    &[Connects(First), HaveHeard("")],
    &[Connects(First), Says(First, b"stop\n"), HaveHeard("ok\n")],
    &[Connects(First), Says(First, b"counts\n"), HaveHeard(COUNTS)],
    &[
        Connects(First),
        Says(First, b"stop\ndown west 2\n\n"),
        HaveHeard("ok\nok\nbad\n"),
    ],
    &[
        Connects(First),
        Says(First, b"down west 1\nstop\r\n"),
        HaveHeard("no such\nbad\n"),
    ],
    &[
        Connects(First),
        Says(First, b"s"),
        Says(First, b"t"),
        Says(First, b"o"),
        Says(First, b"p"),
        Says(First, b"\n"),
        Says(First, b"u"),
        Says(First, b"p"),
        HaveHeard("ok\n"),
    ],
    &[
        Connects(First),
        Says(First, LONG),
        Says(First, b"\nstop\n"),
        HaveHeard("bad\nok\n"),
    ],
    &[
        Connects(First),
        Says(First, b"stop "),
        Says(First, LONG),
        Says(First, LONG),
        Says(First, LONG),
        Says(First, b"stop\nstop\n"),
        HaveHeard("bad\nok\n"),
    ],
];

#[test]
fn peers_are_answered(rt: HostRuntime) -> Result<(), Fail> {
    come_to_pass(&rt, rt.alloc(), rt.process(), ANSWERED)
}

/// The lines of a peer are performed before the socket reads that it sends no more and disconnects it.
const ANSWERS_THE_LAST: Story = &[
    Action::Connects(First),
    Action::Sends(First, b"down west 2\nstop\nstop", 1),
    Action::IsDone(First),
    Action::Settles,
    Action::Hears(First, true),
    Action::HaveHeard("ok\nok\n"),
    Action::IsAsked(&[
        Request::Set {
            bridge: 1,
            port: 2,
            up: false,
        },
        Request::Stop,
    ]),
];

/// A second peer gets replies once the first has disconnected.
const WAITS_ITS_TURN: Story = &[
    Action::Connects(First),
    Action::Says(First, b"up"),
    Action::Connects(Second),
    Action::Says(Second, b"stop\n"),
    Action::HaveHeard(""),
    Action::Says(First, b" east 16\n"),
    Action::HaveHeard("ok\n"),
    Action::HangsUp(First),
    Action::Settles,
    Action::Hears(Second, false),
    Action::HaveHeard("ok\nok\n"),
];

/// A peer that disconnects before it has heard its replies is dropped, and the next may connect.
const OUTLIVES_A_PEER: Story = &[
    Action::Connects(First),
    Action::Sends(First, b"counts\n", 200),
    Action::Turns,
    Action::HangsUp(First),
    Action::Connects(Second),
    Action::Says(Second, b"stop\n"),
    Action::HaveHeard("ok\n"),
];

/// A peer that sends nothing for 60 seconds is disconnected once another waits, and not before.
const MAKES_WAY: Story = &[
    Action::Connects(First),
    Action::Says(First, b"st"),
    Action::Shows(1_000),
    Action::Connects(Second),
    Action::Says(Second, b"stop\n"),
    Action::Shows(1_060),
    Action::Settles,
    Action::Hears(First, false),
    Action::Says(First, b"op\n"),
    Action::HaveHeard("ok\n"),
    Action::Shows(1_061),
    Action::Shows(1_121),
    Action::Settles,
    Action::Hears(First, false),
    Action::Shows(1_122),
    Action::Settles,
    Action::Hears(First, true),
    Action::Hears(Second, false),
    Action::HaveHeard("ok\nok\n"),
];

/// A silent peer is served for as long as no other waits.
const STAYS_ALONE: Story = &[
    Action::Connects(First),
    Action::Settles,
    Action::Shows(0),
    Action::Shows(100_000),
    Action::Shows(200_000),
    Action::Says(First, b"stop\n"),
    Action::HaveHeard("ok\n"),
];

/// The reply with the stations of a bridge comes once the board has it, and the next line is performed after that.
const WAITS_FOR_STATIONS: Story = &[
    Action::Connects(First),
    Action::Holds(true),
    Action::Says(First, b"stations west\nstop\n"),
    Action::HaveHeard(""),
    Action::Settles,
    Action::Hears(First, false),
    Action::HaveHeard(""),
    Action::IsAsked(&[]),
    Action::HasQuestions(1),
    Action::Holds(false),
    Action::Settles,
    Action::Hears(First, false),
    Action::HaveHeard(ONE_BRIDGE),
    Action::IsAsked(&[Request::Stop]),
    Action::Says(First, b"stations east\n"),
    Action::HaveHeard(BOTH_BRIDGES),
    Action::HasQuestions(2),
];

/// A peer that disconnects while it waits for stations leaves nothing to the next.
const LEAVES_BEFORE_THE_STATIONS: Story = &[
    Action::Connects(First),
    Action::Holds(true),
    Action::Says(First, b"stations west\n"),
    Action::HangsUp(First),
    Action::Connects(Second),
    Action::Settles,
    Action::Holds(false),
    Action::Settles,
    Action::Says(Second, b"stop\n"),
    Action::HaveHeard("ok\n"),
    Action::HasQuestions(1),
];

#[test]
fn stations_are_waited_for(rt: HostRuntime) -> Result<(), Fail> {
    const STORIES: &[Story] = &[WAITS_FOR_STATIONS, LEAVES_BEFORE_THE_STATIONS];
    come_to_pass(&rt, rt.alloc(), rt.process(), STORIES)
}

#[test]
fn silent_peers_make_way(rt: HostRuntime) -> Result<(), Fail> {
    const STORIES: &[Story] = &[MAKES_WAY, STAYS_ALONE];
    come_to_pass(&rt, rt.alloc(), rt.process(), STORIES)
}

#[test]
fn one_peer_at_a_time_is_answered(rt: HostRuntime) -> Result<(), Fail> {
    const STORIES: &[Story] = &[ANSWERS_THE_LAST, WAITS_ITS_TURN, OUTLIVES_A_PEER];
    come_to_pass(&rt, rt.alloc(), rt.process(), STORIES)
}

#[test]
fn a_peer_that_takes_nothing_is_not_read(rt: HostRuntime) -> Result<(), Fail> {
    const STORIES: &[Story] = &[&[Action::Connects(First), Action::Floods(First, 100_000)]];
    come_to_pass(&rt, rt.alloc(), rt.process(), STORIES)
}
