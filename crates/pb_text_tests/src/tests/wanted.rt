//! The commands that arguments ask for.

use pb_cli::{InitNetwork, PictureFormat, ReportFormat};

/// A run of a plan file with its options. Its report is a text.
#[derive(Clone, Copy)]
pub(super) struct Run {
    pub(super) path: &'static str,
    pub(super) seconds: Option<u32>,
    /// Whether progress is printed.
    pub(super) progress: bool,
    /// The path of the control socket.
    pub(super) control: Option<&'static str>,
    pub(super) strict: bool,
    /// Whether frames wait until the bridges have converged.
    pub(super) settles: bool,
    /// The time after the run in which ports write, in milliseconds.
    pub(super) linger: u32,
    /// Whether ports may bind addresses that are not loopback.
    pub(super) allows_network: bool,
}

/// A run of the file `a` without options.
pub(super) const RUN: Run = Run {
    path: "a",
    seconds: None,
    progress: false,
    control: None,
    strict: false,
    settles: false,
    linger: 100,
    allows_network: false,
};

/// The services of a survey.
#[derive(Clone, Copy)]
pub(super) enum Of {
    All,
    Service(&'static str),
    From(&'static str),
}

/// A survey of a plan file under failures. Its report is a text.
#[derive(Clone, Copy)]
pub(super) struct Look {
    pub(super) path: &'static str,
    /// Whether pairs of links fail too.
    pub(super) pairs: bool,
    /// Whether bridges fail too.
    pub(super) bridges: bool,
    /// Whether the ports of a failed bridge count too.
    pub(super) own: bool,
    pub(super) of: Of,
    /// The path of a file of acceptances.
    pub(super) accept: Option<&'static str>,
    /// Whether a stale acceptance changes the exit status.
    pub(super) strict: bool,
    /// Whether tables are printed in place of the report.
    pub(super) prints_accept: bool,
    /// Whether harmless failures are reported too.
    pub(super) all_failures: bool,
    pub(super) ticks: u32,
}

/// A comparison of two plan files. Its report is a text.
#[derive(Clone, Copy)]
pub(super) struct Change {
    pub(super) old: &'static str,
    pub(super) new: &'static str,
    /// Whether pairs of links fail too.
    pub(super) pairs: bool,
    /// Whether bridges fail too.
    pub(super) bridges: bool,
    /// The service that is compared, or `None` for all.
    pub(super) service: Option<&'static str>,
    /// Whether failures that change nothing are reported too.
    pub(super) all_failures: bool,
    pub(super) ticks: u32,
}

/// A picture of a plan file.
#[derive(Clone, Copy)]
pub(super) struct Picture {
    pub(super) path: &'static str,
    /// The service that is highlighted.
    pub(super) service: Option<&'static str>,
    /// The ports that are disabled.
    pub(super) downs: &'static [&'static str],
    /// Whether links show their lists of services.
    pub(super) lists: bool,
    pub(super) format: PictureFormat,
    /// The maximum number of ticks.
    pub(super) ticks: u32,
    /// The path of the picture, or `None` for standard output.
    pub(super) output: Option<&'static str>,
}

/// A page about the network of a plan file.
#[derive(Clone, Copy)]
pub(super) struct Page {
    pub(super) path: &'static str,
    pub(super) bridges: bool,
    pub(super) pairs: bool,
    /// The maximum number of ticks.
    pub(super) ticks: u32,
    /// The path of the plan before the change, if there is one.
    pub(super) old: Option<&'static str>,
    /// The path of the page, or `None` for standard output.
    pub(super) output: Option<&'static str>,
}

/// The command that arguments ask for. Each report is a text.
#[derive(Clone, Copy)]
pub(super) enum Wanted {
    Flat(u8),
    /// A plan file, and whether warnings have an exit status of their own.
    Check(&'static str, bool),
    /// `check --settle` or `check --converge`: a path, and the most ticks.
    Converged(&'static str, u32),
    /// `check --all` over this plan file.
    CheckAll(&'static str),
    Step(&'static str),
    /// `step --test`.
    Test(&'static str),
    Run(Run),
    /// A plan file, what is disabled, and the maximum number of ticks.
    Tree(&'static str, &'static [&'static str], u32),
    /// A plan file, the frames as pairs of a port and digits, what is disabled, and the maximum number of ticks if the
    /// bridges converge first.
    Trace(
        &'static str,
        &'static [(&'static str, &'static str)],
        &'static [&'static str],
        Option<u32>,
    ),
    /// `trace --format svg` over this plan file.
    TracePicture(&'static str),
    Survive(Look),
    /// `trace` with a frame that options describe: a path, a port and the frame.
    Described(&'static str, &'static str, Described),
    Diff(Change),
    Draw(Picture),
    Report(Page),
    Show,
    /// The network of a starter plan, and the number of services.
    Init(InitNetwork, u8),
    /// The path of the control socket, and the arguments of its commands.
    Control(&'static str, &'static [&'static str]),
    /// A report in this format.
    Form(ReportFormat),
    /// No command: the arguments are wrong, or ask for help.
    Nothing {
        wrong: bool,
    },
}

/// Wrong arguments.
pub(super) const WRONG: Wanted = Wanted::Nothing { wrong: true };

/// A request for help.
pub(super) const HELP: Wanted = Wanted::Nothing { wrong: false };

/// The arguments after the program's name, and the command that they ask for.
pub(super) type Row = (&'static [&'static str], Wanted);

/// The frame that options of `trace` describe.
#[derive(Clone, Copy)]
pub(super) struct Described {
    pub(super) to: Option<&'static str>,
    pub(super) from: Option<&'static str>,
    pub(super) ctag: Option<&'static str>,
    pub(super) pcp: Option<u8>,
    pub(super) bpdu: bool,
    pub(super) ethertype: Option<&'static str>,
    pub(super) length: Option<u32>,
}

/// A frame without options.
pub(super) const DESCRIBED: Described = Described {
    to: None,
    from: None,
    ctag: None,
    pcp: None,
    bpdu: false,
    ethertype: None,
    length: None,
};
