//! The taps of a network: captures of the frames that cross links.

ghost use Rattle.std.specs.Prelude.{◌≡◌, ◌++◌, List, OnOk};
ghost use Rattle.pb_service.specs.declared.port_spec.PortSpec.{PortSpec};

use crate::completing::CaptureFiles;
use crate::file_ports::scale_of;
use crate::peer::Peer;
use crate::run_files::{FilePair, RunFiles};
use mio::net::UdpSocket;
use pb_frame::Memory;
use pb_lan::Plan;
use pb_messages::write_whole;
use pb_port::{Port, Timescale};
use pb_run::{Recorder, Tap, TapDirection, TapPort};
use pb_run_ports::Opened;
use pb_service::{Pace, PortSpec, TapSpec};
use std::alloc::{AllocError, Global};
use std::io::Write;

/// The number of frames that wait to be written to the capture of a tap.
const QUEUE: u16 = 256;

/// The number of the port of a tap, which no customer port has.
const NUMBER: u8 = 0;

/// The link and the directions of a tap.
#[derive(Clone, Copy)]
pub(crate) struct TapPlace {
    /// The link, by its number in the plan from 1.
    pub link: u8,
    /// The directions that are recorded.
    pub direction: TapDirection,
}

/// Returns the directions of a tap of a plan file.
fn direction_of(direction: pb_service::TapDirection) -> TapDirection {
    match direction {
        pb_service::TapDirection::Ab => TapDirection::Ab,
        pb_service::TapDirection::Ba => TapDirection::Ba,
        pb_service::TapDirection::Both => TapDirection::Both,
    }
}

/// Appends the files of taps to the kinds of customer ports, as ports that only write, and their places to `places`.
///
/// # Errors
///
/// `AllocError` if an allocation failed.
#[tactic(auto, using(crate::proofs::TapLemmas::grown_none, crate::proofs::TapLemmas::grown_more))]
pub(crate) fn put_taps(
    specs: &mut Vec<PortSpec>,
    places: &mut Vec<TapPlace>,
    taps: Vec<TapSpec>,
) -> Result<(), AllocError>
    ensures { OnOk result ((more : List PortSpec) × (specs.new.items ≡ specs.old.items ++ more)) }
{
    for tap in taps {
        let TapSpec {
            link,
            direction,
            write,
            stamp,
        } = tap;
        let direction = direction_of(direction);
        places.push(TapPlace { link, direction })?;
        specs.push(PortSpec::Record { write, stamp })?;
    }
    Ok(())
}

/// Returns the name of the link of this number, from 1.
fn link_name(plan: &Plan, number: u8) -> &str {
    match plan
        .links
        .as_slice()
        .get(usize::from(number).wrapping_sub(1))
    {
        Some(link) => link.name.as_str(),
        None => "",
    }
}

/// Returns the names of the links of taps.
///
/// # Errors
///
/// `AllocError` if an allocation failed.
pub(crate) fn link_names<'a>(
    alloc: Global,
    plan: &'a Plan,
    taps: &[TapSpec],
) -> Result<Vec<&'a str>, AllocError> {
    let mut names = Vec::new(alloc);
    for tap in taps {
        names.push(link_name(plan, tap.link))?;
    }
    Ok(names)
}

/// Appends the tap over an open file. The file is appended to `files`.
///
/// # Errors
///
/// `AllocError` if an allocation failed.
fn put_tap<O: RunFiles>(
    alloc: Global,
    opener: &mut O,
    user: usize,
    place: TapPlace,
    day: Timescale,
    opened: Opened<O::Input, O::Output, Peer, UdpSocket>,
    files: &mut Vec<CaptureFiles>,
    taps: &mut Vec<TapPort<O::FilePort>>,
) -> Result<(), AllocError> {
    match opened {
        Opened::Record {
            output,
            write,
            stamp,
        } => {
            files.push(CaptureFiles {
                place: user,
                read: None,
                write: Some(write),
            })?;
            let (scale, pace) = (scale_of(stamp, day), Pace::AtOnce);
            let pair = FilePair {
                input: None,
                output: Some(output),
            };
            let port = opener.file_port(alloc, QUEUE, NUMBER, scale, pace, pair)?;
            let TapPlace { link, direction } = place;
            taps.push(TapPort {
                link,
                direction,
                port,
            })?;
            Ok(())
        }
        _other => Ok(()),
    }
}

/// Returns taps over their open files, which are appended to `files`. The first is the user of files at the place
/// `first`.
///
/// # Errors
///
/// `AllocError` if an allocation failed.
pub(crate) fn taps_of<O: RunFiles>(
    alloc: Global,
    opener: &mut O,
    first: usize,
    places: &[TapPlace],
    day: Timescale,
    opened: Vec<Opened<O::Input, O::Output, Peer, UdpSocket>>,
    files: &mut Vec<CaptureFiles>,
) -> Result<Vec<TapPort<O::FilePort>>, AllocError> {
    let mut taps = Vec::new(alloc);
    let mut index: usize = 0;
    for file in opened {
        if let Some(place) = places.get(index) {
            let user = first.saturating_add(index);
            put_tap(alloc, opener, user, *place, day, file, files, &mut taps)?;
        }
        index = index.saturating_add(1);
    }
    Ok(taps)
}

/// Appends a line about the frames that a tap did not write, if there are any.
fn put_unwritten<T: Port>(out: &mut String, link: &str, tap: &mut Tap<T>) -> Result<(), Memory> {
    if let Recorder::Tape(tape) = &mut tap.recorder {
        let count = tape.unwritten();
        if count > 0 {
            writeln!(out, "tap of link {link}: {count} frames not written")?;
        }
    }
    Ok(())
}

/// Appends a line for each tap that did not write frames.
fn put_all_unwritten<T: Port>(
    out: &mut String,
    plan: &Plan,
    lanes: &mut [Vec<Tap<T>>],
) -> Result<(), Memory> {
    let mut lane: usize = 0;
    for taps in lanes {
        let link = (lane / 2).min(254) as u8 + 1;
        for tap in taps {
            put_unwritten(out, link_name(plan, link), tap)?;
        }
        lane = lane.saturating_add(1);
    }
    Ok(())
}

/// Writes a line to `errors` for each tap that did not write frames: `tap of link NAME: N frames not written`. A failed
/// write or allocation is ignored.
pub(crate) fn show_unwritten<T: Port, E: Write>(
    alloc: Global,
    plan: &Plan,
    lanes: &mut [Vec<Tap<T>>],
    errors: &mut E,
) {
    let mut out = String::new(alloc);
    if put_all_unwritten(&mut out, plan, lanes).is_ok() && !out.is_empty() {
        let _ = write_whole(errors, out.as_bytes());
    }
}
