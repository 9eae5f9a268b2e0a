//! Inputs in the format pcapng.

use crate::completing::CaptureFiles;
use crate::input::input_path;
use crate::run_files::RunFiles;
use crate::telling::name_at;
use pb_frame::Memory;
use pb_lan::CustomerPlan;
use pb_messages::write_whole;
use pb_port::PortFault;
use pb_printable::put_printable;
use pb_run::Last;
use std::alloc::Global;
use std::fs::Files;
use std::io::{Read, Write};
use std::{fs, io};

/// The first octets of each pcapng file.
const MAGIC: [u8; 4] = [0x0a, 0x0d, 0x0d, 0x0a];

/// Returns the first four octets of a file.
///
/// # Errors
///
/// The error of the system, also if the file is shorter.
fn first_octets(rt: &impl Files, path: &str) -> io::Result<[u8; 4]> {
    let mut file = fs::open(rt, path)?;
    let mut octets = [0u8; 4];
    file.read_exact(&mut octets)?;
    Ok(octets)
}

/// Returns whether the regular file at a path begins as pcapng does. Pipes and devices are not read again.
pub(crate) fn is_pcapng(rt: &impl Files, path: &str) -> bool {
    let path = input_path(path);
    match fs::metadata(rt, path) {
        Ok(metadata) if metadata.is_file() => match first_octets(rt, path) {
            Ok(octets) => octets == MAGIC,
            Err(_) => false,
        },
        _ => false,
    }
}

/// Appends the lines about an input that is pcapng, with the control characters of its path escaped.
fn put_pcapng(out: &mut String, name: &str, path: &str) -> Result<(), Memory> {
    write!(out, "error: port {name}: cannot read ")?;
    put_printable(out, path)?;
    out.push_str(": it is a pcapng file\nhint: convert it to pcap by `editcap -F pcap`\n")?;
    Ok(())
}

/// Writes a line to `errors` for each port whose input was refused because it is pcapng.
pub(crate) fn show_pcapng<O: RunFiles, E: Write>(
    alloc: Global,
    opener: &O,
    customers: &[CustomerPlan],
    files: &[CaptureFiles],
    lasts: &[Last],
    errors: &mut E,
) {
    for capture in files {
        let Some(path) = &capture.read else {
            continue;
        };
        let path = path.as_str();
        let is_refused = matches!(
            lasts.get(capture.place),
            Some(Last::Fault(PortFault::Magic))
        );
        if !is_refused || !opener.is_pcapng(path) {
            continue;
        }
        let name = name_at(customers, capture.place);
        let mut lines = String::new(alloc);
        if put_pcapng(&mut lines, name, path).is_ok() {
            let _ = write_whole(errors, lines.as_bytes());
        }
    }
}
