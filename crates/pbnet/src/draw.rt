//! The command `draw`.

use crate::downs::refuse_down;
use crate::formatted::{Output, head};
use crate::messages::complain;
use crate::telling::{FAULT, WRONG_ARGUMENTS, tell};
use crate::{REFUSED, contents, ended};
use pb_cli::{DrawOptions, PictureFormat, ReportFormat};
use pb_cmd_draw::{Asked, Convergence, DrawEnd, Format, run_draw};
use pb_messages::CommandFault;
use std::fs::Files;
use std::io::Write;
use std::os::unix::fs::MetadataExt;
use std::process::ExitCode;
use std::{fs, io};

/// Returns the form of the option `--format`.
fn format_of(format: PictureFormat) -> Format {
    match format {
        PictureFormat::Svg => Format::Svg,
        PictureFormat::Dot => Format::Dot,
    }
}

/// Draws the network of a plan file on standard output or into a file. Returns the exit status.
pub(crate) fn draw_network(
    rt: &(impl Files + Print + Eprint + AllocGlobal),
    options: &DrawOptions,
) -> ExitCode {
    let path = options.path.as_str();
    let mut out = Output::new(rt, ReportFormat::Text, head("draw", path));
    let file = match contents(rt, path, &mut out) {
        Ok(file) => file,
        Err(status) => return status,
    };
    let asked = Asked {
        service: match &options.service {
            Some(name) => Some(name.as_str()),
            None => None,
        },
        downs: options.downs.as_slice(),
        ticks: options.ticks,
        lists: options.lists,
        format: format_of(options.format),
    };
    let drawn = match &options.output {
        None => run_draw(rt.alloc(), file.as_slice(), &asked, &mut out),
        Some(output) => {
            let mut text = Vec::new(rt.alloc());
            let drawn = run_draw(rt.alloc(), file.as_slice(), &asked, &mut text);
            let text = text.as_slice();
            if let Err(status) = put(rt, path, output.as_str(), &drawn, text, &mut out) {
                return status;
            }
            drawn
        }
    };
    match drawn {
        Err(fault) => tell(rt, fault),
        Ok(DrawEnd::Drawn(convergence)) => drawn_at(rt, convergence),
        Ok(DrawEnd::Refused) => out.ended(ended(rt, path, file.as_slice(), REFUSED)),
        Ok(DrawEnd::NoDown(fault)) => refuse_down(rt, file.as_slice(), asked.downs, fault),
        Ok(DrawEnd::NoService) => no_service(rt, asked.service),
    }
}

/// Returns whether two paths name one file: the same device and inode.
fn is_one_file(rt: &impl Files, first: &str, second: &str) -> bool {
    match (fs::metadata(rt, first), fs::metadata(rt, second)) {
        (Ok(first), Ok(second)) => first.dev() == second.dev() && first.ino() == second.ino(),
        _ => false,
    }
}

/// Returns whether a path names one of the files at other paths.
fn is_one_of(rt: &impl Files, paths: &[&str], path: &str) -> bool {
    for one in paths {
        if is_one_file(rt, one, path) {
            return true;
        }
    }
    false
}

/// Writes a picture to a file, or the refusal that replaces it to the writer of reports.
///
/// # Errors
///
/// The exit status, after a message, if the file is the plan file, or cannot be opened or written.
fn put<W: Write>(
    rt: &(impl Files + Print + Eprint + AllocGlobal),
    plan: &str,
    output: &str,
    drawn: &Result<DrawEnd, CommandFault>,
    text: &[u8],
    out: &mut W,
) -> Result<(), ExitCode> {
    let written = match drawn {
        Ok(DrawEnd::Drawn(_)) => save(rt, &[plan], output, text)?,
        _ => out.write_all(text),
    };
    written.map_err(|_| tell(rt, CommandFault::Write))
}

/// Writes a picture or a page to a file that is none of these plan files. Returns the result of the write.
///
/// # Errors
///
/// The exit status, after a message: 2 if the file is a plan file, 3 if it cannot be opened.
pub(crate) fn save(
    rt: &(impl Files + Print + Eprint + AllocGlobal),
    plans: &[&str],
    output: &str,
    text: &[u8],
) -> Result<io::Result<()>, ExitCode> {
    if is_one_of(rt, plans, output) {
        complain(
            rt,
            format!(in rt.alloc();
                "error: invalid value '{output}' for '--output <PATH>': it is the plan file"
            ),
        );
        return Err(ExitCode::from(WRONG_ARGUMENTS));
    }
    match fs::create(rt, output) {
        Ok(mut file) => Ok(file.write_all(text)),
        Err(e) => {
            let _ = println!(rt; "fault: path");
            complain(
                rt,
                format!(in rt.alloc(); "error: cannot open {output}: {e}"),
            );
            Err(ExitCode::from(FAULT))
        }
    }
}

/// Warns if the bridges had not converged when the picture was drawn. Returns the exit status 0.
fn drawn_at(rt: &impl Eprint, convergence: Convergence) -> ExitCode {
    if let Convergence::NotConverged(ticks) = convergence {
        let _ = eprintln!(rt; "warning: bridges not converged after {ticks} ticks");
    }
    ExitCode::SUCCESS
}

/// Reports that the plan lacks the service of `--service`. Returns the exit status 2.
fn no_service(rt: &(impl Eprint + AllocGlobal), service: Option<&str>) -> ExitCode {
    if let Some(name) = service {
        complain(
            rt,
            format!(in rt.alloc();
                "error: invalid value '{name}' for '--service <NAME>': no such service"
            ),
        );
    }
    ExitCode::from(WRONG_ARGUMENTS)
}
