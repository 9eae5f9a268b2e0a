//! The command `tree`.

use crate::downs::refuse_down;
use crate::formatted::{Output, head};
use crate::telling::tell_on;
use crate::{REFUSED, contents, ended};
use pb_cli::TreeOptions;
use pb_cmd_tree::{TreeEnd, run_tree};
use pb_export::TREE;
use std::fs::Files;
use std::io::Write;
use std::process::ExitCode;

/// Prints the spanning trees of the network of a plan file, in the form of the options. Returns the exit status.
pub(crate) fn tree<R: Files + Print + Eprint + AllocGlobal>(
    rt: &R,
    options: &TreeOptions,
) -> ExitCode {
    let mut out = Output::new(rt, options.format, head("tree", options.path.as_str()));
    match tree_on(rt, options, &mut out) {
        Ok(status) => out.end(&TREE, None, status),
        Err(status) => status,
    }
}

/// Writes the spanning trees of the network of a plan file. Returns the exit status.
///
/// # Errors
///
/// The exit status 2, after a message, if a name of `--down` is refused. Nothing was written then.
fn tree_on<R: Files + Eprint + AllocGlobal, W: Write>(
    rt: &R,
    options: &TreeOptions,
    out: &mut W,
) -> Result<ExitCode, ExitCode> {
    let path = options.path.as_str();
    let file = match contents(rt, path, out) {
        Ok(file) => file,
        Err(status) => return Ok(status),
    };
    let downs = options.downs.as_slice();
    match run_tree(rt.alloc(), file.as_slice(), downs, options.ticks, out) {
        Err(fault) => Ok(tell_on(out, fault)),
        Ok(TreeEnd::Told) => Ok(ExitCode::SUCCESS),
        Ok(TreeEnd::Refused) => Ok(ended(rt, path, file.as_slice(), REFUSED)),
        Ok(TreeEnd::NoDown(fault)) => Err(refuse_down(rt, file.as_slice(), downs, fault)),
    }
}
