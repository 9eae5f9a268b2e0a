//! Which document the command line asks for, read without an allocation.

use std::rt::Env;

/// The commands that print JSON documents.
const COMMANDS: [&str; 7] = ["check", "diff", "run", "step", "survive", "trace", "tree"];

/// The most octets of an argument that is compared.
const MOST_OCTETS: usize = 16;

/// The most arguments that are compared.
const MOST_ARGUMENTS: usize = 4_096;

/// Returns whether the argument at an index is this text.
fn is_argument(rt: &impl Env, index: usize, text: &str) -> bool {
    let mut octets = [0u8; MOST_OCTETS];
    match rt.arg(index, &mut octets) {
        Ok(length) => &octets[..length] == text.as_bytes(),
        Err(_) => false,
    }
}

/// Returns whether an argument asks for JSON.
fn asks_for_json(rt: &impl Env) -> bool {
    for index in 2..MOST_ARGUMENTS {
        let is_format = is_argument(rt, index, "--format") && is_argument(rt, index + 1, "json");
        if is_format || is_argument(rt, index, "--format=json") {
            return true;
        }
    }
    false
}

/// Returns the command whose JSON document the command line asks for, if it does.
pub(crate) fn json_command(rt: &impl Env) -> Option<&'static str> {
    if !asks_for_json(rt) {
        return None;
    }
    for command in COMMANDS {
        if is_argument(rt, 1, command) {
            return Some(command);
        }
    }
    None
}
