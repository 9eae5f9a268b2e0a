//! Texts about files and sockets that can't be used.

ghost use Rattle.std.specs.Prelude.{◌≡◌, ◌++◌, List, ℕ, map, string_bytes, OnOk};
ghost use Rattle.std.specs.Io.KnownBytes.{Appends};
ghost use Rattle.pb_cmd_run.specs.Telling.{name_at, user_at, word_of, path_line, sharing, TellsFault};

use crate::users::{Users, put_user};
use pb_frame::Memory;
use pb_lan::CustomerPlan;
use pb_messages::{CommandFault, write_whole};
use pb_printable::put_printable;
use pb_run_ports::{FileUser, OpenFault, Verb};
use std::alloc::Global;
use std::io::{Error, Write};

/// The text before the line of a fault.
const PREFIX: &str = "error: ";

/// The reason why an address is not bound at which other hosts reach the port.
const EXPOSED: &str = "not a loopback address: --allow-network allows it";

/// Returns the name of the customer port at a place of the plan, from 0, or the empty text if there is none.
#[tactic(auto, using(crate::proofs::TellingLemmas::named, crate::proofs::TellingLemmas::unnamed))]
pub(crate) fn name_at(customers: &[CustomerPlan], place: usize) -> &str
    ensures { result.now ≡ name_at customers.now place }
{
    if place < customers.len() {
        customers[place].name.as_str()
    } else {
        ""
    }
}

/// Returns the word for the use that a port makes of a path or an address.
fn word_of(verb: Verb) -> &'static str
    ensures { result.now ≡ word_of verb }
{
    match verb {
        Verb::Read => "read",
        Verb::Write => "write",
        Verb::Connect => "connect",
        Verb::Listen => "listen",
        Verb::Bind => "bind",
    }
}

/// Appends a line about a path, with the control characters of the path escaped.
fn put_line(
    out: &mut String,
    users: Users<'_>,
    place: usize,
    word: &str,
    path: &str,
    why: &str,
) -> Result<(), Memory>
    ensures { OnOk result (string_bytes out.new ≡ string_bytes out.old
        ++ path_line (user_at users.entry.customers.now (map (λ n. n.now) users.entry.taps.now) place)
        word.now path.now why.now) }
{
    put_user(out, users, place)?;
    write!(out, ": {word} ")?;
    put_printable(out, path)?;
    writeln!(out, ": {why}")?;
    Ok(())
}

/// Writes a line about a path by one call of `write_all`.
///
/// # Errors
///
/// `Write` if the write failed, `Memory` if an allocation failed.
fn write_line<W: Write>(
    alloc: Global,
    users: Users<'_>,
    place: usize,
    word: &str,
    path: &str,
    why: &str,
    writer: &mut W,
) -> Result<(), CommandFault>
    ensures { OnOk result (Appends (W.contents writer.old) (W.contents writer.new)
        (path_line (user_at users.entry.customers.now (map (λ n. n.now) users.entry.taps.now) place)
        word.now path.now why.now)) }
{
    let mut out = String::new(alloc);
    put_line(&mut out, users, place, word, path, why)?;
    write_whole(writer, out.as_bytes())
}

/// Writes `USER: VERB PATH: WHY` for a path that a user could not use. WHY is the error of the system.
///
/// # Errors
///
/// `Write` if the write failed, `Memory` if an allocation failed.
pub(crate) fn write_path_fault<W: Write>(
    alloc: Global,
    users: Users<'_>,
    place: usize,
    verb: Verb,
    path: &str,
    error: &Error,
    writer: &mut W,
) -> Result<(), CommandFault>
    ensures { OnOk result ((why : List ℕ) × Appends (W.contents writer.old) (W.contents writer.new)
        (path_line (user_at users.entry.customers.now (map (λ n. n.now) users.entry.taps.now) place)
        (word_of verb) path.now why)) }
{
    let why = format!(in alloc; "{error}")?;
    let word = word_of(verb);
    write_line(alloc, users, place, word, path, why.as_str(), writer)
}

/// Appends the text about the other user of a file.
fn put_sharing(out: &mut String, users: Users<'_>, other: FileUser) -> Result<(), Memory>
    ensures { OnOk result (string_bytes out.new ≡ string_bytes out.old
        ++ sharing users.entry.customers.now (map (λ n. n.now) users.entry.taps.now) other) }
{
    match other {
        FileUser::Plan => {
            out.push_str("also the plan file")?;
            Ok(())
        }
        FileUser::Report => {
            out.push_str("also standard output, to which the report goes")?;
            Ok(())
        }
        FileUser::Reader(place) => {
            out.push_str("also read by ")?;
            put_user(out, users, place)?;
            Ok(())
        }
        FileUser::Writer(place) => {
            out.push_str("also written by ")?;
            put_user(out, users, place)?;
            Ok(())
        }
    }
}

/// Writes `USER: VERB PATH: WHY` for the fault in opening the ports and taps of a plan. Writes nothing for `Memory`.
///
/// # Errors
///
/// `Write` if the write failed, `Memory` if an allocation failed.
pub(crate) fn write_open_fault<W: Write>(
    alloc: Global,
    users: Users<'_>,
    fault: &OpenFault,
    writer: &mut W,
) -> Result<(), CommandFault>
    ensures { OnOk result (TellsFault users.entry.customers.now (map (λ n. n.now) users.entry.taps.now) fault.now
        (W.contents writer.old) (W.contents writer.new)) }
{
    match fault {
        OpenFault::Unopened(f) | OpenFault::Unemptied(f) => {
            let path = f.path.as_str();
            write_path_fault(alloc, users, f.place, f.verb, path, &f.error, writer)
        }
        OpenFault::Shared(f) => {
            let mut why = String::new(alloc);
            put_sharing(&mut why, users, f.other)?;
            let (word, path) = (word_of(Verb::Write), f.path.as_str());
            write_line(alloc, users, f.place, word, path, why.as_str(), writer)
        }
        OpenFault::Exposed(port) => {
            let local = format!(in alloc; "{}", port.local)?;
            let (word, why) = (word_of(Verb::Bind), EXPOSED);
            write_line(alloc, users, port.place, word, local.as_str(), why, writer)
        }
        OpenFault::Memory => Ok(()),
    }
}

/// Writes `error: ` and the line of [`write_path_fault`]. Nothing reports a failed write.
pub(crate) fn show_path_fault<W: Write>(
    alloc: Global,
    users: Users<'_>,
    place: usize,
    verb: Verb,
    path: &str,
    error: &Error,
    writer: &mut W,
) {
    if write_whole(writer, PREFIX.as_bytes()).is_ok() {
        let _ = write_path_fault(alloc, users, place, verb, path, error, writer);
    }
}

/// Writes `error: ` and the line of [`write_open_fault`], and nothing if an allocation failed. Nothing reports a failed
/// write.
pub(crate) fn show_open_fault<W: Write>(
    alloc: Global,
    users: Users<'_>,
    fault: &OpenFault,
    writer: &mut W,
) {
    match fault {
        OpenFault::Memory => {}
        _ => {
            if write_whole(writer, PREFIX.as_bytes()).is_ok() {
                let _ = write_open_fault(alloc, users, fault, writer);
            }
        }
    }
}
