//! The members that each document begins with.

ghost use Rattle.std.specs.Prelude.{◌≡◌, ◌++◌, codes, string_bytes, IfOk, OnOk};
ghost use Rattle.pb_export.specs.Heads.{member_line, old_line, head_text};

use serde_json::Value;
use std::alloc::{AllocError, Global};

/// The members that a document begins with.
#[derive(Clone, Copy)]
pub struct Head<'a> {
    /// The name of the command.
    pub command: &'a str,
    /// The version of the program.
    pub version: &'a str,
    /// The path of the plan file.
    pub plan: &'a str,
    /// The path of the plan file before the change, if the command compares two.
    pub old_plan: Option<&'a str>,
}

/// Appends a member with a text, on a line of its own.
fn put_member(alloc: Global, out: &mut String, key: &str, text: &str) -> Result<(), AllocError>
    ensures { OnOk result (string_bytes out.new ≡ string_bytes out.old ++ member_line key.now text.now) }
{
    let quoted = Value::try_from_str(alloc, text)?.to_string(alloc)?;
    out.push_str("  \"")?;
    out.push_str(key)?;
    out.push_str("\": ")?;
    out.push_str(quoted.as_str())?;
    out.push_str(",\n")?;
    Ok(())
}

/// Appends the path of the plan file before the change, if there is one.
fn put_old(alloc: Global, out: &mut String, old_plan: Option<&str>) -> Result<(), AllocError>
    ensures { OnOk result (string_bytes out.new ≡ string_bytes out.old ++ old_line old_plan.entry) }
{
    match old_plan {
        None => Ok(()),
        Some(path) => put_member(alloc, out, "old_plan", path),
    }
}

/// Returns the text that a document begins with: its bracket and the members of its head, each on a line of its own.
pub(crate) fn head_of(alloc: Global, head: &Head<'_>) -> Result<String, AllocError>
    ensures { IfOk result (λ text. string_bytes text ≡ head_text head.now) }
{
    let mut out = String::from_str(alloc, "{\n")?;
    put_member(alloc, &mut out, "command", head.command)?;
    put_member(alloc, &mut out, "version", head.version)?;
    put_member(alloc, &mut out, "plan", head.plan)?;
    put_old(alloc, &mut out, head.old_plan)?;
    Ok(out)
}
