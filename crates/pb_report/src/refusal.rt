//! The line for a refused plan file.

ghost use Rattle.std.specs.Prelude.{◌≡◌, ◌≢◌, ◌⊎◌, ◌++◌, string_bytes, IfErr, OnOk};
ghost use Rattle.std.specs.Io.KnownBytes.{Appends, Keeps};
ghost use Rattle.pb_printable.specs.Printable.{printable};
ghost use Rattle.pb_report.specs.Refusals.{fault_words, refusal_line};

use pb_frame::Memory;
use pb_messages::{CommandFault, write_whole};
use pb_printable::put_printable;
use pb_service::PlanFault;
use std::alloc::Global;
use std::io::Write;

/// Appends a word and a key or name of the file, with the control characters of the key or name escaped.
fn put_named(out: &mut String, word: &str, name: &str) -> Result<(), Memory>
    ensures { OnOk result (string_bytes out.new ≡ string_bytes out.old ++ (word.now ++ printable name.now)) }
{
    out.push_str(word)?;
    put_printable(out, name)
}

/// Appends the printed text of a fault, with its key or name.
fn put_fault(out: &mut String, fault: &PlanFault) -> Result<(), Memory>
    ensures { OnOk result (string_bytes out.new ≡ string_bytes out.old ++ fault_words fault.now) }
{
    match fault {
        PlanFault::Utf8 => out.push_str("utf8")?,
        PlanFault::Toml => out.push_str("toml")?,
        PlanFault::Missing(key) => put_named(out, "missing ", key.as_str())?,
        PlanFault::Kind(key) => put_named(out, "kind ", key.as_str())?,
        PlanFault::Range(key) => put_named(out, "range ", key.as_str())?,
        PlanFault::Unknown(key) => put_named(out, "unknown ", key.as_str())?,
        PlanFault::Twice(name) => put_named(out, "twice ", name.as_str())?,
        PlanFault::NoSuch(name) => put_named(out, "no-such ", name.as_str())?,
        PlanFault::LinkEnd => out.push_str("link-end")?,
        PlanFault::TooMany => out.push_str("too-many")?,
        PlanFault::Memory => out.push_str("memory")?,
    }
    Ok(())
}

/// Appends the line for a refused plan file: `plan: N TEXT` with the number and the text of the rule that the file
/// breaks, and the key or name if there is one.
///
/// # Errors
///
/// `Memory` if an allocation failed.
pub fn put_refusal(out: &mut String, fault: &PlanFault) -> Result<(), Memory>
    ensures { OnOk result (string_bytes out.new ≡ string_bytes out.old ++ refusal_line fault.now) }
{
    let number = fault.number();
    write!(out, "plan: {number} ")?;
    put_fault(out, fault)?;
    writeln!(out)?;
    Ok(())
}

/// Writes the line for a refused plan file, in one call of `write_all`.
///
/// # Errors
///
/// `Write` if the write failed. It is not known then how much was written. `Memory` if an allocation failed, and then
/// nothing was written. There are no other errors.
pub fn write_refusal<W: Write>(
    alloc: Global,
    fault: &PlanFault,
    writer: &mut W,
) -> Result<(), CommandFault>
    ensures ok { OnOk result (Appends (W.contents writer.old) (W.contents writer.new) (refusal_line fault.now)) }
    ensures kinds { IfErr result (λ e. (e ≡ CommandFault.Write) ⊎ (e ≡ CommandFault.Memory)) }
    ensures none { IfErr result (λ e. e ≢ CommandFault.Write → Keeps (W.contents writer.old) (W.contents writer.new)) }
{
    let mut out = String::new(alloc);
    put_refusal(&mut out, fault)?;
    write_whole(writer, out.as_bytes())
}
