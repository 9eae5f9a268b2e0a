//! The printed lines.

ghost use Rattle.std.specs.Fmt.{decimal};
ghost use Rattle.std.specs.Prelude.{◌≡◌, ◌++◌, string_bytes, codes, true, IfOk, OnOk};
ghost use Rattle.pb_frame.specs.Hex.{hex_text, IsHex};
ghost use Rattle.pb_frame.specs.Tags.{bare};
ghost use Rattle.pb_cmd_flat.specs.Quiet.{exits_by};
ghost use Rattle.pb_cmd_flat.specs.Texts.{answer_text, filtered_line, out_line, out_lines};
ghost use Rattle.pb_messages.specs.BadLines.{bad_line};

use itoa::Buffer;
use pb_frame::{Memory, has_priority_tag, has_upper_case};
use pb_lan::{Outcome, Reason};
use pb_messages::{put_bad, put_reason};
use std::alloc::Global;

/// Appends the lines for a frame that a port received.
///
/// A relayed frame has one line for each chosen port, with the frame as it leaves there, without its priority tag. A
/// filtered frame has one line with the reason. A frame that the bridge itself heard has no line. If the frame leaves
/// unchanged, `digits` are printed as they were read. `exits` are the ports to which it was relayed.
///
/// # Errors
///
/// `Memory` if an allocation failed.
pub(crate) fn put_answer(
    alloc: Global,
    out: &mut Vec<u8>,
    port: u8,
    wire: &[u8],
    digits: &[u8],
    exits: &[u8],
    outcome: &Outcome,
) -> Result<(), Memory>
    requires digits { IsHex digits.now wire.now }
    requires exits { exits.now ≡ exits_by outcome.now }
    ensures { OnOk result (out.new.items ≡ out.old.items
        ++ answer_text (record { port = port; wire = wire.now; outcome = outcome.now })) }
{
    match outcome {
        Outcome::Relayed { .. } if is_as_printed(wire, digits) => {
            put_out_lines(out, digits, exits)
        }
        Outcome::Relayed { .. } => {
            let hex = bare_hex(alloc, wire)?;
            put_out_lines(out, hex.as_bytes(), exits)
        }
        Outcome::Filtered(reason) => put_filtered(alloc, out, port, *reason),
        Outcome::Heard => Ok(()),
    }
}

/// Appends `line N: bad`. N is the number of the line, from 1.
pub(crate) fn append_bad(alloc: Global, out: &mut Vec<u8>, number: u64) -> Result<(), Memory>
    ensures { OnOk result (out.new.items ≡ out.old.items ++ bad_line number) }
{
    let mut line = String::new(alloc);
    put_bad(&mut line, number)?;
    out.extend_from_slice(line.as_bytes())?;
    Ok(())
}

/// Returns whether the digits that were read are those of the frame as it leaves.
fn is_as_printed(wire: &[u8], digits: &[u8]) -> bool
    requires { IsHex digits.now wire.now }
    ensures { result ≡ true → digits.now ≡ hex_text (bare wire.now) }
{
    !has_priority_tag(wire) && !has_upper_case(digits)
}

/// Returns a frame in hexadecimal, without its priority tag.
fn bare_hex(alloc: Global, wire: &[u8]) -> Result<String, Memory>
    ensures { IfOk result (λ hex. string_bytes hex ≡ hex_text (bare wire.now)) }
{
    if !has_priority_tag(wire) {
        return hex_of(alloc, wire);
    }
    let mut hex = hex_of(alloc, &wire[..12])?;
    hex.push_str(hex_of(alloc, &wire[16..])?.as_str())?;
    Ok(hex)
}

/// Returns two hexadecimal digits for each octet, in lower case.
fn hex_of(alloc: Global, octets: &[u8]) -> Result<String, Memory>
    ensures { IfOk result (λ hex. string_bytes hex ≡ hex_text octets.now) }
{
    Ok(hex::encode(alloc, octets)?)
}

/// Appends a line for each port at which a frame left.
fn put_out_lines(out: &mut Vec<u8>, hex: &[u8], ports: &[u8]) -> Result<(), Memory>
    ensures { OnOk result (out.new.items ≡ out.old.items ++ out_lines hex.now ports.now) }
{
    for port in ports {
        put_out(out, hex, *port)?;
    }
    Ok(())
}

/// Appends the beginning of the line of a frame that left at a port.
fn put_exit(out: &mut Vec<u8>, port: u8) -> Result<(), Memory>
    ensures { OnOk result (out.new.items ≡ out.old.items ++ codes "out " ++ decimal port ++ codes " ") }
{
    if port < 10 {
        out.extend_from_slice(&[b'o', b'u', b't', b' ', b'0' + port, b' '])?;
        return Ok(());
    }
    let mut number = Buffer::new();
    out.extend_from_slice(b"out ")?;
    out.extend_from_slice(number.format(port).as_bytes())?;
    out.push(b' ')?;
    Ok(())
}

/// Appends the line of a frame that left at a port.
fn put_out(out: &mut Vec<u8>, hex: &[u8], port: u8) -> Result<(), Memory>
    ensures { OnOk result (out.new.items ≡ out.old.items ++ out_line hex.now port) }
{
    put_exit(out, port)?;
    out.extend_from_slice(hex)?;
    out.push(b'\n')?;
    Ok(())
}

/// Appends the line of a frame that was filtered.
fn put_filtered(alloc: Global, out: &mut Vec<u8>, port: u8, reason: Reason) -> Result<(), Memory>
    ensures { OnOk result (out.new.items ≡ out.old.items ++ filtered_line port reason) }
{
    let mut line = String::new(alloc);
    write!(line, "filtered {port} ")?;
    put_reason(&mut line, reason)?;
    writeln!(line)?;
    out.extend_from_slice(line.as_bytes())?;
    Ok(())
}
