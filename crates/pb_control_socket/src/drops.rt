//! The reply to `drops`.

ghost use Rattle.std.specs.Prelude.{◌≡◌, ◌++◌, List, ℕ, flat_map, string_bytes, OnOk};
ghost use Rattle.pb_control_socket.specs.Texts.{drop_line, drop_count, port_drops, drop_lines};

use crate::board::Board;
use crate::reply_lines::ReplyLines;
use crate::tree::PORTS;
use pb_frame::Memory;
use pb_messages::drop_word;

/// The number of counts of a port.
const KINDS: usize = 10;

/// The numbers of the counts of a port.
const NUMBERS: &[u8] = &[0, 1, 2, 3, 4, 5, 6, 7, 8, 9];

/// Appends the line of a count of dropped frames, if it is not 0.
///
/// # Errors
///
/// `Memory` if an allocation failed.
fn put_drop(out: &mut String, name: &str, port: u8, number: u8, count: u64) -> Result<(), Memory>
    ensures { OnOk result (string_bytes out.new ≡ string_bytes out.old ++ drop_line name.now port number count) }
{
    if count != 0 {
        let word = drop_word(number);
        writeln!(out, "bridge {name} port {port} {word} {count}")?;
    }
    Ok(())
}

/// Returns the count of this number of a local port, from 1. It is 0 if there is none.
fn count_at(counts: &[u64], port: u8, number: u8) -> u64
    ensures { result ≡ drop_count counts.now port number }
{
    let place = KINDS * usize::from(port).saturating_sub(1) + usize::from(number);
    match counts.get(place) {
        Some(count) => *count,
        None => 0,
    }
}

/// Appends the lines of these counts of a port.
///
/// # Errors
///
/// `Memory` if an allocation failed.
fn put_numbers(
    out: &mut String,
    name: &str,
    counts: &[u64],
    port: u8,
    numbers: &[u8],
) -> Result<(), Memory>
    ensures { OnOk result (string_bytes out.new ≡ string_bytes out.old
        ++ flat_map (λ number. drop_line name.now port number (drop_count counts.now port number)) numbers.now) }
{
    for number in numbers {
        put_drop(out, name, port, *number, count_at(counts, port, *number))?;
    }
    Ok(())
}

/// Appends the lines of these ports of a bridge.
///
/// # Errors
///
/// `Memory` if an allocation failed.
fn put_ports(out: &mut String, name: &str, counts: &[u64], ports: &[u8]) -> Result<(), Memory>
    ensures { OnOk result (string_bytes out.new ≡ string_bytes out.old
        ++ flat_map (port_drops name.now counts.now) ports.now) }
{
    for port in ports {
        put_numbers(out, name, counts, *port, NUMBERS)?;
    }
    Ok(())
}

/// Appends the lines of all ports of a bridge.
///
/// # Errors
///
/// `Memory` if an allocation failed.
fn put_bridge(out: &mut String, name: &str, counts: &[u64]) -> Result<(), Memory>
    ensures { OnOk result (string_bytes out.new ≡ string_bytes out.old ++ drop_lines name.now counts.now) }
{
    put_ports(out, name, counts, PORTS)
}

/// The lines of the frames that bridges dropped.
#[derive(Drop)]
pub(crate) struct Drops<'a, B> {
    /// The part of a run that is read.
    pub(crate) board: &'a B,
}

impl<B: Board> ReplyLines for Drops<'_, B> {
    ghost Fact = { List ℕ };

    ghost told = { λ those. B.told_drops those.board.now };

    ghost lines = { λ _ name fact. drop_lines name fact };

    fn put(&self, out: &mut String, name: &str, number: u8) -> Result<(), Memory> {
        put_bridge(out, name, &self.board.drops(number))
    }
}
