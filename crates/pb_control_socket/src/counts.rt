//! The reply to `counts`.

ghost use Rattle.std.specs.Prelude.{◌≡◌, ◌++◌, List, ℕ, string_bytes, OnOk};
ghost use Rattle.pb_control_socket.specs.Sizes.{IsFew};
ghost use Rattle.pb_control_socket.specs.Texts.{port_line, bridge_line, IsCountsText};

use crate::board::Board;
use crate::peers::Peers;
use crate::reply_lines::{ReplyLines, put_of_bridges, put_of_ports};
use pb_frame::Memory;
use pb_lan::Plan;
use std::alloc::Global;

/// Appends the line of a customer port.
///
/// # Errors
///
/// `Memory` if an allocation failed.
fn put_port(out: &mut String, name: &str, counts: (u64, u64)) -> Result<(), Memory>
    ensures { OnOk result (string_bytes out.new ≡ string_bytes out.old ++ port_line name.now counts) }
{
    let (entered, left) = counts;
    writeln!(out, "port {name} entered {entered} left {left}")?;
    Ok(())
}

/// Appends the line of a bridge.
///
/// # Errors
///
/// `Memory` if an allocation failed.
fn put_bridge(out: &mut String, name: &str, counts: (u64, u64)) -> Result<(), Memory>
    ensures { OnOk result (string_bytes out.new ≡ string_bytes out.old ++ bridge_line name.now counts) }
{
    let (refused, ticks) = counts;
    writeln!(out, "bridge {name} refused {refused} ticks {ticks}")?;
    Ok(())
}

/// The lines of customer ports.
#[derive(Drop)]
struct Ports<'a, B> {
    board: &'a B,
}

impl<B: Board> ReplyLines for Ports<'_, B> {
    ghost Fact = { ℕ × ℕ };

    ghost told = { λ those. B.told_port those.board.now };

    ghost lines = { λ _ name fact. port_line name fact };

    fn put(&self, out: &mut String, name: &str, number: u8) -> Result<(), Memory> {
        put_port(out, name, self.board.traffic(number))
    }
}

/// The lines of bridges.
#[derive(Drop)]
struct Bridges<'a, B> {
    board: &'a B,
}

impl<B: Board> ReplyLines for Bridges<'_, B> {
    ghost Fact = { ℕ × ℕ };

    ghost told = { λ those. B.told_bridge those.board.now };

    ghost lines = { λ _ name fact. bridge_line name fact };

    fn put(&self, out: &mut String, name: &str, number: u8) -> Result<(), Memory> {
        put_bridge(out, name, self.board.bridge(number))
    }
}

/// Appends the counts of all customer ports and of all bridges, and the peers of the customer ports.
///
/// # Errors
///
/// `Memory` if an allocation failed.
pub(crate) fn put_counts<B: Board>(
    alloc: Global,
    plan: &Plan,
    board: &B,
    out: &mut String,
) -> Result<(), Memory>
    requires { IsFew plan.now }
    ensures { OnOk result ((text : List ℕ) × (string_bytes out.new ≡ string_bytes out.old ++ text)
        × IsCountsText plan.now (B.told_port board.now) (B.told_bridge board.now) (B.told_peer board.now) text) }
{
    put_of_ports(alloc, plan, &Ports { board }, out)?;
    put_of_bridges(alloc, plan, &Bridges { board }, out)?;
    put_of_ports(alloc, plan, &Peers { board }, out)
}
