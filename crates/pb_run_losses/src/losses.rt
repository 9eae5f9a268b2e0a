//! The lines for copies, BPDUs and sources that bridges dropped.

ghost use Rattle.std.specs.Prelude.{◌≡◌, ◌++◌, ◌≤◌, flat_map, string_bytes, OnOk};
ghost use Rattle.std.specs.List.{range_with_len};
ghost use Rattle.pb_run_losses.specs.Losses.{place_words, count_line, port_lines, source_lines, bridge_lines};
ghost use Rattle.pb_run_losses.specs.Losses.{losses_text};
ghost use Rattle.pb_history.specs.Losses.{refused_by, dropped_by, counts_at};

use pb_frame::Memory;
use pb_history::{CauseCounts, Tallies, Tally};
use pb_lan::Plan;

/// Appends the name of a bridge, or of one of its ports.
pub(crate) fn put_place(out: &mut String, name: &str, port: Option<u8>) -> Result<(), Memory>
    ensures { OnOk result (string_bytes out.new ≡ string_bytes out.old ++ place_words name.now port) }
{
    match port {
        None => write!(out, "bridge {name}")?,
        Some(port) => write!(out, "bridge {name} port {port}")?,
    }
    Ok(())
}

/// Appends the line of a count. A count of 0 has no line.
fn put_count(
    out: &mut String,
    name: &str,
    port: Option<u8>,
    count: u128,
    words: &str,
) -> Result<(), Memory>
    ensures { OnOk result (string_bytes out.new ≡ string_bytes out.old
        ++ count_line (place_words name.now port) count words.now) }
{
    if count == 0 {
        return Ok(());
    }
    put_place(out, name, port)?;
    writeln!(out, ": {count} {words}")?;
    Ok(())
}

/// Appends the lines of a port: those of copies, then those of BPDUs.
fn put_port(
    out: &mut String,
    name: &str,
    port: u8,
    copies: CauseCounts,
    bpdus: CauseCounts,
) -> Result<(), Memory>
    ensures { OnOk result (string_bytes out.new ≡ string_bytes out.old ++ port_lines name.now port copies bpdus) }
{
    let at = Some(port);
    put_count(out, name, at, copies.full, "copies not queued: full")?;
    put_count(out, name, at, copies.memory, "copies not queued: memory")?;
    put_count(out, name, at, bpdus.full, "BPDUs not queued: full")?;
    put_count(out, name, at, bpdus.memory, "BPDUs not queued: memory")
}

/// Appends the lines of ports 1 to 16.
fn put_ports(out: &mut String, name: &str, tally: &Tally) -> Result<(), Memory>
    ensures { OnOk result (string_bytes out.new ≡ string_bytes out.old
        ++ flat_map (λ port. port_lines name.now port (counts_at port (flat_map refused_by tally.now))
        (counts_at port (flat_map dropped_by tally.now))) (range_with_len 1 16)) }
{
    for port in 1..17u8 {
        let copies = tally.copies_not_queued(port);
        put_port(out, name, port, copies, tally.bpdus_not_queued(port))?;
    }
    Ok(())
}

/// Appends the lines of sources that were not learnt.
fn put_sources(out: &mut String, name: &str, sources: CauseCounts) -> Result<(), Memory>
    ensures { OnOk result (string_bytes out.new ≡ string_bytes out.old ++ source_lines name.now sources) }
{
    put_count(out, name, None, sources.full, "sources not learnt: full")?;
    put_count(
        out,
        name,
        None,
        sources.memory,
        "sources not learnt: memory",
    )
}

/// Appends the lines of a bridge.
fn put_bridge(out: &mut String, name: &str, tally: &Tally) -> Result<(), Memory>
    ensures { OnOk result (string_bytes out.new ≡ string_bytes out.old ++ bridge_lines name.now tally.now) }
{
    put_ports(out, name, tally)?;
    put_sources(out, name, tally.sources_not_learnt())
}

/// Appends the counts of copies, BPDUs and sources that bridges dropped because a queue or a learning table was full or
/// an allocation failed.
///
/// Each bridge of the plan has lines of these forms, in the order of the plan. The counts are of the steps in the
/// bridge's list. A count of 0 has no line:
///
/// ```text
/// bridge B2 port 1: 2571 copies not queued: full
/// bridge B2 port 1: 3 copies not queued: memory
/// bridge B2 port 1: 4 BPDUs not queued: full
/// bridge B2 port 1: 1 BPDUs not queued: memory
/// bridge B2: 17 sources not learnt: full
/// bridge B2: 2 sources not learnt: memory
/// ```
///
/// The local ports come first, 1 to 16, each with its four lines in this order. The two lines of the bridge follow. A
/// copy of a relayed frame, or a BPDU of the bridge's own, is not queued at a port if the queue is full or an
/// allocation failed (IEEE 802.1Q clauses 8.6.6 and 8.6.7). A source is not learnt if the learning table holds its
/// limit of live entries or an allocation failed (IEEE 802.1Q clause 8.8). A bridge for which the record has no list
/// has no lines. Lists after that of the plan's last bridge have none either.
///
/// # Errors
///
/// `Memory` if an allocation failed. A part of the lines may follow the text then.
pub fn put_losses(out: &mut String, plan: &Plan, tallies: &Tallies) -> Result<(), Memory>
    ensures { OnOk result (string_bytes out.new ≡ string_bytes out.old ++ losses_text plan.now tallies.now) }
{
    for (bridge, tally) in plan.bridges.as_slice().iter().zip(tallies.bridges()) {
        put_bridge(out, bridge.name.as_str(), tally)?;
    }
    Ok(())
}
