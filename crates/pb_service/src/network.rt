//! The table of the network.

ghost use Rattle.std.specs.Prelude.{◌≡◌, ◌⊎◌, false, codes, IfOk, IfErr, OnOk};
ghost use Rattle.toml.specs.Data.{get_member};
ghost use Rattle.toml.specs.View.{table_view};
ghost use Rattle.pb_service.specs.Clocks.{has_two_clocks, holds_forever, is_vainly_prompt, RefusesClocks};
ghost use Rattle.pb_service.specs.Clocks.{RefusesPrompt};
ghost use Rattle.pb_service.specs.Told.{table_told};
ghost use Rattle.pb_service.specs.Tables.{limits_told, IsNetworkOf};
ghost use Rattle.pb_service.specs.Refusals.{Refuses, RefusesNetwork};
ghost use Rattle.pb_service.specs.PlanFiles.{HasNetworkTable};
ghost use Rattle.pb_service.specs.declared.fault.PlanFault.TheVariants.{Kind as kind_fault, Memory as memory_fault};

use crate::fault::PlanFault;
use crate::formats::network_keys;
use crate::key_fault::KeyFault;
use crate::row::{check_keys, told};
use crate::section::KeyTable;
use crate::told::{flag_at, flag_in, number_at, queues_of, spanning_of, text_at, value_at};
use pb_frame::Text;
use pb_lan::{DEFAULT_AGEING, Limits, Queues, Spanning};
use std::alloc::Global;
use toml::Table;

/// The contents of the table of the network.
#[derive(Clone, Copy)]
pub(crate) struct Network {
    pub spanning: Spanning,
    pub prompt: bool,
    pub queues: Queues,
    /// Whether a run loses no frame because a queue is full, if the table says so.
    pub lossless: Option<bool>,
    pub ageing: u32,
    pub ring: u16,
    pub steps: u64,
    pub limits: Limits,
}

/// Returns the limits of a run that a table gives.
fn limits_of(row: &Table) -> Limits
    ensures { result ≡ limits_told (table_view row.now) }
{
    Limits {
        turns: number_at(row, "turns", u64::MAX, u64::MAX),
        tick_every: number_at(row, "tick_every", 0, 1_000_000),
        tick_ms: number_at(row, "tick_ms", 0, 60_000),
        hold: number_at(row, "hold", 0, 1_000_000),
    }
}

/// Returns whether bridges would tick both by turns and by time.
fn has_two_clocks(limits: Limits) -> bool
    ensures { result ≡ has_two_clocks limits }
{
    limits.tick_every > 0 && limits.tick_ms > 0
}

/// Returns whether frames are held until a clock has ticked although no clock ticks.
fn holds_forever(limits: Limits) -> bool
    ensures { result ≡ holds_forever limits }
{
    limits.hold > 0 && (limits.tick_every == 0 && limits.tick_ms == 0)
}

/// Checks that the limits of a run agree with each other.
///
/// # Errors
///
/// `Range` for `tick_ms` if there are two clocks, and for `hold` if frames are held and there is none. `Memory` if an
/// allocation failed.
fn check_clocks(alloc: Global, limits: Limits) -> Result<(), PlanFault>
    ensures one { OnOk result (has_two_clocks limits ≡ false) }
    ensures some { OnOk result (holds_forever limits ≡ false) }
    ensures err { IfErr result (RefusesClocks limits) }
{
    if has_two_clocks(limits) {
        return Err(told(alloc, KeyTable::Network, "tick_ms", KeyFault::Range));
    }
    if holds_forever(limits) {
        return Err(told(alloc, KeyTable::Network, "hold", KeyFault::Range));
    }
    Ok(())
}

/// Returns whether ports would be prompt although the plan gives their states.
fn is_vainly_prompt(spanning: Spanning, prompt: bool) -> bool
    ensures { result ≡ is_vainly_prompt spanning prompt }
{
    match spanning {
        Spanning::Fixed => prompt,
        Spanning::Rstp => false,
    }
}

/// Checks that ports are prompt only under the Rapid Spanning Tree Protocol.
fn check_prompt(alloc: Global, spanning: Spanning, prompt: bool) -> Result<(), PlanFault>
    ensures ok { OnOk result (is_vainly_prompt spanning prompt ≡ false) }
    ensures err { IfErr result (RefusesPrompt spanning prompt) }
{
    if is_vainly_prompt(spanning, prompt) {
        return Err(told(alloc, KeyTable::Network, "prompt", KeyFault::Range));
    }
    Ok(())
}

/// Returns the network that a table describes, after a check of its keys and limits.
fn network_of(alloc: Global, row: &Table) -> Result<Network, PlanFault>
    ensures ok { IfOk result (IsNetworkOf (table_view row.now)) }
    ensures err { IfErr result (RefusesNetwork (table_view row.now)) }
{
    check_keys(alloc, KeyTable::Network, network_keys(), row)?;
    let limits = limits_of(row);
    check_clocks(alloc, limits)?;
    let spanning = spanning_of(text_at(row, "spanning"));
    let prompt = flag_at(row, "prompt");
    check_prompt(alloc, spanning, prompt)?;
    Ok(Network {
        spanning,
        prompt,
        queues: queues_of(text_at(row, "queues")),
        lossless: flag_in(row, "lossless"),
        ageing: number_at(row, "ageing", DEFAULT_AGEING as u64, 1_000_000) as u32,
        ring: number_at(row, "ring", 64, 4096) as u16,
        steps: number_at(row, "steps", u64::MAX, u64::MAX),
        limits,
    })
}

/// Returns the fault of a network that isn't a table.
fn no_network(alloc: Global) -> PlanFault
    ensures { (result ≡ memory_fault) ⊎ (result ≡ kind_fault (codes "network")) }
{
    match String::from_str(alloc, "network") {
        Ok(key) => PlanFault::Kind(Text::from_string(key)),
        Err(_) => PlanFault::Memory,
    }
}

/// Reads the network of a document. Without a table `network` each of its keys has its default.
///
/// # Errors
///
/// `Kind` if the value of `network` isn't a table, else the first rule that the table breaks. `Memory` if an allocation
/// failed.
pub(crate) fn read_network(alloc: Global, document: &Table) -> Result<Network, PlanFault>
    ensures ok { IfOk result (IsNetworkOf (table_told (get_member (codes "network") (table_view document.now)))) }
    ensures table { OnOk result (HasNetworkTable (table_view document.now)) }
    ensures err { IfErr result (Refuses (table_view document.now)) }
{
    match value_at(document, "network") {
        None => network_of(alloc, &Table::new(alloc)),
        Some(value) => match value.as_table() {
            Some(row) => network_of(alloc, row),
            None => Err(no_network(alloc)),
        },
    }
}
