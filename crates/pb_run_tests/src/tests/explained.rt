//! The guarantees of `run`, `run_kept` and `run_set`, clause by clause, as a caller may use them. The program calls
//! `run_tapped`.

ghost use Rattle.std.specs.Prelude.{◌≡◌, ◌↔◌, ◌∷◌, ◌++◌, ℕ, List, true, IfOk, IfErr, length, map, vec_len};
ghost use Rattle.pb_lan.specs.Laws.{AreTracedFromStart, NoPortIsSet};
ghost use Rattle.pb_lan.specs.Plans.{IsSound};
ghost use Rattle.pb_lan.specs.Records.{steps_of};
ghost use Rattle.pb_lan.specs.declared.plan.Spanning.TheVariants.{Fixed};
ghost use Rattle.pb_lan.specs.declared.step.Place.TheVariants.{Bridge};
ghost use Rattle.pb_run_tests.specs.Explained.{RunTells};
ghost use Rattle.pb_threads.specs.declared.gate.Wish.{Wish};
ghost use Rattle.pb_workers.specs.Lossless.{NoFullQueueRefuses};
ghost use Rattle.pb_workers.specs.Ports.{port_frames};
ghost use Rattle.pb_workers.specs.Settings.{settings};

use pb_lan::{Limits, Plan};
use pb_port::Port;
use pb_run::{Gate, Held, KeptRun, Ran, RunCause, RunFault, run, run_kept, run_set};
use std::alloc::Global;
use std::sync::Wait;
use std::thread::Threads;
use std::time::Clock;

/// Calls `run`, and takes each part of its guarantee.
pub(super) fn run_counted<G: Gate, R: Threads + Wait + Clock + Sync>(
    rt: &R,
    alloc: Global,
    plan: &Plan,
    ports: Vec<Held>,
    gate: &G,
    limits: Limits,
    is_lossless: bool,
) -> Result<Ran, RunFault>
    requires { IsSound plan.now }
    ensures tells { IfOk result (λ ran. RunTells plan.now (map (λ b. port_frames (Port-box b) b.value) ports.items)
        (map (λ b. port_frames (Port-box b) b.value) ran.ports.items) ran.counts ran.last.items ran.ended ran.settled) }
    ensures unset { IfOk result (λ ran. NoPortIsSet ran.counts) }
    ensures planned { IfOk result (λ ran. plan.now.spanning ≡ Fixed → AreTracedFromStart plan.now ran.counts) }
    ensures lossless { IfOk result (λ ran. is_lossless ≡ true → NoFullQueueRefuses ran.counts) }
    ensures count { IfOk result (λ ran. vec_len ports ≡ length plan.now.customers) }
    ensures cause { IfErr result (λ fault. (fault.cause ≡ RunCause.PortCount)
        ↔ (vec_len ports ≡ length plan.now.customers → ⊥)) }
    ensures unpolled { IfErr result (λ fault. fault.ports.items ≡ ports.items) }
{
    run(rt, alloc, plan, ports, gate, limits, is_lossless)
}

/// Calls `run_kept`, and takes the same of the record that comes back, which has what was counted.
pub(super) fn run_recorded<G: Gate, R: Threads + Wait + Clock + Sync>(
    rt: &R,
    alloc: Global,
    plan: &Plan,
    ports: Vec<Held>,
    gate: &G,
    limits: Limits,
    is_lossless: bool,
) -> Result<KeptRun, RunFault>
    requires { IsSound plan.now }
    ensures tells { IfOk result (λ kept. RunTells plan.now (map (λ b. port_frames (Port-box b) b.value) ports.items)
        (map (λ b. port_frames (Port-box b) b.value) kept.ran.ports.items) kept.rec kept.ran.last.items
        kept.ran.ended kept.ran.settled) }
    ensures unset { IfOk result (λ kept. NoPortIsSet kept.rec) }
    ensures planned { IfOk result (λ kept. plan.now.spanning ≡ Fixed → AreTracedFromStart plan.now kept.rec) }
    ensures lossless { IfOk result (λ kept. is_lossless ≡ true → NoFullQueueRefuses kept.rec) }
    ensures counts { IfOk result (λ kept. kept.ran.counts ≡ kept.rec) }
    ensures count { IfOk result (λ kept. vec_len ports ≡ length plan.now.customers) }
    ensures refused { IfErr result (λ fault. (fault.ports.items ≡ ports.items)
        × ((fault.cause ≡ RunCause.PortCount) ↔ (vec_len ports ≡ length plan.now.customers → ⊥))) }
{
    run_kept(rt, alloc, plan, ports, gate, limits, is_lossless)
}

/// Calls `run_set`, and takes of each setting of a bridge's port that it is a wish that the gate gave for the bridge,
/// after those of the settings before it.
pub(super) fn run_wished<G: Gate, R: Threads + Wait + Clock + Sync>(
    rt: &R,
    alloc: Global,
    plan: &Plan,
    ports: Vec<Held>,
    gate: &G,
    limits: Limits,
    is_lossless: bool,
) -> Result<Ran, RunFault>
    requires { IsSound plan.now }
    ensures wishes { IfOk result (λ ran. (bridge : ℕ) (before after : List Wish) (wish : Wish)
        → settings (steps_of ran.counts.bridges bridge) ≡ before ++ wish ∷ after
        → G.gives gate.now (Bridge bridge) before wish ≡ true) }
    ensures lossless { IfOk result (λ ran. is_lossless ≡ true → NoFullQueueRefuses ran.counts) }
{
    run_set(rt, alloc, plan, ports, gate, limits, is_lossless)
}
