//! The runs of a plan: with steps that are counted or kept, with ports that are set, and with taps.

ghost use Rattle.std.specs.Prelude.{◌≡◌, true, IfOk, IfErr};
ghost use Rattle.pb_lan.specs.Laws.{AreTracedFromStart, NoPortIsSet};
ghost use Rattle.pb_lan.specs.Plans.{IsSound};
ghost use Rattle.pb_lan.specs.declared.plan.Spanning.TheVariants.{Fixed};
ghost use Rattle.pb_run.specs.Runs.{IsRun, HasNotRun};
ghost use Rattle.pb_run.specs.Settings.{AreWished};
ghost use Rattle.pb_run.specs.Taps.{AreTapped};
ghost use Rattle.pb_workers.specs.Lossless.{NoFullQueueRefuses};
ghost use Rattle.pb_workers.specs.Ports.{port_frames};

use crate::fault::RunFault;
use crate::outside::Held;
use crate::running::{KeptRun, Ran, TappedRun, WholeRun, run_places};
use crate::taps::TapPort;
use pb_lan::{Limits, Plan};
use pb_port::Port;
use pb_threads::Gate;
use pb_workers::Mode;
use std::alloc::Global;
use std::sync::Wait;
use std::thread::Threads;
use std::time::Clock;

/// Runs a sound plan: one worker for each bridge, lane and customer port, in threads of their own, with rings between
/// them. No worker takes a step before all are started. A bridge ticks by turns or by milliseconds, as the limits say.
/// No wish of the gate is fulfilled: see [`run_set`].
///
/// Steps are only counted: the memory of a run does not grow with them. Contracts see the record of what all places
/// did. It is lawful, and the laws hold of it, whatever the schedule was:
///
/// - Each departure has the octets of an arrival at a port of the same service, less a priority S-tag.
/// - A frame that was handled under a forest leaves each other port at most once, never its own port, and no port
///   outside its tree.
/// - A group frame that was neither refused nor lost, and has drained, leaves each other port of its service in its
///   tree once.
/// - No frame is multiplied.
/// - Frames of one port and one priority keep their order.
///
/// What polls of a port returned by the end is what they returned before the run, followed by what entered there. What
/// the port took is what it took before, followed by what left. The frames that it sent in the run, followed by those
/// that still wait in it, are those that waited before, followed by what left. A frame is given up only if the port was
/// shelved, a write of it failed, or the frame has more than 65,535 octets. For a port that keeps a script, the script
/// before the run is what entered, followed by the script that remains.
///
/// For a port whose devices report their octets, the frames in the octets that were unread are what entered, followed
/// by those in the octets that still are. The octets that it wrote are the encoding of the frames that it sent, up to a
/// beginning of the next. For two captures [`runs_carry_captures`](crate::runs_carry_captures) puts both together.
///
/// If the run is to be lossless, an item waits on its ring while a queue is full to which its bridge may copy it. No
/// bridge refuses a copy of a frame because a queue is full. Over a loop of links frames can wait for each other: then
/// the run does not end by itself.
///
/// No port is enabled or disabled. If the plan gives the states of the ports, none changes: each frame of a service for
/// which the start is a forest was handled under that forest.
///
/// The run has drained exactly if every port came to its end and no frame is on its way. `settled` reports whether the
/// bridges have converged after all their steps.
///
/// # Errors
///
/// `PortCount` exactly if the number of ports is not the number of customer ports of the plan, `Memory` if an
/// allocation for the workers failed, `Spawn` if a worker could not be started. The ports come back unchanged: none was
/// polled, and none was offered a frame.
pub fn run<G: Gate, R: Threads + Wait + Clock + Sync>(
    rt: &R,
    alloc: Global,
    plan: &Plan,
    ports: Vec<Held>,
    gate: &G,
    limits: Limits,
    is_lossless: bool,
) -> Result<Ran, RunFault>
    requires { IsSound plan.now }
    ensures run { IfOk result (λ ran. IsRun (λ b. port_frames (Port-box b) b.value)
        plan.now ports ran.ports ran.counts ran.last.items ran.ended ran.settled) }
    ensures unset { IfOk result (λ ran. NoPortIsSet ran.counts) }
    ensures planned { IfOk result (λ ran. plan.now.spanning ≡ Fixed → AreTracedFromStart plan.now ran.counts) }
    ensures lossless { IfOk result (λ ran. is_lossless ≡ true → NoFullQueueRefuses ran.counts) }
    ensures failed { IfErr result (λ fault. HasNotRun plan.now ports fault.ports fault.cause) }
{
    let mode = Mode {
        waits: is_lossless,
        ..Mode::COUNTED
    };
    let taps: Vec<TapPort> = Vec::new(alloc);
    let WholeRun { ran, .. } = run_places(rt, alloc, plan, ports, taps, gate, limits, mode)?;
    Ok(ran)
}

/// Runs a sound plan as [`run`] does. Meanwhile bridges enable and disable their ports to other bridges, as the gate
/// wishes. A wish for any other port does nothing. Each such setting is a step of its bridge like any other. The record
/// is lawful all the same, and all that follows from that holds.
///
/// Ports are set in no other way: each setting of a bridge's port is a wish that the gate returned for this bridge and
/// this port, in order. It was returned after the wishes of the settings before it.
///
/// If the plan gives the states of the ports, and none was set, each frame of a service for which the start is a forest
/// was handled under that forest.
///
/// # Errors
///
/// Those of [`run`].
pub fn run_set<G: Gate, R: Threads + Wait + Clock + Sync>(
    rt: &R,
    alloc: Global,
    plan: &Plan,
    ports: Vec<Held>,
    gate: &G,
    limits: Limits,
    is_lossless: bool,
) -> Result<Ran, RunFault>
    requires { IsSound plan.now }
    ensures run { IfOk result (λ ran. IsRun (λ b. port_frames (Port-box b) b.value)
        plan.now ports ran.ports ran.counts ran.last.items ran.ended ran.settled) }
    ensures wishes { IfOk result (λ ran. AreWished (G.gives gate.now) ran.counts) }
    ensures lossless { IfOk result (λ ran. is_lossless ≡ true → NoFullQueueRefuses ran.counts) }
    ensures failed { IfErr result (λ fault. HasNotRun plan.now ports fault.ports fault.cause) }
{
    let mode = Mode {
        waits: is_lossless,
        ..Mode::SET
    };
    let taps: Vec<TapPort> = Vec::new(alloc);
    let WholeRun { ran, .. } = run_places(rt, alloc, plan, ports, taps, gate, limits, mode)?;
    Ok(ran)
}

/// Runs a sound plan as [`run_set`] does. Meanwhile the taps record the frames that cross their links, S-tags and BPDUs
/// included. The ports, and those of taps, may be of any type that workers may own.
///
/// Each tap that comes back at a lane was given the frames that the lane put, in order, and no others of the lane. The
/// fields of its tape say which of them its port took. No clause says at which lanes the taps come back.
///
/// # Errors
///
/// Those of [`run`]. The ports of the taps are dropped then.
pub fn run_tapped<P: Port + Send, T: Port + Send, G: Gate, R: Threads + Wait + Clock + Sync>(
    rt: &R,
    alloc: Global,
    plan: &Plan,
    ports: Vec<P>,
    taps: Vec<TapPort<T>>,
    gate: &G,
    limits: Limits,
    is_lossless: bool,
) -> Result<TappedRun<P, T>, RunFault<P>>
    requires { IsSound plan.now }
    ensures run { IfOk result (λ r. IsRun (port_frames P.Port)
        plan.now ports r.ran.ports r.ran.counts r.ran.last.items r.ran.ended r.ran.settled) }
    ensures wishes { IfOk result (λ r. AreWished (G.gives gate.now) r.ran.counts) }
    ensures lossless { IfOk result (λ r. is_lossless ≡ true → NoFullQueueRefuses r.ran.counts) }
    ensures taps { IfOk result (λ r. AreTapped r.ran.counts.lanes r.taps.items) }
    ensures failed { IfErr result (λ fault. HasNotRun plan.now ports fault.ports fault.cause) }
{
    let mode = Mode {
        waits: is_lossless,
        ..Mode::SET
    };
    let WholeRun { ran, taps, .. } = run_places(rt, alloc, plan, ports, taps, gate, limits, mode)?;
    Ok(TappedRun { ran, taps })
}

/// Runs a sound plan as [`run`] does, with places that keep their steps, and returns their record too. The memory of
/// the run grows with each step.
///
/// # Errors
///
/// Those of [`run`].
pub fn run_kept<G: Gate, R: Threads + Wait + Clock + Sync>(
    rt: &R,
    alloc: Global,
    plan: &Plan,
    ports: Vec<Held>,
    gate: &G,
    limits: Limits,
    is_lossless: bool,
) -> Result<KeptRun, RunFault>
    requires { IsSound plan.now }
    ensures run { IfOk result (λ kept. IsRun (λ b. port_frames (Port-box b) b.value)
        plan.now ports kept.ran.ports kept.rec kept.ran.last.items kept.ran.ended kept.ran.settled) }
    ensures unset { IfOk result (λ kept. NoPortIsSet kept.rec) }
    ensures planned { IfOk result (λ kept. plan.now.spanning ≡ Fixed → AreTracedFromStart plan.now kept.rec) }
    ensures lossless { IfOk result (λ kept. is_lossless ≡ true → NoFullQueueRefuses kept.rec) }
    ensures counts { IfOk result (λ kept. kept.ran.counts ≡ kept.rec) }
    ensures failed { IfErr result (λ fault. HasNotRun plan.now ports fault.ports fault.cause) }
{
    let mode = Mode {
        waits: is_lossless,
        ..Mode::KEPT
    };
    let taps: Vec<TapPort> = Vec::new(alloc);
    let WholeRun { ran, rec, .. } = run_places(rt, alloc, plan, ports, taps, gate, limits, mode)?;
    Ok(KeptRun { ran, rec })
}
