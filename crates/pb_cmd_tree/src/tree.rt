//! The command.

ghost use Rattle.std.specs.Prelude.{◌≡◌, ◌≢◌, ◌++◌, List, ℕ, string_bytes, OnOk, IfOk, IfErr};
ghost use Rattle.std.specs.Io.KnownBytes.{Appends, Keeps};
ghost use Rattle.pb_converge.specs.Drives.{IsCaused, ReachesLimit};
ghost use Rattle.pb_converge.specs.Enough.{HasEnoughMemory};
ghost use Rattle.pb_converge.specs.Falls.{down_count, fresh};
ghost use Rattle.pb_lan.specs.LastShapes.{last_shape};
ghost use Rattle.pb_lan.specs.Plans.{IsSound};
ghost use Rattle.pb_report.specs.ForestTexts.{IsForestText};
ghost use Rattle.pb_cmd_tree.specs.TreeTexts.{IsGivenText};
ghost use Rattle.pb_cmd_tree.specs.Trees.{ReturnsTrees, HasPrinted, HasTold, AreTreesFrom, RunsIntoLimit};

use crate::end::TreeEnd;
use crate::given::put_given;
use crate::protocol::put_protocol;
use crate::services::put_services;
use pb_converge::{
    Convergence, DownFault, DriveFault, converge, disables, fault_of, fresh, put_convergence,
    shape_of,
};
use pb_frame::Memory;
use pb_lan::{Plan, Spanning};
use pb_messages::{CommandFault, write_whole};
use pb_net::{Net, Tallies};
use pb_report::{put_forest, write_refusal};
use pb_service::read_plan;
use std::alloc::Global;
use std::io::Write;

/// The most events besides ticks until convergence.
const MOST_EVENTS: u64 = 1_000_000_000;

/// Appends whether the states after the counted steps are a forest for each service.
fn put_last_forest(
    alloc: Global,
    out: &mut String,
    plan: &Plan,
    tallies: &Tallies,
) -> Result<(), Memory>
    requires { IsSound plan.now }
    ensures enough { OnOk result (HasEnoughMemory tallies.now) }
    ensures text { OnOk result ((text : List ℕ) × (string_bytes out.new ≡ string_bytes out.old ++ text)
        × IsForestText plan.now (last_shape plan.now tallies.now) text) }
{
    let shape = shape_of(alloc, plan, tallies)?;
    put_forest(alloc, out, plan, &shape)
}

/// Appends the trees of a plan that gives the states of the ports.
fn put_planned(
    alloc: Global,
    out: &mut String,
    plan: &Plan,
    tallies: &Tallies,
) -> Result<(), Memory>
    requires { IsSound plan.now }
    ensures enough { OnOk result (HasEnoughMemory tallies.now) }
    ensures text { OnOk result ((text : List ℕ) × (string_bytes out.new ≡ string_bytes out.old ++ text)
        × IsGivenText plan.now (last_shape plan.now tallies.now) text) }
{
    let shape = shape_of(alloc, plan, tallies)?;
    put_given(out, plan, &shape)?;
    put_forest(alloc, out, plan, &shape)?;
    put_services(alloc, out, plan, &shape)
}

/// Drives a network to convergence, and appends its trees.
fn put_converged(
    alloc: Global,
    out: &mut String,
    plan: &Plan,
    mut net: Net,
    ticks: u32,
) -> Result<(), DriveFault>
    requires sound { IsSound plan.now }
    requires plan { net.plan ≡ plan.now }
    ensures ok { OnOk result ((text : List ℕ) × (string_bytes out.new ≡ string_bytes out.old ++ text)
        × AreTreesFrom plan.now ticks net text) }
    ensures err { IfErr result (λ fault. IsCaused ticks 0 0 1000000000 fault net) }
{
    let convergence = converge(alloc, &mut net, plan, ticks, MOST_EVENTS)?;
    match plan.spanning {
        Spanning::Fixed => {
            let tallies = net.tallies()?;
            Ok(put_planned(alloc, out, plan, &tallies)?)
        }
        Spanning::Rstp => {
            put_convergence(out, convergence)?;
            put_protocol(out, plan, &net)?;
            let tallies = net.tallies()?;
            Ok(put_last_forest(alloc, out, plan, &tallies)?)
        }
    }
}

/// Disables what `downs` names, and appends the trees. Returns why a name is refused; the text is unchanged then.
fn put_trees_with_downs(
    alloc: Global,
    out: &mut String,
    plan: &Plan,
    downs: &[String],
    ticks: u32,
) -> Result<Option<DownFault>, DriveFault>
    requires { IsSound plan.now }
    ensures ok { IfOk result (λ lacking. (text : List ℕ) × (string_bytes out.new ≡ string_bytes out.old ++ text)
        × ReturnsTrees plan.now downs.now ticks lacking text) }
    ensures err { IfErr result (λ fault.
        IsCaused ticks 0 (down_count plan.now downs.now) 1000000000 fault (fresh plan.now)) }
{
    let mut net = fresh(alloc, plan)?;
    match disables(alloc, &mut net, plan, downs)? {
        Some(fault) => Ok(Some(fault)),
        None => {
            put_converged(alloc, out, plan, net, ticks)?;
            Ok(None)
        }
    }
}

/// Prints the trees of a plan, after it disables what `downs` names. Returns why a name is refused; nothing is printed
/// then.
fn print_trees<W: Write>(
    alloc: Global,
    plan: &Plan,
    downs: &[String],
    ticks: u32,
    writer: &mut W,
) -> Result<Option<DownFault>, CommandFault>
    requires { IsSound plan.now }
    ensures ok { IfOk result (λ lacking.
        HasPrinted plan.now downs.now ticks lacking (W.contents writer.old) (W.contents writer.new)) }
    ensures kinds { IfErr result (λ e. e ≢ CommandFault.Read) }
    ensures steps { IfErr result (λ e. e ≡ CommandFault.Steps
        → ReachesLimit ticks 0 (down_count plan.now downs.now) 1000000000 (fresh plan.now)) }
    ensures none { IfErr result (λ e. e ≢ CommandFault.Write → Keeps (W.contents writer.old) (W.contents writer.new)) }
{
    let mut out = String::new(alloc);
    match put_trees_with_downs(alloc, &mut out, plan, downs, ticks) {
        Ok(None) => {
            write_whole(writer, out.as_bytes())?;
            Ok(None)
        }
        Ok(Some(fault)) => Ok(Some(fault)),
        Err(fault) => Err(fault_of(fault)),
    }
}

/// Reads a plan file, disables links, bridges and ports, drives the bridges to convergence, and prints the trees.
///
/// Each of `downs` names a link, a bridge, or a port to another bridge as `BRIDGE:PORT`, as [`disables`] describes.
/// Each bridge takes at most `ticks` ticks (seconds). What is printed is the end of a lawful record of that network, as
/// [`Net::tallies`] counts it, in which no allocation failed.
///
/// If the bridges run the rapid spanning tree (IEEE 802.1D-2004 clause 17), the lines are
///
/// - `converged ticks N` or `not converged ticks N`;
/// - for each bridge `bridge NAME root NAME cost N`, followed by ` port N` if it has a Root port, and then for each of
///   its ports to another bridge `port BRIDGE N link NAME ROLE STATE cost N from BRIDGE`: the port's path cost, and the
///   Designated bridge of its link;
/// - for the states at the end `forest yes`, or `forest no` and a line `loop NAME` for each service whose active links
///   form a loop.
///
/// If the plan gives the states, the first line is left out, a bridge's line is `bridge NAME`, and a port's is `port
/// BRIDGE N link NAME STATE`. After the forest come lines `service NAME bridge NAME up LINK depth N`, one for each
/// service without a loop and each bridge below a root of its tree.
///
/// If the file is not a valid plan, the line `plan: N WORD` is printed, as `check` prints it, and `Refused` is
/// returned. This includes `plan: 11 memory`, if an allocation failed while the file was read. `NoDown` is returned if
/// a name of `downs` is unknown or ambiguous, and nothing is printed then.
///
/// # Errors
///
/// `Memory` if an allocation failed, also in a bridge, which then drops what it can't store. `Steps` if a place would
/// take more steps than the plan allows or more than 1,000,000,000 events are due, and no allocation failed. Nothing
/// was written then. `Write` if a write failed; what was written is unknown then. `Read` never comes.
pub fn run_tree<W: Write>(
    alloc: Global,
    file: &[u8],
    downs: &[String],
    ticks: u32,
    writer: &mut W,
) -> Result<TreeEnd, CommandFault>
    ensures ok { IfOk result (λ end.
        HasTold file.now downs.now ticks end (W.contents writer.old) (W.contents writer.new)) }
    ensures kinds { IfErr result (λ e. e ≢ CommandFault.Read) }
    ensures steps { IfErr result (λ e. e ≡ CommandFault.Steps → RunsIntoLimit file.now downs.now ticks) }
    ensures none { IfErr result (λ e. e ≢ CommandFault.Write → Keeps (W.contents writer.old) (W.contents writer.new)) }
{
    match read_plan(alloc, file) {
        Ok((plan, _ports)) => match print_trees(alloc, &plan, downs, ticks, writer)? {
            None => Ok(TreeEnd::Told),
            Some(fault) => Ok(TreeEnd::NoDown(fault)),
        },
        Err(fault) => {
            write_refusal(alloc, &fault, writer)?;
            Ok(TreeEnd::Refused)
        }
    }
}
