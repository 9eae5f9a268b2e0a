//! The lines that a reply has for bridges and for customer ports, by their names.

ghost use Rattle.std.specs.Prelude.{◌≡◌, ◌++◌, List, ℕ, map, string_bytes, OnOk};
ghost use Rattle.pb_control_socket.specs.Sizes.{IsFew};
ghost use Rattle.pb_control_socket.specs.Texts.{AreLines, AreLinesByName};

use pb_frame::Memory;
use pb_lan::Plan;
use pb_step_script::{bridges_by_name, ports_by_name};
use std::alloc::Global;

/// The lines that a reply has for each of several bridges or customer ports.
///
/// The ghost members let contracts say what was returned for each, and which lines it has for that.
pub(crate) trait ReplyLines {
    /// What is returned for a bridge or a customer port.
    ghost Fact: { Type 0 };

    /// This was returned for the bridge or the customer port of this number.
    ghost told: { Self → ℕ → Fact → Type 0 };

    /// The lines of the bridge or the customer port of this name, for which this was returned.
    ghost lines: { Self → List ℕ → Fact → List ℕ };

    /// Appends the lines of the bridge or the customer port of this name and number, from 1.
    ///
    /// # Errors
    ///
    /// `Memory` if an allocation failed.
    fn put(&self, out: &mut String, name: &str, number: u8) -> Result<(), Memory>
        ensures { OnOk result ((fact : Fact) × told self.now number fact
            × (string_bytes out.new ≡ string_bytes out.old ++ lines self.now name.now fact)) };
}

/// Appends the lines of bridges or of customer ports, each given by its name and its number.
///
/// # Errors
///
/// `Memory` if an allocation failed.
fn put_each<L: ReplyLines>(those: &L, things: &[(&str, u8)], out: &mut String) -> Result<(), Memory>
    ensures { OnOk result ((text : List ℕ) × (string_bytes out.new ≡ string_bytes out.old ++ text)
        × AreLines (L.lines those.now) (L.told those.now) (map (λ n. (n.0.now, n.1)) things.now) text) }
{
    for (name, number) in things {
        those.put(out, name, *number)?;
    }
    Ok(())
}

/// Appends the lines of all bridges, in the order of their names.
///
/// # Errors
///
/// `Memory` if an allocation failed.
pub(crate) fn put_of_bridges<L: ReplyLines>(
    alloc: Global,
    plan: &Plan,
    those: &L,
    out: &mut String,
) -> Result<(), Memory>
    requires { IsFew plan.now }
    ensures { OnOk result ((text : List ℕ) × (string_bytes out.new ≡ string_bytes out.old ++ text)
        × AreLinesByName (L.lines those.now) (L.told those.now) (map (λ b. b.name) plan.now.bridges) text) }
{
    let bridges = bridges_by_name(alloc, plan)?;
    put_each(those, bridges.as_slice(), out)
}

/// Appends the lines of all customer ports, in the order of their names.
///
/// # Errors
///
/// `Memory` if an allocation failed.
pub(crate) fn put_of_ports<L: ReplyLines>(
    alloc: Global,
    plan: &Plan,
    those: &L,
    out: &mut String,
) -> Result<(), Memory>
    requires { IsFew plan.now }
    ensures { OnOk result ((text : List ℕ) × (string_bytes out.new ≡ string_bytes out.old ++ text)
        × AreLinesByName (L.lines those.now) (L.told those.now) (map (λ c. c.name) plan.now.customers) text) }
{
    let ports = ports_by_name(alloc, plan)?;
    put_each(those, ports.as_slice(), out)
}
