//! Checks that the tables of all arrays have in common.

ghost use Rattle.std.specs.Prelude.{◌≡◌, ◌⊎◌, ◌≤◌, ◌++◌, ◌∷◌, [], false, codes, length, map, take, OnOk, IfErr};
ghost use Rattle.toml.specs.View.{table_view};
ghost use Rattle.pb_service.specs.Keys.{IsAccepted};
ghost use Rattle.pb_service.specs.Formats.{keys_of};
ghost use Rattle.pb_service.specs.Tables.{is_one_of, text_at};
ghost use Rattle.pb_service.specs.Refusals.{RefusesTable};
ghost use Rattle.pb_service.specs.declared.fault.PlanFault.TheVariants.{Twice as twice_fault, NoSuch as no_such_fault};
ghost use Rattle.pb_service.specs.declared.fault.PlanFault.TheVariants.{Memory as memory_fault};

use crate::fault::PlanFault;
use crate::formats::keys_of;
use crate::row::check_keys;
use crate::section::{KeyTable, Section};
use crate::told::text_at;
use pb_frame::Text;
use std::alloc::Global;
use toml::Table;

/// Returns whether the name is one of the names.
pub(crate) fn is_one_of(names: &[&str], name: &str) -> bool
    ensures { result ≡ is_one_of (map (λ n. n.now) names.now) name.now }
{
    for other in names {
        if name == *other {
            return true;
        }
    }
    false
}

/// Returns the fault of two things with one name.
fn twice(alloc: Global, name: &str) -> PlanFault
    ensures { (result ≡ memory_fault) ⊎ (result ≡ twice_fault name.now) }
{
    match String::from_str(alloc, name) {
        Ok(name) => PlanFault::Twice(Text::from_string(name)),
        Err(_) => PlanFault::Memory,
    }
}

/// Returns the fault of a name that nothing has.
pub(crate) fn no_such(alloc: Global, name: &str) -> PlanFault
    ensures { (result ≡ memory_fault) ⊎ (result ≡ no_such_fault name.now) }
{
    match String::from_str(alloc, name) {
        Ok(name) => PlanFault::NoSuch(Text::from_string(name)),
        Err(_) => PlanFault::Memory,
    }
}

/// Checks a table against the rules of its keys, and its name against those of the tables before it.
///
/// # Errors
///
/// The first rule of its keys that the table breaks, `Twice` if an earlier table has its name, `Memory` if an
/// allocation failed.
pub(crate) fn check_row(
    alloc: Global,
    section: Section,
    row: &Table,
    names: &[&str],
    index: usize,
) -> Result<(), PlanFault>
    requires { index ≤ length names.now }
    ensures ok { OnOk result (IsAccepted (keys_of section (table_view row.now)) (table_view row.now)) }
    ensures new { OnOk result (is_one_of (map (λ n. n.now) (take index names.now))
        (text_at (table_view row.now) (codes "name")) ≡ false) }
    ensures err { IfErr result (RefusesTable section (map (λ n. n.now) names.now) index (table_view row.now)) }
{
    check_keys(
        alloc,
        KeyTable::Row(section, index),
        keys_of(section, row),
        row,
    )?;
    let name = text_at(row, "name");
    if is_one_of(&names[..index], name) {
        return Err(twice(alloc, name));
    }
    Ok(())
}

/// Appends a thing to a list.
pub(crate) fn put<T: Drop>(list: &mut Vec<T>, thing: T) -> Result<(), PlanFault>
    ensures ok { OnOk result (list.new.items ≡ list.old.items ++ thing ∷ []) }
    ensures err { IfErr result (λ e. e ≡ memory_fault) }
{
    list.push(thing)?;
    Ok(())
}
