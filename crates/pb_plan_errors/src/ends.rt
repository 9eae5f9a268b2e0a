//! The local ports that links and customer ports use.

ghost use Rattle.std.specs.Prelude.{◌≡◌, All, Contains, IfOk, OnOk, IfSome};
ghost use Rattle.toml.specs.View.{table_view};
ghost use Rattle.pb_plan_errors.specs.Rows.{bridge_key};
ghost use Rattle.pb_plan_errors.specs.Uses.{IsUse};

use crate::row::{integer_at, items_at, text_at};
use pb_diagnostics::{Site, row_at};
use pb_frame::Memory;
use std::alloc::Global;
use toml::Table;

/// A use of a local port of a bridge.
#[derive(Clone, Copy)]
pub(crate) struct PortUse<'a> {
    /// The array of tables.
    pub word: &'static str,
    /// The table, counted from 0.
    pub index: usize,
    /// The key of the local port.
    pub key: &'static str,
    /// The name of the bridge.
    pub bridge: &'a str,
    /// The local port.
    pub port: i64,
}

impl<'a> PortUse<'a> {
    /// Returns the key of the local port.
    pub(crate) fn site(&self) -> Site<'static>
        ensures { result ≡ Site.RowKey self.now.word self.now.index self.now.key }
    {
        Site::RowKey(self.word, self.index, self.key)
    }
}

/// Returns the key of the bridge whose local port a key gives.
pub(crate) fn bridge_key(key: &str) -> &'static str
    ensures { result.now ≡ bridge_key key.now }
{
    if key == "a_port" {
        "a"
    } else if key == "b_port" {
        "b"
    } else {
        "bridge"
    }
}

/// Appends the uses by a table of an array, at these keys of local ports.
fn put_uses_of<'a>(
    uses: &mut Vec<PortUse<'a>>,
    document: &'a Table,
    word: &'static str,
    index: usize,
    keys: &[&'static str],
) -> Result<(), Memory>
    requires { All (IsUse (table_view document.now)) uses.old.items }
    ensures { OnOk result (All (IsUse (table_view document.now)) uses.new.items) }
{
    let Some(row) = row_at(document, word, index) else {
        return Ok(());
    };
    for key in keys {
        uses.push(PortUse {
            word,
            index,
            key: *key,
            bridge: text_at(row, bridge_key(key)),
            port: integer_at(row, key),
        })?;
    }
    Ok(())
}

/// Appends the uses by the tables of an array, at these keys of local ports.
fn put_uses<'a>(
    uses: &mut Vec<PortUse<'a>>,
    document: &'a Table,
    word: &'static str,
    keys: &[&'static str],
) -> Result<(), Memory>
    requires { All (IsUse (table_view document.now)) uses.old.items }
    ensures { OnOk result (All (IsUse (table_view document.now)) uses.new.items) }
{
    for index in 0..items_at(document, word).len() {
        put_uses_of(uses, document, word, index, keys)?;
    }
    Ok(())
}

/// Returns the uses of local ports, in the order in which they are checked.
///
/// # Errors
///
/// `Memory` if an allocation failed.
pub(crate) fn uses_of<'a>(alloc: Global, document: &'a Table) -> Result<Vec<PortUse<'a>>, Memory>
    ensures { IfOk result (λ uses. All (IsUse (table_view document.now)) uses.items) }
{
    let mut uses = Vec::new(alloc);
    put_uses(&mut uses, document, "link", &["a_port", "b_port"])?;
    put_uses(&mut uses, document, "port", &["port"])?;
    Ok(uses)
}

/// Returns the first of some uses that is of the same local port as another.
pub(crate) fn same_use<'a>(uses: &[PortUse<'a>], of: &PortUse<'_>) -> Option<PortUse<'a>>
    ensures { IfSome result (λ other. Contains uses.now other
        × (other.bridge.now ≡ of.now.bridge.now) × (other.port ≡ of.now.port)) }
{
    for other in uses {
        if other.bridge == of.bridge && other.port == of.port {
            return Some(*other);
        }
    }
    None
}
