//! The key or table at which a document breaks a rule.

ghost use Rattle.std.specs.Prelude.{◌≡◌, ◌≤◌, ◌<◌, false, All, IfSome, IfOk, IsTrue, MatchOption};
ghost use Rattle.std.specs.Str.Parse.{signed_digits_value};
ghost use Rattle.toml.specs.View.{table_view};
ghost use Rattle.pb_frame.specs.Admission.{same};
ghost use Rattle.pb_service.specs.Tables.{items_at};
ghost use Rattle.pb_service.specs.Values.{any_item, is_text};
ghost use Rattle.pb_plan_errors.specs.Findings.{IsAt, HasRow, HasWord, Lacks, IsTwice, IsNoSuch, IsLinkEnd, IsExcess};
ghost use Rattle.pb_plan_errors.specs.Findings.{IsFinding, has_path};
ghost use Rattle.pb_plan_errors.specs.Paths.{IsSiteOf, table_of};
ghost use Rattle.pb_plan_errors.specs.Rows.{most_of};
ghost use Rattle.pb_plan_errors.specs.Uses.{IsUse};

use crate::ends::{PortUse, same_use, uses_of};
use crate::names::{is_named, named_by};
use crate::path::{SECTIONS, site_of, table_of};
use crate::row::{integer_at, items_at, text_at};
use pb_diagnostics::{Part, Site, row_at};
use pb_frame::Memory;
use pb_service::PlanFault;
use std::alloc::Global;
use toml::Table;

/// A key or table at which a document breaks a rule.
#[derive(Clone, Copy)]
pub(crate) struct Finding<'a> {
    /// The key or table that the message is about.
    pub about: Site<'a>,
    /// The key or table whose line is shown.
    pub shown: Site<'a>,
    /// The part of the line that is marked.
    pub part: Part,
    /// The earlier key with the same name, address, VID or local port.
    pub other: Option<Site<'a>>,
}

/// Returns the finding of a key or table.
fn at_site<'a>(site: Site<'a>, part: Part, other: Option<Site<'a>>) -> Finding<'a>
    ensures about { result.about ≡ site.entry }
    ensures at { IsAt result part }
    ensures other { result.other ≡ other.entry }
{
    Finding {
        about: site,
        shown: site,
        part,
        other,
    }
}

/// Returns whether the list at a key has a name.
fn is_listed(row: &Table, key: &str, name: &str) -> bool
    ensures { result ≡ any_item (is_text (same name.now)) (items_at (table_view row.now) key.now) }
{
    let items = items_at(row, key);
    for item in items {
        if let Some(text) = item.as_str() {
            if name == text {
                return true;
            }
        }
    }
    false
}

/// Returns the first of some keys of a table that names something that isn't there.
fn unnamed(document: &Table, row: &Table, name: &str, keys: &[&'static str]) -> Option<&'static str>
    ensures { IfSome result (Lacks (table_view document.now) name.now (table_view row.now)) }
{
    for key in keys {
        if text_at(row, key) == name && !is_named(document, named_by(key), name) {
            return Some(*key);
        }
    }
    None
}

/// Returns the first of some keys of a table that lists something that isn't there.
fn unlisted(
    document: &Table,
    row: &Table,
    name: &str,
    keys: &[&'static str],
) -> Option<&'static str>
    ensures { IfSome result (Lacks (table_view document.now) name.now (table_view row.now)) }
{
    for key in keys {
        if is_listed(row, key, name) && !is_named(document, named_by(key), name) {
            return Some(*key);
        }
    }
    None
}

/// Returns the first key of a table of an array that names something that isn't there.
fn lacking(document: &Table, word: &str, row: &Table, name: &str) -> Option<&'static str>
    ensures { IfSome result (Lacks (table_view document.now) name.now (table_view row.now)) }
{
    match word {
        "link" => match unnamed(document, row, name, &["a", "b"]) {
            Some(key) => Some(key),
            None => unlisted(
                document,
                row,
                name,
                &["services", "a_services", "b_services"],
            ),
        },
        "event" => unnamed(document, row, name, &["bridge"]),
        "tap" => unnamed(document, row, name, &["link"]),
        "port" => unnamed(document, row, name, &["bridge", "service"]),
        "accept" => match unnamed(document, row, name, &["link", "bridge", "service"]) {
            Some(key) => Some(key),
            None => unlisted(document, row, name, &["links"]),
        },
        _ => None,
    }
}

/// Returns the first key of an array of tables with a name that nothing has.
fn no_such_in(document: &Table, word: &'static str, name: &str) -> Option<Finding<'static>>
    ensures { IfSome result (IsNoSuch (table_view document.now) name.now) }
{
    for index in 0..items_at(document, word).len() {
        if let Some(row) = row_at(document, word, index) {
            if let Some(key) = lacking(document, word, row, name) {
                return Some(at_site(Site::RowKey(word, index, key), Part::Value, None));
            }
        }
    }
    None
}

/// Returns the first key with a name that nothing has.
fn no_such(document: &Table, name: &str) -> Option<Finding<'static>>
    ensures { IfSome result (IsNoSuch (table_view document.now) name.now) }
{
    for word in ["link", "event", "tap", "port", "accept"] {
        if let Some(finding) = no_such_in(document, word, name) {
            return Some(finding);
        }
    }
    None
}

/// Returns whether a text is this number.
fn is_number(text: &str, number: i64) -> bool
    ensures { IsTrue result → signed_digits_value 10 text.now ≡ number }
{
    match text.parse::<i64>() {
        Ok(read) => read == number,
        Err(_) => false,
    }
}

/// Returns whether a table has this name, address or VID at a key.
fn has_word(row: &Table, key: &str, text: &str) -> bool
    ensures { IsTrue result → HasWord key.now text.now (table_view row.now) }
{
    match key {
        "name" => text_at(row, key) == text,
        "address" => text_at(row, key).eq_ignore_ascii_case(text),
        _ => is_number(text, integer_at(row, key)),
    }
}

/// Returns the keys of an array of tables whose values differ from table to table.
fn distinct_keys(word: &str) -> &'static [&'static str] {
    match word {
        "bridge" => &["name", "address"],
        "service" => &["name", "vid"],
        "event" | "tap" => &[],
        _ => &["name"],
    }
}

/// Returns the index of the first table of an array that has this name, address or VID, after `from` others.
fn with_word(document: &Table, word: &str, key: &str, text: &str, from: usize) -> Option<usize>
    ensures found { IfSome result (λ index. (from ≤ index)
        × HasRow (table_view document.now) word.now index (HasWord key.now text.now)) }
    ensures below { IfSome result (λ index. index < usize.MAX) }
{
    for index in from..items_at(document, word).len() {
        if let Some(row) = row_at(document, word, index) {
            if has_word(row, key, text) {
                return Some(index);
            }
        }
    }
    None
}

/// Returns the first key of an array of tables with the name, address or VID of an earlier table, among these keys.
fn twice_in(
    document: &Table,
    word: &'static str,
    text: &str,
    keys: &[&'static str],
) -> Option<Finding<'static>>
    ensures { IfSome result (IsTwice (table_view document.now) text.now) }
{
    for key in keys {
        if let Some(first) = with_word(document, word, key, text, 0) {
            if let Some(second) = with_word(document, word, key, text, first + 1) {
                let other = Some(Site::RowKey(word, first, *key));
                return Some(at_site(Site::RowKey(word, second, *key), Part::Value, other));
            }
        }
    }
    None
}

/// Returns the first key with the name, address or VID of an earlier table.
fn twice(document: &Table, text: &str) -> Option<Finding<'static>>
    ensures { IfSome result (IsTwice (table_view document.now) text.now) }
{
    for word in SECTIONS {
        if let Some(finding) = twice_in(document, word, text, distinct_keys(word)) {
            return Some(finding);
        }
    }
    None
}

/// Returns the key of a local port if one of some earlier ones is the same, with that of its first use.
fn shared_with(
    document: &Table,
    earlier: &[PortUse<'_>],
    of: PortUse<'_>,
) -> Option<Finding<'static>>
    requires earlier { All (IsUse (table_view document.now)) earlier.now }
    requires of { IsUse (table_view document.now) of }
    ensures { IfSome result (IsLinkEnd (table_view document.now)) }
{
    match same_use(earlier, &of) {
        Some(other) => Some(at_site(of.site(), Part::Value, Some(other.site()))),
        None => None,
    }
}

/// Returns the key of the first of some local ports that is used a second time, with that of its first use.
fn shared_among(document: &Table, uses: &[PortUse<'_>]) -> Option<Finding<'static>>
    requires { All (IsUse (table_view document.now)) uses.now }
    ensures { IfSome result (IsLinkEnd (table_view document.now)) }
{
    for (index, of) in uses.iter().enumerate() {
        if let Some(finding) = shared_with(document, &uses[..index], *of) {
            return Some(finding);
        }
    }
    None
}

/// Returns the key of the first local port that is used a second time.
fn link_end(alloc: Global, document: &Table) -> Result<Option<Finding<'static>>, Memory>
    ensures { IfOk result (λ o. IfSome o (IsLinkEnd (table_view document.now))) }
{
    let uses = uses_of(alloc, document)?;
    Ok(shared_among(document, uses.as_slice()))
}

/// Returns the maximum number of tables in an array.
pub(crate) fn most_of(word: &str) -> usize
    ensures { result ≡ most_of word.now }
{
    match word {
        "bridge" => 32,
        "link" | "service" => 64,
        _ => 128,
    }
}

/// Returns the first table too many.
fn too_many(document: &Table) -> Option<Finding<'static>>
    ensures { IfSome result (IsExcess (table_view document.now)) }
{
    for word in SECTIONS {
        if row_at(document, word, most_of(word)).is_some() {
            return Some(at_site(Site::Row(word, most_of(word)), Part::Whole, None));
        }
    }
    None
}

/// Returns the finding of a key that is missing.
fn missing(path: &str) -> Finding<'_>
    ensures about { IsSiteOf path.now result.about }
    ensures shown { result.shown ≡ table_of result.about }
    ensures part { result.part ≡ Part.Whole }
    ensures other { result.other ≡ None }
{
    let about = site_of(path);
    Finding {
        about,
        shown: table_of(about),
        part: Part::Whole,
        other: None,
    }
}

/// Returns the finding of the key of a path.
fn at_path(path: &str, part: Part) -> Finding<'_>
    ensures about { IsSiteOf path.now result.about }
    ensures at { IsAt result part }
    ensures other { result.other ≡ None }
{
    at_site(site_of(path), part, None)
}

/// Returns the key or table at which a document breaks a rule, if it is there.
///
/// # Errors
///
/// `Memory` if an allocation failed.
pub(crate) fn finding_of<'a>(
    alloc: Global,
    document: &Table,
    fault: &'a PlanFault,
) -> Result<Option<Finding<'a>>, Memory>
    ensures { IfOk result (λ o.
        MatchOption o (has_path fault.now ≡ false) (IsFinding (table_view document.now) fault.now)) }
{
    match fault {
        PlanFault::Missing(path) => Ok(Some(missing(path.as_str()))),
        PlanFault::Kind(path) => Ok(Some(at_path(path.as_str(), Part::Value))),
        PlanFault::Range(path) => Ok(Some(at_path(path.as_str(), Part::Value))),
        PlanFault::Unknown(path) => Ok(Some(at_path(path.as_str(), Part::Key))),
        PlanFault::Twice(name) => Ok(twice(document, name.as_str())),
        PlanFault::NoSuch(name) => Ok(no_such(document, name.as_str())),
        PlanFault::LinkEnd => link_end(alloc, document),
        PlanFault::TooMany => Ok(too_many(document)),
        PlanFault::Utf8 | PlanFault::Toml | PlanFault::Memory => Ok(None),
    }
}
