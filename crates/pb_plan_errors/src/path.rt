//! The paths of keys, as pb_service prints them.

ghost use Rattle.std.specs.Prelude.{◌≡◌, ◌++◌, IfSome};
ghost use Rattle.std.specs.Str.Parse.{digits_value, without_leading_plus};
ghost use Rattle.pb_plan_errors.specs.Paths.{word_of, key_of, table_of, IsRow, IsKeyOfTable, IsSiteOf};

use pb_diagnostics::Site;

/// The arrays of tables, in the order in which they are checked.
pub(crate) const SECTIONS: [&str; 6] = ["bridge", "link", "service", "event", "tap", "port"];

/// Returns the texts before and after the first place of a separator.
fn parted<'a>(text: &'a str, separator: &str) -> Option<(&'a str, &'a str)>
    ensures { IfSome result (λ p. text.now ≡ p.0.now ++ (separator.now ++ p.1.now)) }
{
    text.split_once(separator)
}

/// Returns the number that some digits denote.
fn number_of(digits: &str) -> Option<usize>
    ensures { IfSome result (λ number. digits_value 10 (without_leading_plus digits.now) ≡ number) }
{
    match digits.parse::<usize>() {
        Ok(number) => Some(number),
        Err(_) => None,
    }
}

/// Returns the word and the index of `WORD[INDEX]`.
fn row_of(table: &str) -> Option<(&str, usize)>
    ensures { IfSome result (λ p. IsRow table.now p.0.now p.1) }
{
    let (word, rest) = parted(table, "[")?;
    let (digits, after) = parted(rest, "]")?;
    if !after.is_empty() {
        return None;
    }
    Some((word, number_of(digits)?))
}

/// Returns the key of `TABLE.KEY`, if the table is `network` or `WORD[INDEX]`.
fn key_of_table<'a>(table: &'a str, key: &'a str) -> Option<Site<'a>>
    ensures { IfSome result (IsKeyOfTable table.now key.now) }
{
    if table == "network" {
        return Some(Site::TableKey("network", key));
    }
    let (word, index) = row_of(table)?;
    Some(Site::RowKey(word, index, key))
}

/// Returns the key that a path leads to: `network.KEY`, `WORD[INDEX].KEY`, or a key at the top.
pub(crate) fn site_of(path: &str) -> Site<'_>
    ensures { IsSiteOf path.now result }
{
    let Some((table, key)) = parted(path, ".") else {
        return Site::Key(path);
    };
    match key_of_table(table, key) {
        Some(site) => site,
        None => Site::Key(path),
    }
}

/// Returns the table of a key. A key at the top is returned itself.
pub(crate) fn table_of(site: Site<'_>) -> Site<'_>
    ensures { result ≡ table_of site.entry }
{
    match site {
        Site::Key(key) => Site::Key(key),
        Site::TableKey(word, _) => Site::Key(word),
        Site::Row(word, index) => Site::Row(word, index),
        Site::RowKey(word, index, _) => Site::Row(word, index),
    }
}

/// Returns the key of the table or array of tables, which is empty for a key at the top, and the key.
pub(crate) fn word_and_key(site: Site<'_>) -> (&str, &str)
    ensures word { result.0.now ≡ word_of site.entry }
    ensures key { result.1.now ≡ key_of site.entry }
{
    match site {
        Site::Key(key) => ("", key),
        Site::TableKey(word, key) => (word, key),
        Site::Row(word, _) => (word, ""),
        Site::RowKey(word, _, key) => (word, key),
    }
}
