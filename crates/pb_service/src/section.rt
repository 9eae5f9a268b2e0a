//! The tables of a plan file, and the paths of their keys.

ghost use Rattle.std.specs.Prelude.{◌≡◌, ◌++◌, codes, string_bytes, IfOk};
ghost use Rattle.std.specs.Fmt.{decimal};
ghost use Rattle.pb_service.specs.Sections.{word_of, most_of, path_at};

use pb_frame::{Memory, Text};
use std::alloc::Global;

/// An array of tables.
#[derive(Clone, Copy)]
pub(crate) enum Section {
    Bridge,
    Link,
    Service,
    Port,
    Event,
    Tap,
}

/// The table that holds a key: the top of the file, the table of the network, or a table of an array. Tables of an
/// array are numbered from 0.
#[derive(Clone, Copy)]
pub(crate) enum KeyTable {
    Top,
    Network,
    Row(Section, usize),
}

/// Returns the key of an array of tables.
pub(crate) fn word_of(section: Section) -> &'static str
    ensures { result.now ≡ word_of section }
{
    match section {
        Section::Bridge => "bridge",
        Section::Link => "link",
        Section::Service => "service",
        Section::Port => "port",
        Section::Event => "event",
        Section::Tap => "tap",
    }
}

/// Returns the maximum number of tables in an array.
pub(crate) fn most_of(section: Section) -> usize
    ensures { result ≡ most_of section }
{
    match section {
        Section::Bridge => 32,
        Section::Link | Section::Service => 64,
        Section::Port | Section::Event | Section::Tap => 128,
    }
}

/// Returns the path of a key, as it is printed.
pub(crate) fn path_at(alloc: Global, key_table: KeyTable, key: &str) -> Result<Text, Memory>
    ensures { IfOk result (λ path. path ≡ path_at key_table key.now) }
{
    let path = match key_table {
        KeyTable::Top => String::from_str(alloc, key)?,
        KeyTable::Network => format!(in alloc; "network.{key}")?,
        KeyTable::Row(section, index) => row_path(alloc, word_of(section), index, key)?,
    };
    Ok(Text::from_string(path))
}

/// Returns the path of a key of a table in an array.
fn row_path(alloc: Global, word: &str, index: usize, key: &str) -> Result<String, Memory>
    ensures { IfOk result (λ path. string_bytes path ≡ word.now ++ codes "[" ++ decimal index ++ codes "]."
        ++ key.now) }
{
    Ok(format!(in alloc; "{word}[{index}].{key}")?)
}
