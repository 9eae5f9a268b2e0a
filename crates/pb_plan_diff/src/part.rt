//! Parts of a plan, and their fields.

ghost use Rattle.std.specs.Prelude.{◌≡◌, ◌++◌, string_bytes, codes, IfOk};
ghost use Rattle.pb_plan_diff.specs.Parts.{field, number_field, part};

use pb_frame::{Memory, Seq, Text};
use std::alloc::Global;

/// A field of a part.
#[derive(PartialEq, Debug, Drop)]
pub struct Field {
    /// Its key of the plan file.
    pub key: Text,
    /// Its value, with names in place of numbers of other parts.
    pub text: Text,
}

/// A part of a plan: the network itself, a bridge, a link, a service or a customer port.
#[derive(PartialEq, Debug, Drop)]
pub struct Part {
    /// Its kind and its name, which no other part of the plan has together.
    pub title: Text,
    /// Its fields. Parts of a kind have the same keys in the same order.
    pub fields: Seq<Field>,
}

/// Returns a field.
///
/// # Errors
///
/// `Memory` if an allocation failed.
pub(crate) fn text_field(alloc: Global, key: &str, text: String) -> Result<Field, Memory>
    ensures { IfOk result (λ made. made ≡ field key.now (string_bytes text)) }
{
    let key = String::from_str(alloc, key)?;
    Ok(Field {
        key: Text::from_string(key),
        text: Text::from_string(text),
    })
}

/// Returns a field that holds a word.
///
/// # Errors
///
/// `Memory` if an allocation failed.
pub(crate) fn word_field(alloc: Global, key: &str, word: &str) -> Result<Field, Memory>
    ensures { IfOk result (λ made. made ≡ field key.now word.now) }
{
    let text = String::from_str(alloc, word)?;
    text_field(alloc, key, text)
}

/// Returns a field that holds a number.
///
/// # Errors
///
/// `Memory` if an allocation failed.
pub(crate) fn number_field(alloc: Global, key: &str, number: u64) -> Result<Field, Memory>
    ensures { IfOk result (λ made. made ≡ number_field key.now number) }
{
    let text = format!(in alloc; "{number}")?;
    text_field(alloc, key, text)
}

/// Returns a part with a kind, a name and fields.
///
/// # Errors
///
/// `Memory` if an allocation failed.
pub(crate) fn named_part(
    alloc: Global,
    kind: &str,
    name: &str,
    fields: Vec<Field>,
) -> Result<Part, Memory>
    ensures { IfOk result (λ made. made ≡ part kind.now name.now fields.items) }
{
    let title = format!(in alloc; "{kind} {name}")?;
    Ok(Part {
        title: Text::from_string(title),
        fields: Seq::from_vec(fields),
    })
}
