//! The value of a slot as a JSON value.

ghost use Rattle.std.specs.Prelude.{◌≡◌, IfOk, option_map};
ghost use Rattle.serde_json.specs.Data.{array};
ghost use Rattle.serde_json.specs.View.{view, items_view};
ghost use Rattle.pb_export.specs.Documents.{field_data, said_data, words_data, numbers_data, arrays_data, groups_data};

use crate::rows::Field;
use crate::templates::Said;
use serde_json::Value;
use std::alloc::{AllocError, Global};

/// Returns the meaning of a fixed text as a value, or `None` if it has none.
fn said_value(alloc: Global, says: Said) -> Result<Option<Value>, AllocError>
    ensures { IfOk result (λ o. option_map view o ≡ said_data says) }
{
    match says {
        Said::Word(word) => Ok(Some(Value::try_from_str(alloc, word)?)),
        Said::Yes => Ok(Some(Value::Bool(true))),
        Said::No => Ok(Some(Value::Bool(false))),
        Said::Nothing => Ok(None),
    }
}

/// Returns an array of words.
fn words_value(alloc: Global, words: &[&str]) -> Result<Value, AllocError>
    ensures { IfOk result (λ v. view v ≡ words_data words.now) }
{
    let mut values = Vec::with_capacity(alloc, words.len())?;
    for word in words {
        values.push(Value::try_from_str(alloc, word)?)?;
    }
    Ok(Value::Array(values))
}

/// Returns an array of numbers.
fn numbers_value(alloc: Global, numbers: &[u64]) -> Result<Value, AllocError>
    ensures { IfOk result (λ v. view v ≡ numbers_data numbers.now) }
{
    let mut values = Vec::with_capacity(alloc, numbers.len())?;
    for number in numbers {
        values.push(Value::from(*number))?;
    }
    Ok(Value::Array(values))
}

/// Returns an array of arrays of words.
fn arrays_value(alloc: Global, groups: &[Vec<&str>], last: &[&str]) -> Result<Value, AllocError>
    ensures { IfOk result (λ v. view v ≡ arrays_data groups.now last.now) }
{
    let mut values = Vec::with_capacity(alloc, groups.len())?;
    for group in groups {
        values.push(words_value(alloc, group.as_slice())?)?;
    }
    values.push(words_value(alloc, last)?)?;
    Ok(Value::Array(values))
}

/// Returns an array of groups of words, which is empty if there are no words.
fn groups_value(alloc: Global, groups: &[Vec<&str>], last: &[&str]) -> Result<Value, AllocError>
    ensures { IfOk result (λ v. view v ≡ groups_data groups.now last.now) }
{
    if groups.len() == 0 {
        if last.len() == 0 {
            return Ok(Value::Array(Vec::new(alloc)));
        }
    }
    arrays_value(alloc, groups, last)
}

/// Returns the value of a slot, or `None` if a fixed text has no meaning.
pub(crate) fn field_value(alloc: Global, field: &Field<'_>) -> Result<Option<Value>, AllocError>
    ensures { IfOk result (λ o. option_map view o ≡ field_data field.now) }
{
    match field {
        Field::Text(text) => Ok(Some(Value::try_from_str(alloc, text)?)),
        Field::Number(number) | Field::Depth(number) => Ok(Some(Value::from(*number))),
        Field::Words(words) => Ok(Some(words_value(alloc, words.as_slice())?)),
        Field::Numbers(numbers) => Ok(Some(numbers_value(alloc, numbers.as_slice())?)),
        Field::Groups(groups, last) => {
            Ok(Some(groups_value(alloc, groups.as_slice(), last.as_slice())?))
        }
        Field::Chosen(choice) => said_value(alloc, choice.says),
    }
}
