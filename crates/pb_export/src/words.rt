//! Words, numbers and groups of words in a line.

ghost use Rattle.std.specs.Prelude.{◌≡◌, ◌↔◌, ◌++◌, ◌∷◌, [], ◌<◌, ℕ, List, length, decimal};
ghost use Rattle.std.specs.Prelude.{IfOk, IfSome, IsSome, MatchOption};
ghost use Rattle.pb_export.specs.Fitting.{Begins, AreWords, AreNumbers, IsSpacedNumber, HasGroups};
ghost use Rattle.pb_export.specs.Rows.{words_text, numbers_text, groups_text};

use crate::parts::{around, before, behind, number_at};
use std::alloc::{AllocError, Global};

/// Returns the word after the space at the start of a text, and the text after the word.
fn word_at(text: &str) -> Option<(&str, &str)>
    ensures text { IfSome result (λ parts. text.now ≡ 32 ∷ (parts.0.now ++ parts.1.now)) }
    ensures words { MatchOption result (¬ (Begins (32 ∷ []) text.now)) (λ parts. AreWords parts.1.now) }
{
    let inner = behind(text, " ")?;
    match before(inner, " ") {
        Some(parts) => Some(parts),
        None => Some((inner, "")),
    }
}

/// Returns the words of a text, each of which follows a space. Returns `None` if the text has another form.
pub(crate) fn words_in(alloc: Global, text: &str) -> Result<Option<Vec<&str>>, AllocError>
    ensures text { IfOk result (λ o. IfSome o (λ words. text.now ≡ words_text words.items)) }
    ensures words { IfOk result (λ o. IsSome o ↔ AreWords text.now) }
{
    let mut words = Vec::new(alloc);
    let mut rest = text;
    'words: while let Some((word, later)) = word_at(rest) {
        words.push(word)?;
        rest = later;
    }
    if rest.is_empty() {
        Ok(Some(words))
    } else {
        Ok(None)
    }
}

/// Returns the number after the space at the start of a text, and the text after the number.
fn spaced_number(text: &str) -> Option<(u64, &str)>
    ensures text { IfSome result (λ parts. text.now ≡ 32 ∷ (decimal parts.0 ++ parts.1.now)) }
    ensures number { MatchOption result ((n : ℕ) (back : List ℕ) → ¬ (IsSpacedNumber n text.now back))
        (λ parts. IsSpacedNumber parts.0 text.now parts.1.now) }
{
    number_at(behind(text, " ")?)
}

/// Returns the numbers at the start of a text, each of which follows a space, and the text after them.
pub(crate) fn numbers_at(alloc: Global, text: &str) -> Result<(Vec<u64>, &str), AllocError>
    ensures text { IfOk result (λ parts. text.now ≡ numbers_text parts.0.items ++ parts.1.now) }
    ensures numbers { IfOk result (λ parts. AreNumbers parts.0.items text.now parts.1.now) }
{
    let mut numbers = Vec::new(alloc);
    let mut rest = text;
    'numbers: while let Some((number, later)) = spaced_number(rest) {
        numbers.push(number)?;
        rest = later;
    }
    Ok((numbers, rest))
}

/// Returns the groups of words of a text: all but the last one, and the last one. Returns `None` if a group has another
/// form.
pub(crate) fn groups_in(
    alloc: Global,
    text: &str,
) -> Result<Option<(Vec<Vec<&str>>, Vec<&str>)>, AllocError>
    ensures text { IfOk result (λ o. IfSome o (λ groups.
        text.now ≡ groups_text groups.0.items ++ words_text groups.1.items)) }
    ensures groups { IfOk result (λ o. IsSome o ↔ HasGroups text.now) }
{
    let mut groups = Vec::new(alloc);
    let mut rest = text;
    'groups: while let Some((front, later)) = around(rest, " |") {
        let Some(words) = words_in(alloc, front)? else {
            return Ok(None);
        };
        groups.push(words)?;
        rest = later;
    }
    match words_in(alloc, rest)? {
        Some(last) => Ok(Some((groups, last))),
        None => Ok(None),
    }
}
