//! The nearest of several names.

ghost use Rattle.std.specs.Prelude.{◌≡◌, map, IfOk, option_map};
ghost use Rattle.pb_diagnostics.specs.Nearest.{first_within, nearest};

use std::alloc::{AllocError, Global};
use strsim::levenshtein;

/// Returns the first of some names that fewer than `limit` edits of a text lead to, if there is one.
///
/// # Errors
///
/// `AllocError` if an allocation failed.
fn first_within<'a>(
    alloc: Global,
    names: &[&'a str],
    text: &str,
    limit: usize,
) -> Result<Option<&'a str>, AllocError>
    ensures { IfOk result (λ near. option_map (λ n. n.now) near
        ≡ first_within limit text.now (map (λ n. n.now) names.now)) }
{
    for name in names {
        if levenshtein(alloc, text, name)? < limit {
            return Ok(Some(*name));
        }
    }
    Ok(None)
}

/// Returns the name that a text probably means: the first one that one edit leads to, or else two edits. An edit
/// inserts, removes or replaces a character (the distance of Levenshtein). `None` if no name is so near.
///
/// # Errors
///
/// `AllocError` if an allocation failed.
pub fn nearest<'a>(
    alloc: Global,
    names: &[&'a str],
    text: &str,
) -> Result<Option<&'a str>, AllocError>
    ensures { IfOk result (λ near. option_map (λ n. n.now) near ≡ nearest text.now (map (λ n. n.now) names.now)) }
{
    match first_within(alloc, names, text, 2)? {
        Some(near) => Ok(Some(near)),
        None => first_within(alloc, names, text, 3),
    }
}
