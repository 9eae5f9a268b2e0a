//! Parts of a line.

ghost use Rattle.std.specs.Prelude.{◌≡◌, ◌++◌, ◌∷◌, ◌*◌, ℕ, List, decimal, IfSome, MatchOption};
ghost use Rattle.std.specs.Char.{is_ascii_digit};
ghost use Rattle.std.specs.List.{prefix_len};
ghost use Rattle.pb_export.specs.Fitting.{spaces, Begins, Lacks, IsCut, IsUpTo, IsNumber, IsDepth};

use itoa::Buffer;

/// The greatest depth, in pairs of spaces.
const MOST_DEPTH: u64 = 64;

/// Returns what follows `front` in a text that begins with it.
pub(crate) fn behind<'a>(text: &'a str, front: &str) -> Option<&'a str>
    ensures { MatchOption result (¬ (Begins front.now text.now)) (λ rest. text.now ≡ front.now ++ rest.now) }
{
    text.strip_prefix(front)
}

/// Returns the parts of a text before and after the first `middle` in it.
pub(crate) fn around<'a>(text: &'a str, middle: &str) -> Option<(&'a str, &'a str)>
    ensures text { IfSome result (λ parts. text.now ≡ parts.0.now ++ (middle.now ++ parts.1.now)) }
    ensures first { MatchOption result (Lacks middle.now text.now)
        (λ parts. IsCut middle.now text.now parts.0.now (middle.now ++ parts.1.now)) }
{
    text.split_once(middle)
}

/// Splits a text before the first `next` in it, or at its end if `next` is empty.
pub(crate) fn before<'a>(text: &'a str, next: &str) -> Option<(&'a str, &'a str)>
    ensures text { IfSome result (λ parts. text.now ≡ parts.0.now ++ parts.1.now) }
    ensures first { MatchOption result ((front back : List ℕ) → ¬ (IsUpTo next.now text.now front back))
        (λ parts. IsUpTo next.now text.now parts.0.now parts.1.now) }
{
    if next.is_empty() {
        return Some((text, ""));
    }
    text.split_at_checked(text.find(next)?)
}

/// Returns the number of digits at the start of a text.
fn digit_count(text: &str) -> usize
    ensures { result ≡ prefix_len is_ascii_digit text.now }
{
    text.bytes().take_while(|c| c.is_ascii_digit()).count()
}

/// Returns the number at the start of a text, and the text after it. Returns `None` if there is no number, or it isn't
/// written as numbers are printed.
pub(crate) fn number_at(text: &str) -> Option<(u64, &str)>
    ensures text { IfSome result (λ parts. text.now ≡ decimal parts.0 ++ parts.1.now) }
    ensures number { MatchOption result ((n : ℕ) (back : List ℕ) → ¬ (IsNumber n text.now back))
        (λ parts. IsNumber parts.0 text.now parts.1.now) }
{
    let (digits, rest) = text.split_at_checked(digit_count(text))?;
    let number = digits.parse::<u64>().ok()?;
    let mut buffer = Buffer::new();
    if buffer.format(number) == digits {
        Some((number, rest))
    } else {
        None
    }
}

/// Returns how many pairs of spaces a text begins with, at most 64, and the text after them.
pub(crate) fn depth_at(text: &str) -> (u64, &str)
    ensures text { text.now ≡ spaces result.0 ++ result.1.now }
    ensures depth { IsDepth result.0 text.now result.1.now }
{
    let mut rest = text;
    for depth in 0..MOST_DEPTH {
        match behind(rest, "  ") {
            Some(inner) => rest = inner,
            None => return (depth, rest),
        }
    }
    (MOST_DEPTH, rest)
}
