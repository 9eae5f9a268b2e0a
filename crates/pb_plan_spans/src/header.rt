//! The headers among the lines of a plan file.

ghost use Rattle.std.specs.Prelude.{◌≡◌, ◌<◌, ◌∷◌, length, IfSome};
ghost use Rattle.std.specs.Option.{option_map};
ghost use Rattle.std.specs.List.{list_any};
ghost use Rattle.pb_plan_spans.specs.Lines.{lines_of, lines_left, header_line, begins_text, has_text, is_quoted};
ghost use Rattle.pb_plan_spans.specs.Lines.{is_plain};

use crate::line::{is_header, is_mark, is_quoted};
use crate::place::parted;

/// Returns the first line of a text, without its line feed, and the text after it if there is more.
fn cut(text: &[u8]) -> (&[u8], Option<&[u8]>)
    ensures lines { lines_of text.now ≡ result.0.now ∷ lines_left (option_map (λ rest. rest.now) result.1) }
    ensures shorter { IfSome result.1 (λ rest. length rest.now < length text.now) }
{
    match parted(text, b'\n') {
        Some((line, rest)) => (line, Some(rest)),
        None => (text, None),
    }
}

/// Returns the number, from 1, of the line that is a header of this word, after `others` earlier headers of it.
pub(crate) fn header_line(file: &[u8], word: &[u8], others: usize) -> Option<usize>
    ensures { result ≡ header_line word.now others (lines_of file.now) }
{
    let mut rest = Some(file);
    let mut number = 1usize;
    let mut left = others;
    while let Some(text) = rest {
        let (line, more) = cut(text);
        if is_header(word, line) {
            if left == 0 {
                return Some(number);
            }
            left -= 1;
        }
        number += 1;
        rest = more;
    }
    None
}

/// Returns whether a text begins with three quotation marks of one kind.
fn begins_text(rest: &[u8]) -> bool
    ensures { result ≡ begins_text rest.now }
{
    match rest {
        [a, b, c, ..] => is_mark(*a) && a == b && b == c,
        _ => false,
    }
}

/// Returns whether three quotation marks of one kind occur in a row.
fn has_text(file: &[u8]) -> bool
    ensures { result ≡ has_text file.now }
{
    for i in 0..file.len() {
        if begins_text(&file[i..]) {
            return true;
        }
    }
    false
}

/// Returns whether some line may have a key or a header in quotation marks.
fn has_quoted(file: &[u8]) -> bool
    ensures { result ≡ list_any is_quoted (lines_of file.now) }
{
    let mut rest = Some(file);
    while let Some(text) = rest {
        let (line, more) = cut(text);
        if is_quoted(line) {
            return true;
        }
        rest = more;
    }
    false
}

/// Returns whether headers can be recognized line by line: no text spans several lines, and no key or header is quoted.
pub(crate) fn is_plain(file: &[u8]) -> bool
    ensures { result ≡ is_plain file.now }
{
    !has_text(file) && !has_quoted(file)
}
