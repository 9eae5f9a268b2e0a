//! One line of a TOML text.

ghost use Rattle.std.specs.Prelude.{◌≡◌, ◌==◌, ◌≤◌, ◌<◌, length, reverse, IfSome};
ghost use Rattle.std.specs.List.{position};
ghost use Rattle.pb_diagnostics.specs.Lines.{is_blank, indent, code_length, first_line, is_rest, position_of};
ghost use Rattle.pb_diagnostics.specs.Lines.{has_header};

/// Returns whether an octet is a space, a tab or the carriage return of a line's end.
fn is_blank(octet: u8) -> bool
    ensures { result ≡ is_blank octet }
{
    matches!(octet, b' ' | b'\t' | b'\r')
}

/// Returns the number of blanks at the beginning of a line.
pub(crate) fn indent(line: &[u8]) -> usize
    ensures value { result ≡ indent line.now }
    ensures within { result ≤ length line.now }
{
    line.iter().take_while(|b| is_blank(**b)).count()
}

/// Returns the number of blanks at the end of a line.
fn trailing(line: &[u8]) -> usize
    ensures { result ≡ indent (reverse line.now) }
{
    line.iter().rev().take_while(|b| is_blank(**b)).count()
}

/// Returns the length of a line without the blanks at its end.
pub(crate) fn code_length(line: &[u8]) -> usize
    ensures value { result ≡ code_length line.now }
    ensures within { result ≤ length line.now }
{
    line.len().saturating_sub(trailing(line))
}

/// Returns the index of the first octet with this value.
fn find(line: &[u8], octet: u8) -> Option<usize>
    ensures value { result ≡ position (λ b. b == octet) line.now }
    ensures within { IfSome result (λ index. index < length line.now) }
{
    line.iter().position(|b| *b == octet)
}

/// Returns the index of the first octet with this value, or the length of the line.
pub(crate) fn position_of(line: &[u8], octet: u8) -> usize
    ensures value { result ≡ position_of octet line.now }
    ensures within { result ≤ length line.now }
{
    match find(line, octet) {
        Some(index) => index,
        None => line.len(),
    }
}

/// Returns the first line of a text, without the blanks at its end.
pub(crate) fn first_line(text: &[u8]) -> &[u8]
    ensures value { result.now ≡ first_line text.now }
    ensures within { length result.now ≤ length text.now }
{
    let line = &text[..position_of(text, b'\n')];
    &line[..code_length(line).min(line.len())]
}

/// Returns whether a line is the header of a table.
pub(crate) fn is_header(line: &[u8]) -> bool
    ensures { result ≡ has_header line.now }
{
    let start = indent(line);
    start < line.len() && line[start] == b'['
}

/// Returns whether the rest of a line has only blanks and a comment.
pub(crate) fn is_rest(rest: &[u8]) -> bool
    ensures { result ≡ is_rest rest.now }
{
    let start = indent(rest);
    start >= rest.len() || rest[start] == b'#'
}
