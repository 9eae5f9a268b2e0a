//! A place in a file.

ghost use Rattle.std.specs.Prelude.{◌≡◌, ◌==◌, ◌≤◌, not, length, reverse, count_by, take_while};
ghost use Rattle.pb_plan_spans.specs.Spots.{octet_spot, line_spot};

use std::fmt;

/// A place in a file: an octet or a whole line.
#[derive(Clone, Copy, Debug, PartialEq, Eq)]
pub struct Spot {
    /// The line, counted from 1.
    pub line: usize,
    /// The octet of the line, counted from 1. `None` means the whole line.
    pub column: Option<usize>,
}

impl fmt::Display for Spot {
    ghost use Rattle.std.specs.Prelude.{Some};
    ghost use Rattle.pb_plan_spans.specs.Spots.{spot_text};

    ghost output = { λ spot. Some (spot_text spot) };

    fn fmt<W: fmt::Write>(&self, f: &mut fmt::Formatter<W>) -> fmt::Result {
        let line = self.line;
        match self.column {
            Some(column) => write!(f, "line {line}, column {column}"),
            None => write!(f, "line {line}"),
        }
    }
}

/// Returns the number of line feeds in a text.
fn ended_lines(text: &[u8]) -> usize
    ensures { result ≡ count_by (λ b. b == 10) text.now }
{
    text.iter().filter(|b| **b == b'\n').count()
}

/// Returns the length of the last line of a text, in octets.
fn last_length(text: &[u8]) -> usize
    ensures { result ≡ length (take_while (λ b. not (b == 10)) (reverse text.now)) }
{
    text.iter().rev().take_while(|b| **b != b'\n').count()
}

/// Returns the place of the octet that has so many before it.
pub(crate) fn octet_spot(file: &[u8], before: usize) -> Spot
    requires { before ≤ length file.now }
    ensures { result ≡ octet_spot file.now before }
{
    let before = &file[..before];
    Spot {
        line: ended_lines(before) + 1,
        column: Some(last_length(before) + 1),
    }
}

/// Returns the place that is a whole line.
pub(crate) fn line_spot(line: usize) -> Spot
    ensures { result ≡ line_spot line }
{
    Spot { line, column: None }
}
