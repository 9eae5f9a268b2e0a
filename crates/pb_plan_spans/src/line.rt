//! One line of a plan file.

ghost use Rattle.std.specs.Prelude.{◌≡◌, ◌==◌, ◌∷◌, [], codes, ◌++◌, length};
ghost use Rattle.std.specs.Option.{option_map};
ghost use Rattle.std.specs.List.{list_any};
ghost use Rattle.pb_frame.specs.Admission.{same};
ghost use Rattle.pb_plan_spans.specs.Lines.{is_blank, is_header, squeezed, is_mark, quotes, is_quoted};
ghost use Rattle.pb_plan_spans.specs.Stripping.{behind};

/// Returns whether the octet is a space, a tab, a carriage return, or one of those of the byte order mark that may
/// begin a file.
fn is_blank(b: u8) -> bool
    ensures { result ≡ is_blank b }
{
    matches!(b, b' ' | b'\t' | b'\r' | 0xEF | 0xBB | 0xBF)
}

/// Returns the rest of a line after this octet, if the octet is its first one apart from blanks.
fn behind_octet(line: &[u8], octet: u8) -> Option<&[u8]>
    ensures { option_map (λ rest. squeezed rest.now) result ≡ behind (octet ∷ []) (squeezed line.now) }
{
    for (i, b) in line.iter().enumerate() {
        if *b == b'#' {
            return None;
        }
        if !is_blank(*b) {
            return if *b == octet {
                Some(&line[i + 1..])
            } else {
                None
            };
        }
    }
    None
}

/// Returns the rest of a line after this text, if the line begins with the text apart from blanks.
fn behind<'a>(line: &'a [u8], text: &[u8]) -> Option<&'a [u8]>
    ensures { option_map (λ rest. squeezed rest.now) result ≡ behind text.now (squeezed line.now) }
{
    let mut rest = line;
    for octet in text {
        rest = behind_octet(rest, *octet)?;
    }
    Some(rest)
}

/// Returns whether a line has only blanks and a comment.
fn is_empty(line: &[u8]) -> bool
    ensures { result ≡ (length (squeezed line.now) == 0) }
{
    for b in line {
        if *b == b'#' {
            return true;
        }
        if !is_blank(*b) {
            return false;
        }
    }
    true
}

/// Returns whether a line consists of these three texts in turn, apart from blanks and a comment.
fn is_made_of(line: &[u8], before: &[u8], word: &[u8], after: &[u8]) -> bool
    ensures { result ≡ same (squeezed line.now) (before.now ++ word.now ++ after.now) }
{
    let Some(line) = behind(line, before) else {
        return false;
    };
    let Some(line) = behind(line, word) else {
        return false;
    };
    let Some(line) = behind(line, after) else {
        return false;
    };
    is_empty(line)
}

/// Returns whether a line is `[word]` or `[[word]]`, apart from blanks and a comment.
pub(crate) fn is_header(word: &[u8], line: &[u8]) -> bool
    ensures { result ≡ is_header word.now line.now }
{
    is_made_of(line, b"[", word, b"]") || is_made_of(line, b"[[", word, b"]]")
}

/// Returns whether the octet is a quotation mark.
pub(crate) fn is_mark(b: u8) -> bool
    ensures { result ≡ is_mark b }
{
    b == b'"' || b == b'\''
}

/// Returns whether a quotation mark occurs before the comment.
fn quotes(line: &[u8]) -> bool
    ensures { result ≡ quotes line.now }
{
    for b in line {
        if *b == b'#' {
            return false;
        }
        if is_mark(*b) {
            return true;
        }
    }
    false
}

/// Returns whether an equals sign occurs in a line.
fn has_equals(line: &[u8]) -> bool
    ensures { result ≡ list_any (λ x. x == 61) line.now }
{
    line.iter().any(|x| *x == b'=')
}

/// Returns whether a line is a header with a quotation mark, or begins with a quotation mark and has an equals sign.
pub(crate) fn is_quoted(line: &[u8]) -> bool
    ensures { result ≡ is_quoted line.now }
{
    for (i, b) in line.iter().enumerate() {
        if is_blank(*b) {
            continue;
        }
        let rest = &line[i + 1..];
        return if *b == b'[' {
            quotes(rest)
        } else {
            is_mark(*b) && has_equals(rest)
        };
    }
    false
}
