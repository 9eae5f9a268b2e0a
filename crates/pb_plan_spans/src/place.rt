//! The header to which the path of a key leads.

ghost use Rattle.std.specs.Prelude.{◌≡◌, ◌==◌};
ghost use Rattle.std.specs.List.{position};
ghost use Rattle.std.specs.Option.{option_map};
ghost use Rattle.pb_plan_spans.specs.Places.{is_value, number_in, parted, row_in, place_in};

/// Returns whether the word is a TOML value by itself (`true`, `false`, `inf`, `nan`) or begins as a number does.
pub(crate) fn is_value(word: &[u8]) -> bool
    ensures { result ≡ is_value word.now }
{
    match word {
        [b'0'..=b'9' | b'-', ..] => true,
        b"true" | b"false" | b"inf" | b"nan" => true,
        _ => false,
    }
}

/// Returns the number that one to three decimal digits denote.
fn number_in(text: &[u8]) -> Option<usize>
    ensures { result ≡ number_in text.now }
{
    match text {
        [a @ b'0'..=b'9'] => Some(usize::from(*a - 48)),
        [a @ b'0'..=b'9', b @ b'0'..=b'9'] => {
            Some(usize::from(*a - 48) * 10 + usize::from(*b - 48))
        }
        [a @ b'0'..=b'9', b @ b'0'..=b'9', c @ b'0'..=b'9'] => {
            Some(usize::from(*a - 48) * 100 + usize::from(*b - 48) * 10 + usize::from(*c - 48))
        }
        _ => None,
    }
}

/// Returns the index of the first octet with this value.
fn place_of(text: &[u8], mark: u8) -> Option<usize>
    ensures { result ≡ position (λ b. b == mark) text.now }
{
    text.iter().position(|b| *b == mark)
}

/// Returns the text before the first octet with this value, and the text after it.
pub(crate) fn parted(text: &[u8], mark: u8) -> Option<(&[u8], &[u8])>
    ensures { option_map (λ p. (p.0.now, p.1.now)) result ≡ parted mark text.now }
{
    let at = place_of(text, mark)?;
    Some((&text[..at], &text[at + 1..]))
}

/// Returns WORD and N of `WORD[N].KEY`.
fn row_in(path: &[u8]) -> Option<(&[u8], usize)>
    ensures { option_map (λ p. (p.0.now, p.1)) result ≡ row_in path.now }
{
    let (word, rest) = parted(path, b'[')?;
    let (digits, _) = parted(rest, b']')?;
    let index = number_in(digits)?;
    Some((word, index))
}

/// Returns the word of the header to which the path of a key leads, and the number of earlier headers of this word.
pub(crate) fn place_in(path: &[u8]) -> (&[u8], usize)
    ensures { (result.0.now, result.1) ≡ place_in path.now }
{
    if path.starts_with(b"network.") {
        return (&path[..7], 0);
    }
    match row_in(path) {
        Some(place) => place,
        None => (path, 0),
    }
}
