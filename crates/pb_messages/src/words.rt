//! The arguments of a line.

ghost use Rattle.std.specs.Prelude.{◌≡◌, ◌≤◌, ◌<◌, ◌+◌, ◌==◌, ◌++◌, ◌∷◌, Some, None, IfSome, IfNone, length, take};
ghost use Rattle.std.specs.Prelude.{drop};
ghost use Rattle.std.specs.List.{position};
ghost use Rattle.pb_messages.specs.Words.{cut as cut_at, HasNoSpace, port_of, local_port};

/// Returns the index of the first space.
fn space_in(text: &[u8]) -> Option<usize>
    ensures place { result ≡ position (λ c. c == 32) text.now }
    ensures some { IfSome result (λ i. (i < length text.now)
        × (text.now ≡ take i text.now ++ 32 ∷ drop (i + 1) text.now) × HasNoSpace (take i text.now)) }
    ensures none { IfNone result (HasNoSpace text.now) }
{
    text.iter().position(|c| *c == b' ')
}

/// Splits a text at its first space, which is in neither part. Returns None if there is no space.
pub fn cut(text: &[u8]) -> Option<(&[u8], &[u8])>
    ensures some { IfSome result (λ parts. cut_at text.now ≡ Some (parts.0.now, parts.1.now)) }
    ensures none { IfNone result (cut_at text.now ≡ None) }
    ensures parts { IfSome result (λ parts. (text.now ≡ parts.0.now ++ 32 ∷ parts.1.now) × HasNoSpace parts.0.now) }
    ensures whole { IfNone result (HasNoSpace text.now) }
{
    match space_in(text) {
        Some(i) => Some((&text[..i], &text[i + 1..])),
        None => None,
    }
}

/// Returns the number of a port: one to three decimal digits, the first not 0. Returns None for any other text.
pub fn read_port(digits: &[u8]) -> Option<u16>
    ensures { result ≡ port_of digits.now }
{
    match digits {
        [a @ b'1'..=b'9'] => Some(u16::from(*a - 48)),
        [a @ b'1'..=b'9', b @ b'0'..=b'9'] => Some(u16::from(*a - 48) * 10 + u16::from(*b - 48)),
        [a @ b'1'..=b'9', b @ b'0'..=b'9', c @ b'0'..=b'9'] => {
            Some(u16::from(*a - 48) * 100 + u16::from(*b - 48) * 10 + u16::from(*c - 48))
        }
        _ => None,
    }
}

/// Returns the local port of a bridge, 1 to 16. Returns 0, which is no port, for a number above 16.
pub fn local_port(number: u16) -> u8
    ensures { result ≡ local_port number }
{
    if number <= 16 { number as u8 } else { 0 }
}
