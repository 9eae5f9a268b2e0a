//! Names in a plan.

ghost use Rattle.std.specs.Prelude.{◌≡◌, ◌≤◌, ◌==◌};
ghost use Rattle.std.specs.List.{list_all};
ghost use Rattle.pb_lan.specs.Names.{is_name_letter, is_name};

/// Checks whether an octet is a letter, a digit, a hyphen or an underscore.
fn is_name_letter(c: u8) -> bool
    ensures { result ≡ is_name_letter c }
{
    matches!(c, b'a'..=b'z' | b'A'..=b'Z' | b'0'..=b'9' | b'-' | b'_')
}

/// Checks whether all octets of a text may be in a name.
fn are_name_letters(text: &[u8]) -> bool
    ensures { result ≡ list_all is_name_letter text.now }
{
    text.iter().all(|c| is_name_letter(*c))
}

/// Checks whether a text may be a name in a plan: 1 to 32 letters, digits, hyphens and underscores.
pub fn is_name(text: &[u8]) -> bool
    ensures { result ≡ is_name text.now }
{
    let letters = are_name_letters(text);
    1 <= text.len() && text.len() <= 32 && letters
}
