//! Arguments of lines: the parts around a space, the digits of a port, names.

use pb_lan::is_name;
use pb_messages::{cut, local_port, read_port};

/// A text, and the parts before and after its first space.
type Parts = (&'static [u8], Option<(&'static [u8], &'static [u8])>);

/// Texts with their parts.
const PARTS: &[Parts] = &[
    (b"in 1 ff", Some((b"in", b"1 ff"))),
    (b" x", Some((b"", b"x"))),
    (b"x ", Some((b"x", b""))),
    (b"a-b", None),
    (b"", None),
];

#[test]
fn a_text_is_cut_at_its_first_space(rt: HostRuntime) {
    for (text, want) in PARTS {
        assert!(rt; cut(text) == *want);
    }
}

/// Digits, and the number that they denote.
const NUMBERS: &[(&[u8], Option<u16>)] = &[
    (b"1", Some(1)),
    (b"16", Some(16)),
    (b"999", Some(999)),
    (b"0", None),
    (b"01", None),
    (b"1000", None),
    (b"1a", None),
    (b"", None),
];

#[test]
fn one_to_three_digits_say_a_port(rt: HostRuntime) {
    for (digits, want) in NUMBERS {
        assert!(rt; read_port(digits) == *want);
    }
    assert!(rt; local_port(16) == 16);
    assert!(rt; local_port(17) == 0);
}

/// Texts, and whether they are names.
const NAMES: &[(&[u8], bool)] = &[
    (b"a", true),
    (b"Bridge-7_x", true),
    (b"abcdefghijklmnopqrstuvwxyz012345", true),
    (b"abcdefghijklmnopqrstuvwxyz0123456", false),
    (b"a b", false),
    (b"", false),
];

#[test]
fn a_name_has_one_to_thirty_two_letters(rt: HostRuntime) {
    for (text, want) in NAMES {
        assert!(rt; is_name(text) == *want);
    }
}
