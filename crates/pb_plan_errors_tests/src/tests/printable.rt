//! Texts of a file that have control characters.

use super::says;
use pb_printable::put_printable;
use std::test::Fail;

/// Texts, and how they are printed.
const TEXTS: &[(&str, &str)] = &[
    ("", ""),
    ("B1", "B1"),
    ("a\\n b", "a\\n b"),
    ("a\nfault: memory", "a\\nfault: memory"),
    ("\r\n\t", "\\r\\n\\t"),
    ("x\u{1b}[31m", "x\\u001b[31m"),
    ("\u{0}\u{8}\u{1f} ~\u{7f}", "\\u0000\\u0008\\u001f ~\\u007f"),
    ("\u{80}\u{9b}\u{9f}\u{a0}", "\\u0080\\u009b\\u009f\u{a0}"),
    ("\u{e4}\u{20ac}\u{1f600}", "\u{e4}\u{20ac}\u{1f600}"),
];

#[test]
fn control_characters_are_escaped(rt: HostRuntime) -> Result<(), Fail> {
    for (text, want) in TEXTS {
        let mut out = String::new(rt.alloc());
        out.push_str("key ")?;
        put_printable(&mut out, text)?;
        let printed = out.as_str();
        assert!(rt; printed.len() >= 4);
        assert_eq!(rt; &printed.as_bytes()[4..], want.as_bytes());
    }
    Ok(())
}

#[test]
fn a_message_is_one_line(rt: HostRuntime) -> Result<(), Fail> {
    let alloc = rt.alloc();
    says(
        &rt,
        alloc,
        b"\"a\\nfault: memory\" = 1\n",
        "p:1:1: unknown key a\\nfault: memory
    \"a\\nfault: memory\" = 1
    ^^^^^^^^^^^^^^^^^^
",
    )?;
    says(
        &rt,
        alloc,
        b"\"x\\n[0].b\" = 1\n",
        "p: x\\n[0]: unknown key b
",
    )
}
