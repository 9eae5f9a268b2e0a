//! The errors of taps.

use super::{all_text, changed, says};
use std::test::Fail;

/// A mistake: what is in the plan, what is there instead, and the text of the error.
const MISTAKES: &[(&str, &str, &str)] = &[
    (
        "[[service]]",
        "[[tap]]\nlink = \"l1\"\nwrite = \"w\"\n[[service]]",
        "p:20:8: tap[0]: no link is named \"l1\"
    link = \"l1\"
           ^^^^
hint: did you mean \"L1\"?
",
    ),
    (
        "[[service]]",
        "[[tap]]\nlink = \"L1\"\nwrite = \"w\"\ndirection = \"a-b\"\n[[service]]",
        "p:22:13: tap[0]: direction \"a-b\" is not \"ab\", \"ba\" or \"both\"
    direction = \"a-b\"
                ^^^^^
",
    ),
    (
        "[[service]]",
        "[[tap]]\nlink = \"L1\"\nwrite = \"w\"\nstamp = \"time\"\n[[service]]",
        "p:22:9: tap[0]: stamp \"time\" is not allowed without tick_ms
    stamp = \"time\"
            ^^^^^^
",
    ),
    (
        "[[service]]",
        "[[tap]]\nlink = \"L1\"\nread = \"w\"\n[[service]]",
        "p:19:1: tap[0]: write is missing
    [[tap]]
    ^^^^^^^
",
    ),
];

#[test]
fn each_mistake_in_a_tap_has_its_place(rt: HostRuntime) -> Result<(), Fail> {
    let alloc = rt.alloc();
    for (old, new, want) in MISTAKES {
        let file = changed(alloc, old, new)?;
        says(&rt, alloc, file.as_bytes(), want)?;
    }
    Ok(())
}

/// Three mistakes in taps.
const TAPS: &str = r#"[[tap]]
link = "L2"
writ = "w"
[[tap]]
link = "L1"
write = 5
stamp = "time"
[[service]]"#;

/// Their errors.
const TAP_ERRORS: &str = r#"p:19:1: tap[0]: write is missing
    [[tap]]
    ^^^^^^^
p:21:1: tap[0]: unknown key writ
    writ = "w"
    ^^^^
hint: did you mean "write"?
p:20:8: tap[0]: no link is named "L2"
    link = "L2"
           ^^^^
hint: did you mean "L1"?
p:24:9: tap[1]: write 5 is not a string
    write = 5
            ^
p:25:9: tap[1]: stamp "time" is not allowed without tick_ms
    stamp = "time"
            ^^^^^^
"#;

#[test]
fn all_mistakes_in_taps_are_reported(rt: HostRuntime) -> Result<(), Fail> {
    let alloc = rt.alloc();
    let file = changed(alloc, "[[service]]", TAPS)?;
    let text = all_text(alloc, file.as_bytes())?;
    assert!(rt; text.as_str() == TAP_ERRORS, "{text}");
    Ok(())
}
