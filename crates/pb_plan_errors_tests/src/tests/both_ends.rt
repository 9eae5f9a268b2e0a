//! The errors of the keys for both ends of a link.

use super::{all_text, changed, says};
use std::test::Fail;

/// A mistake: what is in place of the line `b_port = 1`, which is line 17, and the text of the error.
const MISTAKES: &[(&str, &str)] = &[
    (
        "b_port = 1\ncost = 6\na_cost = 5",
        "p:19:10: link \"L1\": a_cost 5 is not allowed beside cost
    a_cost = 5
             ^
hint: cost is for both ends; remove a_cost or cost
",
    ),
    (
        "b_port = 1\nb_services = [\"red\"]\nservices = [\"red\"]",
        "p:18:14: link \"L1\": b_services is not allowed beside services
    b_services = [\"red\"]
                 ^^^^^^^
hint: services is for both ends; remove b_services or services
",
    ),
    (
        "b_port = 1\na_cost = 0\ncost = 6",
        "p:18:10: link \"L1\": a_cost 0 is not in 1..200000000
    a_cost = 0
             ^
hint: cost is for both ends; remove a_cost or cost
",
    ),
    (
        "b_port = 1\na_services = [\"red\", \"red\"]\nservices = []",
        "p:18:14: link \"L1\": a_services is not an array of different names
    a_services = [\"red\", \"red\"]
                 ^^^^^^^^^^^^^^
hint: services is for both ends; remove a_services or services
",
    ),
    (
        "b_port = 1\na_services = [\"r d\"]",
        "p:18:14: link \"L1\": a_services is not an array of different names
    a_services = [\"r d\"]
                 ^^^^^^^
",
    ),
    (
        "b_port = 1\na_cost = 5\ncost = 0",
        "p:19:8: link \"L1\": cost 0 is not in 1..200000000
    cost = 0
           ^
",
    ),
    (
        "b_port = 1\ncost = \"6\"",
        "p:18:8: link \"L1\": cost \"6\" is not an integer
    cost = \"6\"
           ^^^
",
    ),
    (
        "b_port = 1\nservices = \"red\"",
        "p:18:12: link \"L1\": services \"red\" is not an array of strings
    services = \"red\"
               ^^^^^
",
    ),
    (
        "b_port = 1\nservices = [\"rod\"]",
        "p:18:12: link \"L1\": no service is named \"rod\"
    services = [\"rod\"]
               ^^^^^^^
hint: did you mean \"red\"?
",
    ),
    (
        "b_port = 1\nservice = [\"red\"]",
        "p:18:1: link \"L1\": unknown key service
    service = [\"red\"]
    ^^^^^^^
hint: did you mean \"services\"?
",
    ),
];

#[test]
fn each_mistake_with_a_key_for_both_ends_has_its_place(rt: HostRuntime) -> Result<(), Fail> {
    let alloc = rt.alloc();
    for (new, want) in MISTAKES {
        let file = changed(alloc, "b_port = 1", new)?;
        says(&rt, alloc, file.as_bytes(), want)?;
    }
    Ok(())
}

/// Keys of both ends and those for both.
const FOUR: &str = "b_port = 1
a_cost = 5
b_cost = 6
cost = 7
services = [\"rod\", \"red\"]
a_services = []";

/// Their errors.
const FOUR_ERRORS: &str = "p:18:10: link \"L1\": a_cost 5 is not allowed beside cost
    a_cost = 5
             ^
hint: cost is for both ends; remove a_cost or cost
p:19:10: link \"L1\": b_cost 6 is not allowed beside cost
    b_cost = 6
             ^
hint: cost is for both ends; remove b_cost or cost
p:22:14: link \"L1\": a_services is not allowed beside services
    a_services = []
                 ^^
hint: services is for both ends; remove a_services or services
p:21:12: link \"L1\": no service is named \"rod\"
    services = [\"rod\", \"red\"]
               ^^^^^^^^^^^^^^
hint: did you mean \"red\"?
";

#[test]
fn each_key_beside_that_for_both_ends_is_reported(rt: HostRuntime) -> Result<(), Fail> {
    let file = changed(rt.alloc(), "b_port = 1", FOUR)?;
    let text = all_text(rt.alloc(), file.as_bytes())?;
    assert!(rt; text.as_str() == FOUR_ERRORS, "{text}");
    Ok(())
}
