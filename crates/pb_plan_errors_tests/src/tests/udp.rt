//! The errors of ports over datagrams, and of length fields.

use super::{all_text, changed, says};
use std::test::Fail;

/// A mistake: what follows the line `port = 2` of port C1, which is line 26, and the text of the error.
const MISTAKES: &[(&str, &str)] = &[
    (
        "kind = \"udp\"\nlocal = \"127.0.0.1:4790\"\nremote = \"[::1]:4789\"\nvni = 5",
        "p:29:10: port \"C1\": remote \"[::1]:4789\" is not of the family of local
    remote = \"[::1]:4789\"
             ^^^^^^^^^^^^
",
    ),
    (
        "kind = \"udp\"\nlocal = \"127.0.0.1:0\"\nremote = \"127.0.0.1:0\"\nvni = 5",
        "p:28:9: port \"C1\": local \"127.0.0.1:0\" is not an address with a port in 1..65535 such as \
        \"127.0.0.1:4790\" or \"[::1]:4790\"
    local = \"127.0.0.1:0\"
            ^^^^^^^^^^^^^
",
    ),
    (
        "kind = \"udp\"\nlocal = \"127.0.0.1:4790\"\nremote = \"127.0.0.1\"\nvni = 5",
        "p:29:10: port \"C1\": remote \"127.0.0.1\" is not an address with a port in 1..65535 such as \
        \"127.0.0.1:4790\" or \"[::1]:4790\"
    remote = \"127.0.0.1\"
             ^^^^^^^^^^^
",
    ),
    (
        "kind = \"udp\"\nlocal = \"[::1]:1\"\nremote = \"[::1]:2\"\nvni = 16777216",
        "p:30:7: port \"C1\": vni 16777216 is not in 0..16777215
    vni = 16777216
          ^^^^^^^^
",
    ),
    (
        "kind = \"udp\"\nlocal = \"[::1]:1\"\nremote = \"[::1]:2\"\nvni = \"5\"",
        "p:30:7: port \"C1\": vni \"5\" is not an integer
    vni = \"5\"
          ^^^
",
    ),
    (
        "kind = \"udp\"\nlocal = \"[::1]:1\"\nremote = \"[::1]:2\"\nencap = \"gre\"",
        "p:30:9: port \"C1\": encap \"gre\" is not \"vxlan\" or \"none\"
    encap = \"gre\"
            ^^^^^
",
    ),
    (
        "kind = \"udp\"\nlocal = \"[::1]:1\"\nremote = \"[::1]:2\"\nencap = \"none\"\nvni = 5",
        "p:31:1: port \"C1\": unknown key vni
    vni = 5
    ^^^
hint: vni is for kind \"udp\" with encap \"vxlan\"
",
    ),
    (
        "kind = \"socket\"\npath = \"p\"\nremote = \"[::1]:2\"",
        "p:29:1: port \"C1\": unknown key remote
    remote = \"[::1]:2\"
    ^^^^^^
hint: remote is for kind \"udp\"
",
    ),
    (
        "local = \"[::1]:2\"",
        "p:27:1: port \"C1\": unknown key local
    local = \"[::1]:2\"
    ^^^^^
hint: local is for kind \"udp\"
",
    ),
    (
        "encap = \"none\"",
        "p:27:1: port \"C1\": unknown key encap
    encap = \"none\"
    ^^^^^
hint: encap is for kind \"udp\"
",
    ),
    (
        "framing = 4",
        "p:27:1: port \"C1\": unknown key framing
    framing = 4
    ^^^^^^^
hint: framing is for kind \"socket\"
",
    ),
    (
        "kind = \"udp\"\nlocal = \"[::1]:1\"\nremote = \"[::1]:2\"\nvni = 5\nframing = 4",
        "p:31:1: port \"C1\": unknown key framing
    framing = 4
    ^^^^^^^
hint: framing is for kind \"socket\"
",
    ),
    (
        "kind = \"socket\"\nlisten = \"p\"\nframing = 3",
        "p:29:11: port \"C1\": framing 3 is not 2 or 4
    framing = 3
              ^
",
    ),
    (
        "kind = \"socket\"\nlisten = \"p\"\nframing = \"4\"",
        "p:29:11: port \"C1\": framing \"4\" is not an integer
    framing = \"4\"
              ^^^
",
    ),
    (
        "kind = \"udp\"\nlocal = \"[::1]:1\"\nremot = \"[::1]:2\"",
        "p:23:1: port \"C1\": remote is missing
    [[port]]
    ^^^^^^^^
",
    ),
];

#[test]
fn each_mistake_in_a_port_over_datagrams_has_its_place(rt: HostRuntime) -> Result<(), Fail> {
    let alloc = rt.alloc();
    for (keys, want) in MISTAKES {
        let keys = format!(in alloc; "port = 2\n{keys}")?;
        let file = changed(alloc, "port = 2", keys.as_str())?;
        says(&rt, alloc, file.as_bytes(), want)?;
    }
    Ok(())
}

/// Keys of port C1 with several mistakes each, and the text of all errors.
const SEVERAL: &[(&str, &str)] = &[
    (
        "kind = \"udp\"\nremot = \"[::1]:2\"",
        "p:23:1: port \"C1\": local is missing
    [[port]]
    ^^^^^^^^
p:23:1: port \"C1\": remote is missing
    [[port]]
    ^^^^^^^^
p:23:1: port \"C1\": vni is missing
    [[port]]
    ^^^^^^^^
p:28:1: port \"C1\": unknown key remot
    remot = \"[::1]:2\"
    ^^^^^
hint: did you mean \"remote\"?
",
    ),
    (
        "kind = \"upd\"\nlocal = \"[::1]:1\"\nremote = \"[::1]:2\"\nencap = \"vxlna\"\nvni = 5",
        "p:27:8: port \"C1\": kind \"upd\" is not \"memory\", \"capture\", \"record\", \"replay\", \"socket\" or \"udp\"
    kind = \"upd\"
           ^^^^^
p:30:9: port \"C1\": encap \"vxlna\" is not \"vxlan\" or \"none\"
    encap = \"vxlna\"
            ^^^^^^^
",
    ),
    (
        "kind = \"udp\"\nlocal = \"[::1\"\nremote = \"[::1]:2\"\nencap = \"non\"",
        "p:28:9: port \"C1\": local \"[::1\" is not an address with a port in 1..65535 such as \"127.0.0.1:4790\" or \
        \"[::1]:4790\"
    local = \"[::1\"
            ^^^^^^
p:30:9: port \"C1\": encap \"non\" is not \"vxlan\" or \"none\"
    encap = \"non\"
            ^^^^^
",
    ),
    (
        "kind = \"udp\"\nlocal = \"[::1]:1\"\nremote = \"0.0.0.0:1\"\nvni = -1",
        "p:30:7: port \"C1\": vni -1 is not in 0..16777215
    vni = -1
          ^^
p:29:10: port \"C1\": remote \"0.0.0.0:1\" is not of the family of local
    remote = \"0.0.0.0:1\"
             ^^^^^^^^^^^
",
    ),
];

#[test]
fn all_mistakes_in_ports_over_datagrams_are_reported(rt: HostRuntime) -> Result<(), Fail> {
    let alloc = rt.alloc();
    for (keys, want) in SEVERAL {
        let keys = format!(in alloc; "port = 2\n{keys}")?;
        let file = changed(alloc, "port = 2", keys.as_str())?;
        let text = all_text(alloc, file.as_bytes())?;
        assert!(rt; text.as_str() == *want, "{text}\nis not\n{want}");
    }
    Ok(())
}
