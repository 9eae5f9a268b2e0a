//! Reports with their documents.

use super::Said;

/// A run with counts.
pub(super) const COUNTED: &str =
    "ended limit\nport C1 entered 2 left 1 filtered 0\nlink L1 ab taken 3 lost 1 ba taken 4 lost 0\nforest no\n\
    loop red\nloop blue\nsettled no\nfault: port C1 13\nfault: memory\n";

/// A network under failures.
pub(super) const FAILED: &str =
    "nothing down: converged ticks 3 forest no\n  loop red\n  service red: C1 C2 | C3 | C4\n\
    service red is disconnected\nservice red has a forwarding loop\nnot healthy with nothing down: 1 service\n\
    link ring5 down: converged ticks 3 forest yes\n  service red: C1 | C2\n\
    links a b down: not converged ticks 200 forest no\n  C1 cut off from: C2 C3\n\
    bridge B1 down: states given forest yes\nchecked 5 links, 3 bridges, 2 pairs\n\
    7 of 10 failures disconnect nothing\nconverges within 7 ticks\n3 of 10 failures disconnect a service\n\
    1 of 10 failures form a forwarding loop\n2 of 10 failures do not converge\n\
    not healthy with nothing down: 1 service\n";

/// A report of `survive` with accepted failures, and with acceptances that are not needed.
const ACCEPTED: &str =
    "nothing down: states given forest yes\n  service red: C1 C2\nhealthy with nothing down\n\
    accepted link leaf down: converged ticks 3 forest yes\n  service red: C1 | C2\n\
    link a down: states given forest yes\n  service red: C1 | C2\n\
    accepted links a leaf down: states given forest yes\n  C1 cut off from: C2\n\
    checked 4 links, 6 pairs\n8 of 10 failures disconnect nothing\n2 of 10 failures are accepted\n\
    stale acceptance: link b service red\nstale acceptance: bridge B1\n\
    stale acceptance: links a b service red\nuntried acceptance: bridge B2 service red\n\
    untried acceptance: links b c\nsurvives the failure of any two links, but for accepted disconnections\n";

/// A run with losses, and with paths that it could not use.
const LOST: &str =
    "ended drained\nport C1: 3 frames not written\nport C3: 7 frames not sent: Message too long (os error 90)\n\
    port C3: 9 datagrams dropped: other-network\nport C3: 1 receives failed: Cannot allocate memory\n\
    tap of link L1: 5 frames not written\n\
    bridge B2 port 1: 2571 copies not queued: full\n\
    bridge B2 port 1: 4 BPDUs not queued: memory\nbridge B2: 17 sources not learnt: full\n\
    bridge B2 port 3: 6 frames dropped: not-member\nbridge B2 port 3: 2 frames dropped: no-port\n\
    bridges not converged\n\
    error: port C1: write out/a.pcap: also the plan file\nerror: port C2: cannot read in.pcap: it is a pcapng file\n\
    error: port C3: bind 10.0.0.1:4789: Address already in use (os error 98)\n\
    error: tap of link L1: write out/l1.pcap: No such file or directory (os error 2)\n\
    error: cannot create control socket out/net: File exists\nwarning: 1 event did not take place\nhint: convert it\n";

/// Reports of `check`.
pub(super) const CHECKS: &[Said] = &[
    Said {
        text: "ok bridges 2 links 1 services 1 ports 2\nforest yes\n",
        json: r#"{"counts": {"bridges": 2, "links": 1, "services": 1, "ports": 2}, "forest": true,
            "loops": [], "warnings": []}"#,
    },
    Said {
        text: "ok bridges 3 links 3 services 2 ports 4\nforest no\nloop red\n",
        json: r#"{"counts": {"bridges": 3, "links": 3, "services": 2, "ports": 4}, "forest": false,
            "loops": ["red"], "warnings": []}"#,
    },
    Said {
        text: "ok bridges 2 links 1 services 2 ports 2\nforest yes\nwarning: file:26: service \"blue\" has no port\n\
            warning: file: bridge \"B1\" has no links\n",
        json: r#"{"counts": {"bridges": 2, "links": 1, "services": 2, "ports": 2}, "forest": true, "loops": [],
            "warnings": [{"line": 26, "message": "service \"blue\" has no port"},
                {"message": "bridge \"B1\" has no links"}]}"#,
    },
    Said {
        text: "plan: 3 missing bridge.name\n",
        json: r#"{"plan_fault": {"rule": 3, "fault": "missing", "name": "bridge.name", "errors": []},
            "loops": [], "warnings": []}"#,
    },
    Said {
        text: "plan: 1 utf8\n",
        json: r#"{"plan_fault": {"rule": 1, "fault": "utf8", "errors": []}, "loops": [], "warnings": []}"#,
    },
    Said {
        text: "plan: 8 no-such B3\nerror: 15:5: a: b.toml\tno bridge is named \"B3\"\tdid you mean \"B1\"?\n\
            error: 2:8: a: b.toml\tageing 5: no\nerror: p\tunknown key \"a: b\"\n",
        json: r#"{"plan_fault": {"rule": 8, "fault": "no-such", "name": "B3", "errors": [
            {"line": 15, "column": 5, "file": "a: b.toml", "message": "no bridge is named \"B3\"",
                "hint": "did you mean \"B1\"?"},
            {"line": 2, "column": 8, "file": "a: b.toml", "message": "ageing 5: no"},
            {"file": "p", "message": "unknown key \"a: b\""}]}, "loops": [], "warnings": []}"#,
    },
    Said {
        text: "plan: 6 unknown a\nb \"c\"\n",
        json: r#"{"plan_fault": {"rule": 6, "fault": "unknown", "name": "a", "errors": []},
            "loops": [], "warnings": [], "other": ["b \"c\""]}"#,
    },
    Said {
        text: "fault: path\n",
        json: r#"{"fault": "path", "loops": [], "warnings": []}"#,
    },
    Said {
        text: "",
        json: r#"{"loops": [], "warnings": []}"#,
    },
];

/// Reports of `run`.
pub(super) const RUNS: &[Said] = &[
    Said {
        text: COUNTED,
        json: r#"{"ended": "limit", "ports": [{"name": "C1", "entered": 2, "left": 1, "filtered": 0}],
            "links": [{"name": "L1", "ab_taken": 3, "ab_lost": 1, "ba_taken": 4, "ba_lost": 0}], "forest": false,
            "loops": ["red", "blue"], "settled": false, "port_faults": [{"port": "C1", "code": 13}],
            "losses": [], "drops": [], "paths": [], "warnings": [],
            "fault": "memory"}"#,
    },
    Said {
        text: "port C1 entered 18446744073709551615 left 0 filtered 007\n",
        json: r#"{"ports": [], "links": [], "loops": [], "port_faults": [], "losses": [], "drops": [], "paths": [],
            "warnings": [], "other": ["port C1 entered 18446744073709551615 left 0 filtered 007"]}"#,
    },
    Said {
        text: "port C1 entered 18446744073709551615 left 0 filtered 7\nfault: spawn\n",
        json: r#"{"ports": [{"name": "C1", "entered": 18446744073709551615, "left": 0, "filtered": 7}], "links": [],
            "loops": [], "port_faults": [], "losses": [], "drops": [], "paths": [], "warnings": [], "fault": "spawn"}"#,
    },
    Said {
        text: LOST,
        json: r#"{"ended": "drained", "ports": [], "links": [], "loops": [], "port_faults": [], "losses": [
                {"port": "C1", "count": 3, "what": "frames not written"},
                {"port": "C3", "count": 7, "what": "frames not sent", "why": "Message too long (os error 90)"},
                {"link": "L1", "count": 5, "what": "frames not written"},
                {"bridge": "B2", "bridge_port": 1, "count": 2571, "what": "copies not queued", "cause": "full"},
                {"bridge": "B2", "bridge_port": 1, "count": 4, "what": "BPDUs not queued", "cause": "memory"},
                {"bridge": "B2", "count": 17, "what": "sources not learnt", "cause": "full"},
                {"what": "bridges not converged"}],
            "drops": [{"port": "C3", "count": 9, "reason": "other-network"},
                {"port": "C3", "count": 1, "what": "receives failed", "why": "Cannot allocate memory"},
                {"bridge": "B2", "bridge_port": 3, "count": 6, "reason": "not-member"},
                {"bridge": "B2", "bridge_port": 3, "count": 2, "reason": "no-port"}],
            "paths": [{"port": "C1", "use": "write", "path": "out/a.pcap", "why": "also the plan file"},
                {"port": "C2", "use": "read", "path": "in.pcap", "why": "it is a pcapng file"},
                {"port": "C3", "use": "bind", "path": "10.0.0.1:4789", "why": "Address already in use (os error 98)"},
                {"link": "L1", "use": "write", "path": "out/l1.pcap", "why": "No such file or directory (os error 2)"},
                {"use": "control", "path": "out/net", "why": "File exists"}],
            "warnings": [{"message": "1 event did not take place"}], "other": ["hint: convert it"]}"#,
    },
];

/// Reports of `step`.
pub(super) const STEPS: &[Said] = &[Said {
    text: "polled C1 0\nfed\n\nline 4: bad\nport C1 entered 1 left 0 filtered 0\nforest yes\nsettled yes\n",
    json: r#"{"answers": ["polled C1 0", "fed", "", "line 4: bad"],
        "ports": [{"name": "C1", "entered": 1, "left": 0, "filtered": 0}], "links": [], "loops": [], "forest": true,
        "settled": true}"#,
}];

/// Reports of `trace`.
pub(super) const TRACES: &[Said] = &[
    Said {
        text: "converged ticks 3\n\
            in ffff: polled C1 0\n  B1 2 from C1, red vid 100 priority 5, tag 88a80000 removed, source learnt, \
            flooded: relayed 1 3 full 4 memory 5\n    B1 1 to L1, tag 88a80064 added\n    L1 ab: taken 0\n    B2 1 \
            from L1, no service vid 9 priority 0: dropped: not-member\n    L2 ba: lost 7\n\
            in ffff: polled C2 1\n  B1 3 from L3, untagged, table full: dropped: no-port\n  B1 4 to L4, tag \
            88a80064\n  B1 2 to C3, tag removed\n  B1 2 to C4\n  C3: delivered ffff\nother events 2\n\
            delivered at C3 C4; dropped 2; refused 1; lost 1\n",
        json: r#"{"converged": true, "ticks": 3, "others": 2, "left_at": ["C3", "C4"], "dropped": 2,
            "refused": 1, "lost": 1,
            "frames": [
            {"frame": "ffff", "port": "C1", "number": 0, "hops": [
                {"depth": 1, "event": "received", "bridge": "B1", "port": 2, "from": "C1", "service": "red", "vid": 100,
                    "priority": 5, "tag_taken_off": "88a80000", "source": "learnt", "way": "flooded",
                    "outcome": "relayed", "relayed_to": [1, 3], "no_room": ["full", "4", "memory", "5"]},
                {"depth": 2, "event": "sent", "bridge": "B1", "port": 1, "to": "L1", "tag": "88a80064", "put_on": true},
                {"depth": 2, "event": "taken", "link": "L1", "direction": "ab", "number": 0},
                {"depth": 2, "event": "received", "bridge": "B2", "port": 1, "from": "L1", "service": "no service",
                    "vid": 9, "priority": 0, "outcome": "dropped", "reason": "not-member"},
                {"depth": 2, "event": "lost", "link": "L2", "direction": "ba", "number": 7}]},
            {"frame": "ffff", "port": "C2", "number": 1, "hops": [
                {"depth": 1, "event": "received", "bridge": "B1", "port": 3, "from": "L3", "untagged": true,
                    "source": "table full", "outcome": "dropped", "reason": "no-port"},
                {"depth": 1, "event": "sent", "bridge": "B1", "port": 4, "to": "L4", "tag": "88a80064"},
                {"depth": 1, "event": "sent", "bridge": "B1", "port": 2, "to": "C3", "tag": "removed"},
                {"depth": 1, "event": "sent", "bridge": "B1", "port": 2, "to": "C4"},
                {"depth": 1, "event": "delivered", "port": "C3", "frame": "ffff"}]}]}"#,
    },
    Said {
        text: "loops over L1 L2; ended after 1000 events\nnot delivered; dropped 0; refused 0; lost 0\n",
        json: r#"{"frames": [], "goes_round_over": ["L1", "L2"], "events": 1000, "left_at": [], "dropped": 0,
            "refused": 0, "lost": 0}"#,
    },
];

/// Reports of `tree`.
pub(super) const TREES: &[Said] = &[
    Said {
        text: "not converged ticks 200\nbridge B1 root B1 cost 0\n\
            port B1 1 link L1 designated forwarding cost 20000 from B1\nbridge B2 root B1 cost 20000 port 1\n\
            forest yes\n",
        json: r#"{"converged": false, "ticks": 200, "forest": true, "loops": [], "branches": [], "bridges": [
            {"name": "B1", "root": "B1", "cost": 0,
                "ports": [{"bridge": "B1", "port": 1, "link": "L1", "role": "designated", "state": "forwarding",
                    "cost": 20000, "from": "B1"}]},
            {"name": "B2", "root": "B1", "cost": 20000, "root_port": 1, "ports": []}]}"#,
    },
    Said {
        text: "bridge B1\nport B1 1 link L1 discarding\nforest yes\nservice red bridge B2 up L1 depth 1\n",
        json: r#"{"forest": true, "loops": [], "bridges": [{"name": "B1",
            "ports": [{"bridge": "B1", "port": 1, "link": "L1", "state": "discarding"}]}],
            "branches": [{"service": "red", "bridge": "B2", "up": "L1", "depth": 1}]}"#,
    },
];

/// Reports of `survive` on networks with something down at the start.
pub(super) const IMPAIRED: &[Said] = &[
    Said {
        text: "down: ring1 South\nnothing else down: converged ticks 3 forest yes\n  service red: C1 C2\n\
            healthy with nothing else down\nlink ring2 down: converged ticks 4 forest yes\n  service red: C1 | C2\n\
            checked 3 links\n2 of 3 failures disconnect nothing\nconverges within 4 ticks\n\
            1 of 3 failures disconnect a service\n",
        json: r#"{"down": ["ring1", "South"],
            "nothing_down": {"converged": true, "ticks": 3, "forest": true, "loops": [], "unhealthy": [],
                "services": [{"name": "red", "groups": [["C1", "C2"]]}]},
            "acceptances": [], "failures": [
                {"down": "link", "name": "ring2", "converged": true, "ticks": 4, "forest": true, "loops": [],
                    "cut_off": [], "services": [{"name": "red", "groups": [["C1"], ["C2"]]}]}],
            "healthy": true, "checked_links": 3, "part_nothing": 2, "failures_tried": 3, "most_ticks": 4,
            "part_a_service": 1, "survives": false}"#,
    },
    Said {
        text: "down: B1:1\nnothing else down: states given forest yes\n  service red: C1 | C2\n\
            service red is disconnected\nnot healthy with nothing else down: 1 service\nchecked 0 links\n\
            not healthy with nothing else down: 1 service\n",
        json: r#"{"down": ["B1:1"],
            "nothing_down": {"forest": true, "loops": [],
                "services": [{"name": "red", "groups": [["C1"], ["C2"]]}],
                "unhealthy": [{"service": "red", "fault": "disconnected"}]},
            "acceptances": [], "failures": [], "healthy": false, "unhealthy_services": 1, "checked_links": 0,
            "survives": false}"#,
    },
    Said {
        text: "down: B1\nnothing else down: states given forest yes\nnot healthy with nothing else down: no service\n\
            checked 0 links\nnot healthy with nothing else down: no service\n",
        json: r#"{"down": ["B1"],
            "nothing_down": {"forest": true, "loops": [], "services": [], "unhealthy": []},
            "acceptances": [], "failures": [], "healthy": false, "checked_links": 0, "survives": false}"#,
    },
];

/// Reports of `survive`.
pub(super) const SURVIVALS: &[Said] = &[
    Said {
        text: "nothing down: states given forest yes\n  service red:\nservice red has fewer than two ports\n\
            not healthy with nothing down: 1 service\nchecked 0 links\n\
            not healthy with nothing down: 1 service\n",
        json: r#"{"nothing_down": {"forest": true, "loops": [], "services": [{"name": "red", "groups": []}],
                "unhealthy": [{"service": "red", "fault": "too few ports"}]},
            "acceptances": [], "failures": [], "healthy": false, "checked_links": 0, "unhealthy_services": 1,
            "survives": false}"#,
    },
    Said {
        text: FAILED,
        json: r#"{"nothing_down": {"converged": true, "ticks": 3, "forest": false, "loops": ["red"],
                "services": [{"name": "red", "groups": [["C1", "C2"], ["C3"], ["C4"]]}],
                "unhealthy": [{"service": "red", "fault": "disconnected"}, {"service": "red", "fault": "loop"}]},
            "acceptances": [], "failures": [
                {"down": "link", "name": "ring5", "converged": true, "ticks": 3, "forest": true, "loops": [],
                    "cut_off": [], "services": [{"name": "red", "groups": [["C1"], ["C2"]]}]},
                {"down": "links", "name": "a", "other": "b", "converged": false, "ticks": 200, "forest": false,
                    "loops": [], "services": [], "cut_off": [{"port": "C1", "from": ["C2", "C3"]}]},
                {"down": "bridge", "name": "B1", "forest": true, "loops": [], "services": [], "cut_off": []}],
            "healthy": false, "unhealthy_services": 1, "checked_links": 5, "checked_bridges": 3, "checked_pairs": 2,
            "part_nothing": 7, "failures_tried": 10, "most_ticks": 7, "part_a_service": 3, "form_a_loop": 1,
            "do_not_converge": 2, "survives": false}"#,
    },
    Said {
        text: "nothing down: states given forest yes\n  service red: C1 C2\nhealthy with nothing down\n\
            checked 2 links, 1 pair\n3 of 3 failures disconnect nothing\nsurvives the failure of any two links\n",
        json: r#"{"nothing_down": {"forest": true, "loops": [], "unhealthy": [],
                "services": [{"name": "red", "groups": [["C1", "C2"]]}]},
            "acceptances": [], "failures": [], "healthy": true, "checked_links": 2, "checked_pairs": 1,
            "part_nothing": 3, "failures_tried": 3, "survives": true, "tried": "any two links"}"#,
    },
    Said {
        text: "nothing down: not converged ticks 9 forest yes\n  service red: C1\nbridges do not converge\n\
            service red has fewer than two ports\n\
            not healthy with nothing down: 1 service, bridges do not converge\nchecked 0 links, 1 bridge\n\
            not healthy with nothing down: 1 service, bridges do not converge\n",
        json: r#"{"nothing_down": {"converged": false, "ticks": 9, "forest": true, "loops": [],
                "services": [{"name": "red", "groups": [["C1"]]}],
                "unhealthy": [{"fault": "not converged"}, {"service": "red", "fault": "too few ports"}]},
            "acceptances": [], "failures": [], "healthy": false, "unhealthy_services": 1, "checked_links": 0,
            "checked_bridges": 1, "survives": false}"#,
    },
    Said {
        text: "nothing down: states given forest yes\nnot healthy with nothing down: no service\nchecked 0 links\n\
            not healthy with nothing down: no service\n",
        json: r#"{"nothing_down": {"forest": true, "loops": [], "services": [], "unhealthy": []},
            "acceptances": [], "failures": [], "healthy": false, "checked_links": 0, "survives": false}"#,
    },
    Said {
        text: "no such port C9\n",
        json: r#"{"acceptances": [], "failures": [], "no_such": {"port": "C9"}}"#,
    },
    Said {
        text: ACCEPTED,
        json: r#"{"nothing_down": {"forest": true, "loops": [], "unhealthy": [],
                "services": [{"name": "red", "groups": [["C1", "C2"]]}]},
            "failures": [
                {"accepted": true, "down": "link", "name": "leaf", "converged": true, "ticks": 3, "forest": true,
                    "loops": [], "cut_off": [], "services": [{"name": "red", "groups": [["C1"], ["C2"]]}]},
                {"down": "link", "name": "a", "forest": true, "loops": [], "cut_off": [],
                    "services": [{"name": "red", "groups": [["C1"], ["C2"]]}]},
                {"accepted": true, "down": "links", "name": "a", "other": "leaf", "forest": true, "loops": [],
                    "cut_off": [{"port": "C1", "from": ["C2"]}], "services": []}],
            "acceptances": [{"state": "stale", "accepts": "link b service red"},
                {"state": "stale", "accepts": "bridge B1"}, {"state": "stale", "accepts": "links a b service red"},
                {"state": "untried", "accepts": "bridge B2 service red"},
                {"state": "untried", "accepts": "links b c"}],
            "healthy": true, "checked_links": 4, "checked_pairs": 6, "part_nothing": 8, "failures_tried": 10,
            "are_accepted": 2, "survives": true, "tried": "any two links, but for accepted disconnections"}"#,
    },
];

/// A report of `diff` with each of its lines.
const CHANGE: &str =
    "network: ageing: 300 -> 400\nlink L1: removed\nlink L2: a_services: [ ] -> all\nport C9: added\n\
    service red: nothing down: no longer reach each other: C1 C2 | C3\n\
    service red: link L2 down: now reach each other: C1 | C2 | C3\n\
    service red: links L2 L3 down: now forms a forwarding loop\n\
    service blue: bridge B1 down: no longer forms a forwarding loop\n\
    link L2 with nothing down: a root forwarding, b designated forwarding -> a forwarding, b discarding\n\
    nothing down: bridges now converge\nlink L2 down: bridges no longer converge\n\
    most ticks to convergence: 7 -> none\n\
    link L2 down: worse\nlinks L2 L3 down: better and worse\nbridge B1 down: no change\n\
    better: 1 of 5 failures; worse: 0 of 5 failures; with nothing down: worse\n";

/// The reports of `diff`.
pub(super) const CHANGES: &[Said] = &[
    Said {
        text: CHANGE,
        json: r#"{"network": [{"key": "ageing", "old": "300", "new": "400"}],
            "parts": [{"part": "link", "name": "L1", "change": "removed"},
                {"part": "port", "name": "C9", "change": "added"}],
            "fields": [{"part": "link", "name": "L2", "key": "a_services", "old": "[ ]", "new": "all"}],
            "reach": [
                {"service": "red", "down": "nothing", "reach": false, "groups": [["C1", "C2"], ["C3"]]},
                {"service": "red", "down": "link", "name": "L2", "reach": true, "groups": [["C1"], ["C2"], ["C3"]]}],
            "loop_changes": [
                {"service": "red", "down": "links", "name": "L2", "other": "L3", "loop": true},
                {"service": "blue", "down": "bridge", "name": "B1", "loop": false}],
            "ends": [{"link": "L2", "old_a": "root forwarding", "old_b": "designated forwarding", "new_a": "forwarding",
                "new_b": "discarding"}],
            "convergence": [{"down": "nothing", "converges": true}, {"down": "link", "name": "L2", "converges": false}],
            "failures": [{"down": "link", "name": "L2", "change": "worse"},
                {"down": "links", "name": "L2", "other": "L3", "change": "better and worse"},
                {"down": "bridge", "name": "B1", "change": "no change"}],
            "old_most_ticks": 7, "better": 1, "worse": 0, "failures_tried": 5, "nothing_down_change": "worse"}"#,
    },
    Said {
        text: "no difference\n",
        json: r#"{"network": [], "parts": [], "fields": [], "reach": [], "loop_changes": [], "ends": [],
            "convergence": [], "failures": [], "differs": false}"#,
    },
    Said {
        text: "no such service green\n",
        json: r#"{"network": [], "parts": [], "fields": [], "reach": [], "loop_changes": [], "ends": [],
            "convergence": [], "failures": [], "no_such": {"service": "green"}}"#,
    },
];
