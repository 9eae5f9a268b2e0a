//! Starter plans in all topologies.

ghost use Rattle.std.specs.Prelude.{◌≡◌, ◌≢◌, ◌⊎◌, ◌++◌, flat_map, OnOk, IfErr};
ghost use Rattle.std.specs.Io.KnownBytes.{Appends, Keeps};
ghost use Rattle.std.specs.List.{range_with_len};
ghost use Rattle.pb_cmd_init.specs.PlanTexts.{head_text, keys_text, further_text, places_text, bridge_text};
ghost use Rattle.pb_cmd_init.specs.PlanTexts.{link_text, services_text, ports_text, kinds_text, failures_text};
ghost use Rattle.pb_cmd_init.specs.Services.{service_count};
ghost use Rattle.pb_cmd_init.specs.Topologies.{bridge_count, link_count, site_bridge};

mod examples;

use pb_cmd_check::run_check;
use pb_cmd_init::{Topology, write_plan};
use pb_fakes::{Full, Unflushed};
use pb_messages::CommandFault;
use pb_service::{Limits, read_limits};
use std::alloc::{AllocError, Global};
use std::io::Write;
use std::process::Abort;
use std::test::Fail;

/// The content of a file: the numbers of bridges, links, services and customer ports.
#[derive(Clone, Copy)]
struct Content {
    bridges: u8,
    links: u8,
    services: u8,
    ports: u8,
}

/// The limits of a run without any.
const UNLIMITED: Limits = Limits {
    turns: u64::MAX,
    tick_every: 0,
    tick_ms: 0,
    hold: 0,
};

/// The limits of a run with a clock.
const CLOCK: Limits = Limits {
    turns: u64::MAX,
    tick_every: 0,
    tick_ms: 10,
    hold: 200,
};

/// The limits of a run with all suggestions.
const SUGGESTED: Limits = Limits {
    turns: 1_000_000_000,
    tick_every: 0,
    tick_ms: 10,
    hold: 200,
};

/// Checks that a file is a plan with this content and no forwarding loop at start. So no local port is used twice.
fn holds(rt: &impl Abort, alloc: Global, file: &[u8], want: Content) -> Result<(), Fail> {
    let answer = format!(in alloc;
        "ok bridges {} links {} services {} ports {}\nforest yes\n",
        want.bridges, want.links, want.services, want.ports
    )?;
    let mut output = Vec::new(alloc);
    assert_eq!(rt; run_check(alloc, file, &mut output), Ok(0));
    assert!(rt; output.as_slice() == answer.as_bytes(), "{answer}");
    Ok(())
}

/// Checks that a file is a plan with these limits of a run.
fn has_limits(rt: &impl Abort, alloc: Global, file: &[u8], want: Limits) -> Result<(), Fail> {
    let mut output = Vec::new(alloc);
    assert_eq!(rt; run_check(alloc, file, &mut output), Ok(0));
    let Ok(limits) = read_limits(alloc, file) else {
        panic!(rt; "no limits");
    };
    assert_eq!(rt; limits, want);
    Ok(())
}

/// Returns whether a line is a suggestion: a key or a table that follows a comment sign without a space.
fn is_suggestion(line: &str) -> bool {
    match line.strip_prefix('#') {
        Some(rest) => !rest.is_empty() && !rest.starts_with(' '),
        None => false,
    }
}

/// Returns the file with its suggestions from the block `first` to the block `last`. A block of suggestions is a run of
/// such lines, and the first one has number 0. Returns the number of blocks too.
fn tried(alloc: Global, file: &[u8], first: u32, last: u32) -> Result<(String, u32), AllocError> {
    let mut text = String::new(alloc);
    let mut blocks = 0u32;
    let mut inside = false;
    for line in std::str::from_utf8(file).unwrap_or("").lines() {
        let suggested = is_suggestion(line);
        if inside && !suggested {
            blocks = blocks.saturating_add(1);
        }
        inside = suggested;
        let line = match line.strip_prefix('#') {
            Some(rest) if suggested && first <= blocks && blocks <= last => rest,
            _ => line,
        };
        text.push_str(line)?;
        text.push('\n')?;
    }
    if inside {
        blocks = blocks.saturating_add(1);
    }
    Ok((text, blocks))
}

/// Calls `write_plan` with what a caller may conclude: a table for each bridge, link, service and customer port, in
/// order, between the keys of the network and the suggestions. Of the faults only `Write` and `Memory` come, and only
/// `Write` after something was written.
fn begun<W: Write>(
    alloc: Global,
    topology: Topology,
    services: u8,
    writer: &mut W,
) -> Result<(), CommandFault>
    ensures ok { OnOk result (Appends (W.contents writer.old) (W.contents writer.new)
        (head_text ++ keys_text topology ++ further_text ++ places_text
        ++ flat_map bridge_text (range_with_len 1 (bridge_count topology))
        ++ flat_map (link_text topology) (range_with_len 1 (link_count topology))
        ++ services_text (service_count services)
        ++ flat_map (ports_text topology) (range_with_len 1 (service_count services))
        ++ kinds_text (site_bridge topology 1) (service_count services)
        ++ failures_text topology)) }
    ensures kinds { IfErr result (λ e. (e ≡ CommandFault.Write) ⊎ (e ≡ CommandFault.Memory)) }
    ensures none { IfErr result (λ e. e ≢ CommandFault.Write → Keeps (W.contents writer.old) (W.contents writer.new)) }
{
    write_plan(alloc, topology, services, writer)
}

/// Returns whether a line suggests a key for both ends of a link, which excludes that of an end.
fn is_for_both_ends(line: &str) -> bool {
    line.starts_with("#cost") || line.starts_with("#services")
}

/// Returns the file without the suggestions for both ends of a link.
fn without_both_ends(alloc: Global, file: &[u8]) -> Result<String, AllocError> {
    let mut text = String::new(alloc);
    for line in std::str::from_utf8(file).unwrap_or("").lines() {
        if !is_for_both_ends(line) {
            text.push_str(line)?;
            text.push('\n')?;
        }
    }
    Ok(text)
}

/// Checks that the blocks of suggestions of a file, so many, can be used each alone, and all together but for those for
/// both ends of a link.
fn suggests(rt: &impl Abort, alloc: Global, file: &[u8], most: u32) -> Result<(), Fail> {
    let (_, blocks) = tried(alloc, file, 0, u32::MAX)?;
    assert_eq!(rt; blocks, most);
    let rest = without_both_ends(alloc, file)?;
    let (all, _) = tried(alloc, rest.as_bytes(), 0, u32::MAX)?;
    has_limits(rt, alloc, all.as_bytes(), SUGGESTED)?;
    for block in 0..blocks {
        let (one, _) = tried(alloc, file, block, block)?;
        let mut output = Vec::new(alloc);
        assert_eq!(rt;
            run_check(alloc, one.as_bytes(), &mut output),
            Ok(0),
            "{block}"
        );
    }
    Ok(())
}

/// Checks that the file of a topology is a plan with this content.
fn begins(rt: &impl Abort, alloc: Global, topology: Topology, want: Content) -> Result<(), Fail> {
    let mut file = Vec::new(alloc);
    assert_eq!(rt; begun(alloc, topology, want.services, &mut file), Ok(()));
    holds(rt, alloc, file.as_slice(), want)
}

/// Returns the number of services with which a network of this size is tried: 1 to 4, and 4 at sizes that 4 divides.
fn services_with(size: u8) -> u8 {
    match size % 4 {
        0 => 4,
        rest => rest,
    }
}

#[test]
fn lines_are_plans(rt: HostRuntime) -> Result<(), Fail> {
    for n in 1..33u8 {
        let want = Content {
            bridges: n,
            links: n - 1,
            services: services_with(n),
            ports: n.saturating_mul(services_with(n)),
        };
        begins(&rt, rt.alloc(), Topology::Line(n), want)?;
    }
    Ok(())
}

#[test]
fn rings_are_plans(rt: HostRuntime) -> Result<(), Fail> {
    for n in 3..33u8 {
        let want = Content {
            bridges: n,
            links: n,
            services: services_with(n),
            ports: n.saturating_mul(services_with(n)),
        };
        begins(&rt, rt.alloc(), Topology::Ring(n), want)?;
    }
    Ok(())
}

#[test]
fn stars_are_plans(rt: HostRuntime) -> Result<(), Fail> {
    for n in 2..18u8 {
        let want = Content {
            bridges: n,
            links: n - 1,
            services: services_with(n),
            ports: (n - 1).saturating_mul(services_with(n)),
        };
        begins(&rt, rt.alloc(), Topology::Star(n), want)?;
    }
    Ok(())
}

#[test]
fn dual_homed_bridges_are_plans(rt: HostRuntime) -> Result<(), Fail> {
    for n in 2..25u8 {
        let want = Content {
            bridges: n + 4,
            links: 2 * n + 4,
            services: services_with(n),
            ports: n.saturating_mul(services_with(n)),
        };
        begins(&rt, rt.alloc(), Topology::DualHomed(n), want)?;
    }
    Ok(())
}

#[test]
fn each_suggestion_can_be_used(rt: HostRuntime) -> Result<(), Fail> {
    let alloc = rt.alloc();
    for (topology, services, blocks, limits) in [
        (Topology::Line(1), 1, 9, UNLIMITED),
        (Topology::Line(2), 1, 15, UNLIMITED),
        (Topology::Ring(3), 2, 13, CLOCK),
        (Topology::Star(4), 3, 15, UNLIMITED),
        (Topology::DualHomed(2), 4, 13, CLOCK),
    ] {
        let mut file = Vec::new(alloc);
        assert_eq!(rt; write_plan(alloc, topology, services, &mut file), Ok(()));
        has_limits(&rt, alloc, file.as_slice(), limits)?;
        suggests(&rt, alloc, file.as_slice(), blocks)?;
    }
    Ok(())
}

#[test]
fn numbers_beyond_the_most_are_as_the_most(rt: HostRuntime) -> Result<(), Fail> {
    let alloc = rt.alloc();
    let mut most = Vec::new(alloc);
    let mut more = Vec::new(alloc);
    assert_eq!(rt;
        write_plan(alloc, Topology::DualHomed(24), 4, &mut most),
        Ok(())
    );
    assert_eq!(rt;
        write_plan(alloc, Topology::DualHomed(255), 255, &mut more),
        Ok(())
    );
    assert!(rt; most.as_slice() == more.as_slice());
    Ok(())
}

/// Checks that the file of a topology with services has this part.
fn has(
    rt: &impl Abort,
    alloc: Global,
    topology: Topology,
    services: u8,
    part: &str,
) -> Result<(), Fail> {
    let mut file = Vec::new(alloc);
    assert_eq!(rt; write_plan(alloc, topology, services, &mut file), Ok(()));
    let text = std::str::from_utf8(file.as_slice()).unwrap_or("");
    assert!(rt; text.contains(part), "{topology:?}: {part}");
    Ok(())
}

#[test]
fn links_join_the_bridges(rt: HostRuntime) -> Result<(), Fail> {
    for (topology, part) in [
        (
            Topology::Line(32),
            "L31\"\na = \"B31\"\na_port = 1\nb = \"B32\"\nb_port = 2\n",
        ),
        (
            Topology::Ring(3),
            "L2\"\na = \"B2\"\na_port = 1\nb = \"B3\"\nb_port = 2\n",
        ),
        (
            Topology::Ring(3),
            "L3\"\na = \"B3\"\na_port = 1\nb = \"B1\"\nb_port = 2\n",
        ),
        (
            Topology::Star(17),
            "L1\"\na = \"B1\"\na_port = 1\nb = \"B2\"\nb_port = 1\n",
        ),
        (
            Topology::Star(17),
            "L16\"\na = \"B1\"\na_port = 16\nb = \"B17\"\nb_port = 1\n",
        ),
        (Topology::Star(2), "C1\"\nbridge = \"B2\"\nport = 3\n"),
        (
            Topology::Line(32),
            "B32\"\naddress = \"02-00-00-00-00-20\"\n",
        ),
    ] {
        has(&rt, rt.alloc(), topology, 1, part)?;
    }
    Ok(())
}

#[test]
fn uplinks_join_two_core_bridges(rt: HostRuntime) -> Result<(), Fail> {
    for part in [
        "L4\"\na = \"B4\"\na_port = 1\nb = \"B1\"\nb_port = 2\n",
        "L5\"\na = \"B1\"\na_port = 3\nb = \"B5\"\nb_port = 1\n",
        "L6\"\na = \"B2\"\na_port = 4\nb = \"B5\"\nb_port = 2\n",
        "L11\"\na = \"B4\"\na_port = 3\nb = \"B8\"\nb_port = 1\n",
        "L12\"\na = \"B1\"\na_port = 4\nb = \"B8\"\nb_port = 2\n",
        "L13\"\na = \"B1\"\na_port = 5\nb = \"B9\"\nb_port = 1\n",
        "L52\"\na = \"B1\"\na_port = 14\nb = \"B28\"\nb_port = 2\n",
        "C24\"\nbridge = \"B28\"\nport = 3\nservice = \"red\"\n",
    ] {
        has(&rt, rt.alloc(), Topology::DualHomed(24), 1, part)?;
    }
    Ok(())
}

#[test]
fn services_have_ports_at_each_site(rt: HostRuntime) -> Result<(), Fail> {
    for part in [
        "vid = 100\n\n[[service]]\nname = \"blue\"\nvid = 200\n\n[[service]]\nname = \"green\"\nvid = 300\n\n",
        "[[service]]\nname = \"yellow\"\nvid = 400\n\n",
        "C2\"\nbridge = \"B3\"\nport = 3\nservice = \"red\"\n",
        "C1-blue\"\nbridge = \"B2\"\nport = 4\nservice = \"blue\"\n\n",
        "C2-green\"\nbridge = \"B3\"\nport = 5\nservice = \"green\"\n\n",
        "C3-yellow\"\nbridge = \"B4\"\nport = 6\nservice = \"yellow\"\n\n",
        "#name = \"socket\"\n#bridge = \"B2\"\n#port = 8\n",
    ] {
        has(&rt, rt.alloc(), Topology::Star(4), 4, part)?;
    }
    Ok(())
}

#[test]
fn two_bridges_in_a_line_are_the_example(rt: HostRuntime) -> Result<(), Fail> {
    let mut file = Vec::new(rt.alloc());
    assert_eq!(rt;
        write_plan(rt.alloc(), Topology::Line(2), 1, &mut file),
        Ok(())
    );
    assert!(rt; file.as_slice() == examples::INIT.as_bytes());
    Ok(())
}

#[test]
fn a_failed_write_is_told(rt: HostRuntime) {
    for room in [0, 1, 1000] {
        let wrote = write_plan(rt.alloc(), Topology::Ring(3), 1, &mut Full { room });
        assert_eq!(rt; wrote, Err(CommandFault::Write), "at {room}");
    }
    let wrote = write_plan(rt.alloc(), Topology::Ring(3), 1, &mut Unflushed);
    assert_eq!(rt; wrote, Err(CommandFault::Write));
}
