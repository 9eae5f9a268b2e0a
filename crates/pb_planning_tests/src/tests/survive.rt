//! The reports on networks under failures.

ghost use Rattle.std.specs.Prelude.{◌≡◌, ◌≢◌, List, ℕ, IfErr, IfOk};
ghost use Rattle.std.specs.Io.KnownBytes.{Appends, Keeps};
ghost use Rattle.pb_cmd_survive.specs.Survivals.{IsSurviveText};

mod accepting;
mod counted;
mod draft;
mod early;
mod networks;
mod texts;

use counted::Counted;
use draft::{Draft, plan_file};
use pb_cmd_survive::{Asked, DownFault, Kinds, Scope, SurviveEnd, run_survive};
use pb_fakes::{Full, Unflushed};
use pb_messages::CommandFault;
use std::alloc::Global;
use std::io::Write;
use std::process::Abort;
use std::test::Fail;
use std::thread::Threads;

/// Single links alone.
const LINKS: Kinds = Kinds {
    bridges: false,
    pairs: false,
};

/// Single links and pairs of links.
const PAIRS: Kinds = Kinds {
    bridges: false,
    pairs: true,
};

/// Single links and single bridges.
const BRIDGES: Kinds = Kinds {
    bridges: true,
    pairs: false,
};

/// Single links, single bridges and pairs of links.
const EACH: Kinds = Kinds {
    bridges: true,
    pairs: true,
};

/// Returns how the command ends where the program's exit status is this one.
fn ended(status: u8) -> SurviveEnd {
    match status {
        0 => SurviveEnd::Survives,
        1 => SurviveEnd::Refused,
        2 => SurviveEnd::Lacking,
        _ => SurviveEnd::Parted,
    }
}

/// A network and the options, with the text and the exit status.
#[derive(Drop)]
struct Row<'a> {
    draft: &'a Draft<'a>,
    kinds: Kinds,
    scope: Scope<'a>,
    own: bool,
    ticks: u32,
    status: u8,
    text: &'a str,
}

/// Calls `run_survive` with what a caller may conclude: the report on the network of the plan in the file under each
/// failure, or the rule that it breaks, and when each error comes.
fn examined<R: Threads + Sync, W: Write>(
    rt: &R,
    alloc: Global,
    file: &[u8],
    asked: &Asked<'_>,
    progress: &Counted,
    writer: &mut W,
) -> Result<SurviveEnd, CommandFault>
    ensures ok { IfOk result (λ end. (text : List ℕ) × Appends (W.contents writer.old) (W.contents writer.new) text
        × IsSurviveText file.now asked.now end text) }
    ensures kinds { IfErr result (λ e. e ≢ CommandFault.Read) }
    ensures none { IfErr result (λ e. e ≢ CommandFault.Write → Keeps (W.contents writer.old) (W.contents writer.new)) }
{
    run_survive(rt, alloc, file, asked, progress, writer)
}

/// Checks the report on a network and its exit status, twice.
fn says<R: Abort + Threads + Sync>(rt: &R, alloc: Global, row: &Row<'_>) -> Result<(), Fail> {
    let file = plan_file(alloc, row.draft)?;
    let asked = Asked {
        kinds: row.kinds,
        scope: row.scope,
        own: row.own,
        ticks: row.ticks,
        ..any()
    };
    for _ in 0..2 {
        let mut output = Vec::new(alloc);
        let progress = Counted::new();
        let result = examined(rt, alloc, file.as_bytes(), &asked, &progress, &mut output);
        let text = std::str::from_utf8(output.as_slice()).unwrap_or("");
        assert_eq!(rt; text, row.text);
        assert_eq!(rt; result, Ok(ended(row.status)));
    }
    Ok(())
}

/// Returns a row for the service `red`, with enough ticks.
fn over_red<'a>(draft: &'a Draft<'a>, kinds: Kinds, status: u8, text: &'a str) -> Row<'a> {
    Row {
        draft,
        kinds,
        scope: Scope::Service("red"),
        own: false,
        ticks: 200,
        status,
        text,
    }
}

#[test]
fn a_ring_survives_each_link_and_no_two(rt: HostRuntime) -> Result<(), Fail> {
    let alloc = rt.alloc();
    says(
        &rt,
        alloc,
        &over_red(&networks::RING, LINKS, 0, texts::RING),
    )?;
    says(
        &rt,
        alloc,
        &over_red(&networks::RING, PAIRS, 4, texts::ARCS),
    )
}

#[test]
fn a_ring_survives_each_bridge(rt: HostRuntime) -> Result<(), Fail> {
    let alloc = rt.alloc();
    says(
        &rt,
        alloc,
        &over_red(&networks::RING, BRIDGES, 0, texts::BRIDGES),
    )?;
    let own = Row {
        own: true,
        ..over_red(&networks::RING, BRIDGES, 4, texts::OWN)
    };
    says(&rt, alloc, &own)
}

#[test]
fn a_mesh_survives_any_two_links(rt: HostRuntime) -> Result<(), Fail> {
    let alloc = rt.alloc();
    says(
        &rt,
        alloc,
        &over_red(&networks::MESH, PAIRS, 0, texts::MESH),
    )?;
    says(
        &rt,
        alloc,
        &over_red(&networks::MESH, EACH, 0, texts::MESH_BRIDGES),
    )
}

#[test]
fn a_failed_bridge_disconnects_others(rt: HostRuntime) -> Result<(), Fail> {
    let alloc = rt.alloc();
    says(
        &rt,
        alloc,
        &over_red(&networks::SHARED, BRIDGES, 4, texts::SHARED),
    )?;
    let from = Row {
        scope: Scope::From("C1"),
        ..over_red(&networks::SHARED, BRIDGES, 4, texts::FROM_SHARED)
    };
    says(&rt, alloc, &from)
}

#[test]
fn a_line_survives_no_link(rt: HostRuntime) -> Result<(), Fail> {
    let alloc = rt.alloc();
    says(
        &rt,
        alloc,
        &over_red(&networks::LINE, LINKS, 4, texts::LINE),
    )?;
    let from = Row {
        scope: Scope::From("C2"),
        ..over_red(&networks::LINE, LINKS, 4, texts::FROM)
    };
    says(&rt, alloc, &from)
}

#[test]
fn one_of_two_links_is_enough(rt: HostRuntime) -> Result<(), Fail> {
    let alloc = rt.alloc();
    says(
        &rt,
        alloc,
        &over_red(&networks::PARALLEL, LINKS, 0, texts::PARALLEL),
    )?;
    says(
        &rt,
        alloc,
        &over_red(&networks::PARALLEL, PAIRS, 4, texts::BOTH),
    )
}

#[test]
fn a_given_tree_loses_what_is_behind_a_link(rt: HostRuntime) -> Result<(), Fail> {
    let alloc = rt.alloc();
    says(
        &rt,
        alloc,
        &over_red(&networks::STAR, LINKS, 4, texts::STAR),
    )
}

#[test]
fn a_closed_ring_does_not_survive(rt: HostRuntime) -> Result<(), Fail> {
    let alloc = rt.alloc();
    says(
        &rt,
        alloc,
        &over_red(&networks::LOOPING, LINKS, 4, texts::LOOPING),
    )?;
    says(
        &rt,
        alloc,
        &over_red(&networks::THREEFOLD, LINKS, 4, texts::TWO_LOOPS),
    )
}

#[test]
fn a_disconnected_service_does_not_survive(rt: HostRuntime) -> Result<(), Fail> {
    let alloc = rt.alloc();
    let all = Row {
        scope: Scope::All,
        ..over_red(&networks::APART, LINKS, 4, texts::CUT)
    };
    says(&rt, alloc, &all)?;
    says(
        &rt,
        alloc,
        &over_red(&networks::LONELY, LINKS, 4, texts::ONE_PORT),
    )
}

#[test]
fn a_service_is_disconnected_where_the_network_is_not(rt: HostRuntime) -> Result<(), Fail> {
    let all = Row {
        scope: Scope::All,
        ..over_red(&networks::LISTED, LINKS, 4, texts::LISTED)
    };
    says(&rt, rt.alloc(), &all)
}

#[test]
fn the_standards_network_survives_each_link(rt: HostRuntime) -> Result<(), Fail> {
    let alloc = rt.alloc();
    says(
        &rt,
        alloc,
        &over_red(&networks::FIGURE, LINKS, 0, texts::FIGURE),
    )
}

#[test]
fn bridges_that_do_not_converge_are_reported(rt: HostRuntime) -> Result<(), Fail> {
    let short = Row {
        ticks: 3,
        ..over_red(&networks::RING, LINKS, 4, texts::NOT_CONVERGED)
    };
    says(&rt, rt.alloc(), &short)?;
    let unready = Row {
        ticks: 1,
        ..over_red(&networks::PARALLEL, LINKS, 4, texts::UNREADY)
    };
    says(&rt, rt.alloc(), &unready)
}

#[test]
fn what_is_lacking_is_told(rt: HostRuntime) -> Result<(), Fail> {
    let alloc = rt.alloc();
    for (scope, text) in [
        (Scope::Service("green"), "no such service green\n"),
        (Scope::From("C9"), "no such port C9\n"),
        (Scope::From("red"), "no such port red\n"),
    ] {
        let lacking = Row {
            scope,
            ..over_red(&networks::PARALLEL, LINKS, 2, text)
        };
        says(&rt, alloc, &lacking)?;
    }
    Ok(())
}

/// Returns the options for a file whose network does not matter.
fn any() -> Asked<'static> {
    Asked {
        kinds: LINKS,
        scope: Scope::All,
        downs: &[],
        own: false,
        all: false,
        ticks: 200,
        accepted: &[],
        strict: false,
        as_tables: false,
    }
}

#[test]
fn a_refused_file_tells_the_rule(rt: HostRuntime) -> Result<(), Fail> {
    let alloc = rt.alloc();
    let mut output = Vec::new(alloc);
    let progress = Counted::new();
    let result = examined(&rt, alloc, b"x", &any(), &progress, &mut output);
    assert_eq!(rt; result, Ok(ended(1)));
    assert_eq!(rt; progress.counts(), (0, 0, 1));
    assert!(rt; output.as_slice() == b"plan: 2 toml\n".as_slice());
    Ok(())
}

#[test]
fn a_plan_without_service_does_not_survive(rt: HostRuntime) -> Result<(), Fail> {
    let alloc = rt.alloc();
    let mut output = Vec::new(alloc);
    let progress = Counted::new();
    let result = examined(&rt, alloc, b"", &any(), &progress, &mut output);
    assert_eq!(rt; result, Ok(ended(4)));
    assert_eq!(rt; progress.counts(), (0, 0, 1));
    assert!(rt; output.as_slice() == texts::EMPTY.as_bytes());
    Ok(())
}

/// Returns the options for the service `red` of a network in which names are down from the start.
fn red_without<'a>(downs: &'a [String]) -> Asked<'a> {
    Asked {
        kinds: LINKS,
        scope: Scope::Service("red"),
        downs,
        own: false,
        all: false,
        ticks: 200,
        accepted: &[],
        strict: false,
        as_tables: false,
    }
}

/// Checks the report on a network in which one name is down from the start, and how the command ends.
fn says_with_down<R: Abort + Threads + Sync>(
    rt: &R,
    alloc: Global,
    draft: &Draft<'_>,
    kinds: Kinds,
    name: &str,
    end: SurviveEnd,
    text: &str,
) -> Result<(), Fail> {
    let file = plan_file(alloc, draft)?;
    let names = vec![in alloc; String::from_str(alloc, name)?]?;
    let asked = Asked {
        kinds,
        ..red_without(names.as_slice())
    };
    let mut output = Vec::new(alloc);
    let progress = Counted::new();
    let result = examined(rt, alloc, file.as_bytes(), &asked, &progress, &mut output);
    let said = std::str::from_utf8(output.as_slice()).unwrap_or("");
    assert_eq!(rt; said, text);
    assert_eq!(rt; result, Ok(end));
    Ok(())
}

#[test]
fn what_is_down_before_is_named(rt: HostRuntime) -> Result<(), Fail> {
    let alloc = rt.alloc();
    says_with_down(
        &rt,
        alloc,
        &networks::RING,
        LINKS,
        "L1",
        SurviveEnd::Parted,
        texts::RING_WITHOUT_L1,
    )?;
    says_with_down(
        &rt,
        alloc,
        &networks::PARALLEL,
        LINKS,
        "B1:1",
        SurviveEnd::Parted,
        texts::PARALLEL_WITHOUT_AN_END,
    )?;
    says_with_down(
        &rt,
        alloc,
        &networks::RING,
        LINKS,
        "L99",
        SurviveEnd::NoDown(DownFault::Unknown(0)),
        "",
    )
}

#[test]
fn the_ports_of_a_bridge_that_is_down_reach_nobody(rt: HostRuntime) -> Result<(), Fail> {
    let alloc = rt.alloc();
    says_with_down(
        &rt,
        alloc,
        &networks::HUB,
        BRIDGES,
        "B1",
        SurviveEnd::Parted,
        texts::HUB_WITHOUT_B1,
    )?;
    says_with_down(
        &rt,
        alloc,
        &networks::HUB,
        BRIDGES,
        "B2",
        SurviveEnd::Survives,
        texts::HUB_WITHOUT_B2,
    )
}

#[test]
fn each_failure_is_looked_at_once(rt: HostRuntime) -> Result<(), Fail> {
    let alloc = rt.alloc();
    let file = plan_file(alloc, &networks::RING)?;
    let asked = Asked {
        kinds: Kinds {
            bridges: true,
            pairs: true,
        },
        ..any()
    };
    let mut output = Vec::new(alloc);
    let progress = Counted::new();
    let result = examined(&rt, alloc, file.as_bytes(), &asked, &progress, &mut output);
    assert_eq!(rt; result, Ok(ended(4)));
    assert_eq!(rt; progress.counts(), (27, 27, 1));
    Ok(())
}

#[test]
fn a_look_that_meets_a_fault_ends_all(rt: HostRuntime) -> Result<(), Fail> {
    let alloc = rt.alloc();
    let file = plan_file(alloc, &networks::BRIEF)?;
    let mut output = Vec::new(alloc);
    let progress = Counted::new();
    let result = examined(&rt, alloc, file.as_bytes(), &any(), &progress, &mut output);
    assert_eq!(rt; result, Err(CommandFault::Steps));
    assert!(rt; output.is_empty());
    assert_eq!(rt; progress.counts(), (3, 3, 1));
    Ok(())
}

#[test]
fn a_failed_write_is_told(rt: HostRuntime) -> Result<(), Fail> {
    let alloc = rt.alloc();
    let progress = Counted::new();
    let mut writer = Full { room: 5 };
    let full = examined(&rt, alloc, b"", &any(), &progress, &mut writer);
    assert_eq!(rt; full, Err(CommandFault::Write));
    let unflushed = examined(&rt, alloc, b"", &any(), &progress, &mut Unflushed);
    assert_eq!(rt; unflushed, Err(CommandFault::Write));
    Ok(())
}
