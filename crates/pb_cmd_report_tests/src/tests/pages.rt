//! The pages of plan files.

use super::counted::Counted;
use super::plans;
use pb_cmd_report::{Asked, OldPlan, ReportEnd, run_report};
use pb_cmd_survive::Kinds;
use pb_fakes::Full;
use pb_messages::CommandFault;
use std::alloc::Global;
use std::process::Abort;
use std::test::Fail;
use std::thread::Threads;

/// Returns the options, without a change.
fn asked(bridges: bool, pairs: bool) -> Asked<'static> {
    Asked {
        title: "a<b",
        kinds: Kinds { bridges, pairs },
        ticks: 200,
        old: None,
    }
}

/// Returns the options for a change from a plan file.
fn asked_from(file: &str) -> Asked<'_> {
    Asked {
        old: Some(OldPlan {
            title: "x<y",
            file: file.as_bytes(),
        }),
        ..asked(false, false)
    }
}

/// Returns the page on a plan, of which so many failures are analysed.
fn page_of<R: Abort + Threads + Sync>(
    rt: &R,
    alloc: Global,
    plan: &str,
    asked: &Asked<'_>,
    failures: u64,
) -> Result<String, Fail> {
    let mut page = Vec::new(alloc);
    let progress = Counted::new();
    let end = run_report(rt, alloc, plan.as_bytes(), asked, &progress, &mut page);
    assert_eq!(rt; end, Ok(ReportEnd::Written));
    assert_eq!(rt; progress.counts(), (failures, 1));
    let text = std::str::from_utf8(page.as_slice()).unwrap_or("");
    Ok(String::from_str(alloc, text)?)
}

/// Returns the part of a page after the first of a text, up to the next of another.
fn part<'a>(page: &'a str, from: &str, to: &str) -> &'a str {
    match page.split_once(from) {
        None => "",
        Some((_, after)) => match after.split_once(to) {
            None => "",
            Some((part, _)) => part,
        },
    }
}

/// Returns the rows of the table of a section.
fn rows<'a>(page: &'a str, section: &str) -> &'a str {
    part(part(page, section, "</section>"), "<tbody>\n", "</tbody>")
}

#[test]
fn the_tables_have_each_part_once(rt: HostRuntime) -> Result<(), Fail> {
    let page = page_of(&rt, rt.alloc(), plans::LINE, &asked(true, true), 6)?;
    let page = page.as_str();
    assert_eq!(rt;
        rows(page, "<section id=\"failures\">"),
        plans::LINE_FAILURES
    );
    assert_eq!(rt;
        rows(page, "<section id=\"services\">"),
        plans::LINE_SERVICES
    );
    assert_eq!(rt; rows(page, "<section id=\"sites\">"), plans::LINE_SITES);
    assert_eq!(rt; rows(page, "<section id=\"tree\">"), plans::LINE_TREE);
    assert!(rt; page.contains(plans::LINE_PLAN));
    Ok(())
}

#[test]
fn the_page_begins_with_title_and_counts(rt: HostRuntime) -> Result<(), Fail> {
    let page = page_of(&rt, rt.alloc(), plans::LINE, &asked(true, true), 6)?;
    let page = page.as_str();
    assert_eq!(rt; part(page, "<p id=\"title\">", "</p>"), "a&lt;b");
    assert_eq!(rt;
        part(page, "<p id=\"counts\">", "</p>"),
        "Failures analysed: 6. With a disconnected service: 4. With a forwarding loop: 0. Without convergence: 0."
    );
    assert!(rt; part(page, "<div id=\"picture\">\n", "</svg>").starts_with("<svg "));
    assert!(rt; page.starts_with("<!doctype html>\n"));
    assert!(rt; page.ends_with("</html>\n"));
    Ok(())
}

#[test]
fn a_ring_shows_its_spanning_tree(rt: HostRuntime) -> Result<(), Fail> {
    let page = page_of(&rt, rt.alloc(), plans::RING, &asked(false, false), 3)?;
    let page = page.as_str();
    assert_eq!(rt; rows(page, "<section id=\"tree\">"), plans::RING_TREE);
    assert_eq!(rt;
        rows(page, "<section id=\"services\">"),
        plans::RING_SERVICES
    );
    let mut after = rows(page, "<section id=\"failures\">");
    for row in plans::RING_STATES {
        assert!(rt; after.starts_with(row));
        after = match after.split_once("</tr>\n") {
            None => "",
            Some((_, after)) => after,
        };
    }
    assert_eq!(rt; after, "");
    Ok(())
}

#[test]
fn a_change_shows_what_diff_says_and_the_old_picture(rt: HostRuntime) -> Result<(), Fail> {
    let page = page_of(
        &rt,
        rt.alloc(),
        plans::PAIR_TWICE,
        &asked_from(plans::PAIR),
        2,
    )?;
    let page = page.as_str();
    let change = part(page, "<section id=\"change\">", "</section>");
    assert_eq!(rt; part(change, "<b id=\"old-title\">", "</b>"), "x&lt;y");
    assert_eq!(rt; part(change, "<pre>", "</pre>"), plans::PAIR_CHANGE);
    let old = part(change, "<template shadowrootmode=\"open\">", "</template>");
    assert!(rt; old.contains("<g id=\"link-L1\""));
    assert!(rt; !old.contains("<g id=\"link-L2\""));
    let new = part(page, "<div id=\"picture\">\n", "</div>");
    assert!(rt; new.contains("<g id=\"link-L2\""));
    assert_eq!(rt;
        rows(page, "<section id=\"failures\">"),
        plans::PAIR_FAILURES
    );
    Ok(())
}

#[test]
fn a_page_without_a_change_has_no_part_about_one(rt: HostRuntime) -> Result<(), Fail> {
    let page = page_of(&rt, rt.alloc(), plans::PAIR_TWICE, &asked(false, false), 2)?;
    assert!(rt; !page.as_str().contains("<section id=\"change\">"));
    Ok(())
}

#[test]
fn a_refused_old_file_tells_the_rule(rt: HostRuntime) -> Result<(), Fail> {
    let alloc = rt.alloc();
    for (file, old, end, text) in [
        (
            plans::PAIR,
            "x",
            ReportEnd::OldRefused,
            b"plan: 2 toml\n".as_slice(),
        ),
        (
            "x",
            plans::PAIR,
            ReportEnd::Refused,
            b"plan: 2 toml\n".as_slice(),
        ),
        (
            "ageing = 0",
            "x",
            ReportEnd::Refused,
            b"plan: 6 unknown ageing\n".as_slice(),
        ),
    ] {
        let mut page = Vec::new(alloc);
        let progress = Counted::new();
        let options = asked_from(old);
        let told = run_report(&rt, alloc, file.as_bytes(), &options, &progress, &mut page);
        assert_eq!(rt; told, Ok(end));
        assert_eq!(rt; progress.counts(), (0, 1));
        assert!(rt; page.as_slice() == text);
    }
    Ok(())
}

#[test]
fn a_refused_file_tells_the_rule(rt: HostRuntime) -> Result<(), Fail> {
    let alloc = rt.alloc();
    for (file, text) in [
        (b"x".as_slice(), b"plan: 2 toml\n".as_slice()),
        (b"\xff".as_slice(), b"plan: 1 utf8\n".as_slice()),
    ] {
        let mut page = Vec::new(alloc);
        let progress = Counted::new();
        let end = run_report(&rt, alloc, file, &asked(false, false), &progress, &mut page);
        assert_eq!(rt; end, Ok(ReportEnd::Refused));
        assert_eq!(rt; progress.counts(), (0, 1));
        assert!(rt; page.as_slice() == text);
    }
    Ok(())
}

#[test]
fn a_write_that_fails_is_a_fault(rt: HostRuntime) -> Result<(), Fail> {
    let progress = Counted::new();
    let options = asked(false, false);
    let plan = plans::LINE.as_bytes();
    let end = run_report(
        &rt,
        rt.alloc(),
        plan,
        &options,
        &progress,
        &mut Full { room: 5 },
    );
    assert_eq!(rt; end, Err(CommandFault::Write));
    Ok(())
}
