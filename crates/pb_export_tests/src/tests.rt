//! Reports as JSON and as CSV.

ghost use Rattle.std.specs.Prelude.{◌≡◌, ◌++◌, ℕ, List, Some, codes, map, string_bytes, IfOk};
ghost use Rattle.csv.specs.Writing.{row_text as csv_line};
ghost use Rattle.serde_json.specs.Read.{read};
ghost use Rattle.pb_export.specs.Documents.{document_of};
ghost use Rattle.pb_export.specs.Heads.{head_text};
ghost use Rattle.pb_export.specs.Rows.{AreRows};
ghost use Rattle.pb_export.specs.Tables.{rows_text, writer};
ghost use Rattle.pb_export.specs.declared.rows.Row.{Row};

mod reports;

use pb_export::{
    CHECK, COUNTS, DIFF, FAILURES, Form, FormatFault, Head, RUN, STEP, SURVIVE, SURVIVE_BESIDE,
    TRACE, TREE, Table, csv_of, json_of,
};
use reports::{CHANGES, CHECKS, IMPAIRED, RUNS, STEPS, SURVIVALS, TRACES, TREES};
use serde_json::Value;
use std::alloc::Global;
use std::process::Abort;
use std::test::Fail;

/// A report with its document, in any layout of JSON.
pub(crate) struct Said {
    /// The report.
    pub(crate) text: &'static str,
    /// The document.
    pub(crate) json: &'static str,
}

/// The head of the documents.
const HEAD: Head<'static> = Head {
    command: "any",
    version: "1.2.3",
    plan: "a \"plan\".toml",
    old_plan: None,
};

/// Its text.
const HEAD_TEXT: &str =
    "{\n  \"command\": \"any\",\n  \"version\": \"1.2.3\",\n  \"plan\": \"a \\\"plan\\\".toml\",\n";

/// Calls `json_of` with what a caller may conclude: the JSON is the text of the head, and a rest that is read back as
/// the document of some rows after a bracket. These are the lines of the report, each read by the first template that
/// it fits.
fn documented(
    alloc: Global,
    form: &Form,
    head: &Head<'_>,
    text: &str,
) -> Result<String, FormatFault>
    ensures { IfOk result (λ json. (rows : List Row) × (rest : List ℕ)
        × AreRows form.now.templates.now text.now rows
        × (string_bytes json ≡ head_text head.now ++ rest)
        × (read (codes "{\n" ++ rest) ≡ Some (document_of form.now rows))) }
{
    json_of(alloc, form, head, text)
}

/// Calls `csv_of` with what a caller may conclude: a line of titles and the lines of some rows. These are the lines of
/// the report, each read by the first template that it fits.
fn tabulated(alloc: Global, form: &Form, table: &Table, text: &str) -> Result<Vec<u8>, FormatFault>
    ensures { IfOk result (λ csv. (rows : List Row) × AreRows form.now.templates.now text.now rows
        × (csv.items ≡ csv_line writer (map (λ t. t.now) table.now.titles.now) ++ rows_text table.now.lines.now rows)) }
{
    csv_of(alloc, form, table, text)
}

/// Checks that the JSON of each report is the head and its document, as serde_json reads both.
fn say(rt: &impl Abort, alloc: Global, form: &Form, rows: &[Said]) -> Result<(), Fail> {
    for row in rows {
        let json = documented(alloc, form, &HEAD, row.text)?;
        let Some(rest) = json.as_str().strip_prefix(HEAD_TEXT) else {
            assert!(rt; false, "{json}");
            return Ok(());
        };
        let report = format!(in alloc; "{{\n{rest}")?;
        let given = Value::from_str(alloc, report.as_str())?;
        let wanted = Value::from_str(alloc, row.json)?;
        assert!(rt; given == wanted, "{json}");
    }
    Ok(())
}

#[test]
fn checks_are_said(rt: HostRuntime) -> Result<(), Fail> {
    say(&rt, rt.alloc(), &CHECK, CHECKS)
}

#[test]
fn runs_are_said(rt: HostRuntime) -> Result<(), Fail> {
    say(&rt, rt.alloc(), &RUN, RUNS)
}

#[test]
fn steps_are_said(rt: HostRuntime) -> Result<(), Fail> {
    say(&rt, rt.alloc(), &STEP, STEPS)
}

#[test]
fn traces_are_said(rt: HostRuntime) -> Result<(), Fail> {
    say(&rt, rt.alloc(), &TRACE, TRACES)
}

#[test]
fn trees_are_said(rt: HostRuntime) -> Result<(), Fail> {
    say(&rt, rt.alloc(), &TREE, TREES)
}

#[test]
fn survivals_are_said(rt: HostRuntime) -> Result<(), Fail> {
    say(&rt, rt.alloc(), &SURVIVE, SURVIVALS)
}

#[test]
fn impaired_survivals_are_said(rt: HostRuntime) -> Result<(), Fail> {
    say(&rt, rt.alloc(), &SURVIVE_BESIDE, IMPAIRED)
}

#[test]
fn changes_are_said(rt: HostRuntime) -> Result<(), Fail> {
    say(&rt, rt.alloc(), &DIFF, CHANGES)
}

/// Checks that a text that is not a report has no document.
#[test]
fn no_reports_are_refused(rt: HostRuntime) -> Result<(), Fail> {
    let alloc = rt.alloc();
    for text in ["ended drained", "forest yes\nended dr"] {
        assert!(rt;
            json_of(alloc, &RUN, &HEAD, text).err() == Some(FormatFault::Unread),
            "{text}"
        );
    }
    let bare = Form {
        templates: &[],
        lists: &[],
    };
    assert!(rt; json_of(alloc, &bare, &HEAD, "forest yes\n").err() == Some(FormatFault::Unread));
    assert!(rt; json_of(alloc, &bare, &HEAD, "").err() == Some(FormatFault::Unread));
    Ok(())
}

/// Checks the layout of a document.
#[test]
fn json_is_laid_out(rt: HostRuntime) -> Result<(), Fail> {
    let json = json_of(
        rt.alloc(),
        &CHECK,
        &Head {
            command: "check",
            version: "1.2.3",
            plan: "new.toml",
            old_plan: Some("old.toml"),
        },
        "ok bridges 2 links 1 services 1 ports 2\nforest yes\n",
    )?;
    let wanted = r#"{
  "command": "check",
  "version": "1.2.3",
  "plan": "new.toml",
  "old_plan": "old.toml",
  "counts": {
    "bridges": 2,
    "links": 1,
    "ports": 2,
    "services": 1
  },
  "forest": true,
  "loops": [],
  "warnings": []
}"#;
    assert_eq!(rt; json.as_str(), wanted);
    Ok(())
}

/// Checks the table of a report.
fn tabled(
    rt: &impl Abort,
    alloc: Global,
    form: &Form,
    table: &Table,
    text: &str,
    wanted: &str,
) -> Result<(), Fail> {
    let csv = tabulated(alloc, form, table, text)?;
    assert_eq!(rt; csv.as_slice(), wanted.as_bytes());
    Ok(())
}

#[test]
fn counts_are_tabled(rt: HostRuntime) -> Result<(), Fail> {
    let wanted =
        "kind,name,direction,entered,left,filtered,taken,lost\r\nport,C1,,2,1,0,,\r\nlink,L1,ab,,,,3,1\r\n\
        link,L1,ba,,,,4,0\r\n";
    tabled(&rt, rt.alloc(), &RUN, &COUNTS, reports::COUNTED, wanted)?;
    let wanted = "kind,name,direction,entered,left,filtered,taken,lost\r\n";
    tabled(
        &rt,
        rt.alloc(),
        &STEP,
        &COUNTS,
        "idle\nforest yes\n",
        wanted,
    )
}

#[test]
fn failures_are_tabled(rt: HostRuntime) -> Result<(), Fail> {
    let wanted =
        "down,name,other,converged,ticks,forest,accepted\r\nlink,ring5,,yes,3,yes,\r\nlinks,a,b,no,200,no,\r\n\
            bridge,B1,,,,yes,\r\n";
    tabled(
        &rt,
        rt.alloc(),
        &SURVIVE,
        &FAILURES,
        reports::FAILED,
        wanted,
    )
}
