//! The reports of `check`.

use super::shared::{FAULT, FOREST, LOOP, LOOPS, NAMED_PLAN_FAULT, OTHER, OTHERS, PLAN_FAULT};
use crate::templates::{Form, Kind, ListForm, ListShape, Slot, Template};

/// The number of bridges, links, services and ports.
const COUNTS: &[Slot] = slots![
    ("bridges", Kind::Number, " links "),
    ("links", Kind::Number, " services "),
    ("services", Kind::Number, " ports "),
    ("ports", Kind::Number, ""),
];

/// A warning about the plan, with the line of its file.
const WARNING_AT: &[Slot] = slots![("line", Kind::Number, ": "), ("message", Kind::Text, ""),];

/// A warning about the plan, if the line of its file is uncertain.
const WARNING: &[Slot] = slots![("message", Kind::Text, ""),];

/// An error of the plan file, with its place and a hint.
const ERROR_AT_WITH_HINT: &[Slot] = slots![
    ("line", Kind::Number, ":"),
    ("column", Kind::Number, ": "),
    ("file", Kind::Text, "\t"),
    ("message", Kind::Text, "\t"),
    ("hint", Kind::Text, ""),
];

/// An error of the plan file, with its place.
const ERROR_AT: &[Slot] = slots![
    ("line", Kind::Number, ":"),
    ("column", Kind::Number, ": "),
    ("file", Kind::Text, "\t"),
    ("message", Kind::Text, ""),
];

/// An error of the plan file without a place.
const ERROR: &[Slot] = slots![("file", Kind::Text, "\t"), ("message", Kind::Text, ""),];

/// Why a plan file is refused, with its errors.
const PLAN_FAULTS: ListForm = list!("plan_fault", ListShape::Single, &["errors"]);

/// The lines.
const LINES: &[Template] = &[
    template!("counts", "ok bridges ", COUNTS),
    FOREST,
    LOOP,
    template!("warnings", "warning: file:", WARNING_AT),
    template!("warnings", "warning: file: ", WARNING),
    FAULT,
    NAMED_PLAN_FAULT,
    PLAN_FAULT,
    template!("errors", "error: ", ERROR_AT_WITH_HINT),
    template!("errors", "error: ", ERROR_AT),
    template!("errors", "error: ", ERROR),
    OTHER,
];

/// The lists of the document.
const LISTS: &[ListForm] = &[
    list!("counts", ListShape::Single, &[]),
    LOOPS,
    list!("warnings", ListShape::Objects, &[]),
    PLAN_FAULTS,
    OTHERS,
];

/// The form of what `check` prints.
pub const CHECK: Form = Form {
    templates: LINES,
    lists: LISTS,
};
