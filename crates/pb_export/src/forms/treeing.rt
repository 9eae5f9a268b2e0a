//! The reports of `tree`.

use super::shared::{
    CONVERGED_AFTER, FAULT, FOREST, LOOP, LOOPS, NAMED_PLAN_FAULT, OTHER, OTHERS, PLAN_FAULT,
    PLAN_FAULTS,
};
use crate::templates::{Form, Kind, ListForm, ListShape, Slot, Template};

/// A bridge with a Root port.
const BELOW: &[Slot] = slots![
    ("name", Kind::Text, " root "),
    ("root", Kind::Text, " cost "),
    ("cost", Kind::Number, " port "),
    ("root_port", Kind::Number, ""),
];

/// A bridge without a Root port.
const ROOT: &[Slot] = slots![
    ("name", Kind::Text, " root "),
    ("root", Kind::Text, " cost "),
    ("cost", Kind::Number, ""),
];

/// A bridge of a plan that gives the states.
const BRIDGE: &[Slot] = slots![("name", Kind::Text, ""),];

/// A port to another bridge.
const PORT: &[Slot] = slots![
    ("bridge", Kind::Text, " "),
    ("port", Kind::Number, " link "),
    ("link", Kind::Text, " "),
    ("role", Kind::Text, " "),
    ("state", Kind::Text, " cost "),
    ("cost", Kind::Number, " from "),
    ("from", Kind::Text, ""),
];

/// A port of a plan that gives the states.
const GIVEN_PORT: &[Slot] = slots![
    ("bridge", Kind::Text, " "),
    ("port", Kind::Number, " link "),
    ("link", Kind::Text, " "),
    ("state", Kind::Text, ""),
];

/// A bridge below a root of a service's tree.
const BRANCH: &[Slot] = slots![
    ("service", Kind::Text, " bridge "),
    ("bridge", Kind::Text, " up "),
    ("up", Kind::Text, " depth "),
    ("depth", Kind::Number, ""),
];

/// The lines.
const LINES: &[Template] = &[
    CONVERGED_AFTER,
    template!("bridges", "bridge ", BELOW),
    template!("bridges", "bridge ", ROOT),
    template!("bridges", "bridge ", BRIDGE),
    template!("ports", "port ", PORT),
    template!("ports", "port ", GIVEN_PORT),
    FOREST,
    LOOP,
    template!("branches", "service ", BRANCH),
    FAULT,
    NAMED_PLAN_FAULT,
    PLAN_FAULT,
    OTHER,
];

/// The lists of the document.
const LISTS: &[ListForm] = &[
    list!("bridges", ListShape::Objects, &["ports"]),
    LOOPS,
    list!("branches", ListShape::Objects, &[]),
    PLAN_FAULTS,
    OTHERS,
];

/// The form of what `tree` prints.
pub const TREE: Form = Form {
    templates: LINES,
    lists: LISTS,
};
