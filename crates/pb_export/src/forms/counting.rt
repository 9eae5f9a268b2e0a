//! The reports of `run` and `step`.

use super::shared::{
    FAULT, FOREST, LOOP, LOOPS, NAMED_PLAN_FAULT, OTHER, OTHERS, PLAN_FAULT, PLAN_FAULTS, YES_OR_NO,
};
use crate::tables::{Cell, CellRow, Table};
use crate::templates::{Choice, Form, Kind, ListForm, ListShape, Said, Slot, Template};

/// How a run ended.
const ENDED: &[Slot] = slots![("ended", Kind::Text, ""),];

/// The counts of a customer port.
const PORT: &[Slot] = slots![
    ("name", Kind::Text, " entered "),
    ("entered", Kind::Number, " left "),
    ("left", Kind::Number, " filtered "),
    ("filtered", Kind::Number, ""),
];

/// The counts of a link, from end a to end b and back.
const LINK: &[Slot] = slots![
    ("name", Kind::Text, " ab taken "),
    ("ab_taken", Kind::Number, " lost "),
    ("ab_lost", Kind::Number, " ba taken "),
    ("ba_taken", Kind::Number, " lost "),
    ("ba_lost", Kind::Number, ""),
];

/// Whether the bridges are settled.
const SETTLED: &[Slot] = slots![("settled", Kind::OneOf(YES_OR_NO), ""),];

/// The fault of a port's input.
const PORT_FAULT: &[Slot] = slots![("port", Kind::Text, " "), ("code", Kind::Number, ""),];

/// Frames were not written.
const FRAMES: &[Choice] = choices![("frames not written", Said::Word("frames not written")),];

/// The system did not take the datagrams of frames.
const SENDS: &[Choice] = choices![("frames not sent", Said::Word("frames not sent")),];

/// The system failed to return datagrams.
const RECEIVES: &[Choice] = choices![("receives failed", Said::Word("receives failed")),];

/// Copies of frames, or a bridge's own BPDUs, were not queued.
const COPIES: &[Choice] = choices![
    ("copies not queued", Said::Word("copies not queued")),
    ("BPDUs not queued", Said::Word("BPDUs not queued")),
];

/// Sources were not learnt.
const SOURCES: &[Choice] = choices![("sources not learnt", Said::Word("sources not learnt")),];

/// Bridges have not converged.
const CONVERGENCE: &[Choice] = choices![(
    "bridges not converged",
    Said::Word("bridges not converged")
),];

/// Why a bridge dropped something.
const CAUSES: &[Choice] = choices![
    ("full", Said::Word("full")),
    ("memory", Said::Word("memory")),
];

/// Why a bridge dropped frames.
const REASONS: &[Choice] = choices![
    ("not-forwarding", Said::Word("not-forwarding")),
    ("not-member", Said::Word("not-member")),
    ("untagged", Said::Word("untagged")),
    ("reserved", Said::Word("reserved")),
    ("malformed", Said::Word("malformed")),
    ("worn", Said::Word("worn")),
    ("memory", Said::Word("memory")),
    ("s-tagged", Said::Word("s-tagged")),
    ("long", Said::Word("long")),
    ("no-port", Said::Word("no-port")),
];

/// Why a customer port dropped datagrams.
const REFUSALS: &[Choice] = choices![
    ("other-sender", Said::Word("other-sender")),
    ("short-header", Said::Word("short-header")),
    ("unset-flag", Said::Word("unset-flag")),
    ("other-network", Said::Word("other-network")),
    ("short-frame", Said::Word("short-frame")),
];

/// The uses that a customer port makes of a path or an address.
const USES: &[Choice] = choices![
    ("read", Said::Word("read")),
    ("cannot read", Said::Word("read")),
    ("write", Said::Word("write")),
    ("connect", Said::Word("connect")),
    ("listen", Said::Word("listen")),
    ("bind", Said::Word("bind")),
];

/// The use of a control socket.
const CONTROL: &[Choice] = choices![("create control socket", Said::Word("control")),];

/// The reply to a line of a script.
const ANSWER: &[Slot] = slots![("answer", Kind::Text, ""),];

/// A customer port.
const PORT_LINE: Template = template!("ports", "port ", PORT);

/// A link.
const LINK_LINE: Template = template!("links", "link ", LINK);

/// Whether the bridges are settled.
const SETTLED_LINE: Template = template!("", "settled ", SETTLED);

/// The frames that a customer port did not write.
const UNWRITTEN: &[Slot] = slots![
    ("port", Kind::Text, ": "),
    ("count", Kind::Number, " "),
    ("what", Kind::OneOf(FRAMES), ""),
];

/// The frames that a customer port did not send in datagrams.
const UNSENT: &[Slot] = slots![
    ("port", Kind::Text, ": "),
    ("count", Kind::Number, " "),
    ("what", Kind::OneOf(SENDS), ": "),
    ("why", Kind::Text, ""),
];

/// The receives of datagrams that failed at a customer port.
const UNRECEIVED: &[Slot] = slots![
    ("port", Kind::Text, ": "),
    ("count", Kind::Number, " "),
    ("what", Kind::OneOf(RECEIVES), ": "),
    ("why", Kind::Text, ""),
];

/// The datagrams that a customer port dropped.
const REFUSED: &[Slot] = slots![
    ("port", Kind::Text, ": "),
    ("count", Kind::Number, " datagrams dropped: "),
    ("reason", Kind::OneOf(REFUSALS), ""),
];

/// The frames that a tap of a link did not write.
const TAP_UNWRITTEN: &[Slot] = slots![
    ("link", Kind::Text, ": "),
    ("count", Kind::Number, " "),
    ("what", Kind::OneOf(FRAMES), ""),
];

/// The copies or BPDUs that a bridge did not queue at a port.
const UNQUEUED: &[Slot] = slots![
    ("bridge", Kind::Text, " port "),
    ("bridge_port", Kind::Number, ": "),
    ("count", Kind::Number, " "),
    ("what", Kind::OneOf(COPIES), ": "),
    ("cause", Kind::OneOf(CAUSES), ""),
];

/// The sources that a bridge did not learn.
const UNLEARNT: &[Slot] = slots![
    ("bridge", Kind::Text, ": "),
    ("count", Kind::Number, " "),
    ("what", Kind::OneOf(SOURCES), ": "),
    ("cause", Kind::OneOf(CAUSES), ""),
];

/// The frames that a bridge dropped at a port.
const DROPPED: &[Slot] = slots![
    ("bridge", Kind::Text, " port "),
    ("bridge_port", Kind::Number, ": "),
    ("count", Kind::Number, " frames dropped: "),
    ("reason", Kind::OneOf(REASONS), ""),
];

/// The customers' frames that a run left in its network.
const TRANSIT: &[Slot] = slots![("in_transit", Kind::Number, ""),];

/// The bridges have not converged.
const NOT_CONVERGED: &[Slot] = slots![("what", Kind::OneOf(CONVERGENCE), ""),];

/// A path or an address that a customer port could not use.
const PORT_PATH: &[Slot] = slots![
    ("port", Kind::Text, ": "),
    ("use", Kind::OneOf(USES), " "),
    ("path", Kind::Text, ": "),
    ("why", Kind::Text, ""),
];

/// A path that a tap of a link could not use.
const TAP_PATH: &[Slot] = slots![
    ("link", Kind::Text, ": "),
    ("use", Kind::OneOf(USES), " "),
    ("path", Kind::Text, ": "),
    ("why", Kind::Text, ""),
];

/// The path of a control socket that was not created.
const CONTROL_PATH: &[Slot] = slots![
    ("use", Kind::OneOf(CONTROL), " "),
    ("path", Kind::Text, ": "),
    ("why", Kind::Text, ""),
];

/// A warning about the run.
const WARNING: &[Slot] = slots![("message", Kind::Text, ""),];

/// The lines of a run.
const RUN_LINES: &[Template] = &[
    template!("", "ended ", ENDED),
    PORT_LINE,
    LINK_LINE,
    FOREST,
    LOOP,
    SETTLED_LINE,
    template!("port_faults", "fault: port ", PORT_FAULT),
    template!("losses", "port ", UNWRITTEN),
    template!("losses", "port ", UNSENT),
    template!("losses", "tap of link ", TAP_UNWRITTEN),
    template!("losses", "bridge ", UNQUEUED),
    template!("losses", "bridge ", UNLEARNT),
    template!("losses", "", NOT_CONVERGED),
    template!("drops", "port ", REFUSED),
    template!("drops", "port ", UNRECEIVED),
    template!("drops", "bridge ", DROPPED),
    template!("", "frames in transit: ", TRANSIT),
    template!("paths", "error: port ", PORT_PATH),
    template!("paths", "error: tap of link ", TAP_PATH),
    template!("paths", "error: cannot ", CONTROL_PATH),
    template!("warnings", "warning: ", WARNING),
    FAULT,
    NAMED_PLAN_FAULT,
    PLAN_FAULT,
    OTHER,
];

/// The lines that reply to a script.
const STEP_LINES: &[Template] = &[
    PORT_LINE,
    LINK_LINE,
    FOREST,
    LOOP,
    SETTLED_LINE,
    FAULT,
    NAMED_PLAN_FAULT,
    PLAN_FAULT,
    template!("answers", "", ANSWER),
];

/// The customer ports.
const PORTS: ListForm = list!("ports", ListShape::Objects, &[]);

/// The links.
const LINKS: ListForm = list!("links", ListShape::Objects, &[]);

/// The lists of a run.
const RUN_LISTS: &[ListForm] = &[
    PORTS,
    LINKS,
    LOOPS,
    list!("port_faults", ListShape::Objects, &[]),
    list!("losses", ListShape::Objects, &[]),
    list!("drops", ListShape::Objects, &[]),
    list!("paths", ListShape::Objects, &[]),
    list!("warnings", ListShape::Objects, &[]),
    PLAN_FAULTS,
    OTHERS,
];

/// The lists of a script's replies.
const STEP_LISTS: &[ListForm] = &[
    list!("answers", ListShape::Values, &[]),
    PORTS,
    LINKS,
    LOOPS,
    PLAN_FAULTS,
];

/// The form of what `run` prints.
pub const RUN: Form = Form {
    templates: RUN_LINES,
    lists: RUN_LISTS,
};

/// The form of what `step` prints.
pub const STEP: Form = Form {
    templates: STEP_LINES,
    lists: STEP_LISTS,
};

/// The titles of the columns.
const TITLES: &[&str] = &[
    "kind",
    "name",
    "direction",
    "entered",
    "left",
    "filtered",
    "taken",
    "lost",
];

/// A customer port.
const PORT_CELLS: &[Cell] = &[
    Cell::Fixed("port"),
    Cell::Held("name"),
    Cell::Fixed(""),
    Cell::Held("entered"),
    Cell::Held("left"),
    Cell::Held("filtered"),
    Cell::Fixed(""),
    Cell::Fixed(""),
];

/// A link from end a to end b.
const AB_CELLS: &[Cell] = &[
    Cell::Fixed("link"),
    Cell::Held("name"),
    Cell::Fixed("ab"),
    Cell::Fixed(""),
    Cell::Fixed(""),
    Cell::Fixed(""),
    Cell::Held("ab_taken"),
    Cell::Held("ab_lost"),
];

/// A link from end b to end a.
const BA_CELLS: &[Cell] = &[
    Cell::Fixed("link"),
    Cell::Held("name"),
    Cell::Fixed("ba"),
    Cell::Fixed(""),
    Cell::Fixed(""),
    Cell::Fixed(""),
    Cell::Held("ba_taken"),
    Cell::Held("ba_lost"),
];

/// The lines of the table.
const TABLE_LINES: &[CellRow] = &[
    CellRow {
        home: "ports",
        cells: PORT_CELLS,
    },
    CellRow {
        home: "links",
        cells: AB_CELLS,
    },
    CellRow {
        home: "links",
        cells: BA_CELLS,
    },
];

/// The table of the counts of customer ports and links: a line for each port, and one for each direction of a link.
pub const COUNTS: Table = Table {
    titles: TITLES,
    lines: TABLE_LINES,
};
