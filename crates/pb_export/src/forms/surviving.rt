//! The reports of `survive`.

use super::shared::{
    CONVERGED, FAULT, NAMED_PLAN_FAULT, OTHER, OTHERS, PLAN_FAULT, PLAN_FAULTS, YES_OR_NO,
};
use crate::tables::{Cell, CellRow, Table};
use crate::templates::{Choice, Form, Kind, ListForm, ListShape, Said, Slot, Template};

/// A link or a bridge is down.
const ONE_DOWN: &[Choice] = choices![
    ("link ", Said::Word("link")),
    ("bridge ", Said::Word("bridge")),
];

/// Two links are down.
const TWO_DOWN: &[Choice] = choices![("links ", Said::Word("links")),];

/// The network survives.
const SURVIVES: &[Choice] = choices![("", Said::Yes),];

/// Some failures do harm.
const PARTS: &[Choice] = choices![(" failures disconnect a service", Said::No),];

/// Some failures leave a loop.
const FORMS_LOOPS: &[Choice] = choices![(" failures form a forwarding loop", Said::No),];

/// The bridges do not converge after some failures.
const KEEPS_GOING: &[Choice] = choices![(" failures do not converge", Said::No),];

/// A network that is not healthy does not survive.
const NEVER: &[Choice] = choices![("", Said::No),];

/// The network is healthy.
const IS_HEALTHY: &[Choice] = choices![("with nothing down", Said::Yes),];

/// The network is healthy besides what is down from the start.
const IS_HEALTHY_BESIDE: &[Choice] = choices![("with nothing else down", Said::Yes),];

/// The network is not healthy, and whether its bridges converge.
const IS_UNHEALTHY: &[Choice] = choices![(", bridges do not converge", Said::No), ("", Said::No),];

/// Why the network is not healthy.
const FAULTS: &[Choice] = choices![("do not converge", Said::Word("not converged")),];

/// Why a service is not healthy.
const SERVICE_FAULTS: &[Choice] = choices![
    ("is disconnected", Said::Word("disconnected")),
    ("has a forwarding loop", Said::Word("loop")),
    ("has fewer than two ports", Said::Word("too few ports")),
];

/// The failure is accepted.
const IS_ACCEPTED: &[Choice] = choices![("accepted ", Said::Yes), ("", Said::Nothing),];

/// Whether an acceptance is stale or untried.
const STATES: &[Choice] = choices![
    ("stale", Said::Word("stale")),
    ("untried", Said::Word("untried")),
];

/// What is down from the start.
const DOWNS: &[Slot] = slots![("down", Kind::Words, ""),];

/// The network with nothing down.
const CALM: &[Slot] = slots![
    ("converged", Kind::OneOf(CONVERGED), ""),
    ("ticks", Kind::Number, " forest "),
    ("forest", Kind::OneOf(YES_OR_NO), ""),
];

/// The network with nothing down, if the plan gives the states.
const CALM_GIVEN: &[Slot] = slots![("forest", Kind::OneOf(YES_OR_NO), ""),];

/// One link or bridge is down.
const ONE: &[Slot] = slots![
    ("accepted", Kind::OneOf(IS_ACCEPTED), ""),
    ("down", Kind::OneOf(ONE_DOWN), ""),
    ("name", Kind::Text, " down: "),
    ("converged", Kind::OneOf(CONVERGED), ""),
    ("ticks", Kind::Number, " forest "),
    ("forest", Kind::OneOf(YES_OR_NO), ""),
];

/// One link or bridge is down, and the plan gives the states.
const ONE_GIVEN: &[Slot] = slots![
    ("accepted", Kind::OneOf(IS_ACCEPTED), ""),
    ("down", Kind::OneOf(ONE_DOWN), ""),
    ("name", Kind::Text, " down: states given forest "),
    ("forest", Kind::OneOf(YES_OR_NO), ""),
];

/// Two links are down.
const TWO: &[Slot] = slots![
    ("accepted", Kind::OneOf(IS_ACCEPTED), ""),
    ("down", Kind::OneOf(TWO_DOWN), ""),
    ("name", Kind::Text, " "),
    ("other", Kind::Text, " down: "),
    ("converged", Kind::OneOf(CONVERGED), ""),
    ("ticks", Kind::Number, " forest "),
    ("forest", Kind::OneOf(YES_OR_NO), ""),
];

/// Two links are down, and the plan gives the states.
const TWO_GIVEN: &[Slot] = slots![
    ("accepted", Kind::OneOf(IS_ACCEPTED), ""),
    ("down", Kind::OneOf(TWO_DOWN), ""),
    ("name", Kind::Text, " "),
    ("other", Kind::Text, " down: states given forest "),
    ("forest", Kind::OneOf(YES_OR_NO), ""),
];

/// A service whose active links form a loop: its name alone.
const RING: &[Slot] = slots![("", Kind::Text, ""),];

/// The ports of a service, in groups that reach each other.
const SERVICE: &[Slot] = slots![("name", Kind::Text, ":"), ("groups", Kind::Groups, ""),];

/// The ports that a port can't reach any more.
const CUT_OFF: &[Slot] = slots![
    ("port", Kind::Text, " cut off from:"),
    ("from", Kind::Words, ""),
];

/// The bridges are not healthy with nothing down.
const BRIDGES_FAULT: &[Slot] = slots![("fault", Kind::OneOf(FAULTS), ""),];

/// A service is not healthy with nothing down.
const SERVICE_FAULT: &[Slot] = slots![
    ("service", Kind::Text, " "),
    ("fault", Kind::OneOf(SERVICE_FAULTS), ""),
];

/// The network is healthy with nothing down.
const HEALTHY: &[Slot] = slots![("healthy", Kind::OneOf(IS_HEALTHY), ""),];

/// The network is healthy with nothing else down.
const HEALTHY_BESIDE: &[Slot] = slots![("healthy", Kind::OneOf(IS_HEALTHY_BESIDE), ""),];

/// Services are not healthy with nothing down.
const UNHEALTHY: &[Slot] = slots![
    ("unhealthy_services", Kind::Number, " service"),
    ("", Kind::Plural, ""),
    ("healthy", Kind::OneOf(IS_UNHEALTHY), ""),
    ("survives", Kind::OneOf(NEVER), ""),
];

/// There is no service.
const SERVICELESS: &[Slot] = slots![
    ("healthy", Kind::OneOf(IS_UNHEALTHY), ""),
    ("survives", Kind::OneOf(NEVER), ""),
];

/// Links failed.
const LINKS: &[Slot] = slots![
    ("checked_links", Kind::Number, " link"),
    ("", Kind::Plural, ""),
];

/// Links and bridges failed.
const LINKS_BRIDGES: &[Slot] = slots![
    ("checked_links", Kind::Number, " link"),
    ("", Kind::Plural, ", "),
    ("checked_bridges", Kind::Number, " bridge"),
    ("", Kind::Plural, ""),
];

/// Links and pairs of links failed.
const LINKS_PAIRS: &[Slot] = slots![
    ("checked_links", Kind::Number, " link"),
    ("", Kind::Plural, ", "),
    ("checked_pairs", Kind::Number, " pair"),
    ("", Kind::Plural, ""),
];

/// Links, bridges and pairs of links failed.
const LINKS_BRIDGES_PAIRS: &[Slot] = slots![
    ("checked_links", Kind::Number, " link"),
    ("", Kind::Plural, ", "),
    ("checked_bridges", Kind::Number, " bridge"),
    ("", Kind::Plural, ", "),
    ("checked_pairs", Kind::Number, " pair"),
    ("", Kind::Plural, ""),
];

/// How many failures disconnect nothing.
const SPARING: &[Slot] = slots![
    ("part_nothing", Kind::Number, " of "),
    (
        "failures_tried",
        Kind::Number,
        " failures disconnect nothing"
    ),
];

/// The most ticks to convergence after a failure.
const CONVERGING: &[Slot] = slots![
    ("most_ticks", Kind::Number, " tick"),
    ("", Kind::Plural, ""),
];

/// How many failures are accepted.
const EXCUSED: &[Slot] = slots![
    ("are_accepted", Kind::Number, " of "),
    ("failures_tried", Kind::Number, " failures are accepted"),
];

/// How many failures disconnect a service and are not accepted.
const PARTING: &[Slot] = slots![
    ("part_a_service", Kind::Number, " of "),
    ("failures_tried", Kind::Number, ""),
    ("survives", Kind::OneOf(PARTS), ""),
];

/// How many failures leave a service with a forwarding loop.
const LOOPING: &[Slot] = slots![
    ("form_a_loop", Kind::Number, " of "),
    ("failures_tried", Kind::Number, ""),
    ("survives", Kind::OneOf(FORMS_LOOPS), ""),
];

/// After how many failures the bridges do not converge.
const NOT_CONVERGED: &[Slot] = slots![
    ("do_not_converge", Kind::Number, " of "),
    ("failures_tried", Kind::Number, ""),
    ("survives", Kind::OneOf(KEEPS_GOING), ""),
];

/// An acceptance that is stale or untried.
const ACCEPTANCE: &[Slot] = slots![
    ("state", Kind::OneOf(STATES), " acceptance: "),
    ("accepts", Kind::Text, ""),
];

/// That the network survives.
const SURVIVING: &[Slot] = slots![
    ("survives", Kind::OneOf(SURVIVES), ""),
    ("tried", Kind::Text, ""),
];

/// The plan lacks the service with a name.
const NO_SERVICE: &[Slot] = slots![("service", Kind::Text, ""),];

/// The plan lacks the customer port with a name.
const NO_PORT: &[Slot] = slots![("port", Kind::Text, ""),];

/// The lines.
const LINES: &[Template] = &[
    template!("nothing_down", "nothing down: ", CALM),
    template!(
        "nothing_down",
        "nothing down: states given forest ",
        CALM_GIVEN
    ),
    template!("failures", "", ONE),
    template!("failures", "", ONE_GIVEN),
    template!("failures", "", TWO),
    template!("failures", "", TWO_GIVEN),
    template!("loops", "  loop ", RING),
    template!("services", "  service ", SERVICE),
    template!("cut_off", "  ", CUT_OFF),
    template!("unhealthy", "bridges ", BRIDGES_FAULT),
    template!("unhealthy", "service ", SERVICE_FAULT),
    template!("", "healthy ", HEALTHY),
    template!("", "not healthy with nothing down: ", UNHEALTHY),
    template!("", "not healthy with nothing down: no service", SERVICELESS),
    template!("", "checked ", LINKS),
    template!("", "checked ", LINKS_BRIDGES),
    template!("", "checked ", LINKS_PAIRS),
    template!("", "checked ", LINKS_BRIDGES_PAIRS),
    template!("", "", SPARING),
    template!("", "converges within ", CONVERGING),
    template!("", "", EXCUSED),
    template!("", "", PARTING),
    template!("", "", LOOPING),
    template!("", "", NOT_CONVERGED),
    template!("acceptances", "", ACCEPTANCE),
    template!("", "survives the failure of ", SURVIVING),
    template!("no_such", "no such service ", NO_SERVICE),
    template!("no_such", "no such port ", NO_PORT),
    FAULT,
    NAMED_PLAN_FAULT,
    PLAN_FAULT,
    OTHER,
];

/// The lines if something is down from the start.
const LINES_BESIDE: &[Template] = &[
    template!("", "down:", DOWNS),
    template!("nothing_down", "nothing else down: ", CALM),
    template!(
        "nothing_down",
        "nothing else down: states given forest ",
        CALM_GIVEN
    ),
    template!("failures", "", ONE),
    template!("failures", "", ONE_GIVEN),
    template!("failures", "", TWO),
    template!("failures", "", TWO_GIVEN),
    template!("loops", "  loop ", RING),
    template!("services", "  service ", SERVICE),
    template!("cut_off", "  ", CUT_OFF),
    template!("unhealthy", "bridges ", BRIDGES_FAULT),
    template!("unhealthy", "service ", SERVICE_FAULT),
    template!("", "healthy ", HEALTHY_BESIDE),
    template!("", "not healthy with nothing else down: ", UNHEALTHY),
    template!(
        "",
        "not healthy with nothing else down: no service",
        SERVICELESS
    ),
    template!("", "checked ", LINKS),
    template!("", "checked ", LINKS_BRIDGES),
    template!("", "checked ", LINKS_PAIRS),
    template!("", "checked ", LINKS_BRIDGES_PAIRS),
    template!("", "", SPARING),
    template!("", "converges within ", CONVERGING),
    template!("", "", EXCUSED),
    template!("", "", PARTING),
    template!("", "", LOOPING),
    template!("", "", NOT_CONVERGED),
    template!("acceptances", "", ACCEPTANCE),
    template!("", "survives the failure of ", SURVIVING),
    template!("no_such", "no such service ", NO_SERVICE),
    template!("no_such", "no such port ", NO_PORT),
    FAULT,
    NAMED_PLAN_FAULT,
    PLAN_FAULT,
    OTHER,
];

/// The lists of the document.
const LISTS: &[ListForm] = &[
    list!(
        "nothing_down",
        ListShape::Single,
        &["loops", "services", "unhealthy"]
    ),
    list!(
        "failures",
        ListShape::Objects,
        &["loops", "services", "cut_off"]
    ),
    list!("acceptances", ListShape::Objects, &[]),
    list!("no_such", ListShape::Single, &[]),
    PLAN_FAULTS,
    OTHERS,
];

/// The form of what `survive` prints.
pub const SURVIVE: Form = Form {
    templates: LINES,
    lists: LISTS,
};

/// The form of what `survive` prints if something is down from the start.
pub const SURVIVE_BESIDE: Form = Form {
    templates: LINES_BESIDE,
    lists: LISTS,
};

/// The titles of the columns.
const TITLES: &[&str] = &[
    "down",
    "name",
    "other",
    "converged",
    "ticks",
    "forest",
    "accepted",
];

/// A failure.
const CELLS: &[Cell] = &[
    Cell::Held("down"),
    Cell::Held("name"),
    Cell::Held("other"),
    Cell::Held("converged"),
    Cell::Held("ticks"),
    Cell::Held("forest"),
    Cell::Held("accepted"),
];

/// The lines of the table.
const TABLE_LINES: &[CellRow] = &[CellRow {
    home: "failures",
    cells: CELLS,
}];

/// The table of the failures in the report: a line for each.
pub const FAILURES: Table = Table {
    titles: TITLES,
    lines: TABLE_LINES,
};
