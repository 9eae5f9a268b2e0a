//! The lists of services of links.

use super::plans::Piece;
use super::{DOT, Row, SVG, draws};
use pb_cmd_draw::{Convergence, DrawEnd};
use std::test::Fail;

/// Bridges in a line, whose links have lists: both ends the same short one, both the same long one, two lists, one list
/// and all services, none, and all services.
const LISTS: &str = "\
bridge = [\n\
  { name = \"B1\", address = \"02-00-00-00-00-01\" },\n\
  { name = \"B2\", address = \"02-00-00-00-00-02\" },\n\
]\n\
link = [\n\
  { name = \"three\", a = \"B1\", a_port = 1, b = \"B2\", b_port = 1, \
    a_services = [\"s2\", \"s1\", \"s4\"], b_services = [\"s1\", \"s2\", \"s4\"] },\n\
  { name = \"four\", a = \"B1\", a_port = 2, b = \"B2\", b_port = 2, \
    a_services = [\"s2\", \"s3\", \"s4\", \"s5\"], b_services = [\"s2\", \"s3\", \"s4\", \"s5\"] },\n\
  { name = \"two\", a = \"B1\", a_port = 3, b = \"B2\", b_port = 3, \
    a_services = [\"s5\"], b_services = [\"s1\", \"s2\", \"s3\", \"s4\", \"s5\"] },\n\
  { name = \"one\", a = \"B1\", a_port = 4, b = \"B2\", b_port = 4, b_services = [\"s3\", \"s5\"] },\n\
  { name = \"none\", a = \"B1\", a_port = 5, b = \"B2\", b_port = 5, a_services = [], b_services = [] },\n\
  { name = \"all\", a = \"B1\", a_port = 6, b = \"B2\", b_port = 6 },\n\
]\n\
service = [\n\
  { name = \"s1\", vid = 1 },\n\
  { name = \"s2\", vid = 2 },\n\
  { name = \"s3\", vid = 3 },\n\
  { name = \"s4\", vid = 4 },\n\
  { name = \"s5\", vid = 5 },\n\
]\n\
";

const NO_PIECES: &[Piece] = &[("</svg>", 1), ("tspan", 0), ("class=\"list\"", 0)];

const SVG_PIECES: &[Piece] = &[
    ("class=\"list\"", 5),
    ("<tspan x=\"0\" dy=\"13\">", 7),
    (
        "height=\"13\"/><text class=\"list\" y=\"4\"><tspan x=\"0\" dy=\"13\">s1, s2, s4</tspan></text>\
        <text class=\"name\" y=\"4\">three</text>",
        1,
    ),
    (
        "<tspan x=\"0\" dy=\"13\">s2, s3 and 2 more</tspan></text><text class=\"name\" y=\"4\">four</text>",
        1,
    ),
    (
        "height=\"26\"/><text class=\"list\" y=\"4\"><tspan x=\"0\" dy=\"13\">B1: s5</tspan>\
        <tspan x=\"0\" dy=\"13\">B2: s1, s2 and 3 more</tspan></text><text class=\"name\" y=\"4\">two</text>",
        1,
    ),
    (
        "<tspan x=\"0\" dy=\"13\">B1: all services</tspan><tspan x=\"0\" dy=\"13\">B2: s3, s5</tspan></text>\
        <text class=\"name\" y=\"4\">one</text>",
        1,
    ),
    (
        "<tspan x=\"0\" dy=\"13\">no service</tspan></text><text class=\"name\" y=\"4\">none</text>",
        1,
    ),
    ("height=\"14\"/><text class=\"name\" y=\"4\">all</text>", 1),
];

const DOT_PIECES: &[Piece] = &[
    ("label=\"three\\ns1, s2, s4\", tooltip", 1),
    ("label=\"four\\ns2, s3 and 2 more\", tooltip", 1),
    ("label=\"two\\nB1: s5\\nB2: s1, s2 and 3 more\", tooltip", 1),
    ("label=\"one\\nB1: all services\\nB2: s3, s5\", tooltip", 1),
    ("label=\"none\\nno service\", tooltip", 1),
    ("label=\"all\", tooltip", 1),
];

#[test]
fn lists_are_drawn(rt: HostRuntime) -> Result<(), Fail> {
    const ROWS: &[Row] = &[
        (
            LISTS,
            (None, &[], 200, SVG),
            DrawEnd::Drawn(Convergence::Given),
            SVG_PIECES,
        ),
        (
            LISTS,
            (None, &[], 200, DOT),
            DrawEnd::Drawn(Convergence::Given),
            DOT_PIECES,
        ),
    ];
    draws(&rt, rt.alloc(), true, ROWS)
}

#[test]
fn lists_are_drawn_on_demand_alone(rt: HostRuntime) -> Result<(), Fail> {
    const ROWS: &[Row] = &[(
        LISTS,
        (None, &[], 200, SVG),
        DrawEnd::Drawn(Convergence::Given),
        NO_PIECES,
    )];
    draws(&rt, rt.alloc(), false, ROWS)
}
