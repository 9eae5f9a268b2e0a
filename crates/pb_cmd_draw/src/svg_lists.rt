//! The lists of services at links in an SVG picture.

ghost use Rattle.std.specs.Prelude.{◌≡◌, ◌≤◌, ◌++◌, string_bytes, OnOk};
ghost use Rattle.pb_cmd_draw.specs.SvgLists.{list_plate, list_texts, known_lists, link_lists};

use crate::lists::{Around, line_count, put_list_lines};
use pb_frame::Memory;
use pb_lan::{LinkPlan, Plan};

/// The height of a line.
const LINE: u32 = 13;

/// Appends a plate of this half width that hides what is under so many lines.
fn put_list_plate(out: &mut String, half: u32, lines: u32) -> Result<(), Memory>
    requires { lines ≤ 2 }
    ensures { OnOk result (string_bytes out.new ≡ string_bytes out.old ++ list_plate half lines) }
{
    let width = half as u64 * 2;
    let height = lines * LINE;
    write!(
        out,
        "<rect x=\"-{half}\" y=\"7\" width=\"{width}\" height=\"{height}\"/>"
    )?;
    Ok(())
}

/// Appends the lines of a link's lists.
fn put_list_texts(out: &mut String, plan: &Plan, link: &LinkPlan) -> Result<(), Memory>
    ensures { OnOk result (string_bytes out.new ≡ string_bytes out.old ++ list_texts plan.now link.now) }
{
    let around = Around {
        before: "<tspan x=\"0\" dy=\"13\">",
        after: "</tspan>",
    };
    out.push_str("<text class=\"list\" y=\"4\">")?;
    put_list_lines(out, plan, around, link)?;
    out.push_str("</text>")?;
    Ok(())
}

/// Appends the lines of a link's lists on their plate, or nothing if both ends have all services.
fn put_known_lists(out: &mut String, plan: &Plan, link: &LinkPlan, half: u32) -> Result<(), Memory>
    ensures { OnOk result (string_bytes out.new ≡ string_bytes out.old ++ known_lists plan.now link.now half) }
{
    let lines = line_count(link);
    if lines == 0 {
        return Ok(());
    }
    put_list_plate(out, half, lines)?;
    put_list_texts(out, plan, link)
}

/// Appends the lists of a link under its name, if the picture shows them.
pub(crate) fn put_lists(
    out: &mut String,
    plan: &Plan,
    lists: bool,
    link: &LinkPlan,
    half: u32,
) -> Result<(), Memory>
    ensures { OnOk result (string_bytes out.new ≡ string_bytes out.old ++ link_lists plan.now lists link.now half) }
{
    if lists {
        put_known_lists(out, plan, link, half)
    } else {
        Ok(())
    }
}
