//! The differences of two plans.

ghost use Rattle.std.specs.Option.{option_copied};
ghost use Rattle.std.specs.Prelude.{◌≡◌, ◌++◌, flat_map, string_bytes, OnOk};
ghost use Rattle.std.specs.List.{zip};
ghost use Rattle.pb_lan.specs.Plans.{IsSound};
ghost use Rattle.pb_plan_diff.specs.Differences.{titled, field_line, change_lines, added_line, part_lines, plan_lines};

use crate::part::{Field, Part};
use crate::parts::{parts_of, service_names};
use pb_frame::Memory;
use pb_lan::Plan;
use std::alloc::Global;

/// Returns the part with this kind and name, if there is one.
fn titled<'a>(parts: &'a [Part], title: &str) -> Option<&'a Part>
    ensures { option_copied result ≡ titled parts.now title.now }
{
    for part in parts {
        if part.title.as_str() == title {
            return Some(part);
        }
    }
    None
}

/// Appends a line for a field, if its text differs.
fn put_field(out: &mut String, title: &str, old: &Field, new: &Field) -> Result<(), Memory>
    ensures { OnOk result (string_bytes out.new ≡ string_bytes out.old ++ field_line title.now (old.now, new.now)) }
{
    let (before, after) = (old.text.as_str(), new.text.as_str());
    if before == after {
        return Ok(());
    }
    let key = old.key.as_str();
    writeln!(out, "{title}: {key}: {before} -> {after}")?;
    Ok(())
}

/// Appends a line for each field that differs.
fn put_fields(out: &mut String, title: &str, old: &[Field], new: &[Field]) -> Result<(), Memory>
    ensures { OnOk result (string_bytes out.new ≡ string_bytes out.old
        ++ flat_map (field_line title.now) (zip old.now new.now)) }
{
    for place in 0..old.len().min(new.len()) {
        put_field(out, title, &old[place], &new[place])?;
    }
    Ok(())
}

/// Appends what became of a part: that it is removed, or a line for each field that differs.
fn put_change(out: &mut String, news: &[Part], old: &Part) -> Result<(), Memory>
    ensures { OnOk result (string_bytes out.new ≡ string_bytes out.old
        ++ change_lines old.now (titled news.now old.now.title)) }
{
    let title = old.title.as_str();
    match titled(news, title) {
        None => {
            writeln!(out, "{title}: removed")?;
            Ok(())
        }
        Some(new) => put_fields(out, title, old.fields.as_slice(), new.fields.as_slice()),
    }
}

/// Appends a line for a part, if it is new.
fn put_added(out: &mut String, olds: &[Part], new: &Part) -> Result<(), Memory>
    ensures { OnOk result (string_bytes out.new ≡ string_bytes out.old ++ added_line olds.now new.now) }
{
    let title = new.title.as_str();
    if titled(olds, title).is_none() {
        writeln!(out, "{title}: added")?;
    }
    Ok(())
}

/// Appends what became of each part.
fn put_changes(out: &mut String, olds: &[Part], news: &[Part]) -> Result<(), Memory>
    ensures { OnOk result (string_bytes out.new ≡ string_bytes out.old
        ++ flat_map (λ p. change_lines p (titled news.now p.title)) olds.now) }
{
    for old in olds {
        put_change(out, news, old)?;
    }
    Ok(())
}

/// Appends a line for each part that is new.
fn put_all_added(out: &mut String, olds: &[Part], news: &[Part]) -> Result<(), Memory>
    ensures { OnOk result (string_bytes out.new ≡ string_bytes out.old ++ flat_map (added_line olds.now) news.now) }
{
    for new in news {
        put_added(out, olds, new)?;
    }
    Ok(())
}

/// Appends the differences of two lists of parts.
fn put_parts(out: &mut String, olds: &[Part], news: &[Part]) -> Result<(), Memory>
    ensures { OnOk result (string_bytes out.new ≡ string_bytes out.old ++ part_lines olds.now news.now) }
{
    put_changes(out, olds, news)?;
    put_all_added(out, olds, news)
}

/// Appends the differences of two plans, a line for each.
///
/// `KIND NAME: removed` and `KIND NAME: added` stand for a bridge, link, service or customer port (`port`) that only
/// one plan has, and `KIND NAME: KEY: OLD -> NEW` for a field that both have differently, by its key of the plan file.
/// The line of the network itself begins with `network:`. Parts are matched by their names, and fields that name other
/// parts are compared by name: the order of the plans does not matter. What belongs to a run alone, such as kinds of
/// ports, frames and events, is not compared.
///
/// # Errors
///
/// `Memory` if an allocation failed. Some of the lines may have been appended then.
pub fn put_plan_diff(alloc: Global, out: &mut String, old: &Plan, new: &Plan) -> Result<(), Memory>
    requires old { IsSound old.now }
    requires new { IsSound new.now }
    ensures { OnOk result (string_bytes out.new ≡ string_bytes out.old ++ plan_lines old.now new.now) }
{
    let names = service_names(alloc, old, new)?;
    let olds = parts_of(alloc, names.as_slice(), old)?;
    let news = parts_of(alloc, names.as_slice(), new)?;
    put_parts(out, olds.as_slice(), news.as_slice())
}
