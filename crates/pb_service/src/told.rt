//! Reading the value at a key of a table, with a default.

ghost use Rattle.std.specs.Prelude.{◌≡◌, ◌<◌, ◌≤◌, ◌^◌, length, map, option_map, take, IfOk, IfErr, IfSome};
ghost use Rattle.toml.specs.Data.{get_member};
ghost use Rattle.toml.specs.View.{view, items_view, table_view};
ghost use Rattle.pb_service.specs.Told.{number_told, flag_told, flag_in, text_told, items_told, state_of, spanning_of};
ghost use Rattle.pb_service.specs.Told.{naturals_in, number_from, listed_from, has_key, queues_of, stamp_of};
ghost use Rattle.pb_service.specs.Told.{direction_of, framing_of};
ghost use Rattle.pb_service.specs.declared.fault.PlanFault.TheVariants.{Memory as memory_fault};

use crate::fault::PlanFault;
use crate::lists::has_text;
use crate::port_spec::{LengthField, Stamp};
use crate::tap::TapDirection;
use crate::values::{natural_of, text_in};
use pb_frame::{Seq, Text};
use pb_lan::{PortState, Queues, Spanning};
use std::alloc::Global;
use toml::{Table, Value};

/// Returns the value at a key, if the table has the key.
pub(crate) fn value_at<'a>(table: &'a Table, key: &str) -> Option<&'a Value>
    ensures { option_map (λ v. view v.now) result ≡ get_member key.now (table_view table.now) }
{
    table.get(key)
}

/// Returns whether the table has the key.
pub(crate) fn has_key(table: &Table, key: &str) -> bool
    ensures { result ≡ has_key (table_view table.now) key.now }
{
    match value_at(table, key) {
        Some(_) => true,
        None => false,
    }
}

/// Returns the number at a key, or the default if there is no natural number. A larger number than the highest is cut
/// to the highest.
pub(crate) fn number_at(table: &Table, key: &str, default: u64, highest: u64) -> u64
    ensures value { result ≡ number_told default highest (get_member key.now (table_view table.now)) }
    ensures within { result ≤ highest }
{
    let told = match value_at(table, key) {
        Some(value) => natural_of(value).unwrap_or(default),
        None => default,
    };
    told.min(highest)
}

/// Returns the flag at a key, or false if there is none.
pub(crate) fn flag_at(table: &Table, key: &str) -> bool
    ensures { result ≡ flag_told (get_member key.now (table_view table.now)) }
{
    match value_at(table, key) {
        Some(value) => value.as_bool().unwrap_or(false),
        None => false,
    }
}

/// Returns the flag at a key, if there is one.
pub(crate) fn flag_in(table: &Table, key: &str) -> Option<bool>
    ensures { result ≡ flag_in (get_member key.now (table_view table.now)) }
{
    match value_at(table, key) {
        Some(value) => value.as_bool(),
        None => None,
    }
}

/// Returns the text at a key, or the empty text if there is none.
pub(crate) fn text_at<'a>(table: &'a Table, key: &str) -> &'a str
    ensures { result.now ≡ text_told (get_member key.now (table_view table.now)) }
{
    match value_at(table, key) {
        Some(value) => text_in(value),
        None => "",
    }
}

/// Returns a copy of the text at a key, or of the empty text if there is none.
pub(crate) fn copy_at(alloc: Global, table: &Table, key: &str) -> Result<Text, PlanFault>
    ensures ok { IfOk result (λ text. text ≡ text_told (get_member key.now (table_view table.now))) }
    ensures err { IfErr result (λ e. e ≡ memory_fault) }
{
    let text = String::from_str(alloc, text_at(table, key))?;
    Ok(Text::from_string(text))
}

/// Returns the items of the array at a key, or no items if there is no array.
pub(crate) fn items_at<'a>(table: &'a Table, key: &str) -> &'a [Value]
    ensures { items_view result.now ≡ items_told (get_member key.now (table_view table.now)) }
{
    match value_at(table, key) {
        Some(value) => match value.as_array() {
            Some(items) => items.as_slice(),
            None => &[],
        },
        None => &[],
    }
}

/// Returns the state of a port by its name. Any other text than `discarding` and `learning` means forwarding.
pub(crate) fn state_of(text: &str) -> PortState
    ensures { result ≡ state_of text.now }
{
    if text == "discarding" {
        PortState::Discarding
    } else if text == "learning" {
        PortState::Learning
    } else {
        PortState::Forwarding
    }
}

/// Returns how the states of ports are decided: by the spanning tree if the text is `rstp`, else by the plan.
pub(crate) fn spanning_of(text: &str) -> Spanning
    ensures { result ≡ spanning_of text.now }
{
    if text == "rstp" {
        Spanning::Rstp
    } else {
        Spanning::Fixed
    }
}

/// Returns what the capacity of a queue counts: one class if the text is `class`, else all items of the port.
pub(crate) fn queues_of(text: &str) -> Queues
    ensures { result ≡ queues_of text.now }
{
    if text == "class" {
        Queues::PerClass
    } else {
        Queues::PerPort
    }
}

/// Returns the kind of time stamps by its name. Any other text than `time` means ticks.
pub(crate) fn stamp_of(text: &str) -> Stamp
    ensures { result ≡ stamp_of text.now }
{
    if text == "time" {
        Stamp::Time
    } else {
        Stamp::Ticks
    }
}

/// Returns the length field with this number of octets. Any other number than 4 means two octets.
fn framing_of(octets: u64) -> LengthField
    ensures { result ≡ framing_of octets }
{
    if octets == 4 {
        LengthField::Four
    } else {
        LengthField::Two
    }
}

/// Returns the length field before each frame of a stream.
pub(crate) fn framing_at(table: &Table, key: &str) -> LengthField
    ensures { result ≡ framing_of (number_told 2 4 (get_member key.now (table_view table.now))) }
{
    framing_of(number_at(table, key, 2, 4))
}

/// Returns the directions that a tap records. Any other text than `ab` and `ba` means both.
pub(crate) fn direction_of(text: &str) -> TapDirection
    ensures { result ≡ direction_of text.now }
{
    if text == "ab" {
        TapDirection::Ab
    } else if text == "ba" {
        TapDirection::Ba
    } else {
        TapDirection::Both
    }
}

/// Returns the natural numbers among the items, in order.
pub(crate) fn naturals_in(alloc: Global, items: &[Value]) -> Result<Seq<u64>, PlanFault>
    ensures ok { IfOk result (λ numbers. numbers ≡ naturals_in (items_view items.now)) }
    ensures err { IfErr result (λ e. e ≡ memory_fault) }
{
    let mut numbers = Vec::with_capacity(alloc, items.len())?;
    for item in items {
        if let Some(n) = natural_of(item) {
            numbers.push(n)?;
        }
    }
    Ok(Seq::from_vec(numbers))
}

/// Returns the position of the first name that equals the given one, counted from 1.
pub(crate) fn number_of(names: &[&str], name: &str) -> Option<u8>
    requires { length names.now < 256 }
    ensures value { result ≡ number_from 1 (map (λ n. n.now) names.now) name.now }
{
    for (index, other) in names.iter().enumerate() {
        if name == *other {
            return Some(index as u8 + 1);
        }
    }
    None
}

/// Returns the numbers of those names that are listed, counted from 1 and in rising order. Only the first 64 names are
/// considered.
pub(crate) fn numbers_of(
    alloc: Global,
    names: &[&str],
    listed: &[Value],
) -> Result<Seq<u8>, PlanFault>
    ensures ok { IfOk result (λ numbers.
        numbers ≡ listed_from 1 (take 64 (map (λ n. n.now) names.now)) (items_view listed.now)) }
    ensures err { IfErr result (λ e. e ≡ memory_fault) }
{
    numbers_among(alloc, &names[..64usize.min(names.len())], listed)
}

/// Returns the numbers of those names that are listed, counted from 1 and in rising order.
fn numbers_among(alloc: Global, names: &[&str], listed: &[Value]) -> Result<Seq<u8>, PlanFault>
    requires { length names.now ≤ 64 }
    ensures ok { IfOk result (λ numbers. numbers ≡ listed_from 1 (map (λ n. n.now) names.now) (items_view listed.now)) }
    ensures err { IfErr result (λ e. e ≡ memory_fault) }
{
    let mut numbers = Vec::new(alloc);
    for (index, name) in names.iter().enumerate() {
        if has_text(listed, name) {
            numbers.push(index as u8 + 1)?;
        }
    }
    Ok(Seq::from_vec(numbers))
}
