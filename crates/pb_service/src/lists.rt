//! Checks of the lists of a TOML document.

ghost use Rattle.std.specs.Prelude.{◌≡◌, ◌&&◌, true, is_some, IfOk};
ghost use Rattle.toml.specs.Data.{as_str, as_integer};
ghost use Rattle.toml.specs.View.{view, items_view};
ghost use Rattle.pb_frame.specs.Admission.{same};
ghost use Rattle.pb_lan.specs.Names.{is_name};
ghost use Rattle.pb_service.specs.Values.{is_text, all_items, any_item, is_list, is_hex, rise_from, are_distinct};

use crate::values::{is_hex, is_name, is_same, natural_of, text_in};
use std::alloc::{AllocError, Global};
use std::collections::BTreeSet;
use toml::Value;

/// Returns whether each item is an integer.
pub(crate) fn are_integers(items: &[Value]) -> bool
    ensures { result ≡ all_items (λ e. is_some (as_integer e)) (items_view items.now) }
{
    for item in items {
        if !item.is_integer() {
            return false;
        }
    }
    true
}

/// Returns whether each item is a text.
pub(crate) fn are_texts(items: &[Value]) -> bool
    ensures { result ≡ all_items (λ e. is_some (as_str e)) (items_view items.now) }
{
    for item in items {
        if !item.is_str() {
            return false;
        }
    }
    true
}

/// Returns whether each item is a text of pairs of hexadecimal digits.
fn are_hex(items: &[Value]) -> bool
    ensures { result ≡ all_items (is_text is_hex) (items_view items.now) }
{
    for item in items {
        if !is_hex(item) {
            return false;
        }
    }
    true
}

/// Returns whether each item is a name.
fn are_names(items: &[Value]) -> bool
    ensures { result ≡ all_items (is_text is_name) (items_view items.now) }
{
    for item in items {
        if !is_name(item) {
            return false;
        }
    }
    true
}

/// Returns whether the items are natural numbers that rise strictly.
fn rise(items: &[Value]) -> bool
    ensures { result ≡ rise_from 0 (items_view items.now) }
{
    let mut least = 0;
    for item in items {
        let Some(n) = natural_of(item) else {
            return false;
        };
        if n < least {
            return false;
        }
        least = n + 1;
    }
    true
}

/// Returns whether one of the items is this text.
pub(crate) fn has_text(items: &[Value], text: &str) -> bool
    ensures { result ≡ any_item (is_text (same text.now)) (items_view items.now) }
{
    for item in items {
        if is_same(item, text) {
            return true;
        }
    }
    false
}

/// Checks whether no text occurs twice among the items, which are names.
///
/// # Errors
///
/// `AllocError` if an allocation failed.
fn are_distinct(alloc: Global, items: &[Value]) -> Result<bool, AllocError>
    requires { all_items (is_text is_name) (items_view items.now) ≡ true }
    ensures { IfOk result (λ distinct. distinct ≡ are_distinct (items_view items.now)) }
{
    let mut seen = BTreeSet::new(alloc);
    for index in (0..items.len()).rev() {
        let Ok(is_new) = seen.insert(text_in(&items[index])) else {
            return Err(AllocError);
        };
        if !is_new {
            return Ok(false);
        }
    }
    Ok(true)
}

/// Returns whether the value is a list of numbers that rises strictly.
pub(crate) fn are_losses(value: &Value) -> bool
    ensures { result ≡ is_list (rise_from 0) (view value.now) }
{
    match value.as_array() {
        Some(items) => rise(items.as_slice()),
        None => false,
    }
}

/// Checks whether the value is a list of distinct names.
///
/// # Errors
///
/// `AllocError` if an allocation failed.
pub(crate) fn are_listed(alloc: Global, value: &Value) -> Result<bool, AllocError>
    ensures { IfOk result (λ listed.
        listed ≡ is_list (λ ds. all_items (is_text is_name) ds && are_distinct ds) (view value.now)) }
{
    match value.as_array() {
        Some(items) if are_names(items.as_slice()) => are_distinct(alloc, items.as_slice()),
        _ => Ok(false),
    }
}

/// Returns whether the value is a list of hexadecimal texts.
pub(crate) fn are_frames(value: &Value) -> bool
    ensures { result ≡ is_list (all_items (is_text is_hex)) (view value.now) }
{
    match value.as_array() {
        Some(items) => are_hex(items.as_slice()),
        None => false,
    }
}
