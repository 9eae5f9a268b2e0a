//! Lists, texts and values on the heap.

use pb_frame::{Held, Memory, Seq, Text};
use std::alloc::Global;
use std::test::Fail;

/// Checks whether a list and its copy have these elements.
fn lists(list: &Seq<u8>, items: &[u8]) -> Result<bool, Memory> {
    let copy = list.clone()?;
    Ok(list.len() == items.len() && list.as_slice() == items && *list == copy)
}

/// Checks whether a list of these elements has them, and gives them back.
fn are_listed(alloc: Global, items: &[u8]) -> Result<bool, Fail> {
    let list = Seq::from_vec(Vec::from_slice(alloc, items)?);
    let is_same = lists(&list, items)?;
    Ok(is_same && list.into_vec().as_slice() == items)
}

/// Checks whether a text and its copy have these letters.
fn tells(text: &Text, letters: &str) -> Result<bool, Memory> {
    let copy = text.clone()?;
    Ok(text.as_str() == letters && *text == copy)
}

/// Checks whether a text of these letters has them, and gives them back.
fn are_told(alloc: Global, letters: &str) -> Result<bool, Fail> {
    let text = Text::from_string(String::from_str(alloc, letters)?);
    let is_same = tells(&text, letters)?;
    Ok(is_same && text.into_string().as_str() == letters)
}

#[test]
fn lists_and_texts_are_given_back(rt: HostRuntime) -> Result<(), Fail> {
    assert!(rt; are_listed(rt.alloc(), &[1, 2, 3])?);
    assert!(rt; are_told(rt.alloc(), "red")?);
    Ok(())
}

/// Checks whether a value on the heap equals its copy.
fn is_its_copy(held: &Held<u32>) -> Result<bool, Memory> {
    let copy = held.clone()?;
    Ok(*held == copy)
}

/// Checks whether a value on the heap equals a new one.
fn is_new(alloc: Global, held: &Held<u32>, value: u32) -> Result<bool, Memory> {
    let new = Held::new(alloc, value)?;
    Ok(*held == new)
}

/// Checks whether a value on the heap is this one, and equals its copy and not another one.
fn holds(alloc: Global, held: &Held<u32>, value: u32, other: u32) -> Result<bool, Memory> {
    let is_other = is_new(alloc, held, other)?;
    Ok(!is_other && *held.get() == value && is_its_copy(held)? && is_new(alloc, held, value)?)
}

#[test]
fn held_values_are_what_was_given(rt: HostRuntime) -> Result<(), Fail> {
    let mut held = Held::new(rt.alloc(), 7u32)?;
    assert!(rt; holds(rt.alloc(), &held, 7, 8)?);
    held.set(8);
    assert!(rt; holds(rt.alloc(), &held, 8, 7)?);
    assert!(rt; held.into_inner() == 8);
    Ok(())
}
