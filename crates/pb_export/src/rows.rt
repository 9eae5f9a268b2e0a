//! The rows of a report.

use crate::templates::{Choice, Slot, Template};

/// The value of a slot in a line.
#[derive(Drop)]
pub enum Field<'a> {
    /// A text.
    Text(&'a str),
    /// A number.
    Number(u64),
    /// A depth, in pairs of spaces.
    Depth(u64),
    /// Words.
    Words(Vec<&'a str>),
    /// Numbers.
    Numbers(Vec<u64>),
    /// Groups of words: all but the last one, and the last one.
    Groups(Vec<Vec<&'a str>>, Vec<&'a str>),
    /// One of the choices of the slot.
    Chosen(Choice),
}

/// A slot with its value.
#[derive(Drop)]
pub struct Filled<'a> {
    /// The slot.
    pub slot: Slot,
    /// Its value.
    pub field: Field<'a>,
}

/// A line of a report as values.
#[derive(Drop)]
pub struct Row<'a> {
    /// The template of the line.
    pub template: Template,
    /// Its slots, with the value of each.
    pub fields: Vec<Filled<'a>>,
}
