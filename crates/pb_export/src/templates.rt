//! The templates of a report's lines, and the lists of its document.

/// The meaning of a fixed text.
#[derive(Clone, Copy)]
pub enum Said {
    /// This word.
    Word(&'static str),
    /// True.
    Yes,
    /// False.
    No,
    /// Nothing: its key is left out.
    Nothing,
}

/// A fixed text that a slot may hold, with its meaning.
#[derive(Clone, Copy)]
pub struct Choice {
    /// The text.
    pub text: &'static str,
    /// Its meaning.
    pub says: Said,
}

/// The kind of a slot.
#[derive(Clone, Copy)]
pub enum Kind {
    /// Any text, up to the first fixed text after the slot, or to the end of the line if that text is empty.
    Text,
    /// A number in decimal digits, without leading zeros, less than 2^64.
    Number,
    /// A number of pairs of spaces, at most 64.
    Depth,
    /// Words, each after a space, up to the fixed text after the slot.
    Words,
    /// Numbers, each after a space, as many as there are.
    Numbers,
    /// Groups of words, with ` |` between two groups, up to the end of the line.
    Groups,
    /// The ending of a noun after a number: an `s`, or nothing. Its key is left out.
    Plural,
    /// The first of these texts with which the rest of the line begins.
    OneOf(&'static [Choice]),
}

/// A variable part of a line.
#[derive(Clone, Copy)]
pub struct Slot {
    /// The key of its value.
    pub key: &'static str,
    /// The kind of its value.
    pub kind: Kind,
    /// The fixed text after it.
    pub until: &'static str,
}

/// The form of a line: a fixed text, and the slots after it.
#[derive(Clone, Copy)]
pub struct Template {
    /// The list of the document to which the line belongs, or empty if its values are members of the document itself.
    pub home: &'static str,
    /// The fixed text at the start.
    pub lead: &'static str,
    /// The slots after it.
    pub slots: &'static [Slot],
}

/// The shape of a list in a document.
#[derive(Clone, Copy)]
pub enum ListShape {
    /// An array with an object for each line.
    Objects,
    /// An array with the value of the first slot of each line.
    Values,
    /// The same as `Values`, left out if there is no line.
    Leftovers,
    /// The object of the first line, left out if there is none.
    Single,
}

/// A list of a document.
#[derive(Clone, Copy)]
pub struct ListForm {
    /// Its key, which is the home of its lines.
    pub key: &'static str,
    /// Its shape.
    pub shape: ListShape,
    /// The lists inside each of its objects: each has the lines of that home that follow the object's own line, up to
    /// the first line that belongs to none of them. A line whose first slot has no key is that value alone.
    pub inner: &'static [&'static str],
}

/// The form of a command's reports.
#[derive(Clone, Copy)]
pub struct Form {
    /// The templates of its lines. A line is read by the first that it fits.
    pub templates: &'static [Template],
    /// The lists of its document.
    pub lists: &'static [ListForm],
}
