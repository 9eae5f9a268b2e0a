//! A number for each bridge, or for each level.

/// The number of entries of a table: for bridges 1 to 32, or levels 0 to 32.
const ENTRIES: usize = 33;

/// A number for each bridge by its number, or for each level.
#[derive(Clone, Copy)]
pub(crate) struct Table {
    entries: [u32; 33],
}

impl Table {
    /// Returns a table with one number everywhere.
    pub(crate) fn filled(value: u32) -> Table {
        Table {
            entries: [value; 33],
        }
    }

    /// Returns the number at an index, or 0 beyond the last.
    pub(crate) fn at(&self, index: u32) -> u32 {
        let index = index as usize;
        if index < ENTRIES {
            self.entries[index]
        } else {
            0
        }
    }

    /// Sets the number at an index. Beyond the last nothing is set.
    pub(crate) fn set(&mut self, index: u32, value: u32) {
        let index = index as usize;
        if index < ENTRIES {
            self.entries[index] = value;
        }
    }

    /// Sets the number at an index, if the new one is greater.
    pub(crate) fn raise(&mut self, index: u32, value: u32) {
        if self.at(index) < value {
            self.set(index, value);
        }
    }

    /// Returns the greatest number.
    pub(crate) fn greatest(&self) -> u32 {
        let mut greatest = 0;
        for entry in &self.entries {
            greatest = greatest.max(*entry);
        }
        greatest
    }
}

/// Returns the number of the part at an index of a list, from 1. A sound plan has at most 128 parts in a list.
pub(crate) fn number_at(place: usize) -> u32 {
    place.min(255) as u32 + 1
}
