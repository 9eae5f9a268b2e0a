//! The table and the plain list, driven by the same commands.

ghost use Rattle.std.specs.Prelude.{◌<◌, ◌≤◌};

use super::plain::Plain;
use pb_fdb::{Fdb, Learnt};
use pb_frame::Mac;
use std::alloc::Global;

/// Pseudorandom numbers in a fixed order: the generator of Park and Miller.
#[derive(Clone, Copy)]
pub struct Dice(pub u32);

impl Dice {
    /// Returns a number below this one.
    pub fn below(&mut self, sides: u32) -> u32
        requires { 0 < sides }
        ensures { result < sides }
    {
        self.0 = (u64::from(self.0) * 16807 % 2147483647) as u32;
        self.0 % sides
    }
}

/// Both, and the moment.
#[derive(Drop)]
pub struct Both {
    pub table: Fdb,
    pub plain: Plain,
    pub now: u64,
    ghost in_time: { table.clock ≤ now },
}

/// The count of each result.
#[derive(Clone, Copy)]
pub struct Answers {
    new: u32,
    kept: u32,
    moved: u32,
    full: u32,
    group: u32,
}

impl Answers {
    pub fn none() -> Answers {
        Answers {
            new: 0,
            kept: 0,
            moved: 0,
            full: 0,
            group: 0,
        }
    }

    fn count(&mut self, answer: Learnt) {
        let place = match answer {
            Learnt::New => &mut self.new,
            Learnt::Kept => &mut self.kept,
            Learnt::Moved => &mut self.moved,
            Learnt::Full => &mut self.full,
            Learnt::Group => &mut self.group,
            Learnt::Memory => return,
        };
        *place = place.saturating_add(1);
    }

    /// Checks whether each result came more than a hundred times.
    pub fn are_many(&self) -> bool {
        self.new > 100 && self.kept > 100 && self.moved > 100 && self.full > 100 && self.group > 100
    }
}

impl Both {
    pub fn new(alloc: Global, limit: usize, ageing: u32) -> Both
        requires { 0 < ageing }
    {
        Both {
            table: Fdb::new(alloc, limit, ageing),
            plain: Plain::new(alloc, limit, ageing),
            now: 0,
        }
    }

    /// Advances the time a little, and gives one command to both. Returns whether both have the same result and the
    /// same entries.
    pub fn step(&mut self, dice: &mut Dice, answers: &mut Answers) -> bool {
        self.now = self.now.saturating_add(u64::from(dice.below(3)));
        self.command(dice, answers) && self.are_alike()
    }

    fn command(&mut self, dice: &mut Dice, answers: &mut Answers) -> bool {
        match dice.below(64) {
            0 => self.flush(dice),
            1 => self.expire(),
            2..=20 => return self.find(dice),
            _ => return self.learn(dice, answers),
        }
        true
    }

    fn learn(&mut self, dice: &mut Dice, answers: &mut Answers) -> bool {
        let vid = some_vid(dice);
        let mac = some_station(dice);
        let port = some_port(dice);
        let answer = self.table.learn(vid, mac, port, self.now);
        answers.count(answer);
        answer == self.plain.learn(vid, mac, port, self.now)
    }

    fn find(&self, dice: &mut Dice) -> bool {
        let vid = some_vid(dice);
        let mac = some_station(dice);
        self.table.find(vid, mac, self.now) == self.plain.find(vid, mac, self.now)
    }

    fn flush(&mut self, dice: &mut Dice) {
        let port = some_port(dice);
        self.table.flush(port);
        self.plain.flush(port);
    }

    fn expire(&mut self) {
        self.table.expire(self.now);
        self.plain.expire(self.now);
    }

    /// Checks whether both have the same entries in the same order.
    fn are_alike(&self) -> bool {
        let mut entries = self.table.entries();
        for entry in &self.plain.entries {
            if entries.next() != Some(*entry) {
                return false;
            }
        }
        entries.next().is_none()
    }
}

fn some_vid(dice: &mut Dice) -> u16 {
    5 + dice.below(3) as u16
}

fn some_port(dice: &mut Dice) -> u8 {
    1 + dice.below(4) as u8
}

/// Returns one of nine stations, and sometimes a group.
fn some_station(dice: &mut Dice) -> Mac {
    let first = if dice.below(16) == 0 { 3 } else { 2 };
    Mac([first, 0, 0, 0, dice.below(3) as u8, dice.below(3) as u8])
}
