// What a table is made of, and how it is read. A rung or a place outside the arrays gets the source's own defaults, so each read is total.
ghost use Rattle.std.specs.Prelude.{◌≡◌, Some, take, min, length};
ghost use Rattle.std.specs.Fmt.{decimal};

use limits::reading::Reading;
use std::fmt;

// A rung of the ladder by its number in the table: the source's mode.
#[derive(Clone, Copy, PartialEq, Eq, PartialOrd, Ord, Debug)]
pub struct Rung(pub u32);

// A rung is printed as its number.
impl fmt::Display for Rung {
    ghost output = { λ r. Some (decimal r.0) };

    fn fmt<W: fmt::Write>(&self, f: &mut fmt::Formatter<W>) -> fmt::Result {
        write!(f, "{}", self.0)
    }
}

// A place on the front: the source's index. The rung there is `front[place]`.
#[derive(Clone, Copy, PartialEq, Eq, PartialOrd, Ord, Debug)]
pub struct Place(pub u32);

// One rung's row: its 10 % point in dB, a frame's data bytes, a frame's air in seconds, and the echo share that it cannot carry.
#[derive(Clone, Copy, PartialEq, Debug)]
pub struct Row {
    pub threshold: f64,
    pub capacity: u32,
    pub time: f64,
    pub limit: Reading,
}

impl Row {
    // The row of a rung outside the table: no bytes, a frame time of 1.0 and no limit.
    pub const NONE: Row = Row {
        threshold: 0.0,
        capacity: 0,
        time: 1.0,
        limit: None,
    };
}

// A front: the rungs of the first `count` entries, from the lowest to the highest. (An array and how many are in use: document 01's form of a vector:
// "32-entry arrays with a count".)
#[derive(Clone, Copy, PartialEq, Eq, Debug)]
pub struct Front {
    pub rungs: [Rung; 32],
    pub count: u32,
}

impl Front {
    // The rungs that are on it.
    pub fn rungs(&self) -> &[Rung]
        ensures { result.now ≡ take (min 32 self.now.count) self.now.rungs }
    {
        &self.rungs[..self.count.min(32) as usize]
    }
}

// The small facts of an air's table: how many rows are in use, and how many of the rungs, the first ones, are floor.
// `margin` and `gain` are the settings of the prior: how far under the reading it is read, and how far a frame moves its family's offset.
// (`count` says how much is in use of the table's array of rows: document 01's form of a vector: "32-entry arrays with a count".)
#[derive(Clone, Copy, PartialEq, Debug)]
pub struct Air {
    pub count: u32,
    pub floors: u32,
    pub margin: f64,
    pub gain: f64,
}

// An air's table: the rows by rung, the front, and the small facts.
#[derive(Clone, Copy, PartialEq, Debug)]
pub struct Table {
    pub rows: [Row; 32],
    pub front: Front,
    pub air: Air,
}

impl Table {
    ghost use Rattle.ladder.specs.Types.{row, rung_at, rung_count, place_count, in_table, is_floor};

    // (A read with a default is three calls of the library's, here, below and in the columns. A function of them, handed the list, the number and the
    // default, would be no shorter where it is called.)
    // A rung's row.
    pub fn row(&self, r: Rung) -> Row
        ensures { result ≡ row self.now r.0 }
    {
        self.rows.get(r.0 as usize).copied().unwrap_or(Row::NONE)
    }

    // The rung at a place; outside the array rung 0.
    pub fn rung_at(&self, p: Place) -> Rung
        ensures { result.0 ≡ rung_at self.now p.0 }
    {
        self.front
            .rungs
            .get(p.0 as usize)
            .copied()
            .unwrap_or(Rung(0))
    }

    // How many rungs are in use: no more than an array has entries, whatever the count says.
    pub fn rung_count(&self) -> u32
        ensures { result ≡ rung_count self.now }
    {
        self.air.count.min(32)
    }

    // How many places are in use.
    pub fn place_count(&self) -> u32
        ensures { result ≡ place_count self.now }
    {
        self.front.count.min(32)
    }

    // The rungs that are on the front, by place.
    pub fn front(&self) -> &[Rung]
        ensures rungs { result.now ≡ take (place_count self.now) self.now.front.rungs }
        ensures count { length result.now ≡ place_count self.now }
    {
        self.front.rungs()
    }

    // (The next two hold a rung's number against a count: `r < Rung(self.rung_count())` would make a rung of the count, and be no shorter.)
    // Whether a rung is in the table.
    pub fn has(&self, r: Rung) -> bool
        ensures { result ≡ in_table self.now r.0 }
    {
        r.0 < self.rung_count()
    }

    // Whether a rung is floor; the others are OFDM.
    pub fn is_floor(&self, r: Rung) -> bool
        ensures { result ≡ is_floor self.now r.0 }
    {
        r.0 < self.air.floors
    }
}
