// An entry of a rule book, and how it is told.
ghost use Rattle.std.specs.Prelude.{◌≡◌, ◌&&◌};
ghost use Rattle.rulings.specs.Rulings.{has};
ghost use Rattle.books.specs.Entries.{covers, avoids, fires, looks_at};
ghost use Rattle.books.specs.Lines.{Says, line};

use rulings::Ruling;
use std::fmt;

// An entry (a rule): the point stands if all its supporters do and none of its strikers does.
#[derive(Clone, Copy, PartialEq, Eq, Debug, Default)]
pub struct Entry {
    pub point: u8,
    pub supporters: Ruling,
    pub strikers: Ruling,
}

impl Entry {
    // The entry of the points listed; those of 128 or above are left out.
    pub fn new(point: u8, supporters: &[u8], strikers: &[u8]) -> Entry
        ensures { Says result (line point supporters.now strikers.now) }
    {
        Entry {
            point,
            supporters: Ruling::from_points(supporters),
            strikers: Ruling::from_points(strikers),
        }
    }

    // Whether the point derives by this entry under the pair (x, y).
    pub(crate) fn fires(&self, point: u8, x: Ruling, y: Ruling) -> bool
        ensures { result ≡ fires point (has x) (has y) self.now }
    {
        self.point == point && self.is_met(x, y)
    }

    // Whether x has all supporters and y no striker.
    fn is_met(&self, x: Ruling, y: Ruling) -> bool
        ensures { result ≡ covers (has x) (has self.now.supporters) && avoids (has y) (has self.now.strikers) }
    {
        self.supporters.is_part_of(x) && self.strikers.is_disjoint_from(y)
    }

    // Whether the entry is for the point and names the other.
    pub(crate) fn looks_at(&self, point: u8, other: u8) -> bool
        ensures { result ≡ looks_at point other self.now }
    {
        self.point == point && (self.supporters.has(other) || self.strikers.has(other))
    }
}

impl fmt::Display for Entry {
    fn fmt<W: fmt::Write>(&self, f: &mut fmt::Formatter<W>) -> fmt::Result {
        let Entry {
            point,
            supporters,
            strikers,
        } = *self;
        write!(f, "{point} if all of {supporters} and none of {strikers}")
    }
}
