// Sets of at most six points, one bit for each: so few that every set can be tried.
ghost use Rattle.std.specs.Prelude.{◌<◌};
ghost use Rattle.std.specs.declared.ops.Range.{Range};

use rulings::Ruling;
use std::fmt;
use std::ops::Range;

#[derive(Clone, Copy, PartialEq, Eq, Default)]
pub(crate) struct Mask(u8);

// Every set of the points below a size.
#[derive(Drop)]
pub(crate) struct Sets(Range<u8>);

impl Iterator for Sets {
    type Item = Mask;

    ghost remaining = { λ sets. ⟦<Range<u8> as Iterator>⟧.remaining sets.0 };

    fn next(&mut self) -> Option<Mask> {
        self.0.next().map(Mask)
    }
}

impl Mask {
    pub(crate) fn empty() -> Mask {
        Mask(0)
    }

    // Every point below a size.
    pub(crate) fn all(size: u8) -> Mask {
        Mask((1u8 << (size & 7)).wrapping_sub(1))
    }

    pub(crate) fn sets(size: u8) -> Sets {
        Sets(0..1 << (size & 7))
    }

    // How many sets there are of the points of the set.
    pub(crate) fn subsets(self) -> usize {
        1 << (self.0.count_ones() & 7)
    }

    pub(crate) fn has(self, point: u8) -> bool {
        point < 8 && (self.0 >> point) & 1 == 1
    }

    pub(crate) fn with(self, point: u8) -> Mask {
        if point < 8 {
            Mask(self.0 | 1 << point)
        } else {
            self
        }
    }

    // The points of the set at which a test holds.
    pub(crate) fn filter<F: Fn(u8) -> bool>(self, test: F) -> Mask
        requires { F.IsAlwaysCallable test }
    {
        (0..8)
            .filter(|&point| self.has(point) && test(point))
            .fold(Mask::empty(), Mask::with)
    }

    pub(crate) fn union(self, other: Mask) -> Mask {
        Mask(self.0 | other.0)
    }

    // The points of both.
    pub(crate) fn within(self, other: Mask) -> Mask {
        Mask(self.0 & other.0)
    }

    pub(crate) fn without(self, other: Mask) -> Mask {
        Mask(self.0 & !other.0)
    }

    // The points of one and not of the other.
    pub(crate) fn difference(self, other: Mask) -> Mask {
        Mask(self.0 ^ other.0)
    }

    pub(crate) fn is_empty(self) -> bool {
        self == Mask::empty()
    }

    pub(crate) fn is_part_of(self, other: Mask) -> bool {
        self.without(other).is_empty()
    }

    pub(crate) fn meets(self, other: Mask) -> bool {
        !self.within(other).is_empty()
    }

    pub(crate) fn lowest(self) -> Option<u8> {
        (0..8).find(|&point| self.has(point))
    }

    // The place of the set among all sets of six points.
    pub(crate) fn place(self) -> usize
        ensures { result < 64 }
    {
        usize::from(self.0 & 63)
    }
}

// The set as it is handed to a marker: its points stand in the first byte.
impl From<Mask> for Ruling {
    fn from(mask: Mask) -> Ruling {
        let mut bytes = [0; 16];
        bytes[0] = mask.0;
        Ruling::from(bytes)
    }
}

impl fmt::Display for Mask {
    fn fmt<W: fmt::Write>(&self, f: &mut fmt::Formatter<W>) -> fmt::Result {
        let ruling = Ruling::from(*self);
        write!(f, "{ruling}")
    }
}
