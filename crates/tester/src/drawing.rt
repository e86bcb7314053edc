// Numbers drawn by a linear congruential generator: the same in every run.
use crate::masks::Mask;
use crate::placements::Placement;

#[derive(Drop)]
pub(crate) struct Draws {
    state: u64,
}

// Which points a point of a drawn book may read: any, or only those that keep the chapters fitting.
#[derive(Clone, Copy)]
pub(crate) enum Reach {
    Any,
    Fitting,
}

impl Draws {
    pub(crate) fn new(seed: u64) -> Draws {
        Draws { state: seed }
    }

    // A number below a bound, or 0.
    pub(crate) fn below(&mut self, bound: u8) -> u8 {
        self.byte().checked_rem(bound).unwrap_or(0)
    }

    // A set of some of the points: each with a chance of about a third, so that bodies are short.
    pub(crate) fn some_of(&mut self, points: Mask) -> Mask {
        (0..8)
            .filter(|_| self.below(3) == 0)
            .fold(Mask::empty(), Mask::with)
            .within(points)
    }

    // The high digits: the low ones of such a generator repeat soon.
    fn byte(&mut self) -> u8 {
        self.state = self
            .state
            .wrapping_mul(6_364_136_223_846_793_005)
            .wrapping_add(1_442_695_040_888_963_407);
        ((self.state >> 48) & 0xff) as u8
    }
}

impl Reach {
    pub(crate) fn readable(self, placement: &Placement, point: u8) -> Mask {
        match self {
            Reach::Any => Mask::all(placement.size()),
            Reach::Fitting => {
                let own = placement.chapter(point);
                placement.points(|chapter| chapter <= own)
            }
        }
    }
}
