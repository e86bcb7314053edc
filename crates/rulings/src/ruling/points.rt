// The points of a ruling, one after another.
ghost use Rattle.std.specs.Prelude.{◌≡◌};
ghost use Rattle.std.specs.Iterator.{YieldsFirst, item_count};
ghost use Rattle.rulings.specs.Ascending.{points_from, points_left};

use super::Ruling;

impl Ruling {
    // All points, lowest first.
    pub fn points(self) -> Points
        ensures { points_left result ≡ points_from self 0 }
    {
        Points {
            ruling: self,
            next: 0,
        }
    }
}

// The points of a ruling that are still to come: those from a number on.
#[derive(Clone, Debug, Drop)]
pub struct Points {
    ruling: Ruling,
    next: u8,
}

impl Iterator for Points {
    type Item = u8;

    ghost next_gives = { YieldsFirst points_left };

    ghost remaining = { item_count points_left };

    fn next(&mut self) -> Option<u8> {
        let point = self.ruling.first_from(self.next)?;
        self.next = point + 1;
        Some(point)
    }
}
