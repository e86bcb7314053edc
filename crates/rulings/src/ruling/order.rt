// The row order.
ghost use Rattle.std.specs.Prelude.{◌≡◌, true, ◌↔◌};
ghost use Rattle.rulings.specs.Order.{Precedes};

use super::Ruling;

impl Ruling {
    // Whether the ruling comes before the other in row order.
    pub fn precedes(self, other: Ruling) -> bool
        ensures { (result ≡ true) ↔ Precedes self other }
    {
        self < other
    }
}
