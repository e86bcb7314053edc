// The lowest point of a kind.
ghost use Rattle.std.specs.Prelude.{◌&&◌, nat_le};
ghost use Rattle.rulings.specs.Points.{Lowest};
ghost use Rattle.rulings.specs.Rulings.{has, differing};

use super::Ruling;

impl Ruling {
    // The lowest point that only one of the two has; none where they are equal.
    pub fn first_difference(self, other: Ruling) -> Option<u8>
        ensures { Lowest (differing self other) result }
    {
        let place = self
            .bytes
            .iter()
            .zip(&other.bytes)
            .position(|(mine, theirs)| mine != theirs)?;
        let apart = self.bytes[place] ^ other.bytes[place];
        Some(((place as u8) << 3) | apart.trailing_zeros() as u8)
    }

    // The lowest point at or above a number.
    pub fn first_from(self, start: u8) -> Option<u8>
        ensures { Lowest (λ a. nat_le start a && has self a) result }
    {
        (start..128).find(|point| self.has(*point))
    }
}
