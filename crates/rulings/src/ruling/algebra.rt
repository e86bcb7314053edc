// Union, intersection and difference of rulings, containment and disjointness.
ghost use Rattle.std.specs.Prelude.{◌≡◌, ℕ, ◌<◌, true, not, ◌&&◌, ◌||◌, ◌↔◌};
ghost use Rattle.rulings.specs.Points.{Part, Disjoint};
ghost use Rattle.rulings.specs.Rulings.{byte, has};

use super::Ruling;
use std::array;

impl Ruling {
    // The points of either.
    pub fn union(self, other: Ruling) -> Ruling
        ensures { (a : ℕ) → has result a ≡ has self a || has other a }
    {
        self.combined(other, |mine, theirs| mine | theirs)
    }

    // The points of both.
    pub fn intersection(self, other: Ruling) -> Ruling
        ensures { (a : ℕ) → has result a ≡ has self a && has other a }
    {
        self.combined(other, |mine, theirs| mine & theirs)
    }

    // The points that the other does not have.
    pub fn difference(self, other: Ruling) -> Ruling
        ensures { (a : ℕ) → has result a ≡ has self a && not (has other a) }
    {
        self.combined(other, |mine, theirs| mine & !theirs)
    }

    // Containment: every point is one of the other's.
    pub fn is_part_of(self, other: Ruling) -> bool
        ensures { (result ≡ true) ↔ Part (has self) (has other) }
    {
        self.difference(other) == Ruling::empty()
    }

    pub fn is_disjoint_from(self, other: Ruling) -> bool
        ensures { (result ≡ true) ↔ Disjoint (has self) (has other) }
    {
        self.intersection(other) == Ruling::empty()
    }

    // The ruling whose bytes are made of those of the two, place by place.
    fn combined<F: Fn(u8, u8) -> u8>(self, other: Ruling, operator: F) -> Ruling
        requires { F.IsAlwaysCallable operator }
        ensures { (i : ℕ) → i < 16 → F.post operator (byte self i) (byte other i) (byte result i) }
    {
        let bytes = array::from_fn(|i| operator(self.bytes[i], other.bytes[i]));
        Ruling { bytes }
    }
}
