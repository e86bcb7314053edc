// Making a ruling, and asking for one point or adding it.
ghost use Rattle.std.specs.Prelude.{◌≡◌, ℕ, false, ◌&&◌, ◌||◌, ◌==◌, nat_lt};
ghost use Rattle.rulings.specs.Points.{listed};
ghost use Rattle.rulings.specs.Rulings.{has};

use super::Ruling;

impl Ruling {
    pub fn empty() -> Ruling
        ensures { (a : ℕ) → has result a ≡ false }
    {
        Ruling { bytes: [0; 16] }
    }

    // The ruling of the points listed; those of 128 or above are left out.
    pub fn from_points(points: &[u8]) -> Ruling
        ensures { (a : ℕ) → has result a ≡ listed points.now a && nat_lt a 128 }
    {
        let mut ruling = Ruling::empty();
        for point in points {
            ruling.insert(*point);
        }
        ruling
    }

    // Membership; false for a point of 128 or above.
    pub fn has(self, point: u8) -> bool
        ensures { result ≡ has self point }
    {
        point < 128 && (self.bytes[(point >> 3) as usize] >> (point & 7)) & 1 == 1
    }

    // Adds the point; a point of 128 or above changes nothing.
    pub fn insert(&mut self, point: u8)
        ensures { (a : ℕ) → has self.new a ≡ has self.old a || (a == point && nat_lt a 128) }
    {
        if point < 128 {
            self.bytes[(point >> 3) as usize] |= 1 << (point & 7);
        }
    }
}

// The empty ruling.
impl Default for Ruling {
    ghost is_default = { λ ruling. (a : ℕ) → has ruling a ≡ false };

    fn default() -> Ruling {
        Ruling::empty()
    }
}
