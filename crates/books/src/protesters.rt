// The lodged points and the protesters of each: a plain table, changed only by its own calls.
ghost use Rattle.std.specs.Prelude.{◌≡◌, ℕ, ◌<◌, false, not, ◌&&◌, ◌||◌, ◌==◌};
ghost use Rattle.rulings.specs.Rulings.{has};
ghost use Rattle.books.specs.Protesters.{row, is_lodged, protesters_of};

use rulings::Ruling;

// No row for a point that is not lodged, else its protesters.
#[derive(Drop)]
pub(crate) struct Protesters {
    rows: [Option<Ruling>; 128],
}

impl Protesters {
    pub(crate) fn new() -> Protesters
        ensures lodged { (a : ℕ) → is_lodged result a ≡ false }
        ensures protesters { (a c : ℕ) → protesters_of result a c ≡ false }
    {
        Protesters { rows: [None; 128] }
    }

    // The protesters of a point, if it is lodged.
    pub(crate) fn of(&self, point: u8) -> Option<Ruling>
        ensures { result ≡ row self.now point }
    {
        self.rows.get(point as usize).copied().flatten()
    }

    // Lodges a point, and adds protesters to those that it has.
    pub(crate) fn lodge(&mut self, point: u8, protesters: Ruling)
        requires { point < 128 }
        ensures lodged { (a : ℕ) → is_lodged self.new a ≡ is_lodged self.old a || a == point }
        ensures protesters { (a c : ℕ) → protesters_of self.new a c ≡ protesters_of self.old a c || (a == point && has protesters c) }
    {
        let row = &mut self.rows[point as usize];
        *row = Some(row.map_or(protesters, |before| before.union(protesters)));
    }

    // Takes a point back, with its protesters.
    pub(crate) fn clear(&mut self, point: u8)
        requires { point < 128 }
        ensures lodged { (a : ℕ) → is_lodged self.new a ≡ is_lodged self.old a && not (a == point) }
        ensures protesters { (a c : ℕ) → protesters_of self.new a c ≡ protesters_of self.old a c && not (a == point) }
    {
        self.rows[point as usize] = None;
    }
}
