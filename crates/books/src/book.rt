// The interface of a book: three questions and three changes.
ghost use Rattle.std.specs.Prelude.{◌≡◌, ℕ};
ghost use Rattle.rulings.specs.Rulings.{has};
ghost use Rattle.rulings.specs.declared.ruling.Ruling.{Ruling};
ghost use Rattle.semantics.specs.Meaning.{Meaning, Lawful};
ghost use Rattle.books.specs.Promise.{Outcome, Opening, Entering, Withdrawing};

use answers::Fault;
use rulings::Ruling;

// A book (a ground normal program, seen only by its operator).
// `meaning` is its answers to the three questions. Each sort of book says by the relations `opened`, `entered`
// and `withdrawn` what a change answers and which book stands after it; the laws draw from them what every book
// promises.
pub trait Book {
    ghost meaning: { Self → Meaning };

    ghost opened: { Self → ℕ → Outcome → Self → Type 0 };

    ghost entered: { Self → ℕ → Ruling → Ruling → Outcome → Self → Type 0 };

    ghost withdrawn: { Self → ℕ → Outcome → Self → Type 0 };

    // How many points the book has.
    fn size(&self) -> u8
        ensures { result ≡ (meaning self.now).size };

    // Whether the point derives under the pair (x, y).
    fn derives(&self, point: u8, x: Ruling, y: Ruling) -> bool
        ensures { result ≡ (meaning self.now).derives (has x) (has y) point };

    // Whether the point reads the other.
    fn reads(&self, point: u8, other: u8) -> bool
        ensures { result ≡ (meaning self.now).reads point other };

    // Opens the book with a size.
    fn open(&mut self, size: u8) -> Result<(), Fault>
        ensures { opened self.old size result self.new };

    // Enters something for the point.
    fn enter(&mut self, point: u8, p: Ruling, q: Ruling) -> Result<(), Fault>
        ensures { entered self.old point p q result self.new };

    // Takes back what was entered for the point.
    fn withdraw(&mut self, point: u8) -> Result<(), Fault>
        ensures { withdrawn self.old point result self.new };

    ghost lawful: { (b : Self) → Lawful (meaning b) };

    ghost opens: { (b : Self) (n : ℕ) (r : Outcome) (b' : Self) → opened b n r b' → Opening (meaning b) n r (meaning b') };

    ghost enters: { (b : Self) (a : ℕ) (p q : Ruling) (r : Outcome) (b' : Self) → entered b a p q r b' → Entering (meaning b) a p q r (meaning b') };

    ghost withdraws: { (b : Self) (a : ℕ) (r : Outcome) (b' : Self) → withdrawn b a r b' → Withdrawing (meaning b) a r (meaning b') };
}
