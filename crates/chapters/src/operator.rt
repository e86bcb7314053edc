// What closures are worked out from: a book read whole, or one chapter of it.
ghost use Rattle.std.specs.Prelude.{◌≡◌};
ghost use Rattle.rulings.specs.Rulings.{has};
ghost use Rattle.semantics.specs.Meaning.{Meaning, Lawful};

pub mod chapter;
pub mod whole;

use rulings::Ruling;

// The questions that a closure asks. `meant` is what they answer, itself the meaning of a book.
pub trait Operator {
    ghost meant: { Self → Meaning };

    fn size(&self) -> u8
        ensures { result ≡ (meant self.now).size };

    fn derives(&self, point: u8, x: Ruling, y: Ruling) -> bool
        ensures { result ≡ (meant self.now).derives (has x) (has y) point };

    ghost lawful: { (o : Self) → Lawful (meant o) };
}
