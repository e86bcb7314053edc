// One chapter of a book, as an operator.
ghost use Rattle.std.specs.Prelude.{◌≡◌};
ghost use Rattle.rulings.specs.Rulings.{has};
ghost use Rattle.semantics.specs.Chapters.{restricted};
ghost use Rattle.semantics.proofs.Restricting.{restricted_lawful};

use super::Operator;
use books::Book;
use rulings::Ruling;

// A chapter of a book, by its points. Lower points are looked up in `granted` for supporters, and in `open` for strikers.
#[derive(Drop)]
pub struct Chapter<'a, B> {
    pub book: &'a B,
    pub points: Ruling,
    pub granted: Ruling,
    pub open: Ruling,
}

impl<'a, B: Book> Chapter<'a, B> {
    // A chapter over the lower part of a ruling, in which supporters and strikers alike are looked up.
    pub fn over(book: &'a B, points: Ruling, lower: Ruling) -> Chapter<'a, B>
        ensures book { result.book.now ≡ book.now }
        ensures points { result.points ≡ points }
        ensures supporters { result.granted ≡ lower }
        ensures strikers { result.open ≡ lower }
    {
        Chapter {
            book,
            points,
            granted: lower,
            open: lower,
        }
    }
}

impl<'a, B: Book> Operator for Chapter<'a, B> {
    ghost meant = { λ c. restricted (B.Book.meaning c.book.now) (has c.points) (has c.granted) (has c.open) };

    ghost lawful = { λ c. restricted_lawful (B.Book.meaning c.book.now) (B.Book.lawful c.book.now) (has c.points) (has c.granted) (has c.open) };

    fn size(&self) -> u8 {
        self.book.size()
    }

    fn derives(&self, point: u8, x: Ruling, y: Ruling) -> bool {
        if !self.points.has(point) {
            return false;
        }
        let supporters = self.granted.union(self.points.intersection(x));
        let strikers = self.open.union(self.points.intersection(y));
        self.book.derives(point, supporters, strikers)
    }
}
