// The candidates for a part of a ruling in one chapter.
ghost use Rattle.std.specs.Prelude.{◌≡◌, true, ◌↔◌};
ghost use Rattle.rulings.specs.Rulings.{has};
ghost use Rattle.semantics.specs.Chapters.{restricted};
ghost use Rattle.semantics.specs.Closure.{Stable};
ghost use Rattle.semantics.specs.Walk.{spread};

use crate::closures::closure;
use crate::operator::chapter::Chapter;
use books::Book;
use rulings::Ruling;

// The subset of the points with a number: the binary digits of the number tell, from the lowest point on, which are in it.
pub fn spread(points: Ruling, number: u16) -> Ruling
    ensures { has result ≡ spread (has points) number }
{
    let mut subset = Ruling::empty();
    for (point, digit) in points.points().zip(0..u16::BITS) {
        if (number >> digit) & 1 == 1 {
            subset.insert(point);
        }
    }
    subset
}

// Whether a part of a chapter, given by its points, is stable there over a ruling of the lower chapters.
pub fn is_stable_over<B: Book>(book: &B, points: Ruling, lower: Ruling, part: Ruling) -> bool
    ensures { (result ≡ true) ↔ Stable (restricted (B.Book.meaning book.now) (has points) (has lower) (has lower)) (has part) }
{
    let chapter = Chapter::over(book, points, lower);
    part == closure(&chapter, part)
}
