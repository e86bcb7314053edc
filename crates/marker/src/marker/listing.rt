// Listing every stable ruling: a walk over chapters and candidate parts.
ghost use Rattle.std.specs.Prelude.{◌≡◌, ◌^◌, ◌≤◌};
ghost use Rattle.rulings.specs.Rulings.{has};
ghost use Rattle.semantics.specs.Listing.{width};
ghost use Rattle.semantics.specs.Walk.{points_of, levels};
ghost use Rattle.marker.specs.Listing.{NoneWide, Listed};
ghost use Rattle.marker.specs.State.{book_of, placing};
ghost use Rattle.marker.specs.Walk.{Walked, InVain};

use super::Marker;
use answers::{Fault, Layer, Listing, Refusal};
use arrayvec::ArrayVec;
use books::Book;
use chapters::{is_stable_over, spread};
use rows::insert_in_order;
use rulings::Ruling;

// The most candidates that a walk tries.
const CEILING: u32 = 65_536;

// A step of the walk: the candidates of a level from the first on, over the part picked at the lower levels.
#[derive(Clone, Copy, Default)]
struct Step {
    first: u16,
    lower: Ruling,
}

impl Step {
    // Every candidate.
    fn over(lower: Ruling) -> Step
        ensures { result ≡ record { first = 0; lower = lower } }
    {
        Step { first: 0, lower }
    }
}

impl<B: Book> Marker<B> {
    // Writes every ruling whose parts are all stable in their chapters into the rows lent, in row order.
    pub fn list(&self, rows: &mut [Ruling]) -> Result<Listing, Fault>
        ensures { Listed (B.meaning (book_of self.now)) (placing self.now) rows.old result rows.new }
    {
        self.refuse_upward_readings()?;
        self.refuse_wide_chapters()?;
        let listing = self.walk(rows);
        if let Some(refusal) = in_vain(listing, rows.len()) {
            rows.fill(Ruling::empty());
            return Err(Fault::new(Layer::Marker, refusal));
        }
        Ok(listing)
    }

    // Tries candidates chapter by chapter, and puts every ruling found into the rows while there is room.
    // It stops at the first try past the ceiling.
    fn walk(&self, rows: &mut [Ruling]) -> Listing
        requires { NoneWide (B.meaning (book_of self.now)) (placing self.now) }
        ensures { Walked (B.meaning (book_of self.now)) (placing self.now) rows.old result rows.new }
    {
        let levels = self.levels();
        let mut steps = ArrayVec::<Step, 16>::new();
        steps.push(Step::over(Ruling::empty()));
        let (mut count, mut effort) = (0, 0);
        'walk: while let Some(Step { first, lower }) = steps.pop() {
            let number = levels[steps.len()];
            let points = self.points_in(number);
            for candidate in first..subsets(self.width(number)) {
                effort += 1;
                if effort > CEILING {
                    break 'walk;
                }
                let part = spread(points, candidate);
                if !is_stable_over(&self.book, points, lower, part) {
                    continue;
                }
                let ruling = lower.union(part);
                if steps.len() + 1 < levels.len() {
                    steps.push(Step {
                        first: candidate + 1,
                        lower,
                    });
                    steps.push(Step::over(ruling));
                    continue 'walk;
                }
                insert_in_order(rows, count, ruling);
                count += 1;
            }
        }
        Listing {
            rows: count,
            effort,
        }
    }

    // The levels of the walk: the chapters that hold a point of the book, lowest first.
    fn levels(&self) -> ArrayVec<u8, 16>
        ensures { result.items ≡ levels (B.meaning (book_of self.now)) (placing self.now) }
    {
        let mut levels = ArrayVec::new();
        for number in 0..16u8 {
            if self.width(number) > 0 {
                levels.push(number);
            }
        }
        levels
    }

    // How many points of the book a chapter has.
    pub(super) fn width(&self, number: u8) -> usize
        ensures { result ≡ width (B.meaning (book_of self.now)) (placing self.now) number }
    {
        (0..self.book.size())
            .filter(|&point| self.chapters.of(point) == number)
            .count()
    }

    // The points of the book in a chapter.
    fn points_in(&self, number: u8) -> Ruling
        ensures { has result ≡ points_of (B.meaning (book_of self.now)) (placing self.now) number }
    {
        self.chapters.points_below(self.book.size(), number)
    }
}

// Why a walk was in vain, if it was: it stopped at the ceiling, or else it found more rulings than there are rows.
fn in_vain(listing: Listing, lent: usize) -> Option<Refusal>
    ensures { InVain listing lent result }
{
    if listing.effort > CEILING {
        return Some(Refusal::TooMuchToTry);
    }
    if listing.rows > lent {
        return Some(Refusal::ListTooShort);
    }
    None
}

// How many subsets the points of a level have, by the number of points.
fn subsets(width: usize) -> u16
    requires { width ≤ 12 }
    ensures { (result ≡ 2 ^ width) × (result ≤ 4096) }
{
    1 << width
}
