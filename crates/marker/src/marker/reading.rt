// Reading a book upward, chapter by chapter.
ghost use Rattle.marker.specs.Reading.{ReadInto, AddsChapter};
ghost use Rattle.marker.specs.State.{book_of, placing};
ghost use Rattle.std.specs.Prelude.{ℕ, ◌<◌};
ghost use Rattle.rulings.specs.Rulings.{has};
ghost use Rattle.semantics.specs.WellFounded.{PartRead};

use super::Marker;
use answers::Fault;
use books::Book;
use chapters::{Chapter, Reading, least_pair};
use rulings::Ruling;

impl<B: Book> Marker<B> {
    // Puts what is sure and what is possible into the two places lent.
    pub fn read(&self, sure: &mut Ruling, possible: &mut Ruling) -> Result<(), Fault>
        ensures { ReadInto (B.meaning (book_of self.now)) (placing self.now) result sure.old possible.old sure.new possible.new }
    {
        self.refuse_upward_readings()?;
        let reading = self.read_upward();
        *sure = reading.sure;
        *possible = reading.possible;
        Ok(())
    }

    // The reading of all sixteen chapters, from the lowest up.
    fn read_upward(&self) -> Reading
        ensures { (k : ℕ) → k < 16 → PartRead (B.meaning (book_of self.now)) (placing self.now) (has result.sure) (has result.possible) k }
    {
        let mut reading = Reading::default();
        for number in 0..16u8 {
            reading = self.read_chapter(number, reading);
        }
        reading
    }

    // Adds the pair of one chapter to the reading of the lower chapters. An undecided lower point is not granted
    // where sure points are worked out, and is granted where possible points are.
    fn read_chapter(&self, number: u8, below: Reading) -> Reading
        ensures { AddsChapter (B.meaning (book_of self.now)) (placing self.now) number below result }
    {
        let points = self.chapters.points_of(number);
        let for_sure = Chapter {
            book: &self.book,
            points,
            granted: below.sure,
            open: below.possible,
        };
        let for_possible = Chapter {
            book: &self.book,
            points,
            granted: below.possible,
            open: below.sure,
        };
        let part = least_pair(&for_sure, &for_possible);
        Reading {
            sure: below.sure.union(part.sure),
            possible: below.possible.union(part.possible),
        }
    }
}
