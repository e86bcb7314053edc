// Judging a ruling by the whole book, and by its chapters.
ghost use Rattle.rulings.specs.Rulings.{has};
ghost use Rattle.marker.specs.Judging.{Judged, SaysStable, Compares, PartVerdict, JudgedByChapter, AgreesWithWhole, AgreesWithJudge};
ghost use Rattle.marker.specs.State.{book_of, placing};

use super::Marker;
use answers::{ChapterVerdict, Fault, Verdict};
use books::Book;
use chapters::{Chapter, Whole, closure};
use rulings::Ruling;

impl<B: Book> Marker<B> {
    // Compares the ruling with its closure in the book read whole.
    pub fn judge(&self, ruling: Ruling) -> Result<Verdict, Fault>
        ensures judged { Judged (B.meaning (book_of self.now)) ruling result }
        ensures stable { SaysStable (B.meaning (book_of self.now)) ruling result }
    {
        self.refuse_strays(ruling)?;
        let whole = Whole { book: &self.book };
        Ok(compare(ruling, closure(&whole, ruling)))
    }

    // Compares each part of the ruling with its closure in its chapter, up to the first that is not stable.
    pub fn judge_by_chapter(&self, ruling: Ruling) -> Result<ChapterVerdict, Fault>
        ensures judged { JudgedByChapter (B.meaning (book_of self.now)) (placing self.now) ruling result }
        ensures agrees { AgreesWithWhole (B.meaning (book_of self.now)) ruling result }
        ensures same { AgreesWithJudge (B.meaning (book_of self.now)) ruling result }
    {
        self.refuse_strays(ruling)?;
        self.refuse_upward_readings()?;
        for chapter in 0..16u8 {
            let verdict = self.judge_part(chapter, ruling);
            if !verdict.is_stable() {
                return Ok(ChapterVerdict::new(verdict, Some(chapter)));
            }
        }
        Ok(ChapterVerdict::from(Verdict::Stable))
    }

    // The verdict on the part of the ruling in one chapter.
    fn judge_part(&self, number: u8, ruling: Ruling) -> Verdict
        ensures { PartVerdict (B.meaning (book_of self.now)) (placing self.now) (has ruling) number result }
    {
        let part = self.chapters.part_in(number, ruling);
        let lower = self.chapters.part_below(number, ruling);
        let chapter = Chapter::over(&self.book, self.chapters.points_of(number), lower);
        compare(part, closure(&chapter, part))
    }
}

// The verdict on a ruling beside its closure.
fn compare(ruling: Ruling, closure: Ruling) -> Verdict
    ensures { Compares (has ruling) (has closure) result }
{
    match ruling.first_difference(closure) {
        None => Verdict::Stable,
        Some(point) if ruling.has(point) => Verdict::Unfounded(point),
        Some(point) => Verdict::Missing(point),
    }
}
