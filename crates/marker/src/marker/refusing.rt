// What several calls refuse before they do anything.
ghost use Rattle.std.specs.Prelude.{OnOk, IfErr};
ghost use Rattle.semantics.specs.Chapters.{Fit};
ghost use Rattle.chapters.specs.Fitting.{UpwardDenied};
ghost use Rattle.marker.specs.Judging.{NoStray, StrayDenied};
ghost use Rattle.marker.specs.Listing.{NoneWide, WideDenied};
ghost use Rattle.marker.specs.State.{book_of, placing};

use super::Marker;
use answers::{Fault, Layer, Refusal};
use books::Book;
use rulings::Ruling;

impl<B: Book> Marker<B> {
    // A ruling with a point that the book does not have: the lowest is named.
    pub(super) fn refuse_strays(&self, ruling: Ruling) -> Result<(), Fault>
        ensures ok { OnOk result (NoStray (B.meaning (book_of self.now)) ruling) }
        ensures err { IfErr result (StrayDenied (B.meaning (book_of self.now)) ruling) }
    {
        Layer::Marker.check_marks(ruling, self.book.size())
    }

    // Chapters that do not fit: the first upward reading is named.
    pub(super) fn refuse_upward_readings(&self) -> Result<(), Fault>
        ensures ok { OnOk result (Fit (B.meaning (book_of self.now)) (placing self.now)) }
        ensures err { IfErr result (UpwardDenied (B.meaning (book_of self.now)) (placing self.now)) }
    {
        match self.chapters.first_upward(&self.book) {
            Some((reader, read)) => Err(Fault::new(
                Layer::Marker,
                Refusal::ReadsUpward(reader, read),
            )),
            None => Ok(()),
        }
    }

    // A chapter with more than 12 points of the book: the lowest is named.
    pub(super) fn refuse_wide_chapters(&self) -> Result<(), Fault>
        ensures ok { OnOk result (NoneWide (B.meaning (book_of self.now)) (placing self.now)) }
        ensures err { IfErr result (WideDenied (B.meaning (book_of self.now)) (placing self.now)) }
    {
        match (0..16u8).find(|&number| self.width(number) > 12) {
            Some(number) => Err(Fault::new(Layer::Marker, Refusal::ChapterTooWide(number))),
            None => Ok(()),
        }
    }
}
