// Whether the chapters fit a book: no point reads a point of a higher chapter.
ghost use Rattle.std.specs.Prelude.{◌≡◌};
ghost use Rattle.rulings.specs.Points.{Lowest};
ghost use Rattle.chapters.specs.Fitting.{upward, FirstUpward};
ghost use Rattle.chapters.specs.Table.{chapter_of};

use crate::chapters::Chapters;
use books::Book;

impl Chapters {
    // The lowest point that reads a point of a higher chapter, and the lowest that it so reads; none where the chapters fit.
    pub fn first_upward<B: Book>(&self, book: &B) -> Option<(u8, u8)>
        ensures { FirstUpward (B.Book.meaning book.now) (chapter_of self.now) result }
    {
        (0..book.size()).find_map(|reader| {
            let read = self.first_read_above(book, reader)?;
            Some((reader, read))
        })
    }

    // The lowest point of a higher chapter that the point reads.
    fn first_read_above<B: Book>(&self, book: &B, reader: u8) -> Option<u8>
        ensures { Lowest (upward (B.Book.meaning book.now) (chapter_of self.now) reader) result }
    {
        (0..book.size()).find(|&read| self.reads_upward(book, reader, read))
    }

    // Whether a point reads another, which lies in a higher chapter.
    pub fn reads_upward<B: Book>(&self, book: &B, reader: u8, read: u8) -> bool
        ensures { result ≡ upward (B.Book.meaning book.now) (chapter_of self.now) reader read }
    {
        book.reads(reader, read) && self.of(reader) < self.of(read)
    }
}
