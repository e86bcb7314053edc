// Making a marker, and the changes of its book.
ghost use Rattle.std.specs.Prelude.{◌≡◌};
ghost use Rattle.marker.specs.State.{book_of, chapters_of, ChaptersOpened, Placed};
ghost use Rattle.chapters.specs.Table.{AllInChapter0};

use super::Marker;
use answers::{Fault, Layer, Refusal};
use books::Book;
use chapters::Chapters;
use rulings::Ruling;

impl<B: Book> Marker<B> {
    // A marker over any book, in whatever state: every point in chapter 0.
    pub fn new(book: B) -> Marker<B>
        ensures holds { book_of result ≡ book }
        ensures fresh { AllInChapter0 (chapters_of result) }
    {
        Marker {
            book,
            chapters: Chapters::new(),
        }
    }

    pub fn open(&mut self, size: u8) -> Result<(), Fault>
        ensures book { B.Book.opened (book_of self.old) size result (book_of self.new) }
        ensures chapters { ChaptersOpened result (chapters_of self.old) (chapters_of self.new) }
    {
        self.book.open(size)?;
        self.chapters = Chapters::new();
        Ok(())
    }

    pub fn enter(&mut self, point: u8, p: Ruling, q: Ruling) -> Result<(), Fault>
        ensures book { B.Book.entered (book_of self.old) point p q result (book_of self.new) }
        ensures chapters { chapters_of self.new ≡ chapters_of self.old }
    {
        self.book.enter(point, p, q)?;
        Ok(())
    }

    pub fn withdraw(&mut self, point: u8) -> Result<(), Fault>
        ensures book { B.Book.withdrawn (book_of self.old) point result (book_of self.new) }
        ensures chapters { chapters_of self.new ≡ chapters_of self.old }
    {
        self.book.withdraw(point)?;
        Ok(())
    }

    // Gives the point a chapter.
    pub fn place(&mut self, point: u8, chapter: u8) -> Result<(), Fault>
        ensures { Placed (B.meaning (book_of self.old)).size self.old point chapter result self.new }
    {
        Layer::Marker.check_point(point, self.book.size())?;
        if chapter > 15 {
            return Err(Fault::new(Layer::Marker, Refusal::NoSuchChapter(point)));
        }
        self.chapters.place(point, chapter);
        Ok(())
    }
}
