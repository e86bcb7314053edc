// A marker: a book of any sort together with a chapter for each point.
ghost use Rattle.std.specs.Prelude.{ℕ, ◌<◌};
ghost use Rattle.chapters.specs.Table.{chapter_of};

use chapters::Chapters;

mod auditing;
mod changes;
mod judging;
mod listing;
mod reading;
mod refusing;

// Nothing hands out the book: it is changed only through the marker's calls.
#[derive(Drop)]
pub struct Marker<B> {
    book: B,
    chapters: Chapters,
    ghost sixteen: { (a : ℕ) → chapter_of chapters a < 16 },
}
