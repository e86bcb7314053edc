// Auditing the chapters: what keeps them from fitting.
ghost use Rattle.marker.specs.Audit.{Audited, Gathers};
ghost use Rattle.marker.specs.State.{book_of, placing};

use super::Marker;
use answers::{Fault, Layer, Refusal, UpwardReading};
use books::Book;
use rows::insert_in_order;

impl<B: Book> Marker<B> {
    // Writes every upward reading into the rows lent, in order, and answers their number.
    pub fn audit(&self, rows: &mut [UpwardReading]) -> Result<usize, Fault>
        ensures { Audited (B.meaning (book_of self.now)) (placing self.now) rows.old result rows.new }
    {
        let Some(count) = self.gather(rows) else {
            rows.fill(UpwardReading::default());
            return Err(Fault::new(Layer::Marker, Refusal::ListTooShort));
        };
        Ok(count)
    }

    // Puts the upward readings into the rows, pair by pair; none where the rows do not suffice.
    fn gather(&self, rows: &mut [UpwardReading]) -> Option<usize>
        ensures { Gathers (B.meaning (book_of self.now)) (placing self.now) rows.old result rows.new }
    {
        let mut count = 0;
        for reader in 0..self.book.size() {
            for read in 0..self.book.size() {
                if self.chapters.reads_upward(&self.book, reader, read) {
                    let drop = self.chapters.of(read) - self.chapters.of(reader);
                    let row = UpwardReading { drop, reader, read };
                    count = insert_in_order(rows, count, row)?;
                }
            }
        }
        Some(count)
    }
}
