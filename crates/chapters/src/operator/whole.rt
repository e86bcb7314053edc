// A book read whole, as an operator.
use super::Operator;
use books::Book;
use rulings::Ruling;

#[derive(Drop)]
pub struct Whole<'a, B> {
    pub book: &'a B,
}

impl<'a, B: Book> Operator for Whole<'a, B> {
    ghost meant = { λ w. B.Book.meaning w.book.now };

    ghost lawful = { λ w. B.Book.lawful w.book.now };

    fn size(&self) -> u8 {
        self.book.size()
    }

    fn derives(&self, point: u8, x: Ruling, y: Ruling) -> bool {
        self.book.derives(point, x, y)
    }
}
