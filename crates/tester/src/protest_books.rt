// Small protest books.
use crate::masks::Mask;
use crate::small_book::{POINTS, SmallBook};
use answers::Fault;
use arrayvec::ArrayVec;
use books::Book;
use marker::Marker;
use rulings::Ruling;
use std::fmt;

// For each point its protesters, if it is lodged.
pub(crate) type Lodged = ArrayVec<Option<Mask>, POINTS>;

#[derive(Drop)]
pub(crate) struct SmallProtestBook(Lodged);

impl SmallProtestBook {
    pub(crate) fn new(lodged: Lodged) -> SmallProtestBook {
        SmallProtestBook(lodged)
    }

    pub(crate) fn lodged(&self) -> Mask {
        Mask::all(self.size()).filter(|point| self.protesters(point).is_some())
    }

    // The protesters of a point, if it is lodged.
    pub(crate) fn protesters(&self, point: u8) -> Option<Mask> {
        self.0.get(usize::from(point)).copied().flatten()
    }
}

impl SmallBook for SmallProtestBook {
    fn size(&self) -> u8 {
        self.0.len() as u8
    }

    // If it is lodged and none of its protesters is in y.
    fn derives(&self, point: u8, _x: Mask, y: Mask) -> bool {
        self.protesters(point)
            .is_some_and(|protesters| !protesters.meets(y))
    }

    fn reads(&self, point: u8) -> Mask {
        self.protesters(point).unwrap_or_default()
    }

    fn enter_into<B: Book>(&self, marker: &mut Marker<B>) -> Result<(), Fault> {
        for point in 0..self.size() {
            if let Some(protesters) = self.protesters(point) {
                marker.enter(point, Ruling::empty(), protesters.into())?;
            }
        }
        Ok(())
    }
}

impl fmt::Display for SmallProtestBook {
    fn fmt<W: fmt::Write>(&self, f: &mut fmt::Formatter<W>) -> fmt::Result {
        let (size, lodged) = (self.size(), self.lodged());
        write!(f, "protest book of size {size}; lodged {lodged}")?;
        for point in 0..size {
            let protesters = self.reads(point);
            write!(f, "; {point} is protested by {protesters}")?;
        }
        Ok(())
    }
}
