// What a small book of either sort answers, and how a marker is given it.
use crate::masks::Mask;
use crate::placements::Placement;
use answers::Fault;
use books::Book;
use marker::Marker;
use std::fmt;

// How many points a small book has at most.
pub(crate) const POINTS: usize = 6;

pub(crate) trait SmallBook: fmt::Display {
    fn size(&self) -> u8;

    // Whether the point derives under the pair (x, y).
    fn derives(&self, point: u8, x: Mask, y: Mask) -> bool;

    // The points that the point reads.
    fn reads(&self, point: u8) -> Mask;

    // Enters all of the book into a marker that was just opened.
    fn enter_into<B: Book>(&self, marker: &mut Marker<B>) -> Result<(), Fault>;
}

// A small book with a chapter for each of its points: what a marker is given.
#[derive(Drop)]
pub(crate) struct Case<'a, S> {
    pub(crate) book: &'a S,
    pub(crate) placement: Placement,
}

impl<S: SmallBook> fmt::Display for Case<'_, S> {
    fn fmt<W: fmt::Write>(&self, f: &mut fmt::Formatter<W>) -> fmt::Result {
        let (book, placement) = (self.book, &self.placement);
        write!(f, "{book}; {placement}")
    }
}

impl<S: SmallBook> Case<'_, S> {
    // Gives the case to a marker, whatever it held before.
    pub(crate) fn fill<B: Book>(&self, marker: &mut Marker<B>) -> Result<(), Fault> {
        let size = self.book.size();
        marker.open(size)?;
        self.book.enter_into(marker)?;
        for point in 0..size {
            marker.place(point, self.placement.chapter(point))?;
        }
        Ok(())
    }
}
