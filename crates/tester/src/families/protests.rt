// Protest books, and their extensions.
use super::Family;
use crate::drawing::{Draws, Reach};
use crate::extensions::{grounded_extension, is_stable_extension};
use crate::masks::Mask;
use crate::placements::Placement;
use crate::protest_books::{Lodged, SmallProtestBook};
use crate::saying::{Call, Said};
use crate::small_book::{Case, SmallBook};
use crate::tally::Tally;
use crate::whole::Whole;
use books::ProtestBook;
use std::alloc::{AllocError, Global};
use std::iter;

impl Family for SmallProtestBook {
    type Sort = ProtestBook;

    const SEED: u64 = 2;

    fn new_book() -> ProtestBook {
        ProtestBook::new()
    }

    fn every_of_size(heap: Global, size: u8) -> Result<Vec<SmallProtestBook>, AllocError> {
        let mut books = Vec::new(heap);
        books.push(Lodged::new())?;
        for _ in 0..size {
            books = with_a_point(heap, size, &books)?;
        }
        books.into_iter().map(SmallProtestBook::new).collect(heap)
    }

    // Three points of four are lodged.
    fn draw(
        draws: &mut Draws,
        heap: Global,
        placement: &Placement,
        reach: Reach,
    ) -> Result<SmallProtestBook, AllocError> {
        let lodged = (0..placement.size())
            .map(|point| {
                (draws.below(4) > 0).then(|| draws.some_of(reach.readable(placement, point)))
            })
            .collect(heap)?;
        Ok(SmallProtestBook::new(lodged))
    }

    // The stable sets are to be the stable extensions, and the sure points the grounded extension.
    fn compare_definitions(&self, tally: &mut Tally) -> Result<(), AllocError> {
        let heap = tally.heap();
        let size = self.size();
        let whole = Whole::of(heap, self)?;
        let placement = Placement::new(heap, size, |_| 0)?;
        let case = Case {
            book: self,
            placement,
        };
        for set in Mask::sets(size) {
            tally.compare(
                &case,
                Call::StableExtension(set),
                Ok(Said::Holds(is_stable_extension(self, set))),
                Ok(Said::Holds(whole.is_stable(set))),
            )?;
        }
        tally.compare(
            &case,
            Call::GroundedExtension,
            Ok(Said::Set(grounded_extension(self))),
            Ok(Said::Set(whole.well_founded().map(|model| model.sure))),
        )
    }
}

// Each of some books with one more point: not lodged, or with some set of protesters.
fn with_a_point(heap: Global, size: u8, books: &[Lodged]) -> Result<Vec<Lodged>, AllocError> {
    let mut longer = Vec::new(heap);
    for book in books {
        for state in iter::once(None).chain(Mask::sets(size).map(Some)) {
            let mut book = book.clone()?;
            book.extend([state])?;
            longer.push(book)?;
        }
    }
    Ok(longer)
}
