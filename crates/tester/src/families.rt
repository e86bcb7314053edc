// Families of small books, each put through every comparison.
use crate::comparing::Trial;
use crate::drawing::{Draws, Reach};
use crate::placements::{CHAPTERS, Placement};
use crate::small_book::SmallBook;
use crate::tally::Tally;
use books::Book;
use std::alloc::{AllocError, Global};

mod protests;
mod rules;

// How many books of a sort are drawn.
const DRAWN: u16 = 1000;

// A sort of book, by the small books of it that are tried.
pub(crate) trait Family: SmallBook + Drop {
    type Sort: Book + Drop;

    // Where the draws begin.
    const SEED: u64;

    // A new book of the sort, for the marker.
    fn new_book() -> Self::Sort;

    fn every_of_size(heap: Global, size: u8) -> Result<Vec<Self>, AllocError>;

    // A book with as many points as are placed, each of which reads only points in its reach.
    fn draw(
        draws: &mut Draws,
        heap: Global,
        placement: &Placement,
        reach: Reach,
    ) -> Result<Self, AllocError>;

    // What the definitions say of the sort beside the answers of a marker.
    fn compare_definitions(&self, tally: &mut Tally) -> Result<(), AllocError>;
}

// Every book of one to three points, in every placement in chapters 0 and 1.
pub(crate) fn try_every<F: Family>(heap: Global) -> Result<Tally, AllocError> {
    let mut trial = Trial::new(heap, F::new_book());
    for size in 1..4 {
        for book in &F::every_of_size(heap, size)? {
            trial.try_in_two_chapters(book)?;
            book.compare_definitions(trial.tally_mut())?;
        }
    }
    Ok(trial.into_tally())
}

// Drawn books of at most six points, in drawn placements in chapters 0 to 3. In every second book the chapters fit.
pub(crate) fn try_drawn<F: Family>(heap: Global) -> Result<Tally, AllocError> {
    let mut trial = Trial::new(heap, F::new_book());
    let mut draws = Draws::new(F::SEED);
    for turn in 0..DRAWN {
        let size = draws.below(6).wrapping_add(1);
        let placement = Placement::new(heap, size, |_| draws.below(CHAPTERS))?;
        let reach = if turn % 2 == 0 {
            Reach::Fitting
        } else {
            Reach::Any
        };
        let book = F::draw(&mut draws, heap, &placement, reach)?;
        trial.try_placed(&book, placement)?;
        book.compare_definitions(trial.tally_mut())?;
    }
    Ok(trial.into_tally())
}
