// A book read whole: the closure of every set, and the well-founded model.
use crate::definitions::{Scope, closure, verdict};
use crate::masks::Mask;
use crate::small_book::SmallBook;
use crate::tables::Table;
use answers::Verdict;
use rulings::Ruling;
use std::alloc::{AllocError, Global};

// A reading, as the definitions or a marker write their sets.
#[derive(Clone, Copy, PartialEq, Eq)]
pub(crate) struct Model<S> {
    pub(crate) sure: S,
    pub(crate) possible: S,
}

impl From<Model<Mask>> for Model<Ruling> {
    fn from(model: Model<Mask>) -> Model<Ruling> {
        Model {
            sure: model.sure.into(),
            possible: model.possible.into(),
        }
    }
}

#[derive(Drop)]
pub(crate) struct Whole {
    closures: Table<Mask>,
}

impl Whole {
    pub(crate) fn of<S: SmallBook>(heap: Global, book: &S) -> Result<Whole, AllocError> {
        let size = book.size();
        let scope = Scope {
            points: Mask::all(size),
            lower: Mask::empty(),
        };
        let closures = Table::of(heap, size, |y| closure(book, scope, y))?;
        Ok(Whole { closures })
    }

    pub(crate) fn verdict(&self, y: Mask) -> Option<Verdict> {
        Some(verdict(y, self.closures.get(y)?))
    }

    pub(crate) fn is_stable(&self, y: Mask) -> bool {
        self.verdict(y) == Some(Verdict::Stable)
    }

    // Of all pairs (S, P), each the closure of the other, the one with the smallest S and the largest P.
    pub(crate) fn well_founded(&self) -> Option<Model<Mask>> {
        self.closures
            .sets()
            .filter_map(|sure| self.pair(sure))
            .find(|&model| self.is_widest(model))
    }

    // The pair of a set and its closure, if the set is the closure of that.
    fn pair(&self, sure: Mask) -> Option<Model<Mask>> {
        let possible = self.closures.get(sure)?;
        (self.closures.get(possible)? == sure).then_some(Model { sure, possible })
    }

    // Whether S is part of every other pair's, and P has every other pair's as a part.
    fn is_widest(&self, model: Model<Mask>) -> bool {
        self.closures.sets().filter_map(|sure| self.pair(sure)).all(|other| {
            model.sure.is_part_of(other.sure) && other.possible.is_part_of(model.possible)
        })
    }
}
