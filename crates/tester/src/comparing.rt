// Every call of a marker beside what the definitions say.
use crate::expected::Expected;
use crate::masks::Mask;
use crate::placements::Placement;
use crate::saying::{Answer, Call, Said};
use crate::small_book::{Case, SmallBook};
use crate::tally::Tally;
use crate::whole::{Model, Whole};
use books::Book;
use marker::Marker;
use rulings::Ruling;
use std::alloc::{AllocError, Global};

mod lent;

// A marker that is tried, and what was compared on it.
#[derive(Drop)]
pub(crate) struct Trial<B> {
    heap: Global,
    marker: Marker<B>,
    tally: Tally,
}

impl<B: Book + Drop> Trial<B> {
    pub(crate) fn new(heap: Global, book: B) -> Trial<B> {
        Trial {
            heap,
            marker: Marker::new(book),
            tally: Tally::new(heap),
        }
    }

    pub(crate) fn into_tally(self) -> Tally {
        let Trial { tally, .. } = self;
        tally
    }

    pub(crate) fn tally_mut(&mut self) -> &mut Tally {
        &mut self.tally
    }

    // The book in each placement of its points in chapters 0 and 1.
    pub(crate) fn try_in_two_chapters<S: SmallBook>(&mut self, book: &S) -> Result<(), AllocError> {
        self.tally.count(|counts| &mut counts.books);
        let whole = Whole::of(self.heap, book)?;
        let size = book.size();
        for upper in Mask::sets(size) {
            let placement = Placement::new(self.heap, size, |point| u8::from(upper.has(point)))?;
            self.compare_case(&Case { book, placement }, &whole)?;
        }
        Ok(())
    }

    // The book in one placement.
    pub(crate) fn try_placed<S: SmallBook>(
        &mut self,
        book: &S,
        placement: Placement,
    ) -> Result<(), AllocError> {
        self.tally.count(|counts| &mut counts.books);
        let whole = Whole::of(self.heap, book)?;
        self.compare_case(&Case { book, placement }, &whole)
    }

    // Makes all calls on one case, and compares each answer.
    fn compare_case<S: SmallBook>(
        &mut self,
        case: &Case<S>,
        whole: &Whole,
    ) -> Result<(), AllocError> {
        self.tally.count(|counts| &mut counts.cases);
        if let Err(fault) = case.fill(&mut self.marker) {
            return self
                .tally
                .compare(case, Call::Fill, Ok(Said::Done), Err(fault));
        }
        let expected = Expected::of(self.heap, case, whole)?;
        if expected.chapters_fit() {
            self.tally.add_fitting(expected.listing.rows.len());
            self.compare_split(&expected)?;
        }
        self.compare_judgings(&expected)?;
        let read = self.read();
        self.tally.compare(case, Call::Read, expected.read(), read)?;
        self.compare_written(case, &expected.listing)?;
        self.compare_written(case, &expected.audit)
    }

    // Where the chapters fit, the definitions agree: a ruling is stable in every chapter exactly if it is stable in
    // the book read whole.
    fn compare_split<S: SmallBook>(&mut self, expected: &Expected<S>) -> Result<(), AllocError> {
        for ruling in Mask::sets(expected.case.book.size()) {
            self.tally.compare(
                expected.case,
                Call::Split(ruling),
                Ok(Said::Holds(expected.is_stable(ruling))),
                Ok(Said::Holds(expected.is_stable_by_chapter(ruling))),
            )?;
        }
        Ok(())
    }

    // Judges every ruling, whole and by chapter.
    fn compare_judgings<S: SmallBook>(&mut self, expected: &Expected<S>) -> Result<(), AllocError> {
        for ruling in Mask::sets(expected.case.book.size()) {
            self.tally.count(|counts| &mut counts.rulings);
            let judged = self.judge(ruling);
            self.tally.compare(
                expected.case,
                Call::Judge(ruling),
                expected.judged(ruling),
                judged,
            )?;
            let judged = self.judge_by_chapter(ruling);
            self.tally.compare(
                expected.case,
                Call::JudgeByChapter(ruling),
                expected.judged_by_chapter(ruling),
                judged,
            )?;
        }
        Ok(())
    }

    fn judge(&self, ruling: Mask) -> Answer {
        let verdict = self.marker.judge(ruling.into())?;
        Ok(Said::Judged(Some(verdict)))
    }

    fn judge_by_chapter(&self, ruling: Mask) -> Answer {
        let verdict = self.marker.judge_by_chapter(ruling.into())?;
        Ok(Said::JudgedByChapter(Some(verdict)))
    }

    fn read(&self) -> Answer {
        let mut sure = Ruling::empty();
        let mut possible = Ruling::empty();
        self.marker.read(&mut sure, &mut possible)?;
        Ok(Said::Reading(Some(Model { sure, possible })))
    }
}
