// A book read by its chapters: which parts of a ruling are stable, and what a listing costs.
use crate::definitions::{Scope, closure, verdict};
use crate::masks::Mask;
use crate::placements::{CHAPTERS, Placement};
use crate::small_book::{Case, SmallBook};
use crate::tables::Table;
use answers::{ChapterVerdict, Verdict};
use rulings::Ruling;
use std::alloc::{AllocError, Global};

// What is found of each ruling.
#[derive(Drop)]
pub(crate) struct Parts<'a> {
    placement: &'a Placement,
    verdicts: Table<ChapterVerdict>,
}

impl<'a> Parts<'a> {
    pub(crate) fn of<S: SmallBook>(
        heap: Global,
        case: &'a Case<S>,
    ) -> Result<Parts<'a>, AllocError> {
        Ok(Parts {
            placement: &case.placement,
            verdicts: Table::of(heap, case.book.size(), |ruling| judge(case, ruling))?,
        })
    }

    pub(crate) fn verdict(&self, ruling: Mask) -> Option<ChapterVerdict> {
        self.verdicts.get(ruling)
    }

    pub(crate) fn are_stable(&self, ruling: Mask) -> bool {
        self.are_stable_below(ruling, CHAPTERS)
    }

    fn are_stable_below(&self, ruling: Mask, chapter: u8) -> bool {
        self.verdict(ruling).is_some_and(|found| found
            .chapter()
            .is_none_or(|lowest| lowest >= chapter))
    }

    // The rulings that have all their parts stable.
    pub(crate) fn stable(&self, heap: Global) -> Result<Vec<Ruling>, AllocError> {
        self.verdicts
            .sets()
            .filter(|&ruling| self.are_stable(ruling))
            .map(Ruling::from)
            .collect(heap)
    }

    // The sum over the chapters that hold a point, by counting.
    pub(crate) fn effort(&self) -> usize {
        (0..CHAPTERS)
            .map(|chapter| self.effort_in(chapter))
            .fold(0, usize::wrapping_add)
    }

    fn effort_in(&self, chapter: u8) -> usize {
        let points = self.placement.points(|other| other == chapter);
        if points.is_empty() {
            0
        } else {
            self.ways_below(chapter).wrapping_mul(points.subsets())
        }
    }

    // How many rulings of the points below a chapter have all their parts stable there.
    fn ways_below(&self, chapter: u8) -> usize {
        let below = self.placement.points(|other| other < chapter);
        self.verdicts
            .sets()
            .filter(|&lower| lower.is_part_of(below) && self.are_stable_below(lower, chapter))
            .count()
    }
}

// What is found in the lowest chapter whose part is not stable; where there is none, stable and no chapter.
fn judge<S: SmallBook>(case: &Case<S>, ruling: Mask) -> Option<ChapterVerdict> {
    for chapter in 0..CHAPTERS {
        let found = judge_in(case, ruling, chapter)?;
        if found != Verdict::Stable {
            return Some(ChapterVerdict::new(found, Some(chapter)));
        }
    }
    Some(ChapterVerdict::from(Verdict::Stable))
}

// Compares the part of a ruling in a chapter with its closure there, over the ruling's own part below.
fn judge_in<S: SmallBook>(case: &Case<S>, ruling: Mask, chapter: u8) -> Option<Verdict> {
    let points = case.placement.points(|other| other == chapter);
    let lower = ruling.within(case.placement.points(|other| other < chapter));
    let part = ruling.within(points);
    Some(verdict(part, closure(case.book, Scope { points, lower }, part)?))
}
