// What was compared, and what differed.
use crate::saying::{Answer, Call, words};
use crate::small_book::{Case, SmallBook};
use std::alloc::{AllocError, Global};
use std::ops::Add;

// How many differences are told in full; later ones are only counted.
const TOLD: usize = 10;

#[derive(Clone, Copy, Default)]
pub(crate) struct Counts {
    pub(crate) books: u64,
    // books in a placement
    pub(crate) cases: u64,
    // of those, the ones whose chapters fit
    pub(crate) fitting: u64,
    // rulings judged
    pub(crate) rulings: u64,
    // rulings that a listing is to find
    pub(crate) listed: u64,
    pub(crate) comparisons: u64,
    pub(crate) differences: u64,
}

#[derive(Drop)]
pub(crate) struct Tally {
    heap: Global,
    counts: Counts,
    told: Vec<String>,
}

impl Add for Counts {
    type Output = Counts;

    fn add(self, other: Counts) -> Counts {
        Counts {
            books: self.books.saturating_add(other.books),
            cases: self.cases.saturating_add(other.cases),
            fitting: self.fitting.saturating_add(other.fitting),
            rulings: self.rulings.saturating_add(other.rulings),
            listed: self.listed.saturating_add(other.listed),
            comparisons: self.comparisons.saturating_add(other.comparisons),
            differences: self.differences.saturating_add(other.differences),
        }
    }
}

impl Tally {
    pub(crate) fn new(heap: Global) -> Tally {
        Tally {
            heap,
            counts: Counts::default(),
            told: Vec::new(heap),
        }
    }

    pub(crate) fn heap(&self) -> Global {
        self.heap
    }

    pub(crate) fn counts(&self) -> Counts {
        self.counts
    }

    // The first differences in words.
    pub(crate) fn told(&self) -> &[String] {
        &self.told
    }

    // One more of what is counted.
    pub(crate) fn count<F: FnOnce(&mut Counts) -> &mut u64>(&mut self, counted: F)
        requires { F.IsAlwaysCallable counted }
    {
        let counted = counted(&mut self.counts);
        *counted = counted.saturating_add(1);
    }

    // The chapters of a case fit, and a listing is to find so many rulings.
    pub(crate) fn add_fitting(&mut self, listed: usize) {
        self.count(|counts| &mut counts.fitting);
        self.counts.listed = self.counts.listed.saturating_add(listed as u64);
    }

    pub(crate) fn compare<S: SmallBook>(
        &mut self,
        case: &Case<S>,
        call: Call,
        expected: Answer,
        found: Answer,
    ) -> Result<(), AllocError> {
        self.count(|counts| &mut counts.comparisons);
        if expected == found {
            return Ok(());
        }
        self.count(|counts| &mut counts.differences);
        if self.told.len() < TOLD {
            let expected = words(expected, self.heap)?;
            let found = words(found, self.heap)?;
            self.told.push(format!(in self.heap;
                "{case}: {call}: expected {expected}, found {found}"
            )?)?;
        }
        Ok(())
    }
}
