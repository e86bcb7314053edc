// Rule books: every one with at most two entries, and drawn ones with at most twelve.
use super::Family;
use crate::drawing::{Draws, Reach};
use crate::masks::Mask;
use crate::placements::Placement;
use crate::rule_books::{SmallEntry, SmallRuleBook};
use crate::tally::Tally;
use books::RuleBook;
use std::alloc::{AllocError, Global};

impl Family for SmallRuleBook {
    type Sort = RuleBook;

    const SEED: u64 = 1;

    fn new_book() -> RuleBook {
        RuleBook::new()
    }

    // No entry, one, or a first with each second one that is not before it; the same entry may stand twice.
    fn every_of_size(heap: Global, size: u8) -> Result<Vec<SmallRuleBook>, AllocError> {
        let entries = every_entry(heap, size)?;
        let mut books = Vec::new(heap);
        books.push(SmallRuleBook::new(size, Vec::new(heap)))?;
        for (at, first) in entries.iter().enumerate() {
            books.push(with_entries(heap, size, &[*first])?)?;
            for second in &entries[at..] {
                books.push(with_entries(heap, size, &[*first, *second])?)?;
            }
        }
        Ok(books)
    }

    fn draw(
        draws: &mut Draws,
        heap: Global,
        placement: &Placement,
        reach: Reach,
    ) -> Result<SmallRuleBook, AllocError> {
        let size = placement.size();
        let entries = (0..draws.below(13))
            .map(|_| {
                let point = draws.below(size);
                let readable = reach.readable(placement, point);
                SmallEntry {
                    point,
                    supporters: draws.some_of(readable),
                    strikers: draws.some_of(readable),
                }
            })
            .collect(heap)?;
        Ok(SmallRuleBook::new(size, entries))
    }

    fn compare_definitions(&self, _tally: &mut Tally) -> Result<(), AllocError> {
        Ok(())
    }
}

fn with_entries(
    heap: Global,
    size: u8,
    entries: &[SmallEntry],
) -> Result<SmallRuleBook, AllocError> {
    Ok(SmallRuleBook::new(size, Vec::from_slice(heap, entries)?))
}

fn every_entry(heap: Global, size: u8) -> Result<Vec<SmallEntry>, AllocError> {
    (0..size)
        .flat_map(|point| Mask::sets(size).map(move |supporters| (point, supporters)))
        .flat_map(|(point, supporters)| {
            Mask::sets(size).map(move |strikers| SmallEntry {
                point,
                supporters,
                strikers,
            })
        })
        .collect(heap)
}
