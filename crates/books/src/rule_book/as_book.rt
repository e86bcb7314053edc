// The rule book's questions and changes.
ghost use Rattle.std.specs.Prelude.{◌≡◌, []};
ghost use Rattle.books.specs.RuleBook.{entries, meaning_of, Opened, Entered, Withdrawn};
ghost use Rattle.books.specs.EntriesLemmas.{entries_lawful};
ghost use Rattle.books.specs.PromiseLemmas as Promise;

use super::RuleBook;
use crate::book::Book;
use crate::checks;
use crate::entry::Entry;
use crate::table::Table;
use answers::{Fault, Layer, Refusal};
use rulings::Ruling;

impl RuleBook {
    // A book of one point, without entries.
    pub fn new() -> RuleBook
        ensures size { result.size ≡ 1 }
        ensures entries { entries result ≡ [] }
    {
        RuleBook {
            size: 1,
            table: Table::new(),
        }
    }
}

impl Book for RuleBook {
    ghost meaning = { meaning_of };

    ghost opened = { Opened };

    ghost entered = { Entered };

    ghost withdrawn = { Withdrawn };

    ghost lawful = { λ b. entries_lawful b.size (entries b) b.least b.most b.heads b.bodies };

    ghost opens = { Promise.opens };

    ghost enters = { Promise.enters };

    ghost withdraws = { Promise.withdraws };

    fn size(&self) -> u8 {
        self.size
    }

    fn derives(&self, point: u8, x: Ruling, y: Ruling) -> bool {
        self.table.derives(point, x, y)
    }

    fn reads(&self, point: u8, other: u8) -> bool {
        self.table.reads(point, other)
    }

    fn open(&mut self, size: u8) -> Result<(), Fault> {
        checks::size(size)?;
        self.size = size;
        self.table.clear();
        Ok(())
    }

    fn enter(&mut self, point: u8, p: Ruling, q: Ruling) -> Result<(), Fault> {
        Layer::Book.check_point(point, self.size)?;
        Layer::Book.check_marks(p.union(q), self.size)?;
        self.table.push(Entry {
            point,
            supporters: p,
            strikers: q,
        })
    }

    fn withdraw(&mut self, point: u8) -> Result<(), Fault> {
        Layer::Book.check_point(point, self.size)?;
        if !self.table.has_entry_for(point) {
            return Err(checks::fault(Refusal::NothingEntered(point)));
        }
        self.table.remove(point);
        Ok(())
    }
}
