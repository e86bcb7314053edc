// The protest book's questions and changes.
ghost use Rattle.std.specs.Prelude.{◌≡◌, ℕ, false};
ghost use Rattle.books.specs.ProtestBook.{lodged, protesters, protest_meaning, ProtestOpened, ProtestEntered, ProtestWithdrawn};
ghost use Rattle.books.specs.Protests.{protests_lawful, protest_opens, protest_enters, protest_withdraws};

use super::ProtestBook;
use crate::book::Book;
use crate::checks;
use crate::protesters::Protesters;
use answers::{Fault, Layer, Refusal};
use rulings::Ruling;

impl ProtestBook {
    // A book of one point, with nothing lodged.
    pub fn new() -> ProtestBook
        ensures size { result.size ≡ 1 }
        ensures lodged { (a : ℕ) → lodged result a ≡ false }
        ensures protesters { (a c : ℕ) → protesters result a c ≡ false }
    {
        ProtestBook {
            size: 1,
            protesters: Protesters::new(),
        }
    }
}

impl Book for ProtestBook {
    ghost meaning = { protest_meaning };

    ghost opened = { ProtestOpened };

    ghost entered = { ProtestEntered };

    ghost withdrawn = { ProtestWithdrawn };

    ghost lawful = { protests_lawful };

    ghost opens = { protest_opens };

    ghost enters = { protest_enters };

    ghost withdraws = { protest_withdraws };

    fn size(&self) -> u8 {
        self.size
    }

    fn derives(&self, point: u8, _x: Ruling, y: Ruling) -> bool {
        self.protesters
            .of(point)
            .is_some_and(|protesters| protesters.is_disjoint_from(y))
    }

    fn reads(&self, point: u8, other: u8) -> bool {
        self.protesters
            .of(point)
            .is_some_and(|protesters| protesters.has(other))
    }

    fn open(&mut self, size: u8) -> Result<(), Fault> {
        checks::size(size)?;
        self.size = size;
        self.protesters = Protesters::new();
        Ok(())
    }

    fn enter(&mut self, point: u8, p: Ruling, q: Ruling) -> Result<(), Fault> {
        Layer::Book.check_point(point, self.size)?;
        Layer::Book.check_marks(p.union(q), self.size)?;
        if let Some(supporter) = p.first_from(0) {
            return Err(checks::fault(Refusal::NoSupportersHere(supporter)));
        }
        self.protesters.lodge(point, q);
        Ok(())
    }

    fn withdraw(&mut self, point: u8) -> Result<(), Fault> {
        Layer::Book.check_point(point, self.size)?;
        if self.protesters.of(point).is_none() {
            return Err(checks::fault(Refusal::NothingEntered(point)));
        }
        self.protesters.clear(point);
        Ok(())
    }
}
