// The table of entries: a plain store, changed only by its own calls.
ghost use Rattle.std.specs.Prelude.{◌≡◌, ◌<◌, not, [], ◌∷◌, ◌++◌, length, filter, OnOk, OnErr, IfErr};
ghost use Rattle.std.specs.List.{list_any};
ghost use Rattle.rulings.specs.Rulings.{has};
ghost use Rattle.answers.specs.Faults.{fault_of};
ghost use Rattle.answers.specs.declared.fault.Layer.TheVariants.{Book};
ghost use Rattle.answers.specs.declared.fault.Refusal.TheVariants.{BookFull};
ghost use Rattle.books.specs.Entries.{standing, for_point, fires, looks_at};

use crate::checks;
use crate::entry::Entry;
use answers::{Fault, Refusal};
use arrayvec::ArrayVec;
use rulings::Ruling;

// The entries that stand, oldest first, at most 256.
#[derive(Drop)]
pub(crate) struct Table {
    entries: ArrayVec<Entry, 256>,
}

impl Table {
    pub(crate) fn new() -> Table
        ensures { standing result ≡ [] }
    {
        Table {
            entries: ArrayVec::new(),
        }
    }

    pub(crate) fn clear(&mut self)
        ensures { standing self.new ≡ [] }
    {
        self.entries.clear();
    }

    // One entry more, behind the others, if there is room for it.
    pub(crate) fn push(&mut self, entry: Entry) -> Result<(), Fault>
        ensures room { OnOk result (length (standing self.old) < 256) }
        ensures after { OnOk result (standing self.new ≡ standing self.old ++ entry ∷ []) }
        ensures fault { IfErr result (λ f. f ≡ fault_of Book BookFull) }
        ensures full { OnErr result (length (standing self.old) ≡ 256) }
        ensures unaltered { OnErr result (self.new ≡ self.old) }
    {
        let pushed = self.entries.try_push(entry);
        pushed.map_err(|_| checks::fault(Refusal::BookFull))
    }

    // Takes out every entry for the point; the others stay in their order.
    pub(crate) fn remove(&mut self, point: u8)
        ensures { standing self.new ≡ filter (λ e. not (for_point point e)) (standing self.old) }
    {
        self.entries.retain(|entry| entry.point != point);
    }

    pub(crate) fn has_entry_for(&self, point: u8) -> bool
        ensures { result ≡ list_any (for_point point) (standing self.now) }
    {
        self.entries.iter().any(|entry| entry.point == point)
    }

    // Whether the point derives under the pair (x, y) by some entry.
    pub(crate) fn derives(&self, point: u8, x: Ruling, y: Ruling) -> bool
        ensures { result ≡ list_any (fires point (has x) (has y)) (standing self.now) }
    {
        self.entries.iter().any(|entry| entry.fires(point, x, y))
    }

    // Whether some entry for the point has the other among its supporters or strikers.
    pub(crate) fn reads(&self, point: u8, other: u8) -> bool
        ensures { result ≡ list_any (looks_at point other) (standing self.now) }
    {
        self.entries
            .iter()
            .any(|entry| entry.looks_at(point, other))
    }
}
