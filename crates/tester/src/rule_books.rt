// Small rule books.
use crate::masks::Mask;
use crate::small_book::SmallBook;
use answers::Fault;
use books::{Book, Entry};
use marker::Marker;
use std::fmt;
use telling::enter;

// The point stands if all supporters do and no striker does.
#[derive(Clone, Copy)]
pub(crate) struct SmallEntry {
    pub(crate) point: u8,
    pub(crate) supporters: Mask,
    pub(crate) strikers: Mask,
}

// The entry as it is entered and told.
impl From<SmallEntry> for Entry {
    fn from(entry: SmallEntry) -> Entry {
        Entry {
            point: entry.point,
            supporters: entry.supporters.into(),
            strikers: entry.strikers.into(),
        }
    }
}

#[derive(Drop)]
pub(crate) struct SmallRuleBook {
    size: u8,
    entries: Vec<SmallEntry>,
}

impl SmallRuleBook {
    pub(crate) fn new(size: u8, entries: Vec<SmallEntry>) -> SmallRuleBook {
        SmallRuleBook { size, entries }
    }
}

impl SmallBook for SmallRuleBook {
    fn size(&self) -> u8 {
        self.size
    }

    // By some entry for the point that has all its supporters in x and none of its strikers in y.
    fn derives(&self, point: u8, x: Mask, y: Mask) -> bool {
        self.entries.iter().any(|entry| {
            entry.point == point && entry.supporters.is_part_of(x) && !entry.strikers.meets(y)
        })
    }

    fn reads(&self, point: u8) -> Mask {
        self.entries
            .iter()
            .filter(|entry| entry.point == point)
            .map(|entry| entry.supporters.union(entry.strikers))
            .fold(Mask::empty(), Mask::union)
    }

    fn enter_into<B: Book>(&self, marker: &mut Marker<B>) -> Result<(), Fault> {
        for entry in &self.entries {
            enter(marker, Entry::from(*entry))?;
        }
        Ok(())
    }
}

impl fmt::Display for SmallRuleBook {
    fn fmt<W: fmt::Write>(&self, f: &mut fmt::Formatter<W>) -> fmt::Result {
        let size = self.size;
        write!(f, "rule book of size {size}")?;
        for entry in &self.entries {
            let entry = Entry::from(*entry);
            write!(f, "; {entry}")?;
        }
        Ok(())
    }
}
