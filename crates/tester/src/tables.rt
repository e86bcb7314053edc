// Tables over sets of points.
use crate::masks::{Mask, Sets};
use std::alloc::{AllocError, Global};

// What is known of each set of the points below a size, if anything.
#[derive(Drop)]
pub(crate) struct Table<T> {
    size: u8,
    cells: Vec<Option<T>>,
}

impl<T: Copy> Table<T> {
    pub(crate) fn of<F: Fn(Mask) -> Option<T>>(
        heap: Global,
        size: u8,
        known: F,
    ) -> Result<Table<T>, AllocError>
        requires { (state : _) (set : _) → F.FnMut.pre state set }
    {
        let cells = Mask::sets(size).map(known).collect(heap)?;
        Ok(Table { size, cells })
    }

    pub(crate) fn sets(&self) -> Sets {
        Mask::sets(self.size)
    }

    pub(crate) fn get(&self, set: Mask) -> Option<T> {
        self.cells.get(set.place()).copied().flatten()
    }
}
