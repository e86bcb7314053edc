// A chapter for each point of a small book.
use crate::masks::Mask;
use crate::small_book::POINTS;
use arrayvec::ArrayVec;
use std::alloc::{AllocError, Global};
use std::fmt;

// Chapters 0 to 3 are enough for six points; a chapter without points changes no answer.
pub(crate) const CHAPTERS: u8 = 4;

#[derive(Drop)]
pub(crate) struct Placement(ArrayVec<u8, POINTS>);

impl Placement {
    pub(crate) fn new<F: FnMut(u8) -> u8>(
        heap: Global,
        size: u8,
        chapter: F,
    ) -> Result<Placement, AllocError>
        requires { (state : _) (point : _) → F.pre state point }
    {
        Ok(Placement((0..size).map(chapter).collect(heap)?))
    }

    pub(crate) fn size(&self) -> u8 {
        self.0.len() as u8
    }

    pub(crate) fn chapter(&self, point: u8) -> u8 {
        self.0.get(usize::from(point)).copied().unwrap_or(0)
    }

    // The points at whose chapter a test holds.
    pub(crate) fn points<F: Fn(u8) -> bool>(&self, test: F) -> Mask
        requires { F.IsAlwaysCallable test }
    {
        Mask::all(self.size()).filter(|point| test(self.chapter(point)))
    }
}

impl fmt::Display for Placement {
    fn fmt<W: fmt::Write>(&self, f: &mut fmt::Formatter<W>) -> fmt::Result {
        write!(f, "chapters")?;
        for chapter in &self.0 {
            write!(f, " {chapter}")?;
        }
        Ok(())
    }
}
