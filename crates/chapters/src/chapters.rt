// The chapter of each point: a plain table, changed only by its own calls.
ghost use Rattle.std.specs.Prelude.{◌≡◌, ℕ, ◌<◌, ◌≤◌, ◌&&◌, if◌then◌else◌, ◌==◌, nat_eq, nat_lt};
ghost use Rattle.rulings.specs.Rulings.{has};
ghost use Rattle.semantics.specs.Chapters.{in_chapter, below_chapter};
ghost use Rattle.chapters.specs.Table.{chapter_of, AllInChapter0};

use crate::picking::points_where;
use rulings::Ruling;

#[derive(Clone, Copy)]
pub struct Chapters {
    numbers: [u8; 128],
}

impl Chapters {
    // Every point in chapter 0.
    pub fn new() -> Chapters
        ensures fresh { AllInChapter0 result }
        ensures sixteen { (a : ℕ) → chapter_of result a < 16 }
    {
        Chapters { numbers: [0; 128] }
    }

    // The chapter of a point.
    pub fn of(&self, point: u8) -> u8
        ensures { result ≡ chapter_of self.now point }
    {
        self.numbers.get(usize::from(point)).copied().unwrap_or(0)
    }

    // Puts a point into a chapter; the others keep theirs. A point of 128 or above changes nothing.
    pub fn place(&mut self, point: u8, chapter: u8)
        ensures placed { point < 128 → (a : ℕ) → chapter_of self.new a ≡ (if nat_eq a point then chapter else chapter_of self.old a) }
        ensures past { 128 ≤ point → self.new ≡ self.old }
    {
        if point < 128 {
            self.numbers[usize::from(point)] = chapter;
        }
    }

    // The points of a chapter.
    pub fn points_of(&self, chapter: u8) -> Ruling
        ensures { (a : ℕ) → has result a ≡ nat_lt a 128 && chapter_of self.now a == chapter }
    {
        self.points_below(128, chapter)
    }

    // The points of a chapter below a size (and below 128).
    pub fn points_below(&self, size: u8, chapter: u8) -> Ruling
        ensures { (a : ℕ) → has result a ≡ nat_lt a size && (nat_lt a 128 && chapter_of self.now a == chapter) }
    {
        points_where(size, |point| self.of(point) == chapter)
    }

    // The part of a ruling in a chapter.
    pub fn part_in(&self, chapter: u8, ruling: Ruling) -> Ruling
        ensures { has result ≡ in_chapter (chapter_of self.now) chapter (has ruling) }
    {
        self.points_of(chapter).intersection(ruling)
    }

    // The part of a ruling in the chapters lower than one.
    pub fn part_below(&self, chapter: u8, ruling: Ruling) -> Ruling
        ensures { has result ≡ below_chapter (chapter_of self.now) chapter (has ruling) }
    {
        points_where(128, |point| self.of(point) < chapter && ruling.has(point))
    }
}
