ghost use Rattle.std.specs.Prelude.{◌≡◌, ℕ, ◌<◌, ◌≤◌, true, length};
ghost use Rattle.std.specs.List.{All};
ghost use Rattle.books.specs.Entries.{standing, names};

use crate::table::Table;

pub mod as_book;
pub mod published;

// The rule book: entries "a if all of p and none of q", at most 256, for points below the size.
#[derive(Drop)]
pub struct RuleBook {
    size: u8,
    table: Table,
    ghost least: { 1 ≤ size },
    ghost most: { size ≤ 128 },
    ghost room: { length (standing table) ≤ 256 },
    // every entry is for a point of the book, and names only points of the book
    ghost heads: { All (λ e. e.point < size) (standing table) },
    ghost bodies: { All (λ e. (b : ℕ) → names e b ≡ true → b < size) (standing table) },
}
