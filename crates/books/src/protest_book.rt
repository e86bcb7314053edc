ghost use Rattle.std.specs.Prelude.{◌≡◌, ℕ, ◌<◌, ◌≤◌, true};
ghost use Rattle.books.specs.Protesters.{is_lodged, protesters_of};

use crate::protesters::Protesters;

pub mod as_book;
pub mod published;

// The protest book (an argumentation framework): points that are lodged, and for each its protesters.
#[derive(Drop)]
pub struct ProtestBook {
    size: u8,
    protesters: Protesters,
    ghost least: { 1 ≤ size },
    ghost most: { size ≤ 128 },
    // only points of the book are lodged or protest
    ghost arguments: { (a : ℕ) → is_lodged protesters a ≡ true → a < size },
    ghost attackers: { (a c : ℕ) → protesters_of protesters a c ≡ true → c < size },
}
