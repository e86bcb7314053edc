ghost use Rattle.std.specs.Prelude.{◌≡◌, ℕ, ◌<◌, length, slice_index};

mod algebra;
mod bytes;
pub mod laws;
mod lowest;
mod members;
mod order;
pub mod points;
pub mod words;

// A ruling (an interpretation): a set of points.
// Point a is the bit of worth 2^(a mod 8) in byte a div 8.
// The order is that of the bytes: the smaller byte at the first byte that differs comes first.
#[derive(Clone, Copy, PartialEq, Eq, PartialOrd, Ord, Debug)]
pub struct Ruling {
    bytes: [u8; 16],
    ghost long: { length bytes ≡ 16 },
    ghost each: { (i : ℕ) → slice_index bytes i < 256 },
}
