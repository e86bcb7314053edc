// A point given a chapter.
ghost use Rattle.std.specs.Prelude.{◌≡◌};
ghost use Rattle.marker.specs.State.{book_of, Placed};

use answers::Fault;
use books::Book;
use marker::Marker;

// Where a point was to go, and whether it went there.
#[derive(Clone, Copy)]
pub struct Placing {
    pub point: u8,
    pub chapter: u8,
    pub outcome: Result<(), Fault>,
}

pub fn placed<B: Book>(marker: &mut Marker<B>, point: u8, chapter: u8) -> Placing
    ensures point { result.point ≡ point }
    ensures chapter { result.chapter ≡ chapter }
    ensures placed { Placed (B.meaning (book_of marker.old)).size marker.old point chapter result.outcome marker.new }
{
    Placing {
        point,
        chapter,
        outcome: marker.place(point, chapter),
    }
}
