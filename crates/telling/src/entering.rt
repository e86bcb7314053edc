// Entries, handed to a marker whole.
ghost use Rattle.std.specs.Prelude.{◌≡◌};
ghost use Rattle.marker.specs.State.{book_of, chapters_of};

use answers::Fault;
use books::{Book, Entry};
use marker::Marker;

pub fn enter<B: Book>(marker: &mut Marker<B>, entry: Entry) -> Result<(), Fault>
    ensures book { B.Book.entered (book_of marker.old) entry.point entry.supporters entry.strikers result (book_of marker.new) }
    ensures chapters { chapters_of marker.new ≡ chapters_of marker.old }
{
    marker.enter(entry.point, entry.supporters, entry.strikers)
}
