// The example book of four points.
ghost use Rattle.std.specs.Prelude.{◌≡◌};
ghost use Rattle.std.specs.List.{AllZip};
ghost use Rattle.books.specs.Lines.{Says};
ghost use Rattle.marker.specs.State.{book_of, chapters_of};
ghost use Rattle.telling.specs.Example.{example_lines, EntersEach, OpensExample, ExampleIsOpened};

use crate::entering::enter;
use answers::Fault;
use books::{Book, Entry};
use marker::Marker;

// 0 if not 1; 1 if not 0; 2 if 0; 3 if 2 and not 1
pub fn example() -> [Entry; 4]
    ensures { AllZip Says result example_lines }
{
    [
        Entry::new(0, &[], &[1]),
        Entry::new(1, &[], &[0]),
        Entry::new(2, &[0], &[]),
        Entry::new(3, &[2], &[1]),
    ]
}

// Opens the marker with the example book, as far as the book lets it.
pub fn open_example<B: Book>(marker: &mut Marker<B>) -> Result<(), Fault>
    ensures { OpensExample B.Book.opened B.Book.entered marker.old result marker.new }
{
    marker.open(4)?;
    enter_each(&example(), marker)
}

fn enter_each<B: Book>(entries: &[Entry], marker: &mut Marker<B>) -> Result<(), Fault>
    ensures book { EntersEach B.Book.entered entries.now (book_of marker.old) result (book_of marker.new) }
    ensures chapters { chapters_of marker.new ≡ chapters_of marker.old }
{
    for entry in entries {
        enter(marker, *entry)?;
    }
    Ok(())
}

// A theorem: whatever marker over a rule book is opened with the example book, that is done, and it then holds just
// the example book.
pub fn example_book_is_opened()
    ensures { ExampleIsOpened }
{}
