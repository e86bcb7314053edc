// Worked books: the functions do nothing. Their contracts say what small books answer, by the definitions that the marker's contracts cite,
// and what the lines of a written book name.
#![tactic(auto)]

ghost use Rattle.worked.specs.Worked.{Worked};
ghost use Rattle.worked.specs.Books.{LinesInside};

// What each worked book lists, reads, judges, refuses and audits.
pub fn worked_books()
    ensures { Worked }
{}

// The lines by which a book is written down name only its points.
pub fn lines_are_inside()
    ensures { LinesInside }
{}
