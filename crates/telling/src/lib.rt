// What the programs tell of calls on a marker, as values that are shown: questions with their answers, changes with their
// outcomes; entries handed to a marker whole, and the example book.
#![tactic(auto)]

mod asking;
mod entering;
mod example_book;
mod placing;
mod words;

pub use asking::{
    ChapterJudgement, Judgement, ListedRulings, Reading, judged, judged_by_chapter, listed, read,
};
pub use entering::enter;
pub use example_book::{example, example_book_is_opened, open_example};
pub use placing::{Placing, placed};
pub use words::{Outcome, Rulings, Title};
