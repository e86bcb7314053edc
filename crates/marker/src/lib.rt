// The marker: a book of any sort with a chapter for each point, and its calls.
#![tactic(auto)]

mod marker;

// What the questions answer.
pub use answers::{ChapterVerdict, Listing, UpwardReading, Verdict};
pub use marker::Marker;
