// What calls answer: why they are denied, verdicts, the rows of an audit, and what a listing counts.
#![tactic(auto)]

mod audit;
mod fault;
mod listing;
mod verdict;

pub use audit::UpwardReading;
pub use fault::{Fault, Layer, Refusal};
pub use listing::Listing;
pub use verdict::{ChapterVerdict, Verdict};
