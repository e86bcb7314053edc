// A record file in words: a line for each record, with its reply.
#![tactic(auto)]

mod explainer;
mod line;
mod say;
mod sort;
mod standard_input;

pub use explainer::Explainer;
pub use line::Line;
pub use sort::{Sort, Sorted, UnknownSort};
pub use standard_input::explain_standard_input;
