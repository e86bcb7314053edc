// Chapters: the table of them, whether they fit a book, and closures and readings in one chapter or in the whole book.
#![tactic(auto)]

mod candidates;
mod chapters;
mod climbing;
mod closures;
mod fitting;
mod operator;
mod picking;
mod reading;

pub use candidates::{is_stable_over, spread};
pub use chapters::Chapters;
pub use closures::closure;
pub use operator::Operator;
pub use operator::chapter::Chapter;
pub use operator::whole::Whole;
pub use reading::{Reading, least_pair};
