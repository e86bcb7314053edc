// Runs of calls: a list of calls carried out on a marker, and the law of any two runs.
#![tactic(auto)]

mod answer;
mod call;
mod comparing;
mod replaying;

pub use answer::Answer;
pub use call::Call;
pub use comparing::{Comparison, compare, runs_keep_the_law};
pub use replaying::replay;
