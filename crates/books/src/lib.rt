// Books: what a marker sees of them, the rule book and the protest book.
#![tactic(auto)]

mod book;
mod checks;
mod entry;
mod protest_book;
mod protesters;
mod rule_book;
mod table;

// What a change answers where it is denied.
pub use answers::{Fault, Layer, Refusal};
pub use book::Book;
pub use entry::Entry;
pub use protest_book::ProtestBook;
pub use protest_book::published::{
    protest_chapters_are_evaluated, stable_rulings_are_stable_extensions, sure_points_are_grounded,
};
pub use rule_book::RuleBook;
pub use rule_book::published::{
    rule_chapters_are_evaluated, stable_rulings_are_stable_models,
    well_founded_models_are_least_precise,
};
