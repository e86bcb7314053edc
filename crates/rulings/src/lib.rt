// Rulings: sets of at most 128 points, sixteen bytes each.
#![tactic(auto)]

mod ruling;

pub use ruling::Ruling;
pub use ruling::laws::{row_order_is_total, rulings_are_their_points};
pub use ruling::points::Points;
