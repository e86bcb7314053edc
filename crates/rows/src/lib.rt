// Rows kept in their order, in slices that the caller lends.
#![tactic(auto)]

ghost use Rattle.std.specs.Prelude.{◌≡◌, true, ◌↔◌};
ghost use Rattle.rulings.specs.Order.{Precedes, StrictTotal};
ghost use Rattle.rows.specs.Rows.{Inserted, Behind, SameRowsSameList};
ghost use Rattle.rulings.proofs.RowOrder.{row_order};

use rulings::Ruling;

// A row, with its order.
pub trait Row: Copy {
    ghost before: { Self → Self → Type 0 };

    // Whether the row comes before the other.
    fn comes_before(self, other: Self) -> bool
        ensures { (result ≡ true) ↔ before self other };

    ghost strict: { StrictTotal before };
}

// Rulings go by the row order.
impl Row for Ruling {
    ghost before = { Precedes };

    ghost strict = { row_order };

    fn comes_before(self, other: Ruling) -> bool {
        self.precedes(other)
    }
}

// Puts the row into the first `count` rows, which it keeps in order; later rows stay, but for the one whose place is taken.
// Answers how many rows are in use then; none, and nothing is changed, where there is no room.
pub fn insert_in_order<R: Row>(rows: &mut [R], count: usize, row: R) -> Option<usize>
    ensures { Inserted R.Row.before rows.old count row result rows.new }
{
    if count >= rows.len() {
        return None;
    }
    let place = count - rows_behind(&rows[..count], row);
    rows.copy_within(place..count, place + 1);
    rows[place] = row;
    Some(count + 1)
}

// How many rows at the end the row comes before.
fn rows_behind<R: Row>(rows: &[R], row: R) -> usize
    ensures { Behind R.Row.before row rows.now result }
{
    rows.iter()
        .rev()
        .take_while(|later| row.comes_before(**later))
        .count()
}

// A theorem: the same rows, strictly in order, are the same list. So a listing is settled by what it lists.
pub fn rows_in_order_are_one<R: Row>()
    ensures { SameRowsSameList R.Row.before }
{}
