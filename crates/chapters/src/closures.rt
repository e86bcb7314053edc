// The closure of a ruling, found by questions alone.
ghost use Rattle.std.specs.Prelude.{◌≡◌, ℕ};
ghost use Rattle.rulings.specs.Rulings.{has};
ghost use Rattle.semantics.specs.Closure.{IsClosure};

use crate::climbing::{Step, climb};
use crate::operator::Operator;
use crate::picking::points_where;
use rulings::Ruling;

// The closure of y: from no point on, the points that derive are taken in until nothing is new.
pub fn closure<O: Operator>(operator: &O, y: Ruling) -> Ruling
    ensures { IsClosure (O.Operator.meant operator.now) (has y) (has result) }
{
    climb(operator.size(), |x| Step::to(derived(operator, x, y))).ruling
}

// The points that derive under the pair (x, y).
fn derived<O: Operator>(operator: &O, x: Ruling, y: Ruling) -> Ruling
    ensures { (a : ℕ) → has result a ≡ (O.Operator.meant operator.now).derives (has x) (has y) a }
{
    points_where(operator.size(), |point| operator.derives(point, x, y))
}
