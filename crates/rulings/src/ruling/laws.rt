// Theorems about rulings: each function does nothing, and its contract is the theorem.
ghost use Rattle.rulings.specs.Order.{Precedes, StrictTotal};
ghost use Rattle.rulings.specs.Rulings.{PointsBelow128, SamePointsSameRuling};

// A ruling has no point of 128 or above, and is known by its points.
pub fn rulings_are_their_points()
    ensures outside { PointsBelow128 }
    ensures same { SamePointsSameRuling }
{}

// The row order is irreflexive, transitive and total.
pub fn row_order_is_total()
    ensures { StrictTotal Precedes }
{}
