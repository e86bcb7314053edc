// The protest book and the published definitions.
ghost use Rattle.std.specs.Prelude.{◌↔◌};
ghost use Rattle.rulings.specs.Points.{Points};
ghost use Rattle.semantics.specs.Closure.{Stable};
ghost use Rattle.semantics.specs.WellFounded.{WellFounded};
ghost use Rattle.books.specs.Framework.{StableExtension, GroundedExtension, framework_of};
ghost use Rattle.books.specs.PartialEvaluation.{EvaluatesTo};
ghost use Rattle.books.specs.ProtestBook.{protest_meaning, protest_program};
ghost use Rattle.books.specs.declared.protest_book.ProtestBook.{ProtestBook};

// A theorem: the stable rulings of a protest book are exactly the stable extensions of the framework of its lodged points.
pub fn stable_rulings_are_stable_extensions()
    ensures { (b : ProtestBook) (Y : Points) → Stable (protest_meaning b) Y ↔ StableExtension (framework_of b) Y }
{}

// A theorem: a chapter of a protest book is the partial evaluation of its program "a if none of its protesters".
pub fn protest_chapters_are_evaluated()
    ensures { (b : ProtestBook) → EvaluatesTo (protest_meaning b) (protest_program b) }
{}

// A theorem: a set is the grounded extension of the framework of a protest book's lodged points exactly if it is the sure
// points of a well-founded model of the book.
pub fn sure_points_are_grounded()
    ensures { (b : ProtestBook) (S : Points) → GroundedExtension (framework_of b) S ↔ ((P : Points) × WellFounded (protest_meaning b) S P) }
{}
