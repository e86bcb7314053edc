// The rule book and the published definitions.
ghost use Rattle.std.specs.Prelude.{◌↔◌};
ghost use Rattle.rulings.specs.Points.{Points};
ghost use Rattle.semantics.specs.Closure.{IsClosure, Stable};
ghost use Rattle.semantics.specs.WellFounded.{WellFounded};
ghost use Rattle.books.specs.PartialEvaluation.{EvaluatesTo, EvaluatesToEntries};
ghost use Rattle.books.specs.Program.{StableModel, LeastModel, LeastPrecisePair, program_of, reduct};
ghost use Rattle.books.specs.RuleBook.{entries, meaning_of};
ghost use Rattle.books.specs.declared.rule_book.RuleBook.{RuleBook};

// A theorem: in a rule book, closures are the least models of reducts, and the stable rulings are exactly the stable models.
pub fn stable_rulings_are_stable_models()
    ensures closures { (b : RuleBook) (y X : Points) → IsClosure (meaning_of b) y X ↔ LeastModel (reduct (program_of (entries b)) y) X }
    ensures stable { (b : RuleBook) (Y : Points) → Stable (meaning_of b) Y ↔ StableModel (program_of (entries b)) Y }
{}

// A theorem: a chapter of a rule book is the partial evaluation of its entries, which gives entries again.
pub fn rule_chapters_are_evaluated()
    ensures program { (b : RuleBook) → EvaluatesTo (meaning_of b) (program_of (entries b)) }
    ensures entries { (b : RuleBook) → EvaluatesToEntries b }
{}

// A theorem: the well-founded model of a rule book is the least precise fixpoint of the stable operator on pairs, over its entries.
pub fn well_founded_models_are_least_precise()
    ensures { (b : RuleBook) (S P : Points) → WellFounded (meaning_of b) S P ↔ LeastPrecisePair (program_of (entries b)) S P }
{}
