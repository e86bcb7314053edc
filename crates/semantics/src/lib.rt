// The theory of books: each function does nothing, and its contract is a theorem.
#![tactic(auto)]

ghost use Rattle.semantics.specs.Chapters.{ChapterLawful, ClosureSplits, StableSplits};
ghost use Rattle.semantics.specs.Closure.{ClosureExists, ClosureUnique, ClosureShrinks};
ghost use Rattle.semantics.specs.Walk.{EffortUnique, SubsetsNumbered, TestExists, WalkCompletes, WalkEffort};
ghost use Rattle.semantics.specs.WellFounded.{WellFoundedExists, WellFoundedUnique, SureIsPossible, WellFoundedSplits};

// In every lawful book each set has exactly one closure, and the closure shrinks as the set grows.
pub fn closures_exist()
    ensures exists { ClosureExists }
    ensures unique { ClosureUnique }
    ensures shrinks { ClosureShrinks }
{}

// A chapter of a lawful book is itself a lawful book.
pub fn chapters_are_books()
    ensures { ChapterLawful }
{}

// Where the chapters fit, closures and stable rulings may be worked out a chapter at a time.
pub fn stable_rulings_split()
    ensures closures { ClosureSplits }
    ensures stable { StableSplits }
{}

// Every lawful book has exactly one well-founded model, and what is sure is possible.
pub fn well_founded_models_exist()
    ensures exists { WellFoundedExists }
    ensures unique { WellFoundedUnique }
    ensures sure { SureIsPossible }
{}

// Where the chapters fit, the well-founded model may be read upward, a chapter at a time.
pub fn readings_split()
    ensures { WellFoundedSplits }
{}

// The walk of a listing: its tries number the effort, and it completes every ruling whose parts are all stable, each once.
pub fn walks_find_every_stable_ruling()
    ensures subsets { SubsetsNumbered }
    ensures test { TestExists }
    ensures completes { WalkCompletes }
    ensures effort { WalkEffort }
    ensures one_effort { EffortUnique }
{}
