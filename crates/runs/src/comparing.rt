// Two runs side by side, and their law.
ghost use Rattle.std.specs.Prelude.{map, MatchResult};
ghost use Rattle.runs.specs.Law.{Compared, ComparedSoFar, LawOfAllHistories};
ghost use Rattle.runs.specs.Step.{marker_calls};
ghost use Rattle.runs.specs.Told.{told};

use crate::answer::Answer;
use crate::call::Call;
use crate::replaying::replay;
use answers::Fault;
use books::Book;
use marker::Marker;
use std::alloc::{AllocError, Global};

// What the calls of two runs answered.
#[derive(Drop)]
pub struct Comparison {
    pub first: Vec<Result<Answer, Fault>>,
    pub second: Vec<Result<Answer, Fault>>,
}

// Makes the calls of two runs, on two markers over any two books. The law holds of them: what is denied, listed, read
// and judged is what the books, read whole at those moments, mean; so equal listings are equal books, as far as
// stable rulings go, and unequal ones are not.
pub fn compare<B: Book, C: Book>(
    first: &mut Marker<B>,
    calls: &[Call],
    second: &mut Marker<C>,
    others: &[Call],
    heap: Global,
) -> Result<Comparison, AllocError>
    ensures { MatchResult result (λ v. Compared (marker_calls B.Book) first.old calls.now (map told v.first.items) first.new (marker_calls C.Book) second.old others.now (map told v.second.items) second.new) (λ _. ComparedSoFar (marker_calls B.Book) first.old calls.now first.new (marker_calls C.Book) second.old others.now second.new) }
{
    let answers = replay(first, calls, heap)?;
    let others = replay(second, others, heap)?;
    Ok(Comparison {
        first: answers,
        second: others,
    })
}

// The law holds of any two histories of calls on markers over any two books.
pub fn runs_keep_the_law<B: Book, C: Book>(_one: &B, _other: &C)
    ensures { LawOfAllHistories (marker_calls B.Book) (marker_calls C.Book) }
{}
