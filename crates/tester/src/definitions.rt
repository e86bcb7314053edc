// Closures as they are defined: of all sets that are closed, the one that is part of every other. Nothing is worked
// out step by step; every set is tried.
use crate::masks::Mask;
use crate::small_book::SmallBook;
use answers::Verdict;

// Where a closure is taken: of which points, and over which ruling of the lower ones. The book read whole is all its
// points over nothing.
#[derive(Clone, Copy)]
pub(crate) struct Scope {
    pub(crate) points: Mask,
    pub(crate) lower: Mask,
}

// The smallest closed set of the scope's points. Where there is none, the book breaks its laws.
pub(crate) fn closure<S: SmallBook>(book: &S, scope: Scope, y: Mask) -> Option<Mask> {
    least(book.size(), |x| is_closed(book, scope, x, y))
}

// Of all sets of the points below a size that pass a test, the one that is part of every other.
pub(crate) fn least<F: Fn(Mask) -> bool>(size: u8, passes: F) -> Option<Mask>
    requires { F.IsAlwaysCallable passes }
{
    Mask::sets(size).find(|&set| {
        passes(set) && Mask::sets(size).all(|other| !passes(other) || set.is_part_of(other))
    })
}

// Whether x is a set of the scope's points that has each of them that derives under the pair (x, y), both joined with
// the lower points.
fn is_closed<S: SmallBook>(book: &S, scope: Scope, x: Mask, y: Mask) -> bool {
    let (first, second) = (scope.lower.union(x), scope.lower.union(y));
    let missing = scope.points.without(x);
    x.is_part_of(scope.points)
        && !(0..book.size()).any(|point| missing.has(point) && book.derives(point, first, second))
}

// The lowest point on which a set and its closure differ decides.
pub(crate) fn verdict(set: Mask, closure: Mask) -> Verdict {
    match set.difference(closure).lowest() {
        None => Verdict::Stable,
        Some(point) if set.has(point) => Verdict::Unfounded(point),
        Some(point) => Verdict::Missing(point),
    }
}
