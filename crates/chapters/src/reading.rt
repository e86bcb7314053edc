// Pairs of rulings: what is sure, and what is possible.
ghost use Rattle.rulings.specs.Rulings.{has};
ghost use Rattle.semantics.specs.Closure.{IsClosure};
ghost use Rattle.semantics.specs.WellFounded.{LeastPair};

use crate::climbing::{Step, climb};
use crate::closures::closure;
use crate::operator::Operator;
use rulings::Ruling;

#[derive(Clone, Copy, Default)]
pub struct Reading {
    pub sure: Ruling,
    pub possible: Ruling,
}

// The least alternating pair: sure is the closure of possible by the one, possible the closure of sure by the other.
// From no sure point on, one closure follows the other until nothing is new.
pub fn least_pair<M: Operator, W: Operator>(for_sure: &M, for_possible: &W) -> Reading
    ensures { LeastPair (M.Operator.meant for_sure.now) (W.Operator.meant for_possible.now) (has result.sure) (has result.possible) }
{
    let top = climb(
        for_sure.size(),
        |sure| two_closures(for_sure, for_possible, sure),
    );
    let possible = match top.found {
        Some(possible) => possible,
        None => closure(for_possible, top.ruling),
    };
    Reading {
        sure: top.ruling,
        possible,
    }
}

// One closure after the other: what the sure points leave possible, and what is sure then.
fn two_closures<M: Operator, W: Operator>(
    for_sure: &M,
    for_possible: &W,
    sure: Ruling,
) -> Step<Ruling>
    ensures possible { IsClosure (W.Operator.meant for_possible.now) (has sure) (has result.found) }
    ensures sure { IsClosure (M.Operator.meant for_sure.now) (has result.found) (has result.next) }
{
    let possible = closure(for_possible, sure);
    Step {
        next: closure(for_sure, possible),
        found: possible,
    }
}
