// Climbing from the empty ruling, step by step.
ghost use Rattle.std.specs.Prelude.{◌≡◌, IfSome};
ghost use Rattle.rulings.specs.Points.{Points};
ghost use Rattle.rulings.specs.Rulings.{has};
ghost use Rattle.chapters.specs.Climbing.{StepOf, FoundBy, LeastPrefixpoint};

use rulings::Ruling;

// A step up: the ruling that it leads to, and what was found on the way.
#[derive(Clone, Copy)]
pub(crate) struct Step<T> {
    pub(crate) next: Ruling,
    pub(crate) found: T,
}

impl Step<()> {
    // A step that finds nothing on the way.
    pub(crate) fn to(next: Ruling) -> Step<()>
        ensures { result.next ≡ next }
    {
        Step { next, found: () }
    }
}

// The ruling from which no step leads further up, and what the step from it found, where one was taken.
#[derive(Clone, Copy)]
pub(crate) struct Top<T> {
    pub(crate) ruling: Ruling,
    pub(crate) found: Option<T>,
}

// From no point on, one step follows the other until nothing is new. As many turns as there are points are enough.
pub(crate) fn climb<T: Copy, F: Fn(Ruling) -> Step<T>>(turns: u8, step: F) -> Top<T>
    requires { F.IsAlwaysCallable step }
    ensures top { (f : Points → Points) → StepOf (F.post step) turns f → LeastPrefixpoint f (has result.ruling) }
    ensures found { IfSome result.found (FoundBy (F.post step) result.ruling) }
{
    let mut x = Ruling::empty();
    for _turn in 0..turns {
        let Step { next, found } = step(x);
        if next.is_part_of(x) {
            return Top {
                ruling: x,
                found: Some(found),
            };
        }
        x = next;
    }
    Top {
        ruling: x,
        found: None,
    }
}
