// Records of standard input, explained on standard output.
ghost use Rattle.std.specs.Prelude.{◌≡◌, [], IfOk, drop};

use crate::explainer::Explainer;
use crate::sort::{Sort, Sorted};
use books::{Book, ProtestBook, RuleBook};
use service::read_input;
use std::{env, io};

// Prints a line for each record that a program is given: for a rule book, or for a protest book where its last argument
// is `protests`. Where an argument names no sort of book, it prints how the program is used instead.
pub fn explain_standard_input(rt: &HostRuntime) -> io::Result<()> {
    let input = read_input(rt.stdin(), rt.alloc())?;
    // the last argument counts, where each of them names a sort
    let asked = env::args(rt)?
        .skip(1)
        .try_fold(Sort::default(), |_, argument| argument.as_str().parse());
    match asked {
        Ok(Sort::Rules) => explain(rt, &mut Explainer::new(RuleBook::new(), &input)),
        Ok(Sort::Protests) => explain(rt, &mut Explainer::new(ProtestBook::new(), &input)),
        Err(unknown) => println!(rt; "{unknown}"),
    }
}

// Prints a line for each record that is left.
fn explain<B: Book + Sorted>(rt: &HostRuntime, explainer: &mut Explainer<B>) -> io::Result<()>
    ensures input { explainer.new.input.now ≡ explainer.old.input.now }
    ensures to_the_end { IfOk result (λ _. drop explainer.new.place explainer.new.input.now ≡ []) }
{
    'lines: while let Some(line) = explainer.next_line(rt.alloc())? {
        println!(rt; "{line}")?;
    }
    Ok(())
}
