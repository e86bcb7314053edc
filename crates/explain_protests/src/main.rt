// The program `explain` once more: the case that is stored here asks for a protest book, by its argument.
#![tactic(auto)]

use books::{Book, ProtestBook, RuleBook};
use explaining::{Explainer, Sort, Sorted};
use service::read_input;
use std::{env, io};

fn main(rt: HostRuntime) -> io::Result<()> {
    let input = read_input(rt.stdin(), rt.alloc())?;
    // the last argument counts, where each of them names a sort
    let asked = env::args(&rt)?
        .skip(1)
        .try_fold(Sort::default(), |_, argument| argument.as_str().parse());
    match asked {
        Ok(Sort::Rules) => explain(&rt, Explainer::new(RuleBook::new(), &input)),
        Ok(Sort::Protests) => explain(&rt, Explainer::new(ProtestBook::new(), &input)),
        Err(unknown) => println!(rt; "{unknown}"),
    }
}

fn explain<B: Book + Sorted + Drop>(
    rt: &HostRuntime,
    mut explainer: Explainer<B>,
) -> io::Result<()> {
    'lines: while let Some(line) = explainer.next_line(rt.alloc())? {
        println!(rt; "{line}")?;
    }
    Ok(())
}
