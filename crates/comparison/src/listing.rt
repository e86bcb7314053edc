// Every stable ruling of the example book, listed in chapters and in one.
use crate::say;
use books::RuleBook;
use marker::Marker;
use std::io;
use telling::{Outcome, Title, listed, open_example, placed};

pub(crate) fn list(rt: &impl Print) -> io::Result<()> {
    rt.println(Title("Listing every stable ruling of the example book"))?;
    let mut marker = Marker::new(RuleBook::new());
    say(rt, Outcome("the example book", open_example(&mut marker)))?;
    say(rt, listed(&marker))?;
    say(rt, placed(&mut marker, 2, 1))?;
    say(rt, placed(&mut marker, 3, 2))?;
    say(rt, listed(&marker))?;
    println!(rt; "  The rulings are the same whatever the chapters; only the effort is smaller.")
}
