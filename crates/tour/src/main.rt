// A tour of the marker: works small books and says in words what came of each call.
#![tactic(auto)]

mod by_chapters;
mod protests;
mod rules;

use std::{fmt, io};

fn main(rt: HostRuntime) -> io::Result<()> {
    println!(rt; "The marker judges rulings by a book: is a set of points a stable model of it?")?;
    rules::judge(&rt)?;
    by_chapters::judge(&rt)?;
    by_chapters::read(&rt)?;
    protests::judge(&rt)?;
    by_chapters::audit(&rt)
}

// A line of what came of a call.
fn say(rt: &impl Print, what: impl fmt::Display + Drop) -> io::Result<()> {
    println!(rt; "  {what}")
}
