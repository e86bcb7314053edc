// Listings: every stable ruling of the example book, and two books compared by what they list.
#![tactic(auto)]

mod comparing;
mod listing;

use std::{fmt, io};

fn main(rt: HostRuntime) -> io::Result<()> {
    println!(rt; "Listings: every stable ruling of a book, and two books compared by them.")?;
    listing::list(&rt)?;
    comparing::compare_books(&rt)
}

// A line of what came of a call.
fn say(rt: &impl Print, what: impl fmt::Display + Drop) -> io::Result<()> {
    println!(rt; "  {what}")
}
