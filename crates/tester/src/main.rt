// The tester: every call of a marker beside the definitions, over families of small books. It shares no code with
// the marker's closures: it decides what is closed, stable, well-founded, fitting and listed by trying every set.
#![tactic(auto)]

mod comparing;
mod definitions;
mod drawing;
mod expected;
mod extensions;
mod families;
mod masks;
mod parts;
mod placements;
mod protest_books;
mod reporting;
mod rule_books;
mod saying;
mod small_book;
mod tables;
mod tally;
mod upward;
mod whole;

use families::{try_drawn, try_every};
use protest_books::SmallProtestBook;
use reporting::{report_all, report_family};
use rule_books::SmallRuleBook;
use std::io;

fn main(rt: HostRuntime) -> io::Result<()> {
    let heap = rt.alloc();
    println!(rt;
        "Every call of a marker beside the definitions, decided by trying every set of points"
    )?;
    let rules = try_every::<SmallRuleBook>(heap)?;
    report_family(
        &rt,
        "Every rule book of 1 to 3 points with at most 2 entries, in every placement in chapters 0 and 1",
        &rules,
    )?;
    let protests = try_every::<SmallProtestBook>(heap)?;
    report_family(
        &rt,
        "Every protest book of 1 to 3 points, in every placement in chapters 0 and 1",
        &protests,
    )?;
    let drawn_rules = try_drawn::<SmallRuleBook>(heap)?;
    report_family(
        &rt,
        "Drawn rule books of 1 to 6 points with at most 12 entries, in drawn placements in chapters 0 to 3",
        &drawn_rules,
    )?;
    let drawn_protests = try_drawn::<SmallProtestBook>(heap)?;
    report_family(
        &rt,
        "Drawn protest books of 1 to 6 points, in drawn placements in chapters 0 to 3",
        &drawn_protests,
    )?;
    let every = rules.counts() + protests.counts();
    let drawn = drawn_rules.counts() + drawn_protests.counts();
    report_all(&rt, every + drawn)
}
