// What the tester prints of a family, and of all of them.
use crate::tally::{Counts, Tally};
use std::{fmt, io};

// The family, the first differences found in it, and its counts.
pub(crate) fn report_family(rt: &HostRuntime, family: &str, tally: &Tally) -> io::Result<()> {
    println!(rt; "{family}")?;
    for difference in tally.told() {
        println!(rt; "  difference: {difference}")?;
    }
    let counts = tally.counts();
    println!(rt; "  {counts}")
}

pub(crate) fn report_all(rt: &HostRuntime, counts: Counts) -> io::Result<()> {
    println!(rt; "All together: {counts}")
}

impl fmt::Display for Counts {
    fn fmt<W: fmt::Write>(&self, f: &mut fmt::Formatter<W>) -> fmt::Result {
        let Counts {
            books,
            cases,
            fitting,
            rulings,
            listed,
            comparisons,
            differences,
        } = *self;
        write!(
            f,
            "{books} books in {cases} placements, of which {fitting} fit; "
        )?;
        write!(
            f,
            "{rulings} rulings judged, {listed} listed; {comparisons} comparisons, "
        )?;
        match differences {
            0 => write!(f, "no difference"),
            1 => write!(f, "1 difference"),
            _ => write!(f, "{differences} differences"),
        }
    }
}
