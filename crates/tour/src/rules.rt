// The example rule book: opened, filled and judged.
use crate::say;
use books::{Book, RuleBook};
use marker::Marker;
use std::io;
use telling::{Outcome, Title, enter, example, judged};

pub(crate) fn judge(rt: &impl Print) -> io::Result<()> {
    rt.println(Title("The example book of four points"))?;
    let mut marker = Marker::new(RuleBook::new());
    say(rt, Outcome("open a book of 4 points", marker.open(4)))?;
    for entry in example() {
        say(rt, Outcome(entry, enter(&mut marker, entry)))?;
    }
    rt.println(Title("Judging rulings by the whole book"))?;
    say(rt, judged(&marker, &[1]))?;
    say(rt, judged(&marker, &[0, 2, 3]))?;
    say(rt, judged(&marker, &[0, 2]))?;
    say(rt, judged(&marker, &[0, 1]))?;
    rt.println(Title("A call that is denied"))?;
    say(rt, Outcome("withdraw point 9", marker.withdraw(9)))
}
