// A small protest book.
use crate::say;
use books::{Book, Entry, ProtestBook};
use marker::Marker;
use std::io;
use telling::{Outcome, Title, enter, judged, read};

// 0, 1 and 2 are lodged; 0 protests 1, and 1 protests 2.
pub(crate) fn judge(rt: &impl Print) -> io::Result<()> {
    rt.println(Title("A book of protests: 0 protests 1, 1 protests 2"))?;
    let mut marker = Marker::new(ProtestBook::new());
    say(rt, Outcome("open a book of 3 points", marker.open(3)))?;
    for entry in [
        Entry::new(0, &[], &[]),
        Entry::new(1, &[], &[0]),
        Entry::new(2, &[], &[1]),
    ] {
        let point = entry.point;
        let lodged = enter(&mut marker, entry);
        say(rt, Outcome(format_args!("{point} is lodged"), lodged))?;
    }
    say(rt, judged(&marker, &[0, 2]))?;
    say(rt, judged(&marker, &[1]))?;
    say(rt, read(&marker))?;
    let entry = Entry::new(2, &[0], &[]);
    say(rt, Outcome(entry, enter(&mut marker, entry)))
}
