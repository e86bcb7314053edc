// The example book by chapters: judged, read and audited.
use crate::say;
use answers::UpwardReading;
use books::RuleBook;
use marker::Marker;
use std::io;
use telling::{Outcome, Title, judged_by_chapter, open_example, placed};

pub(crate) fn judge(rt: &impl Print) -> io::Result<()> {
    rt.println(Title("The example book in three chapters"))?;
    let marker = in_chapters(rt, 1, 2)?;
    rt.println(Title("Judging the same rulings a chapter at a time"))?;
    say(rt, judged_by_chapter(&marker, &[1]))?;
    say(rt, judged_by_chapter(&marker, &[0, 2, 3]))?;
    say(rt, judged_by_chapter(&marker, &[0, 2]))?;
    say(rt, judged_by_chapter(&marker, &[0, 1]))
}

pub(crate) fn read(rt: &impl Print) -> io::Result<()> {
    rt.println(Title("Reading the example book: 0 and 1 strike each other, so nothing is sure"))?;
    let marker = in_chapters(rt, 1, 2)?;
    say(rt, telling::read(&marker))
}

pub(crate) fn audit(rt: &impl Print) -> io::Result<()> {
    rt.println(Title("The chapters of 2 and 3 exchanged: 3 reads 2, now in a higher chapter"))?;
    let marker = in_chapters(rt, 2, 1)?;
    say(rt, telling::read(&marker))?;
    let mut rows = [UpwardReading::default(); 4];
    let count = match marker.audit(&mut rows) {
        Ok(count) => count,
        Err(fault) => return println!(rt; "  {fault}"),
    };
    println!(rt; "  upward readings: {count}")?;
    for UpwardReading { drop, reader, read } in rows.iter().take(count) {
        println!(rt; "  point {reader} reads point {read}, {drop} chapter up")?;
    }
    Ok(())
}

// The example book with points 2 and 3 in the chapters given.
fn in_chapters(rt: &impl Print, of_2: u8, of_3: u8) -> io::Result<Marker<RuleBook>> {
    let mut marker = Marker::new(RuleBook::new());
    say(rt, Outcome("the example book", open_example(&mut marker)))?;
    say(rt, placed(&mut marker, 2, of_2))?;
    say(rt, placed(&mut marker, 3, of_3))?;
    Ok(marker)
}
