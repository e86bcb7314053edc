// A listing at the ceiling of effort, over a full rule book: what the benchmark times.
#![tactic(auto)]

use answers::{Fault, Listing};
use books::{Book, RuleBook};
use marker::Marker;
use rulings::Ruling;
use std::io;
use std::ops::Range;

fn main(rt: HostRuntime) -> io::Result<()> {
    let mut rows = [Ruling::empty(); 64];
    let Listing {
        rows: count,
        effort,
    } = match list(&mut rows) {
        Ok(listing) => listing,
        Err(fault) => return println!(rt; "{fault}"),
    };
    println!(rt; "{count} rulings, effort {effort}")?;
    for row in rows.iter().take(count) {
        println!(rt; "{row}")?;
    }
    Ok(())
}

// Sixteen chapters, 85 points, 256 entries: two points without entries, three pairs that strike each other, and eleven
// chapters of 12 down to 2 points, each with one stable part over each of the eight ways to settle the pairs.
fn list(rows: &mut [Ruling]) -> Result<Listing, Fault> {
    let mut marker = Marker::new(RuleBook::new());
    marker.open(85)?;
    marker.place(1, 1)?;
    for (a, b, chapter) in [(2, 3, 2), (4, 5, 3), (6, 7, 4)] {
        add_pair(&mut marker, a, b, chapter)?;
    }
    let mut points = 8..85u8;
    for (width, chapter) in (2..13).rev().zip(5..16u8) {
        add_chain(&mut marker, &mut points, width, chapter)?;
    }
    // the same entry may stand many times: these fill the book
    for _ in 0..19u8 {
        marker.enter(8, Ruling::from_points(&[3, 6]), Ruling::empty())?;
    }
    marker.list(rows)
}

fn add_pair(marker: &mut Marker<RuleBook>, a: u8, b: u8, chapter: u8) -> Result<(), Fault> {
    marker.enter(a, Ruling::empty(), Ruling::from_points(&[b]))?;
    marker.enter(b, Ruling::empty(), Ruling::from_points(&[a]))?;
    marker.place(a, chapter)?;
    marker.place(b, chapter)
}

// The next points in a row, each with three entries: if the one before and not 2; if not the one before and not 4; if
// 3 and 6.
fn add_chain(
    marker: &mut Marker<RuleBook>,
    points: &mut Range<u8>,
    width: usize,
    chapter: u8,
) -> Result<(), Fault> {
    let mut before: u8 = 7;
    for point in points.take(width) {
        let last = Ruling::from_points(&[before]);
        marker.enter(point, last, Ruling::from_points(&[2]))?;
        marker.enter(point, Ruling::empty(), Ruling::from_points(&[4, before]))?;
        marker.enter(point, Ruling::from_points(&[3, 6]), Ruling::empty())?;
        marker.place(point, chapter)?;
        before = point;
    }
    Ok(())
}
