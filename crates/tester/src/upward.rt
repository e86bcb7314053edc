// Upward readings of a small book, by going through all pairs of points.
use crate::small_book::{Case, SmallBook};
use answers::UpwardReading;
use std::alloc::{AllocError, Global};
use std::cmp::Reverse;

// Every upward reading, by larger drop, then smaller reader, then smaller point read.
pub(crate) fn readings<S: SmallBook>(
    heap: Global,
    case: &Case<S>,
) -> Result<Vec<UpwardReading>, AllocError> {
    let size = case.book.size();
    let mut readings: Vec<UpwardReading> = (0..size)
        .flat_map(|reader| (0..size).map(move |read| (reader, read)))
        .filter_map(|(reader, read)| reading(case, reader, read))
        .collect(heap)?;
    readings.sort_by_key(|reading| (Reverse(reading.drop), reading.reader, reading.read))?;
    Ok(readings)
}

fn reading<S: SmallBook>(case: &Case<S>, reader: u8, read: u8) -> Option<UpwardReading> {
    let low = case.placement.chapter(reader);
    let high = case.placement.chapter(read);
    (low < high && case.book.reads(reader).has(read)).then(|| UpwardReading {
        drop: high.wrapping_sub(low),
        reader,
        read,
    })
}
