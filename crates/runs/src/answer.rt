// What calls answer, as data.
use answers::{ChapterVerdict, UpwardReading, Verdict};
use rulings::Ruling;

// What a call answers where it is not denied.
#[derive(Drop)]
pub enum Answer {
    // a change, or a placing, was done
    Done,
    Verdict(Verdict),
    ChapterVerdict(ChapterVerdict),
    Reading { sure: Ruling, possible: Ruling },
    Listing { rows: Vec<Ruling>, effort: u32 },
    Audit(Vec<UpwardReading>),
}
