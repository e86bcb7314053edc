// Calls and their answers in words.
use crate::masks::Mask;
use crate::whole::Model;
use answers::{ChapterVerdict, Fault, UpwardReading, Verdict};
use rulings::Ruling;
use std::alloc::{AllocError, Global};
use std::fmt;

// What is compared.
#[derive(Clone, Copy)]
pub(crate) enum Call {
    Fill,
    Judge(Mask),
    JudgeByChapter(Mask),
    // whether a ruling is stable in every chapter, beside whether it is stable in the book read whole
    Split(Mask),
    Read,
    Rows { of: RowsOf, lent: usize },
    Row { of: RowsOf, lent: usize, row: usize },
    // whether the rows from one on stay as found
    Later { of: RowsOf, lent: usize, row: usize },
    StableExtension(Mask),
    GroundedExtension,
}

// What writes into rows that it is lent.
#[derive(Clone, Copy)]
pub(crate) enum RowsOf {
    Listing,
    Audit,
}

// What a call answers, or what the definitions say that it is to answer.
pub(crate) type Answer = Result<Said, Fault>;

// An answer that is no denial. Where there is no such verdict, model or set, the book breaks its laws.
#[derive(Clone, Copy, PartialEq, Eq)]
pub(crate) enum Said {
    Done,
    Judged(Option<Verdict>),
    JudgedByChapter(Option<ChapterVerdict>),
    Reading(Option<Model<Ruling>>),
    Listing { rows: usize, effort: usize },
    Audited(usize),
    Row(Ruling),
    AuditRow(UpwardReading),
    Set(Option<Mask>),
    Holds(bool),
}

pub(crate) fn words(answer: Answer, heap: Global) -> Result<String, AllocError> {
    match answer {
        Ok(said) => format!(in heap; "{said}"),
        Err(fault) => format!(in heap; "{fault}"),
    }
}

impl fmt::Display for Call {
    fn fmt<W: fmt::Write>(&self, f: &mut fmt::Formatter<W>) -> fmt::Result {
        match *self {
            Call::Fill => write!(f, "filling a marker"),
            Call::Judge(set) => write!(f, "judging {set}"),
            Call::JudgeByChapter(set) => write!(f, "judging {set} by chapter"),
            Call::Split(set) => write!(f, "whether {set} is stable, whole and by chapter"),
            Call::Read => write!(f, "reading"),
            Call::Rows {
                of: RowsOf::Listing,
                lent,
            } => write!(f, "listing into {lent} rows"),
            Call::Rows {
                of: RowsOf::Audit,
                lent,
            } => write!(f, "auditing into {lent} rows"),
            Call::Row { of, lent, row } => write!(f, "row {row} of {of} into {lent} rows"),
            Call::Later { of, lent, row } => {
                write!(
                    f,
                    "whether {of} into {lent} rows leaves those from {row} on"
                )
            }
            Call::StableExtension(set) => write!(f, "whether {set} is a stable extension"),
            Call::GroundedExtension => write!(f, "the grounded extension"),
        }
    }
}

impl fmt::Display for RowsOf {
    fn fmt<W: fmt::Write>(&self, f: &mut fmt::Formatter<W>) -> fmt::Result {
        match self {
            RowsOf::Listing => write!(f, "a listing"),
            RowsOf::Audit => write!(f, "an audit"),
        }
    }
}

impl fmt::Display for Said {
    fn fmt<W: fmt::Write>(&self, f: &mut fmt::Formatter<W>) -> fmt::Result {
        match *self {
            Said::Done => write!(f, "done"),
            Said::Judged(None) | Said::JudgedByChapter(None) => write!(f, "without a closure"),
            Said::Judged(Some(verdict)) => write!(f, "{verdict}"),
            Said::JudgedByChapter(Some(judged)) => write_by_chapter(f, judged),
            Said::Reading(Some(Model { sure, possible })) => {
                write!(f, "sure {sure}, possible {possible}")
            }
            Said::Listing { rows, effort } => write!(f, "{rows} rulings, effort {effort}"),
            Said::Audited(rows) => write!(f, "{rows} upward readings"),
            Said::Row(row) => write!(f, "{row}"),
            Said::AuditRow(UpwardReading { drop, reader, read }) => {
                write!(f, "drop {drop}, {reader} reads {read}")
            }
            Said::Set(Some(set)) => write!(f, "{set}"),
            Said::Reading(None) | Said::Set(None) => write!(f, "none"),
            Said::Holds(holds) => write!(f, "{holds}"),
        }
    }
}

fn write_by_chapter<W: fmt::Write>(
    f: &mut fmt::Formatter<W>,
    judged: ChapterVerdict,
) -> fmt::Result {
    let verdict = judged.verdict();
    match judged.chapter() {
        None => write!(f, "{verdict} in every chapter"),
        Some(chapter) => write!(f, "{verdict} in chapter {chapter}"),
    }
}
