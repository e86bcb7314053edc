// Calls and answers in words.
use crate::sort::Sort;
use answers::{Fault, UpwardReading};
use rulings::Ruling;
use runs::{Answer, Call};
use std::fmt;
use telling::Rulings;

// What was asked, with a colon behind it.
pub(crate) fn call<W: fmt::Write>(
    f: &mut fmt::Formatter<W>,
    sort: Sort,
    call: Call,
) -> fmt::Result {
    match call {
        Call::Open { size } => write!(f, "open {size}: "),
        Call::Enter { point, p, q } => match sort {
            Sort::Rules => entry(f, point, p, q),
            Sort::Protests => lodging(f, point, p, q),
        },
        Call::Withdraw { point } => write!(f, "withdraw {point}: "),
        Call::Place { point, chapter } => write!(f, "place {point} in chapter {chapter}: "),
        Call::Judge { ruling } => write!(f, "judge {ruling}: "),
        Call::JudgeByChapter { ruling } => write!(f, "judge by chapter {ruling}: "),
        Call::Read => write!(f, "read: "),
        Call::List { .. } => write!(f, "list: "),
        Call::Audit { .. } => write!(f, "audit: "),
    }
}

// As in `enter 3 if 2 and not 1`.
fn entry<W: fmt::Write>(f: &mut fmt::Formatter<W>, point: u8, p: Ruling, q: Ruling) -> fmt::Result {
    write!(f, "enter {point}")?;
    let joint = conditions(f, " if", p, "")?;
    conditions(f, joint, q, " not")?;
    write!(f, ": ")
}

// Says conditions, one for each point, the first behind a joint; answers the joint of the next.
fn conditions<W: fmt::Write>(
    f: &mut fmt::Formatter<W>,
    joint: &'static str,
    points: Ruling,
    not: &str,
) -> Result<&'static str, fmt::Error> {
    let mut joint = joint;
    for point in points.points() {
        write!(f, "{joint}{not} {point}")?;
        joint = " and";
    }
    Ok(joint)
}

// As in `lodge 2, protested by {1}`.
fn lodging<W: fmt::Write>(
    f: &mut fmt::Formatter<W>,
    point: u8,
    p: Ruling,
    q: Ruling,
) -> fmt::Result {
    write!(f, "lodge {point}, protested by {q}")?;
    if p.first_from(0).is_some() {
        write!(f, ", supported by {p}")?;
    }
    write!(f, ": ")
}

// What was answered.
pub(crate) fn answer<W: fmt::Write>(
    f: &mut fmt::Formatter<W>,
    answer: &Result<Answer, Fault>,
) -> fmt::Result {
    match answer {
        Ok(Answer::Done) => write!(f, "done"),
        Ok(Answer::Verdict(verdict)) => write!(f, "{verdict}"),
        Ok(Answer::ChapterVerdict(judged)) => {
            let verdict = judged.verdict();
            match judged.chapter() {
                None => write!(f, "{verdict}"),
                Some(chapter) => write!(f, "{verdict}, in chapter {chapter}"),
            }
        }
        Ok(Answer::Reading { sure, possible }) => write!(f, "sure {sure}, possible {possible}"),
        Ok(Answer::Listing { rows, effort }) => listing(f, rows, *effort),
        Ok(Answer::Audit(rows)) => audit(f, rows),
        Err(fault) => write!(f, "{fault}"),
    }
}

// As in `2 rulings, effort 12: {1} {0, 2, 3}`.
fn listing<W: fmt::Write>(f: &mut fmt::Formatter<W>, rows: &[Ruling], effort: u32) -> fmt::Result {
    count(f, rows.len(), "ruling")?;
    let rulings = Rulings(rows);
    write!(f, ", effort {effort}:{rulings}")
}

// As in `1 upward reading: point 0 reads point 1, 1 up`.
fn audit<W: fmt::Write>(f: &mut fmt::Formatter<W>, rows: &[UpwardReading]) -> fmt::Result {
    count(f, rows.len(), "upward reading")?;
    let mut joint = ":";
    for UpwardReading { drop, reader, read } in rows {
        write!(f, "{joint} point {reader} reads point {read}, {drop} up")?;
        joint = ";";
    }
    Ok(())
}

// So many of something, with an `s` where it is not one.
fn count<W: fmt::Write>(f: &mut fmt::Formatter<W>, number: usize, noun: &str) -> fmt::Result {
    let ending = if number == 1 { "" } else { "s" };
    write!(f, "{number} {noun}{ending}")
}
