// What is shown, and in which words.
use crate::asking::{ChapterJudgement, Judgement, ListedRulings, Reading};
use crate::placing::Placing;
use answers::Fault;
use rulings::Ruling;
use std::fmt;

// A title, below an empty line.
#[derive(Clone, Copy)]
pub struct Title<'a>(pub &'a str);

impl fmt::Display for Title<'_> {
    fn fmt<W: fmt::Write>(&self, f: &mut fmt::Formatter<W>) -> fmt::Result {
        let title = self.0;
        write!(f, "\n{title}")
    }
}

// A change, and whether it was done or denied.
#[derive(Drop)]
pub struct Outcome<C>(pub C, pub Result<(), Fault>);

impl<C: fmt::Display> fmt::Display for Outcome<C> {
    fn fmt<W: fmt::Write>(&self, f: &mut fmt::Formatter<W>) -> fmt::Result {
        let Outcome(change, outcome) = self;
        match outcome {
            Ok(()) => write!(f, "{change}: done"),
            Err(fault) => write!(f, "{change}: {fault}"),
        }
    }
}

impl fmt::Display for Placing {
    fn fmt<W: fmt::Write>(&self, f: &mut fmt::Formatter<W>) -> fmt::Result {
        let Placing {
            point,
            chapter,
            outcome,
        } = *self;
        let change = format_args!("point {point} goes to chapter {chapter}");
        let placed = Outcome(change, outcome);
        write!(f, "{placed}")
    }
}

impl fmt::Display for Judgement {
    fn fmt<W: fmt::Write>(&self, f: &mut fmt::Formatter<W>) -> fmt::Result {
        let ruling = self.ruling;
        match self.outcome {
            Ok(verdict) => write!(f, "{ruling} is {verdict}"),
            Err(fault) => write!(f, "{ruling} is {fault}"),
        }
    }
}

impl fmt::Display for ChapterJudgement {
    fn fmt<W: fmt::Write>(&self, f: &mut fmt::Formatter<W>) -> fmt::Result {
        let ruling = self.ruling;
        let judged = match self.outcome {
            Ok(judged) => judged,
            Err(fault) => return write!(f, "{ruling} is {fault}"),
        };
        let verdict = judged.verdict();
        match judged.chapter() {
            None => write!(f, "{ruling} is {verdict} in every chapter"),
            Some(chapter) => write!(f, "{ruling} is {verdict}, in chapter {chapter}"),
        }
    }
}

impl fmt::Display for Reading {
    fn fmt<W: fmt::Write>(&self, f: &mut fmt::Formatter<W>) -> fmt::Result {
        let Reading {
            outcome,
            sure,
            possible,
        } = *self;
        match outcome {
            Ok(()) => write!(f, "sure: {sure}; possible: {possible}"),
            Err(fault) => write!(f, "{fault}"),
        }
    }
}

// The rulings, their number and the effort.
impl fmt::Display for ListedRulings {
    fn fmt<W: fmt::Write>(&self, f: &mut fmt::Formatter<W>) -> fmt::Result {
        let listing = match self.outcome {
            Ok(listing) => listing,
            Err(fault) => return write!(f, "{fault}"),
        };
        let (count, effort) = (listing.rows, listing.effort);
        let rulings = Rulings(self.rows.get(..count).unwrap_or(&[]));
        write!(f, "{count} rulings, effort {effort}:{rulings}")
    }
}

// Rulings, one behind the other, each behind a space.
#[derive(Clone, Copy)]
pub struct Rulings<'a>(pub &'a [Ruling]);

impl fmt::Display for Rulings<'_> {
    fn fmt<W: fmt::Write>(&self, f: &mut fmt::Formatter<W>) -> fmt::Result {
        for ruling in self.0 {
            write!(f, " {ruling}")?;
        }
        Ok(())
    }
}
