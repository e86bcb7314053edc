// Verdicts in words, for people.
use super::Verdict;
use std::fmt;

impl fmt::Display for Verdict {
    fn fmt<W: fmt::Write>(&self, f: &mut fmt::Formatter<W>) -> fmt::Result {
        match *self {
            Verdict::Stable => write!(f, "stable"),
            Verdict::Unfounded(a) => write!(f, "unfounded at point {a}"),
            Verdict::Missing(a) => write!(f, "missing point {a}"),
        }
    }
}
