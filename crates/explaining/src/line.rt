// A line of an explanation.
use crate::say;
use crate::sort::Sort;
use answers::{Fault, Layer, Refusal};
use reader::Unreadable;
use runs::{Answer, Call};
use std::fmt;

#[derive(Drop)]
pub enum Line {
    // the input is too long
    TooLong,
    // what a record asked of a book of this sort, and what was answered
    Answered {
        sort: Sort,
        call: Call,
        answer: Result<Answer, Fault>,
    },
    // what stands at this place cannot be read
    Stopped {
        place: usize,
        why: Unreadable,
    },
}

impl fmt::Display for Line {
    fn fmt<W: fmt::Write>(&self, f: &mut fmt::Formatter<W>) -> fmt::Result {
        match self {
            Line::TooLong => {
                let fault = Fault::new(Layer::Reader, Refusal::InputTooLong);
                write!(f, "{fault}")
            }
            Line::Answered { sort, call, answer } => {
                say::call(f, *sort, *call)?;
                say::answer(f, answer)
            }
            Line::Stopped { place, why } => {
                let fault = Fault::new(Layer::Reader, (*why).into());
                write!(f, "record at byte {place}: {fault}")
            }
        }
    }
}
