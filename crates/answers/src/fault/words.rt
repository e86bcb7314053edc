// Faults in words, for people.
use super::{Fault, Layer};
use std::error::Error;
use std::fmt;

impl fmt::Display for Layer {
    fn fmt<W: fmt::Write>(&self, f: &mut fmt::Formatter<W>) -> fmt::Result {
        let name = match *self {
            Layer::Book => "the book",
            Layer::Marker => "the marker",
            Layer::Reader => "the reader",
        };
        write!(f, "{name}")
    }
}

impl fmt::Display for Fault {
    fn fmt<W: fmt::Write>(&self, f: &mut fmt::Formatter<W>) -> fmt::Result {
        let layer = self.layer;
        let number = self.number();
        let word = self.word();
        match self.places() {
            (Some(a), Some(b)) => write!(
                f,
                "denied by {layer}: {word}, {a} and {b} (refusal {number})"
            ),
            (Some(a), None) => write!(f, "denied by {layer}: {word}, {a} (refusal {number})"),
            _ => write!(f, "denied by {layer}: {word} (refusal {number})"),
        }
    }
}

impl Error for Fault {}
