// Doing records one after another, each told as a line.
ghost use Rattle.std.specs.Prelude.{◌≡◌, ◌<◌, ◌≤◌, length, IfOk, IfSome, MatchResult};
ghost use Rattle.marker.specs.State.{book_of, chapters_of};
ghost use Rattle.chapters.specs.Table.{AllInChapter0};
ghost use Rattle.explaining.specs.Lines.{TakesLine, BreaksOff};

use crate::line::Line;
use crate::sort::Sorted;
use books::Book;
use marker::Marker;
use reader::{LONGEST_INPUT, Record, front_of};
use runs::replay;
use std::alloc::{AllocError, Global};

// A marker, an input, and the place in it where the explaining is.
#[derive(Drop)]
pub struct Explainer<'a, B> {
    marker: Marker<B>,
    input: &'a [u8],
    place: usize,
}

impl<'a, B: Book + Sorted> Explainer<'a, B> {
    // A new marker over the book, at the start of the input.
    pub fn new(book: B, input: &'a [u8]) -> Explainer<'a, B>
        ensures holds { book_of result.marker ≡ book }
        ensures fresh { AllInChapter0 (chapters_of result.marker) }
        ensures input { result.input.now ≡ input.now }
        ensures place { result.place ≡ 0 }
    {
        Explainer {
            marker: Marker::new(book),
            input,
            place: 0,
        }
    }

    // Does one record on the marker, and tells it; none where no record is left.
    // What cannot be read, and an input that is too long, put the explaining at its end.
    pub fn next_line(&mut self, heap: Global) -> Result<Option<Line>, AllocError>
        ensures takes { MatchResult result (λ line. TakesLine B.Book B.of_sort self.old.input.now self.old.place self.old.marker line self.new.place self.new.marker) (λ _. BreaksOff B.Book self.old.input.now self.old.place self.old.marker self.new.place self.new.marker) }
        ensures input { self.new.input.now ≡ self.old.input.now }
        ensures nearer { IfOk result (λ line. IfSome line (λ _. (self.old.place < self.new.place) × (self.new.place ≤ length self.new.input.now))) }
    {
        let place = self.place;
        if self.input.len() > LONGEST_INPUT && place < self.input.len() {
            self.place = self.input.len();
            return Ok(Some(Line::TooLong));
        }
        match front_of(self.input, place) {
            Ok(None) => Ok(None),
            Ok(Some(Record { call, length })) => {
                let mut answers = replay(&mut self.marker, &[call], heap)?;
                self.place += length;
                Ok(Some(Line::Answered {
                    sort: B::sort(),
                    call,
                    answer: answers.remove(0),
                }))
            }
            Err(why) => {
                self.place = self.input.len();
                Ok(Some(Line::Stopped { place, why }))
            }
        }
    }
}
