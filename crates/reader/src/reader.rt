// The reader: one record a turn.
ghost use Rattle.std.specs.Prelude.{◌≡◌, ℕ, ◌≤◌, List, Option, Ok, length};
ghost use Rattle.reader.specs.Turns.{Turned, TakesRecord, Replied};

use crate::front::{Record, front_of};
use crate::limits::{LONGEST_INPUT, LONGEST_REPLY};
use crate::replies::{carry_out, denial};
use answers::{Fault, Layer, Refusal};
use books::Book;
use marker::Marker;

// An input, and the place in it where the reading is.
#[derive(Drop)]
pub struct Reader<'a> {
    input: &'a [u8],
    place: usize,
}

impl<'a> Reader<'a> {
    pub fn new(input: &'a [u8]) -> Reader<'a>
        ensures input { result.input.now ≡ input.now }
        ensures place { result.place ≡ 0 }
    {
        Reader { input, place: 0 }
    }

    // Does one record on the marker, writes its reply to the front of the buffer, and answers the reply's length;
    // none where no record is left.
    pub fn turn<B: Book>(
        &mut self,
        marker: &mut Marker<B>,
        reply: &mut [u8],
    ) -> Result<Option<usize>, Fault>
        ensures turned { Turned B.Book self.old.input.now self.old.place reply.old marker.old result self.new.place reply.new marker.new }
        ensures input { self.new.input.now ≡ self.old.input.now }
    {
        if self.input.len() > LONGEST_INPUT {
            return Err(Fault::new(Layer::Reader, Refusal::InputTooLong));
        }
        if reply.len() < LONGEST_REPLY {
            return Err(Fault::new(Layer::Reader, Refusal::ReplyTooShort));
        }
        Ok(self.next_reply(marker, reply))
    }

    // Does one record on the marker, writes its reply, and answers the reply's length; none where no record is left.
    // A record that cannot be read puts the reading at its end.
    fn next_reply<B: Book>(&mut self, marker: &mut Marker<B>, reply: &mut [u8]) -> Option<usize>
        requires small { length self.old.input.now ≤ LONGEST_INPUT }
        requires room { LONGEST_REPLY ≤ length reply.old }
        ensures takes { (told : Option (List ℕ)) × TakesRecord B.Book self.old.input.now self.old.place marker.old told self.new.place marker.new × Replied told reply.old (Ok result) reply.new }
        ensures input { self.new.input.now ≡ self.old.input.now }
    {
        let offset = self.place;
        match front_of(self.input, offset) {
            Ok(None) => None,
            Ok(Some(Record { call, length })) => {
                self.place += length;
                Some(match carry_out(marker, call, reply) {
                    Ok(length) => length,
                    Err(fault) => denial(fault, offset, reply),
                })
            }
            Err(why) => {
                self.place = self.input.len();
                Some(denial(Fault::new(Layer::Reader, why.into()), offset, reply))
            }
        }
    }
}
