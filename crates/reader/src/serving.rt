// All records of an input, one after another; of two inputs, side by side.
ghost use Rattle.std.specs.Prelude.{MatchResult};
ghost use Rattle.reader.specs.Streams.{ServedSoFar};
ghost use Rattle.reader.specs.StreamLaw.{Served, ServedBoth, ServedBothSoFar};

use crate::limits::LONGEST_REPLY;
use crate::reader::Reader;
use crate::replies::denial;
use books::Book;
use marker::Marker;
use std::alloc::{AllocError, Global};

// Does every record of the input on the marker, and answers all replies. Where memory runs out, the marker stands at the
// end of a history of the first calls.
pub fn serve<B: Book>(
    marker: &mut Marker<B>,
    input: &[u8],
    heap: Global,
) -> Result<Vec<u8>, AllocError>
    ensures { MatchResult result (λ v. Served B.Book marker.old input.now v.items marker.new) (λ _. ServedSoFar B.Book marker.old input.now marker.new) }
{
    let mut replies = Vec::new(heap);
    let mut reader = Reader::new(input);
    let mut reply = [0u8; LONGEST_REPLY];
    loop {
        match reader.turn(marker, &mut reply) {
            Ok(Some(length)) => replies.extend_from_slice(&reply[..length])?,
            Ok(None) => return Ok(replies),
            // the buffer is long enough, so the input is too long
            Err(fault) => {
                let length = denial(fault, 0, &mut reply);
                replies.extend_from_slice(&reply[..length])?;
                return Ok(replies);
            }
        }
    }
}

// The replies to two inputs.
#[derive(Drop)]
pub struct BothReplies {
    pub first: Vec<u8>,
    pub second: Vec<u8>,
}

// Serves two inputs, on two markers over any two books. The law holds of the two streams: what is denied, listed, read
// and judged in them is what the books, read whole at those moments, mean; so two listings, effort aside, are equal
// exactly when their books have the same stable rulings. Where memory runs out, both markers stand at the ends of
// histories of the first calls.
pub fn serve_both<B: Book, C: Book>(
    first: &mut Marker<B>,
    input: &[u8],
    second: &mut Marker<C>,
    other: &[u8],
    heap: Global,
) -> Result<BothReplies, AllocError>
    ensures { MatchResult result (λ v. ServedBoth B.Book first.old input.now v.first.items first.new C.Book second.old other.now v.second.items second.new) (λ _. ServedBothSoFar B.Book first.old input.now first.new C.Book second.old other.now second.new) }
{
    let replies = serve(first, input, heap)?;
    let others = serve(second, other, heap)?;
    Ok(BothReplies {
        first: replies,
        second: others,
    })
}
