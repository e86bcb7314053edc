// What a program does that serves records: the bytes of a reader in, the replies out to a writer.
#![tactic(auto)]

ghost use Rattle.std.specs.Prelude.{◌≡◌, ◌+◌, take, IfOk, IfSome, MatchResult};
ghost use Rattle.service.specs.Serving.{ServedThrough, ServedInPart};

use books::Book;
use marker::Marker;
use reader::{LONGEST_INPUT, serve};
use std::alloc::Global;
use std::io;
use std::io::{Read, Write};

// Reads all records, does them on the marker, and then writes all replies.
// Nothing is written before that, so a program that runs out of memory, or cannot read, has printed nothing.
pub fn serve_through<B: Book, R: Read + Drop, W: Write>(
    marker: &mut Marker<B>,
    reader: R,
    writer: &mut W,
    heap: Global,
) -> io::Result<()>
    ensures { MatchResult result (λ _. ServedThrough B.Book marker.old (R.remaining reader) (W.contents writer.old) (W.contents writer.new) marker.new) (λ _. ServedInPart B.Book marker.old (R.remaining reader) (W.contents writer.old) (W.contents writer.new) marker.new) }
{
    let input = read_input(reader, heap)?;
    let replies = serve(marker, &input, heap)?;
    writer.write_all(&replies)
}

// What a reader has left, as far as the first byte past what is served: enough to know that it is too long.
pub fn read_input<R: Read + Drop>(reader: R, heap: Global) -> io::Result<Vec<u8>>
    ensures { IfOk result (λ v. IfSome (R.remaining reader) (λ xs. v.items ≡ take (LONGEST_INPUT + 1) xs)) }
{
    let mut input = Vec::new(heap);
    reader
        .take(LONGEST_INPUT as u64 + 1)
        .read_to_end(&mut input)?;
    Ok(input)
}
