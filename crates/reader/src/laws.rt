// Theorems about records, replies and streams.
ghost use Rattle.reader.specs.Records.{ReadsSomeWay, ReadOneWay, RecordsReadBack};
ghost use Rattle.reader.specs.Replies.{ReplyDetermines};
ghost use Rattle.reader.specs.StreamLaw.{LawOfAllStreams};

use books::Book;

// Every input reads in one way, and the records of any calls read as those calls.
pub fn records_read_back()
    ensures some { ReadsSomeWay }
    ensures one { ReadOneWay }
    ensures back { RecordsReadBack }
{}

// A reply determines the answer that it encodes.
pub fn replies_determine_answers()
    ensures { ReplyDetermines }
{}

// The law holds of any two streams, on markers over any two books.
pub fn streams_keep_the_law<B: Book, C: Book>(_one: &B, _other: &C)
    ensures { LawOfAllStreams B.Book C.Book }
{}
