// Records in, replies out: the entry reader.
#![tactic(auto)]

mod front;
mod kind;
mod laws;
mod limits;
mod mark;
mod reader;
mod replies;
mod reply;
mod serving;
mod unreadable;

pub use front::{Record, front_of};
pub use laws::{records_read_back, replies_determine_answers, streams_keep_the_law};
pub use limits::{LONGEST_INPUT, LONGEST_REPLY};
pub use reader::Reader;
pub use serving::{BothReplies, serve, serve_both};
pub use unreadable::Unreadable;
