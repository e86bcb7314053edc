// Records for a protest book on standard input, replies on standard output.
#![tactic(auto)]

use books::ProtestBook;
use marker::Marker;
use service::serve_through;
use std::io;

fn main(rt: HostRuntime) -> io::Result<()> {
    let mut marker = Marker::new(ProtestBook::new());
    // this writer gives up where it is interrupted again and again
    let stdout = rt.stdout();
    serve_through(
        &mut marker,
        rt.stdin(),
        &mut io::writer(&stdout),
        rt.alloc(),
    )
}
