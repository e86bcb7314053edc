// Serving from a reader to a writer: replies behind what was written, and a reader and a writer that fail.
use books::RuleBook;
use marker::Marker;
use service::serve_through;
use std::io;
use std::io::{ErrorKind, Read, Write};
use std::test::Fail;

// Gives its bytes, and then fails.
#[derive(Drop)]
struct BreaksOff<'a> {
    bytes: &'a [u8],
}

impl Read for BreaksOff<'_> {
    fn read(&mut self, buf: &mut [u8]) -> io::Result<usize> {
        if self.bytes.is_empty() {
            return Err(io::Error::from(ErrorKind::BrokenPipe));
        }
        self.bytes.read(buf)
    }
}

// Takes one byte, and then no more.
#[derive(Drop)]
struct TakesOne {
    taken: Option<u8>,
}

impl Write for TakesOne {
    fn write(&mut self, buf: &[u8]) -> io::Result<usize> {
        match (self.taken, buf.first()) {
            (None, Some(byte)) => {
                self.taken = Some(*byte);
                Ok(1)
            }
            _ => Ok(0),
        }
    }

    fn flush(&mut self) -> io::Result<()> {
        Ok(())
    }
}

#[test]
fn replies_stand_behind_what_was_written(rt: HostRuntime) -> Result<(), Fail> {
    let mut written = Vec::new(rt.alloc());
    written.push(9)?;
    let mut marker = Marker::new(RuleBook::new());
    serve_through(
        &mut marker,
        [1u8, 2, 3, 2].as_slice(),
        &mut written,
        rt.alloc(),
    )?;
    assert_eq!(rt;
        written.as_slice(),
        [9u8, 0x81, 0xFF, 2, 1, 2, 255, 2, 0, 0, 0].as_slice()
    );
    Ok(())
}

#[test]
fn where_reading_fails_nothing_is_written(rt: HostRuntime) -> Result<(), Fail> {
    let mut written = Vec::new(rt.alloc());
    let mut marker = Marker::new(RuleBook::new());
    let reader = BreaksOff { bytes: &[1, 2] };
    let served = serve_through(&mut marker, reader, &mut written, rt.alloc());
    assert_eq!(rt;
        served.err().map(|error| error.kind()),
        Some(ErrorKind::BrokenPipe)
    );
    assert_eq!(rt; written.len(), 0);
    Ok(())
}

#[test]
fn where_writing_fails_that_is_answered(rt: HostRuntime) -> Result<(), Fail> {
    let mut writer = TakesOne { taken: None };
    let mut marker = Marker::new(RuleBook::new());
    let served = serve_through(
        &mut marker,
        [1u8, 2, 1, 3].as_slice(),
        &mut writer,
        rt.alloc(),
    );
    assert_eq!(rt;
        served.err().map(|error| error.kind()),
        Some(ErrorKind::WriteZero)
    );
    assert_eq!(rt; writer.taken, Some(0x81));
    Ok(())
}
