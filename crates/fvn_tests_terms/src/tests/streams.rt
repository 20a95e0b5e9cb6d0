//! Runs over sources and sinks, with each read and each write failing in turn.
ghost use Rattle.std.specs.Prelude.{◌<◌, ◌^◌, length};

use fvn_outside::*;
use std::alloc::Global;
use std::io;
use std::io::{ErrorKind, Read, Write};
use std::process::Abort;
use std::test::Fail;

/// Six bytes, which are read and written two at a time.
const TEXT: &[u8; 6] = b"module";

/// A reader and writer that always fails.
#[derive(Drop)]
struct Broken;

impl Read for Broken {
    fn read(&mut self, _: &mut [u8]) -> io::Result<usize> {
        Err(io::Error::from(ErrorKind::Other))
    }
}

impl Write for Broken {
    fn write(&mut self, _: &[u8]) -> io::Result<usize> {
        Err(io::Error::from(ErrorKind::Other))
    }

    fn flush(&mut self) -> io::Result<()> {
        Ok(())
    }
}

/// A reader and writer of which every second call is interrupted, from the first on.
#[derive(Drop)]
struct Interrupted<T> {
    inner: T,
    interrupts: bool,
}

impl<T> Interrupted<T> {
    // Whether this call is interrupted.
    fn next_interrupts(&mut self) -> bool {
        self.interrupts = !self.interrupts;
        self.interrupts
    }
}

impl<R: Read> Read for Interrupted<R> {
    fn read(&mut self, buffer: &mut [u8]) -> io::Result<usize> {
        if self.next_interrupts() {
            return Err(io::Error::from(ErrorKind::Interrupted));
        }
        self.inner.read(buffer)
    }
}

impl<W: Write> Write for Interrupted<W> {
    fn write(&mut self, bytes: &[u8]) -> io::Result<usize> {
        if self.next_interrupts() {
            return Err(io::Error::from(ErrorKind::Interrupted));
        }
        self.inner.write(bytes)
    }

    fn flush(&mut self) -> io::Result<()> {
        self.inner.flush()
    }
}

/// A text of this many bytes, of which neighbours differ.
fn long_text(alloc: Global, length: usize) -> Result<Vec<u8>, Fail> {
    let mut text = Vec::new(alloc);
    for place in 0..length {
        text.push((place % 251) as u8)?;
    }
    Ok(text)
}

// The text through a reader of which every second call is interrupted.
fn assert_read(rt: &impl Abort, alloc: Global, text: &[u8]) -> Result<(), Fail>
    requires { length text.now < 2 ^ 31 }
{
    let mut source = StdSource::new(Interrupted {
        inner: text,
        interrupts: false,
    });
    let read = read_all(alloc, &mut source, text.len())?;
    assert!(rt; read.as_slice() == text, "read");
    Ok(())
}

// The text through a writer of which every second call is interrupted.
fn assert_written(rt: &impl Abort, alloc: Global, text: &[u8]) {
    let mut written = Vec::new(alloc);
    let mut sink = StdSink::new(Interrupted {
        inner: &mut written,
        interrupts: false,
    });
    assert!(rt; write_all(&mut sink, text).is_ok());
    assert!(rt; written.as_slice() == text, "written");
}

// The text as a source in memory gives it, 4,096 bytes at a time.
fn read_memory(alloc: Global, text: &[u8]) -> Result<Vec<u8>, Fail>
    requires { length text.now < 2 ^ 31 }
{
    let mut source = MemSource::new(text.to_vec(alloc)?, 4_096, Vec::new(alloc));
    let read = read_all(alloc, &mut source, text.len())?;
    Ok(read)
}

// The text into a sink in memory that takes 4,096 bytes at a time.
fn assert_kept(rt: &impl Abort, alloc: Global, text: &[u8], read: &[u8]) -> Result<(), Fail> {
    let mut sink = MemSink::new(alloc, text.len(), 4_096, Vec::new(alloc))?;
    assert!(rt; write_all(&mut sink, read).is_ok());
    assert!(rt; sink.written() == text, "kept");
    Ok(())
}

// The text through all sources and sinks.
fn assert_whole(rt: &impl Abort, alloc: Global, text: &[u8]) -> Result<(), Fail> {
    assert!(rt; text.len() <= 1_048_576);
    assert_read(rt, alloc, text)?;
    assert_written(rt, alloc, text);
    let read = read_memory(alloc, text)?;
    assert_kept(rt, alloc, text, &read)
}

// The same of a text of this length.
fn assert_long(rt: &impl Abort, alloc: Global, length: usize) -> Result<(), Fail> {
    let text = long_text(alloc, length)?;
    assert_eq!(rt; text.len(), length);
    assert_whole(rt, alloc, &text)
}

#[test]
fn long_texts_go_through_whole(rt: HostRuntime) -> Result<(), Fail> {
    for length in [0usize, 1, 4_095, 4_096, 4_097, 1_048_576] {
        assert_long(&rt, rt.alloc(), length)?;
    }
    Ok(())
}

// The six bytes as a source that gives so many at a time, and of which these calls fail.
fn six(alloc: Global, piece: usize, failing: &[u64]) -> Result<MemSource, Fail>
    requires { 0 < piece }
{
    let bytes = TEXT.to_vec(alloc)?;
    Ok(MemSource::new(bytes, piece, failing.to_vec(alloc)?))
}

// What comes of reading up to a limit, in words.
fn outcome<S: Source>(alloc: Global, source: &mut S, limit: usize) -> &'static str
    requires { limit < 2 ^ 31 }
{
    match read_all(alloc, source, limit) {
        Ok(_) => "read",
        Err(ReadAll::TooLong) => "too long",
        Err(ReadAll::Fault) => "fault",
        Err(ReadAll::NoMemory) => "no memory",
    }
}

// What comes of reading six bytes is what is wanted.
fn assert_outcome(
    rt: &impl Abort,
    alloc: Global,
    piece: usize,
    limit: usize,
    want: &str,
) -> Result<(), Fail> {
    assert!(rt; 0 < piece && limit < 10);
    let mut source = six(alloc, piece, &[])?;
    assert_eq!(rt; outcome(alloc, &mut source, limit), want);
    Ok(())
}

// Six bytes are read.
fn assert_six(rt: &impl Abort, alloc: Global, piece: usize, limit: usize) -> Result<(), Fail> {
    assert!(rt; 0 < piece && limit < 10);
    let mut source = six(alloc, piece, &[])?;
    let read = read_all(alloc, &mut source, limit)?;
    assert_eq!(rt; read.as_slice(), TEXT.as_slice());
    Ok(())
}

#[test]
fn all_is_read_up_to_the_limit(rt: HostRuntime) -> Result<(), Fail> {
    for (piece, limit) in [(1, 6), (4, 7), (9, 6)] {
        assert_six(&rt, rt.alloc(), piece, limit)?;
    }
    Ok(())
}

#[test]
fn no_more_is_read_than_the_limit(rt: HostRuntime) -> Result<(), Fail> {
    for (piece, limit) in [(1, 5), (9, 5), (2, 0)] {
        assert_outcome(&rt, rt.alloc(), piece, limit, "too long")?;
    }
    Ok(())
}

// What was not taken when this read failed is still there.
fn assert_rest(rt: &impl Abort, alloc: Global, failing: u64, rest: &str) -> Result<(), Fail> {
    let mut source = six(alloc, 2, &[failing])?;
    assert_eq!(rt; outcome(alloc, &mut source, 6), "fault", "read {failing}");
    let left = read_all(alloc, &mut source, 6)?;
    assert_eq!(rt; left.as_slice(), rest.as_bytes());
    Ok(())
}

#[test]
fn each_read_fails_in_turn(rt: HostRuntime) -> Result<(), Fail> {
    // Three reads give two bytes each, and a fourth finds the end.
    for (failing, rest) in [(1, "module"), (2, "dule"), (3, "le"), (4, "")] {
        assert_rest(&rt, rt.alloc(), failing, rest)?;
    }
    Ok(())
}

// There is no fifth read that could fail.
#[test]
fn four_reads_are_enough(rt: HostRuntime) -> Result<(), Fail> {
    let alloc = rt.alloc();
    let mut source = six(alloc, 2, &[5])?;
    let read = read_all(alloc, &mut source, 6)?;
    assert_eq!(rt; read.as_slice(), TEXT.as_slice());
    Ok(())
}

// What is in the sink when this write failed, and whether the whole text is.
fn assert_front(
    rt: &impl Abort,
    alloc: Global,
    failing: u64,
    ok: bool,
    written: &str,
) -> Result<(), Fail> {
    let mut sink = MemSink::new(alloc, 6, 2, [failing].to_vec(alloc)?)?;
    assert_eq!(rt; write_all(&mut sink, TEXT).is_ok(), ok);
    assert_eq!(rt; sink.written(), written.as_bytes());
    Ok(())
}

#[test]
fn each_write_fails_in_turn(rt: HostRuntime) -> Result<(), Fail> {
    // Three writes take two bytes each.
    for (failing, written) in [(1, ""), (2, "mo"), (3, "modu"), (4, "module")] {
        assert_front(&rt, rt.alloc(), failing, failing == 4, written)?;
    }
    Ok(())
}

#[test]
fn a_sink_takes_no_more_than_its_room(rt: HostRuntime) -> Result<(), Fail> {
    let mut sink = MemSink::new(rt.alloc(), 5, 2, Vec::new(rt.alloc()))?;
    assert!(rt; write_all(&mut sink, TEXT).is_err());
    assert_eq!(rt; sink.written(), b"modul".as_slice());
    Ok(())
}

#[test]
fn what_is_sure_never_fails(rt: HostRuntime) -> Result<(), Fail> {
    let mut source = SureSource::new(TEXT.to_vec(rt.alloc())?);
    let read = read_all(rt.alloc(), &mut source, 6)?;
    assert_eq!(rt; read.as_slice(), TEXT.as_slice());
    let mut sink = SureSink::new();
    assert!(rt; write_all(&mut sink, &read).is_ok());
    Ok(())
}

#[test]
fn a_reader_is_a_source(rt: HostRuntime) -> Result<(), Fail> {
    let read = read_all(rt.alloc(), &mut StdSource::new(TEXT.as_slice()), 6)?;
    assert_eq!(rt; read.as_slice(), TEXT.as_slice());
    Ok(())
}

#[test]
fn a_broken_reader_is_a_source_that_fails(rt: HostRuntime) {
    assert_eq!(rt;
        outcome(rt.alloc(), &mut StdSource::new(Broken), 6),
        "fault"
    );
}

#[test]
fn a_writer_is_a_sink(rt: HostRuntime) {
    let mut written = Vec::new(rt.alloc());
    assert!(rt; write_all(&mut StdSink::new(&mut written), TEXT).is_ok());
    assert_eq!(rt; written.as_slice(), TEXT.as_slice());
}

#[test]
fn a_broken_writer_is_a_sink_that_fails(rt: HostRuntime) {
    assert!(rt; write_all(&mut StdSink::new(Broken), TEXT).is_err());
}

#[test]
fn a_slice_is_a_sink_with_room(rt: HostRuntime) {
    let mut room = [0u8; 5];
    assert!(rt; write_all(&mut StdSink::new(room.as_mut_slice()), TEXT).is_err());
    assert_eq!(rt; room.as_slice(), b"modul".as_slice());
}
