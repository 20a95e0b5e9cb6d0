//! The standard library's readers and writers as sources and sinks.
ghost use Rattle.std.specs.Prelude.{◌≡◌, ◌<◌, ◌≤◌, ◌==◌, None, length, IfOk, OnErr, OnOk, if◌then◌else◌};
ghost use Rattle.std.specs.Io.KnownBytes.{ReadConsumes, WriteAppends};
ghost use Rattle.fvn_outside.specs.Faults.{Rose, next_count};

use crate::failures::{ReadFailed, WriteFailed};
use crate::reading::Source;
use crate::writing::Sink;
use std::io::{ErrorKind, Read, Write};

/// A reader of the standard library as a source, which tells none of its bytes. Each error of the
/// reader is a failed read, but an interruption: then it is asked again.
#[derive(Drop)]
pub struct StdSource<R> {
    reader: R,
    faults: u64,
}

impl<R: Read> StdSource<R> {
    ghost use Rattle.fvn_outside.specs.Standard.{reader_of, read_faults};

    /// The source that reads from this reader.
    pub fn new(reader: R) -> StdSource<R>
        ensures reader { reader_of result ≡ reader }
        ensures faults { read_faults result ≡ 0 }
    {
        StdSource { reader, faults: 0 }
    }

    // A failed read, counted.
    fn failure(&mut self) -> ReadFailed
        ensures reader { reader_of self.new ≡ reader_of self.old }
        ensures counted { read_faults self.new ≡ next_count (read_faults self.old) }
    {
        self.faults = self.faults.saturating_add(1);
        ReadFailed
    }
}

impl<R: Read> Source for StdSource<R> {
    ghost use Rattle.fvn_outside.specs.Standard.{reader_of, read_faults};

    ghost left = { λ _. None };

    ghost faults = { λ s. s.faults };

    fn read(&mut self, buffer: &mut [u8]) -> Result<usize, ReadFailed>
        ensures bound { IfOk result (λ n. n ≤ length buffer.new) }
        ensures fault { OnErr result (Rose (read_faults self.old) (read_faults self.new)) }
        ensures never_falls { read_faults self.old ≤ read_faults self.new }

        // What the reader says of its bytes still holds, and each error is counted.
        ensures bytes { ReadConsumes (R.remaining (reader_of self.old))
            (R.remaining (reader_of self.new)) result buffer.new }
        ensures counted { OnErr result (read_faults self.new ≡ next_count (read_faults self.old)) }
        ensures uncounted { OnOk result (read_faults self.new ≡ read_faults self.old) }
    {
        for _ in 0..u64::MAX {
            match self.reader.read(buffer) {
                Ok(n) => return Ok(n),
                Err(error) if error.kind() == ErrorKind::Interrupted => {}
                Err(_) => return Err(self.failure()),
            }
        }
        Err(self.failure())
    }
}

/// A writer of the standard library as a sink, which tells none of its bytes. Each error of the
/// writer is a failed write, but an interruption: then it is asked again. Nothing is flushed.
#[derive(Drop)]
pub struct StdSink<W> {
    writer: W,
    faults: u64,
}

impl<W: Write> StdSink<W> {
    ghost use Rattle.fvn_outside.specs.Standard.{writer_of, write_faults};

    /// The sink that writes to this writer.
    pub fn new(writer: W) -> StdSink<W>
        ensures writer { writer_of result ≡ writer }
        ensures faults { write_faults result ≡ 0 }
    {
        StdSink { writer, faults: 0 }
    }

    // A failed write, counted.
    fn failure(&mut self) -> WriteFailed
        ensures writer { writer_of self.new ≡ writer_of self.old }
        ensures counted { write_faults self.new ≡ next_count (write_faults self.old) }
    {
        self.faults = self.faults.saturating_add(1);
        WriteFailed
    }
}

impl<W: Write> Sink for StdSink<W> {
    ghost use Rattle.fvn_outside.specs.Standard.{writer_of, write_faults};

    ghost written = { λ _. None };

    ghost faults = { λ s. s.faults };

    fn write(&mut self, bytes: &[u8]) -> Result<usize, WriteFailed>
        ensures bound { IfOk result (λ n. n ≤ length bytes.now) }
        ensures fault { OnErr result (Rose (write_faults self.old) (write_faults self.new)) }
        ensures stuck { IfOk result
            (λ n. n ≡ 0 → 0 < length bytes.now
            → Rose (write_faults self.old) (write_faults self.new)) }
        ensures uncounted { IfOk result
            (λ n. 0 < n → write_faults self.new ≡ write_faults self.old) }
        ensures never_falls { write_faults self.old ≤ write_faults self.new }

        // What the writer says of its bytes still holds. Each error is counted, and each write that
        // takes nothing.
        ensures bytes { WriteAppends (W.contents (writer_of self.old))
            (W.contents (writer_of self.new)) result bytes.now }
        ensures counted { OnErr result (write_faults self.new
            ≡ next_count (write_faults self.old)) }
        ensures counted_stuck { IfOk result (λ n. write_faults self.new ≡
            (if n == 0 then next_count (write_faults self.old) else write_faults self.old)) }
    {
        for _ in 0..u64::MAX {
            match self.writer.write(bytes) {
                Ok(0) => {
                    self.failure();
                    return Ok(0);
                }
                Ok(n) => return Ok(n),
                Err(error) if error.kind() == ErrorKind::Interrupted => {}
                Err(_) => return Err(self.failure()),
            }
        }
        Err(self.failure())
    }
}
