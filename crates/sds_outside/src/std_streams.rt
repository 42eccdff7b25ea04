// Readers and writers of std. They tell nothing, and each error counts as a fault.
ghost use Rattle.std.specs.Prelude.{◌≡◌, None, OnOk};
ghost use Rattle.std.specs.Io.KnownBytes.{ReadConsumes, WriteAppends};
ghost use Rattle.sds_outside.specs.Causes.{HasCause};
ghost use Rattle.sds_outside.specs.Told.{Reads, Writes};

use crate::{Failed, Sink, Source};
use std::io::{Read, Write};

/// A reader of std as a source that tells nothing. It gives what the reader gives, and each error of the
/// reader counts as a fault.
#[derive(Drop)]
pub struct StdSource<R> {
    inner: R,
    faults: u64,
}

impl<R: Read> StdSource<R> {
    ghost use Rattle.sds_outside.specs.StdStreams.{reader_of, reader_faults};

    /// A source over this reader, without faults so far.
    pub fn new(inner: R) -> StdSource<R>
        ensures reader { reader_of result ≡ inner }
        ensures faults { reader_faults result ≡ 0 }
    {
        StdSource { inner, faults: 0 }
    }
}

impl<R: Read> Source for StdSource<R> {
    ghost use Rattle.sds_outside.specs.StdStreams.{reader_of, reader_faults};

    ghost left = { λ s. None };

    ghost faults = { reader_faults };

    fn read(&mut self, into: &mut [u8]) -> Result<usize, Failed>
        ensures bytes { Reads None None result into.new }
        ensures passed { ReadConsumes (R.remaining (reader_of self.old)) (R.remaining (reader_of self.new)) result into.new }
        ensures cause { HasCause (reader_faults self.old) (reader_faults self.new) result }
        ensures quiet { OnOk result (reader_faults self.new ≡ reader_faults self.old) }
    {
        match self.inner.read(into) {
            Ok(count) => Ok(count),
            Err(_) => {
                self.faults = self.faults.saturating_add(1);
                Err(Failed)
            }
        }
    }
}

/// A writer of std as a sink that tells nothing. Each error of the writer counts as a fault, and so does a
/// write that takes nothing of a piece that isn't empty.
#[derive(Drop)]
pub struct StdSink<W> {
    inner: W,
    faults: u64,
}

impl<W: Write> StdSink<W> {
    ghost use Rattle.sds_outside.specs.StdStreams.{writer_of, writer_faults};

    /// A sink over this writer, without faults so far.
    pub fn new(inner: W) -> StdSink<W>
        ensures writer { writer_of result ≡ inner }
        ensures faults { writer_faults result ≡ 0 }
    {
        StdSink { inner, faults: 0 }
    }
}

impl<W: Write> Sink for StdSink<W> {
    ghost use Rattle.sds_outside.specs.StdStreams.{writer_of, writer_faults};

    ghost taken = { λ s. None };

    ghost faults = { writer_faults };

    fn write(&mut self, bytes: &[u8]) -> Result<usize, Failed>
        ensures bytes { Writes None None result bytes.now }
        ensures passed { WriteAppends (W.contents (writer_of self.old)) (W.contents (writer_of self.new)) result bytes.now }
        ensures cause { HasCause (writer_faults self.old) (writer_faults self.new) result }
        ensures quiet { OnOk result (writer_faults self.new ≡ writer_faults self.old) }
    {
        if bytes.is_empty() {
            return Ok(0);
        }
        match self.inner.write(bytes) {
            Ok(count) if count > 0 => Ok(count),
            _ => {
                self.faults = self.faults.saturating_add(1);
                Err(Failed)
            }
        }
    }
}
