//! Sources and sinks over std's readers and writers.

ghost use Rattle.std.specs.Prelude.{◌≡◌, ◌<◌, ◌≤◌, ℕ};
ghost use Rattle.outside.specs.StdStreams.{source_faults, source_inner, sink_faults, sink_inner};

use crate::counts::next_count;
use crate::traits::{Failed, Sink, Source};
use std::io::{Read, Write};

/// A source over a reader, which may be a file or a terminal. It tells the bytes that the reader
/// tells. A call that is interrupted is a failure like any other, and is not made again.
#[derive(Drop)]
pub struct StdSource<R> {
    inner: R,
    faults: u64,
}

impl<R: Read> StdSource<R> {
    /// No call has failed yet.
    pub fn new(inner: R) -> StdSource<R>
        ensures inner { source_inner result ≡ inner }
        ensures faults { source_faults result ≡ 0 }
    {
        StdSource { inner, faults: 0 }
    }
}

impl<R: Read> Source for StdSource<R> {
    ghost faults = { source_faults };

    ghost held = { λ source. R.remaining (source_inner source) };

    fn read(&mut self, into: &mut [u8]) -> Result<usize, Failed> {
        match self.inner.read(into) {
            Ok(count) => Ok(count),
            Err(_) => {
                self.faults = next_count(self.faults);
                Err(Failed)
            }
        }
    }
}

/// A sink over a writer, which may be a file or a terminal. It tells the bytes that the writer
/// tells. A call that is interrupted is a failure like any other, and is not made again. So is a
/// call that takes none of the bytes.
#[derive(Drop)]
pub struct StdSink<W> {
    inner: W,
    faults: u64,
}

impl<W: Write> StdSink<W> {
    /// No call has failed yet.
    pub fn new(inner: W) -> StdSink<W>
        ensures inner { sink_inner result ≡ inner }
        ensures faults { sink_faults result ≡ 0 }
    {
        StdSink { inner, faults: 0 }
    }
}

impl<W: Write> Sink for StdSink<W> {
    ghost faults = { sink_faults };

    ghost taken = { λ sink. W.contents (sink_inner sink) };

    fn write(&mut self, from: &[u8]) -> Result<usize, Failed> {
        match self.inner.write(from) {
            Ok(count) if count > 0 => Ok(count),
            _ => {
                self.faults = next_count(self.faults);
                Err(Failed)
            }
        }
    }
}
