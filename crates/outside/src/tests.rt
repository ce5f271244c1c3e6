//! What no clause says: that calls succeed with ample memory, and worked rows.

use crate::{
    Arrival, Delays, Failed, FailingLoader, Gate, Loader, MemorySink, MemorySource, OpenGate,
    ReadError, Sink, Source, StdSink, StdSource, read_up_to,
};
use std::io::{self, ErrorKind, Read, Write};
use std::test::Fail;
use values::Code;

const TEXT: &[u8] = b"twelve bytes";

#[test]
fn memory_moves_pieces_and_fails_where_told(rt: HostRuntime) -> Result<(), Fail> {
    let alloc = rt.alloc();
    // A piece, the answers of four reads, and of four writes into room for ten.
    let table = [
        (
            1,
            [Ok(1), Err(Failed), Ok(1), Ok(1)],
            [Ok(1), Err(Failed), Ok(1), Ok(1)],
        ),
        (
            7,
            [Ok(7), Err(Failed), Ok(5), Ok(0)],
            [Ok(7), Err(Failed), Ok(3), Err(Failed)],
        ),
    ];
    for (piece, reads, writes) in table {
        assert!(rt; piece > 0);
        let fails = vec![in alloc; 2u32]?;
        let mut source = MemorySource::new(TEXT.to_vec(alloc)?, piece, fails.clone()?);
        let mut sink = MemorySink::new(alloc, 10, piece, fails)?;
        for (read, write) in reads.iter().zip(&writes) {
            let mut into = [0; 12];
            assert_eq!(rt; source.read(&mut into), *read, "a read at {piece}");
            assert_eq!(rt; sink.write(TEXT), *write, "a write at {piece}");
        }
    }
    Ok(())
}

#[test]
fn a_text_is_read_whole_up_to_a_limit(rt: HostRuntime) -> Result<(), Fail> {
    let alloc = rt.alloc();
    let table: [(usize, u32, Result<&[u8], ReadError>); 4] = [
        (12, 9, Ok(b"twelve bytes")),
        (11, 9, Ok(b"twelve bytes")),
        (5, 9, Ok(b"twelve")),
        (12, 2, Err(ReadError::Failed)),
    ];
    for (limit, fail, read) in table {
        let mut source = MemorySource::new(TEXT.to_vec(alloc)?, 7, vec![in alloc; fail]?);
        let bytes = read_up_to(alloc, &mut source, limit);
        assert_eq!(rt;
            bytes
                .as_ref()
                .map(|bytes| bytes.as_slice())
                .map_err(|error| *error),
            read
        );
    }
    Ok(())
}

#[test]
fn a_prompt_loader_counts_calls_and_an_open_gate_returns(rt: HostRuntime) {
    let mut delays = Delays::new();
    let table = [
        (0, 0, Arrival::Ready),
        (2, 0, Arrival::NotYet),
        (2, 1, Arrival::NotYet),
        (2, 2, Arrival::Ready),
        (2, 3, Arrival::Ready),
    ];
    for (after, asked, arrival) in table {
        assert_eq!(rt;
            delays.ask(1, Code::Empty, after, asked),
            arrival,
            "{asked} of {after}"
        );
    }
    OpenGate.step(1, 1);
}

#[test]
fn a_loader_fails_at_the_calls_that_were_chosen(rt: HostRuntime) -> Result<(), Fail> {
    let mut loader = FailingLoader::new(vec![in rt.alloc(); 2, 4]?);
    let table = [
        (1, 0, Arrival::NotYet),
        (1, 1, Arrival::Failed),
        (1, 1, Arrival::Ready),
        (0, 0, Arrival::Failed),
        (0, 0, Arrival::Ready),
    ];
    for (after, asked, arrival) in table {
        assert_eq!(rt; loader.ask(1, Code::Empty, after, asked), arrival);
    }
    Ok(())
}

/// Fails at its first call, and gives the rest of its bytes from then on.
#[derive(Drop)]
struct Stumbling<'a> {
    has_failed: bool,
    rest: &'a [u8],
}

impl Read for Stumbling<'_> {
    fn read(&mut self, buf: &mut [u8]) -> io::Result<usize> {
        if self.has_failed {
            return self.rest.read(buf);
        }
        self.has_failed = true;
        Err(io::Error::from(ErrorKind::Interrupted))
    }
}

#[test]
fn a_reader_is_a_source_with_its_failures(rt: HostRuntime) {
    let mut source = StdSource::new(Stumbling {
        has_failed: false,
        rest: TEXT,
    });
    let mut into = [0; 7];
    for answer in [Err(Failed), Ok(7), Ok(5), Ok(0)] {
        assert_eq!(rt; source.read(&mut into), answer);
    }
    assert_eq!(rt; into, *b"bytese ");
}

/// Takes nothing at its first call, and all of a text from then on.
#[derive(Drop)]
struct Choking<'a> {
    has_choked: bool,
    taken: &'a mut Vec<u8>,
}

impl Write for Choking<'_> {
    fn write(&mut self, buf: &[u8]) -> io::Result<usize> {
        if self.has_choked {
            return self.taken.write(buf);
        }
        self.has_choked = true;
        Ok(0)
    }

    fn flush(&mut self) -> io::Result<()> {
        Ok(())
    }
}

#[test]
fn a_writer_is_a_sink_and_taking_nothing_is_a_failure(rt: HostRuntime) {
    let mut taken = Vec::new(rt.alloc());
    let mut sink = StdSink::new(Choking {
        has_choked: false,
        taken: &mut taken,
    });
    assert_eq!(rt; sink.write(TEXT), Err(Failed));
    assert_eq!(rt; sink.write(TEXT), Ok(12));
    assert_eq!(rt; taken.as_slice(), TEXT);
}
