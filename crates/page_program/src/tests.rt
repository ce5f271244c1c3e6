//! Worked rows of the whole run, over a source and a sink in memory.

use crate::finish::{Finish, Outcome};
use crate::rows::{AREAS, LARGE, LINES, LOADS, PAGES, SCRIPTS, STORES};
use crate::run::page;
use component_items::Place;
use outside::{Arrival, FailingLoader, Loader, MemorySink, MemorySource, OpenGate};
use run_items::{Answer, Reply};
use std::alloc::Global;
use std::test::Fail;
use std::vec::Vec;
use values::{Code, Left, Pumped};

/// An input of 71 bytes, and what it gives with `-a`, 25 bytes.
const FIRST: &str = "component 1\nsignal a = 2\nmemo b = a * 3\n<p>{b}</p>\n---\nphase lane get a";

const FIRST_REPORT: &[u8] = b"1.1.1 get 2 at 0\n<p>6</p>";

/// A loader of which one call fails, and which says how often it was asked and has failed.
#[derive(Drop)]
struct Counted {
    loader: FailingLoader,
    asks: u32,
    faults: u32,
}

impl Loader for Counted {
    ghost use Rattle.std.specs.Prelude.{false};
    ghost use Rattle.outside.specs.Asks.{FallibleAnswers};

    ghost faults = { λ l. l.loader.faults };

    ghost not_yets = { λ l. l.loader.not_yets };

    ghost is_prompt = { false };

    ghost answers = { λ before ask answer later. FallibleAnswers before.loader ask answer later.loader };

    fn ask(&mut self, resource: u32, key: Code, after: u32, asked: u32) -> Arrival {
        self.asks = self.asks.saturating_add(1);
        let arrival = self.loader.ask(resource, key, after, asked);
        if arrival == Arrival::Failed {
            self.faults = self.faults.saturating_add(1);
        }
        arrival
    }
}

/// The calls that fail, counted from 1; 0 is none. Source and sink work in pieces of so many bytes.
#[derive(Clone, Copy)]
struct Outside {
    piece: usize,
    read_fails: u32,
    write_fails: u32,
    load_fails: u32,
}

/// An outside where no call fails.
const SOUND: Outside = Outside {
    piece: 65536,
    read_fails: 0,
    write_fails: 0,
    load_fails: 0,
};

/// What a run came to.
#[derive(Drop)]
struct Ran {
    finish: Finish,
    written: Vec<u8>,
    asks: u32,
    faults: u32,
}

/// Runs the program with the words on the input.
fn run(rt: &HostRuntime, words: &str, input: &[u8], outside: Outside) -> Result<Ran, Fail> {
    let alloc = rt.alloc();
    let piece = outside.piece.max(1);
    let mut owned = Vec::new(alloc);
    for word in words.split_whitespace() {
        owned.push(String::from_str(alloc, word)?)?;
    }
    let bytes = Vec::from_slice(alloc, input)?;
    let read_fails = Vec::from_slice(alloc, &[outside.read_fails])?;
    let write_fails = Vec::from_slice(alloc, &[outside.write_fails])?;
    let load_fails = Vec::from_slice(alloc, &[outside.load_fails])?;
    let mut source = MemorySource::new(bytes, piece, read_fails);
    let mut sink = MemorySink::new(alloc, 4194304, piece, write_fails)?;
    let mut loader = Counted {
        loader: FailingLoader::new(load_fails),
        asks: 0,
        faults: 0,
    };
    let finish = page(
        rt,
        alloc,
        &owned,
        &mut source,
        &mut sink,
        &mut loader,
        &OpenGate,
    );
    Ok(Ran {
        finish,
        written: Vec::from_slice(alloc, sink.bytes())?,
        asks: loader.asks,
        faults: loader.faults,
    })
}

/// Adds the copy of the unit with this number.
fn put_copy(input: &mut Vec<u8>, alloc: Global, unit: &str, number: u32) -> Result<(), Fail> {
    for byte in unit.bytes() {
        if byte == b'#' || byte == b'^' {
            let shown = if byte == b'#' {
                number
            } else {
                number.saturating_sub(1)
            };
            input.extend_from_slice(format!(in alloc; "{shown}")?.as_bytes())?;
        } else {
            input.push(byte)?;
        }
    }
    Ok(())
}

/// The input of a row, with its copies written out.
fn input_of(alloc: Global, text: &str) -> Result<Vec<u8>, Fail> {
    let (head, rest) = text.split_once('~').unwrap_or((text, ""));
    let (copies, tail) = rest.split_once('~').unwrap_or(("", rest));
    let (count, unit) = copies.split_once(':').unwrap_or(("0", ""));
    let count: u32 = count.parse()?;
    let mut input = Vec::from_slice(alloc, head.as_bytes())?;
    for before in 0..count {
        put_copy(&mut input, alloc, unit, before + 1)?;
    }
    input.extend_from_slice(tail.as_bytes())?;
    Ok(input)
}

/// Whether this was written, where `...` stands for anything, twice at the most.
fn is_as_shown(written: &str, shown: &str) -> bool {
    let Some((start, rest)) = shown.split_once("...") else {
        return written == shown;
    };
    let (middle, end) = rest.split_once("...").unwrap_or(("", rest));
    let Some(behind) = written.strip_prefix(start) else {
        return false;
    };
    let Some(between) = behind.strip_suffix(end) else {
        return false;
    };
    between.contains(middle)
}

/// Whether a run of a row, in pieces of so many bytes, comes to what the row shows.
fn comes_out(rt: &HostRuntime, input: &[u8], shown: &str, piece: usize) -> Result<bool, Fail> {
    let (line, output) = shown.split_once('\n').unwrap_or((shown, ""));
    let (head, end) = line.split_once("=> ").unwrap_or((line, ""));
    let (words, fails) = head.split_once("fails ").unwrap_or((head, "0"));
    let mut outside = SOUND;
    outside.piece = piece;
    outside.load_fails = fails.trim().parse()?;
    let ran = run(rt, words, input, outside)?;
    let status = ran.finish.status;
    let told = if end.contains("asks") {
        format!(in rt.alloc(); "{status} asks {} faults {}", ran.asks, ran.faults)?
    } else {
        format!(in rt.alloc(); "{status}")?
    };
    let has_journal = ran.finish.journal.is_some();
    let written = str::from_utf8(&ran.written).unwrap_or("");
    let is_told = told.as_str() == end && has_journal == (status == 0 || status == 4);
    Ok(is_told && is_as_shown(written, output))
}

#[test]
fn rows_come_out_as_worked(rt: HostRuntime) -> Result<(), Fail> {
    for rows in [PAGES, LINES, SCRIPTS, AREAS, STORES, LOADS] {
        for row in rows.split("\n==\n").skip(1) {
            let mut parts = row.split("\n-- ");
            let input = input_of(rt.alloc(), parts.next().unwrap_or(""))?;
            for shown in parts {
                for piece in [1, 65536] {
                    assert!(rt; comes_out(&rt, &input, shown, piece)?, "{row}\n{shown}");
                }
            }
        }
    }
    Ok(())
}

#[test]
fn inputs_at_the_limits_come_out_as_worked(rt: HostRuntime) -> Result<(), Fail> {
    for row in LARGE.split("\n==\n").skip(1) {
        let mut parts = row.split("\n-- ");
        let input = input_of(rt.alloc(), parts.next().unwrap_or(""))?;
        for shown in parts {
            assert!(rt; comes_out(&rt, &input, shown, 65536)?, "{row}\n{shown}");
        }
    }
    Ok(())
}

#[test]
fn a_failed_write_ends_the_run(rt: HostRuntime) -> Result<(), Fail> {
    let mut outside = SOUND;
    outside.piece = 1;
    for call in 1..26u32 {
        outside.write_fails = call;
        let ran = run(&rt, "-a", FIRST.as_bytes(), outside)?;
        assert_eq!(rt; ran.finish.status, 6);
        assert!(rt; matches!(ran.finish.outcome, Outcome::WriteFault));
        assert!(rt; ran.finish.journal.is_some());
        assert_eq!(rt; ran.written.len(), call as usize - 1);
        assert!(rt; FIRST_REPORT.starts_with(ran.written.as_slice()));
    }
    outside.write_fails = 26;
    let ran = run(&rt, "-a", FIRST.as_bytes(), outside)?;
    assert!(rt; matches!(ran.finish.outcome, Outcome::Page));
    assert_eq!(rt; ran.written.as_slice(), FIRST_REPORT);
    Ok(())
}

#[test]
fn a_failed_read_ends_the_run(rt: HostRuntime) -> Result<(), Fail> {
    let mut outside = SOUND;
    outside.piece = 1;
    // The call behind the last byte finds the end of the text.
    for call in 1..73u32 {
        outside.read_fails = call;
        let ran = run(&rt, "-a", FIRST.as_bytes(), outside)?;
        assert_eq!(rt; ran.finish.status, 5);
        assert!(rt; matches!(ran.finish.outcome, Outcome::ReadFault));
        assert!(rt; ran.finish.journal.is_none());
        assert_eq!(rt; ran.written.as_slice(), b"read fault\n".as_slice());
    }
    outside.read_fails = 73;
    assert_eq!(rt; run(&rt, "", FIRST.as_bytes(), outside)?.finish.status, 0);
    Ok(())
}

#[test]
fn words_come_before_the_source(rt: HostRuntime) -> Result<(), Fail> {
    let mut outside = SOUND;
    outside.read_fails = 1;
    for words in ["--rounds 0", "big 4", "-a -a"] {
        let ran = run(&rt, words, FIRST.as_bytes(), outside)?;
        assert_eq!(rt; ran.finish.status, 2);
        assert!(rt; matches!(ran.finish.outcome, Outcome::BadWords));
        assert!(rt; ran.finish.journal.is_none());
        let usage = b"usage: page [-a] [--rounds N] | page big N\n";
        assert_eq!(rt; ran.written.as_slice(), usage.as_slice());
    }
    Ok(())
}

#[test]
fn outcomes_are_handed_out(rt: HostRuntime) -> Result<(), Fail> {
    let ran = run(&rt, "", b"component 1\n\"\xff", SOUND)?;
    let place = Place { line: 2, column: 2 };
    assert!(rt; matches!(ran.finish.outcome, Outcome::BadText(1, at) if at == place));
    assert_eq!(rt; ran.written.as_slice(), b"bad text 1 at 2:2\n".as_slice());

    let input = b"component 1\nresource r after 1 {}\nsignal a = 1\nload x = r(a)";
    let ran = run(&rt, "", input, SOUND)?;
    assert!(rt;
        matches!(&ran.finish.outcome, Outcome::Waiting(loads) if loads.as_slice() == &[2][..])
    );

    let ran = run(&rt, "", b"component 1", SOUND)?;
    assert!(rt; matches!(&ran.finish.journal, Some(journal) if journal.phases() == 0));
    assert!(rt; ran.written.is_empty());
    Ok(())
}

#[test]
fn answers_are_handed_out(rt: HostRuntime) -> Result<(), Fail> {
    let text =
        "component 1\nsignal a = 0\neffect e = a\n---\nphase lane\nphase lane get a~65536: set a = 1~ set a = 2 pump";
    let input = input_of(rt.alloc(), text)?;
    let ran = run(&rt, "", &input, SOUND)?;
    let answers = ran.finish.answers.as_slice();
    assert_eq!(rt; answers.len(), 65539);
    let pumped = Pumped {
        ran: 0,
        same: 0,
        gone: 0,
        left: 1,
        first_left: Some((1, Left::Full(65537))),
    };
    let rows = [
        (1, Reply::Got(Code::Number(0), 0)),
        (2, Reply::Set(1)),
        (65537, Reply::Set(65536)),
        (65538, Reply::Full(65537)),
        (65539, Reply::Pumped(pumped)),
    ];
    for (op, reply) in rows {
        let answer = Answer {
            phase: 2,
            lane: 1,
            op,
            reply,
        };
        assert_eq!(rt; answers.get(op.saturating_sub(1) as usize), Some(&answer));
    }
    assert!(rt; matches!(&ran.finish.journal, Some(journal) if journal.phases() == 2));
    Ok(())
}
