//! Reads an input on standard input, and writes its page on standard output.
#![tactic(auto)]

use outside::{Delays, OpenGate, StdSink, StdSource};
use page_program::page;
use std::process::ExitCode;
use std::{env, io};

/// A word of no command. It stands for the words where one of them is no text.
const NO_TEXT: &str = "\u{fffd}";

/// The words behind the program's name.
fn words_of(rt: &HostRuntime) -> io::Result<Vec<String>> {
    let alloc = rt.alloc();
    match env::args(rt) {
        Ok(mut args) => {
            args.next();
            Ok(args.collect(alloc)?)
        }
        Err(error) if error.kind() == io::ErrorKind::InvalidData => {
            let mut words = Vec::new(alloc);
            words.push(String::from_str(alloc, NO_TEXT)?)?;
            Ok(words)
        }
        Err(error) => Err(error),
    }
}

fn main(rt: HostRuntime) -> io::Result<ExitCode> {
    let words = words_of(&rt)?;
    let mut source = StdSource::new(rt.reader());
    let mut sink = StdSink::new(io::writer(&rt));
    let finish = page(
        &rt,
        rt.alloc(),
        &words,
        &mut source,
        &mut sink,
        &mut Delays::new(),
        &OpenGate,
    );
    Ok(ExitCode::from(finish.status))
}
