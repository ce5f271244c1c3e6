//! What a run has come to, before anything is written.

ghost use Rattle.std.specs.Prelude.{◌≡◌, [], Some, None};
ghost use Rattle.page_program.specs.Outcome.{own_line};
ghost use Rattle.page_program.specs.Ending as spec;
ghost use Rattle.page_program.specs.Run.{nothing_run};

use crate::finish::Outcome;
use run_items::Answers;
use std::alloc::Global;
use still_graph::Journal;

/// The line of words that are not the command's.
pub const USAGE: &[u8] = b"usage: page [-a] [--rounds N] | page big N\n";

/// A text that is to be written. All memory that it needs is taken.
#[derive(Drop)]
pub enum Text {
    /// A line that stands in the program.
    Line(&'static [u8]),
    /// Bytes that were made.
    Made(Vec<u8>),
}

impl Text {
    /// The bytes of the text.
    pub fn bytes(&self) -> &[u8]
        ensures { result.now ≡ spec.bytes_of self.now }
    {
        match self {
            Text::Line(bytes) => bytes,
            Text::Made(bytes) => bytes,
        }
    }
}

/// What a run has come to: the outcome and its text, and what is handed out.
#[derive(Drop)]
pub struct Ending {
    pub outcome: Outcome,
    pub text: Text,
    pub journal: Option<Journal>,
    pub answers: Answers,
}

impl Ending {
    /// The outcome with its text, where nothing was run.
    pub fn not_run(alloc: Global, outcome: Outcome, text: Text) -> Ending
        ensures outcome { result.outcome ≡ outcome }
        ensures text { result.text ≡ text }
        ensures account { spec.ending_account result ≡ nothing_run }
    {
        Ending {
            outcome,
            text,
            journal: None,
            answers: Answers::new(alloc),
        }
    }

    /// Want of memory, where nothing was run.
    pub fn no_memory(alloc: Global) -> Ending
        ensures outcome { result.outcome ≡ Outcome.NoMemory }
        ensures text { own_line result.outcome ≡ Some (spec.text_of result) }
        ensures account { spec.ending_account result ≡ nothing_run }
    {
        Ending::not_run(alloc, Outcome::NoMemory, Text::Line(b"no memory\n"))
    }
}
