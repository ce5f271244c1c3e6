//! How a run ends, and the line that says so.

ghost use Rattle.std.specs.Prelude.{◌≡◌, IfOk};
ghost use Rattle.std.specs.String.{string_bytes};
ghost use Rattle.page_program.specs.Outcome as spec;

use component_items::Place;
use run_items::Answers;
use std::alloc::{AllocError, Global};
use still_graph::Journal;
use values::Numbers;

/// How a run of the program ended. Each outcome but `Page`, `Waiting` and `WriteFault` writes a line of its own, and
/// nothing else.
#[derive(Debug, Drop)]
pub enum Outcome {
    /// The page was written whole.
    Page,
    /// The words are not the command's.
    BadWords,
    /// The input is no text of a component and a script: the number of the reason, and the place.
    BadText(u8, Place),
    /// These loads are pending behind the last settling, in order of declaration. A line for each was written.
    Waiting(Numbers),
    /// The input has a form that is not run yet.
    Unbuilt,
    /// A read of the source failed.
    ReadFault,
    /// A write to the sink failed. A part of the run's text was written.
    WriteFault,
    /// Memory could not be had.
    NoMemory,
    /// The source holds more bytes than an input may have.
    TooLong,
}

/// The end of a run.
#[derive(Drop)]
pub struct Finish {
    /// The exit status.
    pub status: u8,
    /// What the status stands for.
    pub outcome: Outcome,
    /// The journal, where the settling behind the script's last phase was done.
    pub journal: Option<Journal>,
    /// What the operations of the script were answered. There are none where there is no journal.
    pub answers: Answers,
}

/// The exit status of the outcome.
pub fn status_of(outcome: &Outcome) -> u8
    ensures { result ≡ spec.status_of outcome.now }
{
    match outcome {
        Outcome::Page => 0,
        Outcome::BadWords => 2,
        Outcome::BadText(_, _) => 3,
        Outcome::Waiting(_) => 4,
        Outcome::Unbuilt => 20,
        Outcome::ReadFault => 5,
        Outcome::WriteFault => 6,
        Outcome::NoMemory => 7,
        Outcome::TooLong => 8,
    }
}

/// The line of a text that is refused.
pub fn bad_text_line(alloc: Global, kind: u8, place: Place) -> Result<String, AllocError>
    ensures { IfOk result (λ line. string_bytes line ≡ spec.bad_text_line kind place) }
{
    let line = place.line;
    let column = place.column;
    format!(in alloc; "bad text {kind} at {line}:{column}\n")
}
