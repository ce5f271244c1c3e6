//! What is done next on a node.
ghost use Rattle.std.specs.Prelude.{◌≡◌, ◌≢◌, ◌↔◌, ℕ, IsTrue};
ghost use Rattle.values.specs.declared.code.Code.{Code as CodeValue};
ghost use Rattle.values.specs.Attempt.{Agrees, tried_of};
ghost use Rattle.values.specs.Packing.{unpacked, IsPacked};
ghost use Rattle.work_order.specs.Order.{begun_of, checked_of, run_of, next_of};

use crate::frame::{Due, Frame};
use sources::{Colour, Read};
use values::{Code, Expr, Tried, attempt};

/// What is done next on a node.
#[derive(Clone, Copy, Debug, PartialEq, Eq)]
pub enum Next {
    /// The node is clean: its value is answered as it is.
    Answer,
    /// The recorded source at this place is compared as it is. It is not brought up to date.
    Compare(usize),
    /// The node is cleared.
    Clear,
    /// A check brings this recorded source up to date, and compares it then.
    Check(u32),
    /// A run enrols the node at this row, brings the row up to date, and reads it.
    Read(u32),
    /// The check is done: no recorded source differs.
    Keep,
    /// The run is whole, with this value.
    Finish(Code),
}

/// What is done next on a node of this colour, with these recorded reads, where the work on it is as
/// `frame` says. `tried` is how far evaluation of the node's expression comes over what the run has read
/// so far; where the frame is not of a run it doesn't count.
#[inline]
pub fn next_on(colour: Colour, recorded: &[Read], frame: Frame, tried: Tried) -> Next
    ensures { result ≡ next_of tried colour recorded.now frame }
{
    if !frame.cleared {
        return begin(colour, recorded, frame);
    }
    match frame.due {
        Due::Not => check(recorded, frame.at),
        Due::First | Due::Differs => run(tried),
    }
}

fn begin(colour: Colour, recorded: &[Read], frame: Frame) -> Next
    ensures { result ≡ begun_of colour frame.due recorded.now frame.at }
{
    match (colour, frame.due) {
        (Colour::Clean, _) => Next::Answer,
        (Colour::Dirty, Due::Not) => {
            if frame.at < recorded.len() {
                Next::Compare(frame.at)
            } else {
                Next::Clear
            }
        }
        _ => Next::Clear,
    }
}

fn check(recorded: &[Read], at: usize) -> Next
    ensures { result ≡ checked_of recorded.now at }
{
    match recorded.get(at) {
        Some(read) => Next::Check(read.row),
        None => Next::Keep,
    }
}

fn run(tried: Tried) -> Next
    ensures { result ≡ run_of tried }
{
    match tried {
        Tried::Needs(row) => Next::Read(row),
        Tried::Done(code) => Next::Finish(code),
    }
}

/// The same, where the run has read the rows of `known`, each with its value.
pub fn next_with(
    expr: &Expr,
    known: &[(u32, Code)],
    colour: Colour,
    recorded: &[Read],
    frame: Frame,
) -> Next
    ensures { (values : ℕ → CodeValue) → Agrees values known.now →
        result ≡ next_of (tried_of expr.now known.now values) colour recorded.now frame }
{
    if frame.is_run() {
        return next_on(colour, recorded, frame, attempt(expr, known));
    }
    next_on(colour, recorded, frame, Tried::Needs(frame.node))
}

/// Whether a run of a memo that ends with `code` draws a number and notes a Change: whether its value
/// differs from `before`, the packed value that the memo has. The number is drawn before the body is
/// put back.
#[inline]
pub fn needs_number(before: u64, code: Code) -> bool
    requires { IsPacked before }
    ensures { IsTrue result ↔ (unpacked before ≢ code) }
{
    let after = code.pack();
    before != after
}
