//! Evaluation over the rows themselves, as far as these are clean.
ghost use Rattle.std.specs.Prelude.{◌≡◌, ◌+◌, ◌<◌, ◌≤◌, ℕ, length, slice_get, Some, None, MatchResult, true};
ghost use Rattle.values.specs.declared.code.Code.{Code as CodeValue};
ghost use Rattle.values.specs.Evaluation.{readings_of};
ghost use Rattle.values.specs.Packing.{unpacked, IsPacked};
ghost use Rattle.values.specs.Plan.{rows_in};
ghost use Rattle.values.specs.Attempt.{Agrees, tried_of};
ghost use Rattle.values.specs.Reserved.{room_of};
ghost use Rattle.values.specs.declared.tried.Tried.TheVariants.{Done, Needs};
ghost use Rattle.sources.specs.Bodies.{rows_read};
ghost use Rattle.sources.specs.Colours.{is_clean};
ghost use Rattle.still_readers.specs.Building.{weight};
ghost use Rattle.still_rows.specs.Shown.{added, noted, shown, told, ArePacked, IsFresh};

use sources::{Opened, Read, Reads};
use still_readers::is_recorded;
use values::{Code, Expr};

/// The first row that an evaluation reads and that is not clean.
#[derive(Clone, Copy)]
pub(crate) struct Missing {
    pub(crate) row: u32,
}

/// The value, where each row that it takes is clean. `reads` then has these rows behind what it had,
/// each once.
#[tactic(auto, using(crate::proofs::EvaluatingLemmas::fits_read, crate::proofs::EvaluatingLemmas::fits_binary, crate::proofs::EvaluatingLemmas::fits_if, crate::proofs::EvaluatingLemmas::room_left, crate::proofs::EvaluatingLemmas::room_right, crate::proofs::EvaluatingLemmas::room_test, crate::proofs::EvaluatingLemmas::room_first, crate::proofs::EvaluatingLemmas::room_second))]
#[cycle(parts)]
pub(crate) fn evaluate(expr: &Expr, rows: &[Opened], reads: &mut Reads) -> Result<Code, Missing>
    requires room { length (rows_in expr.now) ≤ reads.old.spare }
    requires are_packed { ArePacked rows.now }
    requires fresh { IsFresh rows.now reads.old.list }
    ensures fresh { IsFresh rows.now reads.new.list }
    ensures room { room_of reads.new ≡ room_of reads.old }
    ensures spare { reads.old.spare ≤ reads.new.spare + length (rows_in expr.now) }
    ensures value { (values : ℕ → CodeValue) → Agrees values (shown rows.now) →
        MatchResult result
        (λ code. (tried_of expr.now (shown rows.now) values ≡ Done code) × (rows_read reads.new.list ≡ noted (rows_read reads.old.list) (readings_of expr.now values)))
        (λ missing. tried_of expr.now (shown rows.now) values ≡ Needs missing.row) }
{
    match expr {
        Expr::Lit(code) => Ok(*code),
        Expr::Read(row) => read_row(rows, *row, reads),
        Expr::Binary(op, left, right) => {
            let left = operand(left.get(), rows, reads)?;
            let right = operand(right.get(), rows, reads)?;
            Ok(op.combine(left, right))
        }
        Expr::If(test, first, second) => {
            let test = operand(test.get(), rows, reads)?;
            if test.truth() {
                operand(first.get(), rows, reads)
            } else {
                operand(second.get(), rows, reads)
            }
        }
    }
}

/// The same of a part of an expression. One with no parts is looked at in place, without a further call.
#[tactic(auto, using(crate::proofs::EvaluatingLemmas::fits_read, crate::proofs::EvaluatingLemmas::fits_binary, crate::proofs::EvaluatingLemmas::fits_if, crate::proofs::EvaluatingLemmas::room_left, crate::proofs::EvaluatingLemmas::room_right, crate::proofs::EvaluatingLemmas::room_test, crate::proofs::EvaluatingLemmas::room_first, crate::proofs::EvaluatingLemmas::room_second))]
#[cycle(parts)]
#[inline]
fn operand(expr: &Expr, rows: &[Opened], reads: &mut Reads) -> Result<Code, Missing>
    requires room { length (rows_in expr.now) ≤ reads.old.spare }
    requires are_packed { ArePacked rows.now }
    requires fresh { IsFresh rows.now reads.old.list }
    ensures fresh { IsFresh rows.now reads.new.list }
    ensures room { room_of reads.new ≡ room_of reads.old }
    ensures spare { reads.old.spare ≤ reads.new.spare + length (rows_in expr.now) }
    ensures value { (values : ℕ → CodeValue) → Agrees values (shown rows.now) →
        MatchResult result
        (λ code. (tried_of expr.now (shown rows.now) values ≡ Done code) × (rows_read reads.new.list ≡ noted (rows_read reads.old.list) (readings_of expr.now values)))
        (λ missing. tried_of expr.now (shown rows.now) values ≡ Needs missing.row) }
{
    match expr {
        Expr::Lit(code) => Ok(*code),
        Expr::Read(row) => read_row(rows, *row, reads),
        Expr::Binary(..) | Expr::If(..) => evaluate(expr, rows, reads),
    }
}

fn read_row(rows: &[Opened], row: u32, reads: &mut Reads) -> Result<Code, Missing>
    requires room { 0 < reads.old.spare }
    requires are_packed { ArePacked rows.now }
    requires fresh { IsFresh rows.now reads.old.list }
    ensures fresh { IsFresh rows.now reads.new.list }
    ensures room { room_of reads.new ≡ room_of reads.old }
    ensures spare { reads.old.spare ≤ reads.new.spare + 1 }
    ensures value { MatchResult result
        (λ code. (told (slice_get rows.now row) ≡ Some code) × (rows_read reads.new.list ≡ added (rows_read reads.old.list) row))
        (λ missing. (told (slice_get rows.now row) ≡ None) × (missing.row ≡ row)) }
{
    let Some(source) = rows.get(row as usize) else {
        return Err(Missing { row });
    };
    if !source.colour.is_clean() {
        return Err(Missing { row });
    }
    note_row(rows, row, source, reads);
    Ok(value_of(source.code))
}

/// The value that is packed in the word.
#[inline]
pub(crate) fn value_of(word: u64) -> Code
    requires { IsPacked word }
    ensures { result ≡ unpacked word }
{
    Code::from_packed(word)
}

/// A clean row is read, at its first time.
fn note_row(_rows: &[Opened], row: u32, source: &Opened, reads: &mut Reads)
    requires room { 0 < reads.old.spare }
    requires are_packed { ArePacked _rows.now }
    requires fresh { IsFresh _rows.now reads.old.list }
    requires source { slice_get _rows.now row ≡ Some source.now }
    requires clean { is_clean source.now.colour ≡ true }
    ensures fresh { IsFresh _rows.now reads.new.list }
    ensures room { room_of reads.new ≡ room_of reads.old }
    ensures spare { reads.old.spare ≤ reads.new.spare + 1 }
    ensures rows { rows_read reads.new.list ≡ added (rows_read reads.old.list) row }
{
    if is_recorded(reads.as_slice(), row) {
        return;
    }
    reads.push(Read {
        row,
        version: source.version,
        code: source.code,
    });
}
