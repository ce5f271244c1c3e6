//! Evaluation that asks for the rows that it reads.
ghost use Rattle.std.specs.Prelude.{◌≡◌, ℕ, MatchResult};
ghost use Rattle.values.specs.declared.code.Code.{Code as CodeValue};
ghost use Rattle.values.specs.Attempt.{known_value, Agrees, tried_of};

use crate::code::Code;
use crate::expr::Expr;

/// What came of an attempt to evaluate.
#[derive(Clone, Copy, Debug, PartialEq, Eq)]
pub enum Tried {
    /// The value.
    Done(Code),
    /// The first row, in the order of evaluation, that is not known.
    Needs(u32),
}

/// Evaluates the expression as far as the known rows reach. Where a row stands twice in `known`,
/// its first place counts. Asked again with the row that it needs, each time, it ends with the
/// value.
pub fn attempt(expr: &Expr, known: &[(u32, Code)]) -> Tried
    ensures { (values : ℕ → CodeValue) → Agrees values known.now →
        result ≡ tried_of expr.now known.now values }
{
    match evaluate(expr, known) {
        Ok(code) => Tried::Done(code),
        Err(missing) => Tried::Needs(missing.row),
    }
}

/// The first row that an evaluation reads and that is not known.
#[derive(Clone, Copy)]
struct Missing {
    row: u32,
}

fn evaluate(expr: &Expr, known: &[(u32, Code)]) -> Result<Code, Missing>
    ensures { (values : ℕ → CodeValue) → Agrees values known.now →
        let tried = tried_of expr.now known.now values in
        MatchResult result (λ code. tried ≡ Tried.Done code) (λ missing. tried ≡ Tried.Needs missing.row) }
{
    match expr {
        Expr::Lit(code) => Ok(*code),
        Expr::Read(row) => known_code(known, *row).ok_or(Missing { row: *row }),
        Expr::Binary(op, left, right) => {
            let left = evaluate(left.get(), known)?;
            let right = evaluate(right.get(), known)?;
            Ok(op.combine(left, right))
        }
        Expr::If(test, first, second) => {
            let test = evaluate(test.get(), known)?;
            if test.truth() {
                evaluate(first.get(), known)
            } else {
                evaluate(second.get(), known)
            }
        }
    }
}

fn known_code(known: &[(u32, Code)], row: u32) -> Option<Code>
    ensures { result ≡ known_value known.now row }
{
    for entry in known {
        if entry.0 == row {
            return Some(entry.1);
        }
    }
    None
}
