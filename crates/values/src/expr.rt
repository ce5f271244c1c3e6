//! Expressions.

use crate::code::{Code, Op};
use sqlite_items::Boxed;

/// An expression over rows that are named by number. `attempt` evaluates it, and
/// `docs/SEMANTICS.md`, "Evaluation", has the rules.
#[derive(Debug, Drop)]
pub enum Expr {
    /// A value that is written out.
    Lit(Code),
    /// The value of a row.
    Read(u32),
    /// An operator on two operands.
    Binary(Op, Boxed<Expr>, Boxed<Expr>),
    /// A test and two branches. The first is taken where the test is true (`Code::truth`), and the
    /// other is not evaluated.
    If(Boxed<Expr>, Boxed<Expr>, Boxed<Expr>),
}
