//! Expressions: operands that wait for their operator.

ghost use Rattle.std.specs.Prelude.{◌≡◌, ◌∷◌, IfOk, OnOk};
ghost use Rattle.component_meaning.specs.Actions as spec;

use component_draft::Draft;
use grammar::Stack;
use sqlite_items::Boxed;
use std::alloc::{AllocError, Global};
use values::{Code, Expr, Op};

/// Takes the last operand.
fn pop_operand(operands: &mut Stack<Expr>) -> Expr
    ensures top { result ≡ spec.top_operand operands.old }
    ensures rest { operands.new ≡ spec.rest operands.old }
{
    match operands.pop() {
        Some(top) => top,
        None => Expr::Lit(Code::Empty),
    }
}

/// Both expressions, in memory of their own.
fn boxed(alloc: Global, left: Expr, right: Expr) -> Result<(Boxed<Expr>, Boxed<Expr>), AllocError>
    ensures { IfOk result (λ pair. (pair.0 ≡ left) × (pair.1 ≡ right)) }
{
    Ok((Boxed::new(alloc, left)?, Boxed::new(alloc, right)?))
}

fn binary(alloc: Global, op: Op, left: Expr, right: Expr) -> Result<Expr, AllocError>
    ensures { IfOk result (λ e. e ≡ Expr.Binary op left right) }
{
    let (left, right) = boxed(alloc, left, right)?;
    Ok(Expr::Binary(op, left, right))
}

fn choice(alloc: Global, cond: Expr, yes: Expr, no: Expr) -> Result<Expr, AllocError>
    ensures { IfOk result (λ e. e ≡ Expr.If cond yes no) }
{
    let (yes, no) = boxed(alloc, yes, no)?;
    Ok(Expr::If(Boxed::new(alloc, cond)?, yes, no))
}

/// The operator stands between the last two operands.
fn with_binary(alloc: Global, op: Op, operands: &mut Stack<Expr>) -> Result<(), AllocError>
    ensures { OnOk result (operands.new ≡ spec.with_binary op operands.old) }
{
    let right = pop_operand(operands);
    let left = pop_operand(operands);
    let made = binary(alloc, op, left, right)?;
    operands.push(made)
}

/// The last three operands are the condition and what follows from it.
fn with_if(alloc: Global, operands: &mut Stack<Expr>) -> Result<(), AllocError>
    ensures { OnOk result (operands.new ≡ spec.with_if operands.old) }
{
    let no = pop_operand(operands);
    let yes = pop_operand(operands);
    let cond = pop_operand(operands);
    let made = choice(alloc, cond, yes, no)?;
    operands.push(made)
}

/// Takes the whole expression, which is the last operand.
pub fn take_whole(draft: &mut Draft) -> Expr
    ensures whole { result ≡ spec.whole draft.old }
    ensures taken { draft.new ≡ spec.taken draft.old }
{
    pop_operand(&mut draft.operands)
}

/// The last literal is an operand.
pub fn make_literal(draft: &mut Draft) -> Result<(), AllocError>
    ensures { OnOk result (draft.new ≡ record draft.old { operands = Expr.Lit draft.old.literal ∷ draft.old.operands }) }
{
    draft.operands.push(Expr::Lit(draft.literal))
}

/// The operator stands between the last two operands.
pub fn make_binary(draft: &mut Draft, alloc: Global, op: Op) -> Result<(), AllocError>
    ensures { OnOk result (draft.new ≡ record draft.old { operands = spec.with_binary op draft.old.operands }) }
{
    with_binary(alloc, op, &mut draft.operands)
}

/// The last three operands are the condition and what follows from it.
pub fn make_if(draft: &mut Draft, alloc: Global) -> Result<(), AllocError>
    ensures { OnOk result (draft.new ≡ record draft.old { operands = spec.with_if draft.old.operands }) }
{
    with_if(alloc, &mut draft.operands)
}
