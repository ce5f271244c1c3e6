//! What a graph begins with.
ghost use Rattle.std.specs.Prelude.{◌≡◌, ◌<◌, ◌≤◌, ◌+◌, [], length, slice_get, Some, None, ℕ, IfOk, IfSome};
ghost use Rattle.values.specs.declared.plan.PlanNode.{PlanNode as NodeValue};
ghost use Rattle.values.specs.Plan.{rows_in};
ghost use Rattle.sources.specs.Rows.{IsGood, IsDated, IsRoomy};
ghost use Rattle.still_readers.specs.Building.{weight};
ghost use Rattle.still_rows.specs.Works.{IsWorkOf};
ghost use Rattle.still_rows.specs.Fresh.{IsFreshRow, AreFreshRows, fresh_colour};

use crate::calls::Work;
use crate::stack::Stack;
use sources::{Body, Colour, Opened};
use std::alloc::Global;
use still_readers::Marking;
use values::{Code, Expr, NoMemory, PlanNode, Reserved};

impl Work {
    /// What the calls over the rows of these nodes work with.
    pub fn new(alloc: Global, nodes: &[PlanNode]) -> Result<Work, NoMemory>
        requires { length nodes.now ≤ 4096 }
        ensures { IfOk result (λ work. IsWorkOf nodes.now work) }
    {
        let most = most_names(nodes)?;
        Ok(Work {
            frames: Stack::new(alloc)?,
            reads: Reserved::with_room(alloc, most)?,
            marking: Marking::new(alloc, nodes.len() as u32)?,
        })
    }
}

/// How many times the expression that names most names rows.
fn most_names(nodes: &[PlanNode]) -> Result<usize, NoMemory>
    ensures { IfOk result (λ most. (i : ℕ) (node : NodeValue) → slice_get nodes.now i ≡ Some node → length (rows_in node.expr) ≤ most) }
{
    let mut most = 0;
    for node in nodes {
        most = larger(most, count_names(&node.expr).ok_or(NoMemory)?);
    }
    Ok(most)
}

fn larger(a: usize, b: usize) -> usize
    ensures first { a ≤ result }
    ensures second { b ≤ result }
{
    if a < b { b } else { a }
}

/// How many times the expression names rows, where a `usize` counts it.
fn count_names(expr: &Expr) -> Option<usize>
    ensures { IfSome result (λ count. count ≡ length (rows_in expr.now)) }
{
    match expr {
        Expr::Lit(_) => Some(0),
        Expr::Read(_) => Some(1),
        Expr::Binary(_, left, right) => {
            let left = count_names(left.get())?;
            let right = count_names(right.get())?;
            sum(left, right)
        }
        Expr::If(test, first, second) => {
            let test = count_names(test.get())?;
            let first = count_names(first.get())?;
            let second = count_names(second.get())?;
            let both = sum(test, first)?;
            sum(both, second)
        }
    }
}

fn sum(a: usize, b: usize) -> Option<usize>
    ensures { IfSome result (λ sum. sum ≡ a + b) }
{
    a.checked_add(b)
}

/// The rows of these nodes before anything is written: all are empty, each memo and effect is dirty and
/// never ran, and its body has room for all that its expression names.
pub fn fresh_rows(alloc: Global, nodes: &[PlanNode]) -> Result<Vec<Opened>, NoMemory>
    ensures good { IfOk result (λ rows. IsGood nodes.now rows.items) }
    ensures dated { IfOk result (λ rows. IsDated rows.items 0) }
    ensures roomy { IfOk result (λ rows. IsRoomy nodes.now rows.items) }
    ensures fresh { IfOk result (λ rows. AreFreshRows nodes.now (length nodes.now) rows.items) }
{
    let mut rows = Vec::with_capacity(alloc, nodes.len())?;
    for node in nodes {
        rows.push(fresh_row(alloc, node)?)?;
    }
    Ok(rows)
}

fn fresh_row(alloc: Global, node: &PlanNode) -> Result<Opened, NoMemory>
    ensures { IfOk result (IsFreshRow node.now) }
{
    let count = count_names(&node.expr).ok_or(NoMemory)?;
    let room = u32::try_from(count).ok().ok_or(NoMemory)?;
    Ok(Opened {
        code: Code::Empty.pack(),
        version: 0,
        colour: first_colour(node.kind.is_derived()),
        body: Body::new(alloc, room)?,
    })
}

fn first_colour(derived: bool) -> Colour
    ensures { result ≡ fresh_colour derived }
{
    if derived {
        Colour::Dirty
    } else {
        Colour::Clean
    }
}
