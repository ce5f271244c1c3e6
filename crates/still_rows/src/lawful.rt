//! Whether nodes are those of a lawful plan.
ghost use Rattle.std.specs.Prelude.{◌≡◌, ◌<◌, ◌≤◌, true, false, length, slice_get, Some};
ghost use Rattle.values.specs.Plan.{rows_in, MayRead};
ghost use Rattle.still_readers.specs.Building.{weight};
ghost use Rattle.still_rows.specs.Frames.{AreLawful, NamesLawfully};

use values::{Expr, Kind, PlanNode};

/// As many nodes a plan has at most.
const MOST: usize = 4_096;

/// Whether there are at most 4,096 nodes, and each expression names rows before its node alone, and no
/// effect.
pub fn is_lawful(nodes: &[PlanNode]) -> bool
    ensures lawful { result ≡ true → AreLawful nodes.now }
    ensures unlawful { result ≡ false → ¬ AreLawful nodes.now }
{
    if nodes.len() > MOST {
        return false;
    }
    for (at, node) in nodes.iter().enumerate() {
        if !names_lawfully(nodes, at, &node.expr) {
            return false;
        }
    }
    true
}

fn names_lawfully(nodes: &[PlanNode], at: usize, expr: &Expr) -> bool
    ensures lawful { result ≡ true → NamesLawfully nodes.now at expr.now }
    ensures unlawful { result ≡ false → ¬ NamesLawfully nodes.now at expr.now }
{
    match expr {
        Expr::Lit(_) => true,
        Expr::Read(row) => may_read(nodes, at, *row),
        Expr::Binary(_, left, right) => {
            if !names_lawfully(nodes, at, left.get()) {
                return false;
            }
            names_lawfully(nodes, at, right.get())
        }
        Expr::If(test, first, second) => {
            if !names_lawfully(nodes, at, test.get()) {
                return false;
            }
            if !names_lawfully(nodes, at, first.get()) {
                return false;
            }
            names_lawfully(nodes, at, second.get())
        }
    }
}

fn may_read(nodes: &[PlanNode], at: usize, row: u32) -> bool
    ensures may { result ≡ true → MayRead nodes.now at row }
    ensures may_not { result ≡ false → ¬ MayRead nodes.now at row }
{
    if row as usize >= at {
        return false;
    }
    match nodes.get(row as usize) {
        Some(node) => node.kind != Kind::Effect,
        None => false,
    }
}
