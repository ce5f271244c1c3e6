//! The readers of a plan, laid out.
ghost use Rattle.std.specs.Prelude.{◌≡◌, ◌≤◌, ◌<◌, ◌+◌, ◌++◌, ◌∷◌, [], replicate, length, slice_get, slice_set, None, Some, OnOk, IfOk, IfSome, IfNone, Option, ℕ};
ghost use Rattle.values.specs.PlanValues.{is_derived};
ghost use Rattle.still_readers.specs.Readers.{IsReadersOf, IsLast, IsChained};
ghost use Rattle.still_readers.specs.Building.{IsUnread, IsGrown, HasAll, NamedIn, NamedBy, IsOne, IsLinked, IsBegun};

use crate::readers::{Reader, Readers, Span};
use std::alloc::Global;
use values::{Expr, NoMemory, PlanNode, Sequence};

impl Readers {
    /// The readers of these nodes. Nobody has read anything yet.
    pub fn new(alloc: Global, nodes: &[PlanNode]) -> Result<Readers, NoMemory>
        requires { length nodes.now ≤ 4096 }
        ensures of_plan { IfOk result (λ readers. IsReadersOf nodes.now readers) }
        ensures unread { IfOk result (λ readers. IsUnread readers.list) }
    {
        let mut readers = Readers::with_rows(alloc, nodes.len())?;
        for node in nodes {
            readers.add_node(node, nodes)?;
        }
        Ok(readers)
    }

    /// So many rows, and no reader.
    fn with_rows(alloc: Global, count: usize) -> Result<Readers, NoMemory>
        ensures list { IfOk result (λ readers. readers.list ≡ []) }
        ensures spans { IfOk result (λ readers. readers.spans ≡ []) }
        ensures last { IfOk result (λ readers. readers.last ≡ replicate count None) }
    {
        let last = vec![in alloc; None; count]?;
        Ok(Readers {
            list: Sequence::new(alloc),
            last: Sequence::from_vec(last),
            spans: Sequence::new(alloc),
        })
    }

    /// The readers of the next node.
    fn add_node(&mut self, node: &PlanNode, _nodes: &[PlanNode]) -> Result<(), NoMemory>
        requires few { length _nodes.now ≤ 4096 }
        requires begun { IsBegun _nodes.now (length self.old.spans) self.old }
        requires node { slice_get _nodes.now (length self.old.spans) ≡ Some node.now }
        ensures { OnOk result (IsBegun _nodes.now (length self.old.spans + 1) self.new) }
    {
        let from = self.list.len();
        let at = self.spans.len() as u32;
        self.add_derived(at, node)?;
        let to = self.list.len();
        self.spans.push(Span { from, to })
    }

    /// The rows that a derived node names.
    fn add_derived(&mut self, at: u32, node: &PlanNode) -> Result<(), NoMemory>
        ensures grown { OnOk result (IsGrown at (NamedBy node.now) self.old self.new) }
        ensures all { OnOk result (HasAll (NamedBy node.now) (length self.old.list) self.new) }
    {
        let from = self.list.len();
        if node.kind.is_derived() {
            return self.add_names(at, &node.expr, from);
        }
        Ok(())
    }

    /// The rows that an expression names, where those from a place on are of the same node.
    fn add_names(&mut self, node: u32, expr: &Expr, from: usize) -> Result<(), NoMemory>
        requires { from ≤ length self.old.list }
        ensures grown { OnOk result (IsGrown node (NamedIn expr.now) self.old self.new) }
        ensures all { OnOk result (HasAll (NamedIn expr.now) from self.new) }
    {
        match expr {
            Expr::Lit(_) => Ok(()),
            Expr::Read(row) => self.add_reader(node, *row, from),
            Expr::Binary(_, left, right) => {
                self.add_names(node, left.get(), from)?;
                self.add_names(node, right.get(), from)
            }
            Expr::If(test, first, second) => {
                self.add_names(node, test.get(), from)?;
                self.add_names(node, first.get(), from)?;
                self.add_names(node, second.get(), from)
            }
        }
    }

    /// One row, where it does not stand there.
    fn add_reader(&mut self, node: u32, row: u32, from: usize) -> Result<(), NoMemory>
        requires { from ≤ length self.old.list }
        ensures grown { OnOk result (IsGrown node (IsOne row) self.old self.new) }
        ensures all { OnOk result (HasAll (IsOne row) from self.new) }
    {
        if row as usize >= self.last.len() {
            return Ok(());
        }
        match self.place_from(from, self.list.len(), row) {
            Some(_) => Ok(()),
            None => self.link(node, row),
        }
    }

    fn link(&mut self, node: u32, row: u32) -> Result<(), NoMemory>
        requires { row < length self.old.last }
        ensures { OnOk result ((before : Option ℕ) → slice_get self.old.last row ≡ Some before → IsLinked node row before self.old self.new) }
    {
        let before = self.last.as_slice()[row as usize];
        let place = self.list.len();
        self.list.push(Reader {
            node,
            row,
            before,
            enrolled: false,
        })?;
        self.last.set(row as usize, Some(place));
        Ok(())
    }
}
