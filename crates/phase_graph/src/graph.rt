//! The graph over the rows of a plan.
ghost use Rattle.std.specs.Prelude.{◌≡◌, ℕ, false, Some, map, length, slice_get, slice_index_or, option_map};
ghost use Rattle.std.specs.Option.{option_copied};
ghost use Rattle.values.specs.Packing.{unpacked, IsPacked};
ghost use Rattle.sources.specs.declared.opening.Opened.{Opened as OpenedValue};
ghost use Rattle.phase_graph.specs.Graph.{ticks_of};

use crate::table::Table;
use sources::Opened;
use std::marker::Model;
use store_fields::Edit;
use values::{Code, Noted, Plan, Reserved};

/// The rows of a plan, with all that the calls of a phase work with. Contracts see the rows, the owners, and what
/// was noted in the phase that is open.
#[derive(Drop)]
pub struct Graph {
    pub(crate) table: Table,
    pub(crate) edits: Vec<Reserved<Edit>>,
    pub(crate) edit_room: usize,
    /// While a phase is open, the list that takes the place of its entries when it ends.
    pub(crate) idle: Option<Reserved<Noted>>,
    /// What a disposal works with: whether each owner is in its area.
    pub(crate) inside: Vec<bool>,
    /// Between phases, whether it was made exact who has read what since numbers were last counted anew.
    pub(crate) renewed: bool,
}

impl Model for Graph {
    ghost use Rattle.std.specs.Coded.{codes};
    ghost use Rattle.values.specs.contracts.expr.Expr as expr;
    ghost use Rattle.phase_graph.specs.Graph.{GraphState};
    ghost use Rattle.phase_graph.specs.Table.{IsGraph, seen, edit_lists};

    ghost Value = { GraphState };

    ghost coded = { Prim.hlevel (codes, expr.the_row.coded) };

    ghost view = { λ g. seen g.table (edit_lists g.edits.items) g.edit_room };

    ghost invariant = { λ g. IsGraph g.table g.edits.items g.edit_room g.idle g.inside.items };
}

impl Graph {
    /// The plan.
    pub fn plan(&self) -> &Plan
        ensures plan { result.now ≡ self.now.plan }
        ensures paired { length self.now.rows ≡ length self.now.plan.nodes }
        ensures owned { length self.now.live ≡ length self.now.plan.owners }
    {
        &self.table.plan
    }

    /// The rows, in order.
    pub fn rows(&self) -> &[Opened]
        ensures rows { result.now ≡ self.now.rows }
        ensures packed { (n : ℕ) (row : OpenedValue) → slice_get self.now.rows n ≡ Some row → IsPacked row.code }
    {
        self.table.rows.as_slice()
    }

    /// What is kept of a row. `None` exactly where there is no such row.
    pub fn row(&self, row: u32) -> Option<&Opened>
        ensures { option_copied result ≡ slice_get self.now.rows row }
    {
        self.table.rows.get(row as usize)
    }

    /// The value of a row. `None` exactly where there is no such row.
    pub fn value(&self, row: u32) -> Option<Code>
        ensures { result ≡ option_map (λ kept. unpacked kept.code) (slice_get self.now.rows row) }
    {
        let kept = self.table.rows.get(row as usize)?;
        Code::unpack(kept.code)
    }

    /// Whether an owner is live. One that isn't there is not.
    pub fn is_live(&self, owner: u32) -> bool
        ensures { result ≡ slice_index_or self.now.live owner false }
    {
        self.table
            .live
            .get(owner as usize)
            .copied()
            .unwrap_or(false)
    }

    /// The edits that each pass has noted, in order.
    pub fn posts(&self) -> &[Reserved<Edit>]
        ensures { map (λ post. post.list) result.now ≡ self.now.edits }
    {
        self.edits.as_slice()
    }

    /// The count of ticks.
    pub fn ticks(&self) -> u64
        ensures { result ≡ ticks_of self.now }
    {
        self.table.clock.base + u64::from(self.table.clock.drawn)
    }

    /// The count of ticks when the phase opened, or, between phases, when the last one ended.
    pub fn base(&self) -> u64
        ensures { result ≡ self.now.base }
    {
        self.table.clock.base
    }

    /// How many passes the phase was opened with, or the last one.
    pub fn passes(&self) -> u32
        ensures { result ≡ length self.now.edits }
    {
        self.edits.len() as u32
    }
}
