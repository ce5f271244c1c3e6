//! What is done between phases.
ghost use Rattle.std.specs.Prelude.{◌≡◌, ◌≢◌, ◌≤◌, ◌<◌, ◌+◌, ◌-◌, ◌^◌, ℕ, true, false, [], length, slice_get, Some, None, IfOk, OnOk, OnErr};
ghost use Rattle.values.specs.declared.plan.Kind.TheVariants as kind;
ghost use Rattle.values.specs.declared.plan.PlanNode.{PlanNode as NodeValue};
ghost use Rattle.values.specs.Packing.{unpacked};
ghost use Rattle.values.specs.Plan.{IsLawful};
ghost use Rattle.values.specs.PlanValues.{is_derived, plan_value};
ghost use Rattle.sources.specs.declared.opening.Opened.{Opened as OpenedValue};
ghost use Rattle.sources.specs.Colours.{is_clean};
ghost use Rattle.sources.specs.Rows.{value_in};
ghost use Rattle.run_history.specs.Going.{Start, just_opened};
ghost use Rattle.phase_graph.specs.Graph.{ticks_of, AreSettledTo};
ghost use Rattle.phase_graph.specs.Way.{IsOnWay, OpensWith, no_edits};
ghost use Rattle.phase_graph.specs.Table.{HaveRoom, edit_lists};

use crate::graph::Graph;
use crate::table::Table;
use std::alloc::Global;
use still_rows::PHASE_ROOM;
use store_fields::Edit;
use values::{Code, Facts, NoMemory, Plan, Reserved};

impl Graph {
    /// The graph of a plan before anything ran: each source has its value of `codes`, and each memo and effect is
    /// dirty. `live` says of each owner whether it is live.
    pub fn new(
        alloc: Global,
        plan: Plan,
        live: Vec<bool>,
        codes: &[Code],
    ) -> Result<Graph, NoMemory>
        requires lawful { IsLawful plan }
        requires owners { length live.items ≡ length plan.owners }
        requires paired { length codes.now ≡ length plan.nodes }
        ensures plan { IfOk result (λ graph. graph.plan ≡ plan) }
        ensures live { IfOk result (λ graph. graph.live ≡ live.items) }
        ensures open { IfOk result (λ graph. graph.is_open ≡ false) }
        ensures base { IfOk result (λ graph. graph.base ≡ 0) }
        ensures drawn { IfOk result (λ graph. graph.drawn ≡ 0) }
        ensures paired { IfOk result (λ graph. length graph.rows ≡ length plan.nodes) }
        ensures sources { IfOk result (λ graph. (n : ℕ) (node : NodeValue) (row : OpenedValue) → slice_get plan.nodes n ≡ Some node → slice_get graph.rows n ≡ Some row → is_derived node.kind ≡ false → slice_get codes.now n ≡ Some (unpacked row.code)) }
        ensures derived { IfOk result (λ graph. (n : ℕ) (node : NodeValue) (row : OpenedValue) → slice_get plan.nodes n ≡ Some node → slice_get graph.rows n ≡ Some row → is_derived node.kind ≡ true → row.body.cause ≡ None) }
    {
        let table = Table::new(alloc, plan, live, codes)?;
        let inside = vec![in alloc; false; table.live.len()]?;
        Ok(Graph {
            table,
            edits: Vec::new(alloc),
            edit_room: 0,
            idle: None,
            inside,
            renewed: true,
        })
    }

    /// Brings every memo up to date. No effect runs. It takes no memory and always succeeds.
    pub fn settle(&mut self)
        requires closed { self.old.is_open ≡ false }
        requires few { self.old.drawn ≤ 61440 }
        requires ticks { self.old.base < 2 ^ 62 }
        ensures rest { self.new ≡ record self.old { rows = self.new.rows; drawn = self.new.drawn } }
        ensures ticks { self.old.drawn ≤ self.new.drawn × self.new.drawn ≤ self.old.drawn + length self.old.plan.nodes }
        ensures memos { (n : ℕ) (node : NodeValue) (row : OpenedValue) → slice_get self.old.plan.nodes n ≡ Some node → slice_get self.new.rows n ≡ Some row → node.kind ≡ kind.Memo → (is_clean row.colour ≡ true) × (unpacked row.code ≡ plan_value self.old.plan.nodes (value_in self.old.rows) n) }
        ensures sources { (n : ℕ) (node : NodeValue) → slice_get self.old.plan.nodes n ≡ Some node → is_derived node.kind ≡ false → slice_get self.new.rows n ≡ slice_get self.old.rows n }
        ensures effects { (n : ℕ) (node : NodeValue) → slice_get self.old.plan.nodes n ≡ Some node → node.kind ≡ kind.Effect → slice_get self.new.rows n ≡ slice_get self.old.rows n }
        ensures values { plan_value self.old.plan.nodes (value_in self.new.rows) ≡ plan_value self.old.plan.nodes (value_in self.old.rows) }
    {
        self.table.settle();
    }

    /// Brings the memos of the rows from one up to another up to date, where all memos before them are. Only these rows
    /// are touched, and no effect runs. It takes no memory and always succeeds.
    pub fn settle_span(&mut self, from: u32, to: u32)
        requires closed { self.old.is_open ≡ false }
        requires few { self.old.drawn ≤ 61440 }
        requires ticks { self.old.base < 2 ^ 62 }
        requires span { from ≤ to }
        requires within { to ≤ length self.old.plan.nodes }
        requires behind { AreSettledTo self.old.plan.nodes self.old.rows from }
        ensures rest { self.new ≡ record self.old { rows = self.new.rows; drawn = self.new.drawn } }
        ensures ticks { (self.old.drawn ≤ self.new.drawn) × (self.new.drawn ≤ self.old.drawn + (to - from)) }
        ensures long { length self.new.rows ≡ length self.old.rows }
        ensures memos { (n : ℕ) (node : NodeValue) (row : OpenedValue) → n < to → slice_get self.old.plan.nodes n ≡ Some node → slice_get self.new.rows n ≡ Some row → node.kind ≡ kind.Memo → (is_clean row.colour ≡ true) × (unpacked row.code ≡ plan_value self.old.plan.nodes (value_in self.old.rows) n) }
        ensures below { (n : ℕ) → n < from → slice_get self.new.rows n ≡ slice_get self.old.rows n }
        ensures past { (n : ℕ) → to ≤ n → slice_get self.new.rows n ≡ slice_get self.old.rows n }
        ensures sources { (n : ℕ) (node : NodeValue) → slice_get self.old.plan.nodes n ≡ Some node → is_derived node.kind ≡ false → slice_get self.new.rows n ≡ slice_get self.old.rows n }
        ensures effects { (n : ℕ) (node : NodeValue) → slice_get self.old.plan.nodes n ≡ Some node → node.kind ≡ kind.Effect → slice_get self.new.rows n ≡ slice_get self.old.rows n }
        ensures values { plan_value self.old.plan.nodes (value_in self.new.rows) ≡ plan_value self.old.plan.nodes (value_in self.old.rows) }
    {
        self.table.settle_span(from, to);
    }

    /// Counts anew from here: the count of ticks is the base, and no number is drawn yet. Where a source gets another
    /// value from here on, who read it before, and not in its last run, is no reader of it any more. It takes no memory.
    pub fn rebase(&mut self)
        requires closed { self.old.is_open ≡ false }
        requires ticks { ticks_of self.old < 2 ^ 62 }
        ensures { self.new ≡ record self.old { base = ticks_of self.old; drawn = 0 } }
    {
        self.renewed = false;
        self.table.rebase();
    }

    /// Opens a phase of so many passes, each of which may note so many edits. All memory that the calls of the phase
    /// need is taken here. Who read what in an earlier phase, and not in its last run, is no reader any more. After want
    /// of memory the graph is as it was.
    pub fn begin(&mut self, alloc: Global, passes: u32, edits: u32) -> Result<(), NoMemory>
        requires closed { self.old.is_open ≡ false }
        requires passes { 1 ≤ passes × passes ≤ 16 }
        requires edits { edits ≤ 65537 }
        requires ticks { ticks_of self.old < 2 ^ 62 }
        ensures opened { OnOk result (self.new ≡ record self.old { base = ticks_of self.old; drawn = 0; is_open = true; entries = []; edits = no_edits passes; edit_room = edits }) }
        ensures way { OnOk result ((s : Start) → OpensWith s self.old → IsOnWay s just_opened self.new) }
        ensures unchanged { OnErr result (self.new ≡ self.old) }
    {
        let entries = Reserved::with_room(alloc, PHASE_ROOM)?;
        let lists = empty_lists(alloc, passes, edits as usize)?;
        self.edits = lists;
        self.edit_room = edits as usize;
        self.table.subscribe();
        self.idle = Some(self.table.begin(entries));
        Ok(())
    }

    /// Ends the phase that is open, and gives what was noted in it. The edits stay.
    pub fn end(&mut self) -> Facts
        requires open { self.old.is_open ≡ true }
        ensures entries { result ≡ self.old.entries }
        ensures few { self.old.drawn < 2 ^ 31 }
        ensures closed { self.new ≡ record self.old { base = ticks_of self.old; drawn = 0; is_open = false; entries = [] } }
    {
        match self.idle.take() {
            Some(idle) => self.table.end(idle).into_sequence(),
            None => unreachable!(),
        }
    }
}

/// So many empty lists, each with room for so many edits.
#[tactic(auto, using(crate::proofs::Lists::lists_more, crate::proofs::Lists::room_more))]
fn empty_lists(alloc: Global, count: u32, room: usize) -> Result<Vec<Reserved<Edit>>, NoMemory>
    ensures lists { IfOk result (λ lists. edit_lists lists.items ≡ no_edits count) }
    ensures room { IfOk result (λ lists. HaveRoom lists.items room) }
{
    let mut lists = Vec::with_capacity(alloc, count as usize)?;
    for _ in 0..count {
        lists.push(Reserved::with_room(alloc, room)?)?;
    }
    Ok(lists)
}
