//! The calls of a phase of one caller.
ghost use Rattle.std.specs.Prelude.{◌≡◌, ◌≢◌, ◌≤◌, ◌<◌, ◌+◌, ◌⊎◌, ℕ, true, List, length, slice_get, Some, IsSomeAnd};
ghost use Rattle.values.specs.declared.plan.Kind.TheVariants as kind;
ghost use Rattle.values.specs.declared.plan.Noted.{Noted as NotedValue};
ghost use Rattle.script_items.specs.Script.{numbered};
ghost use Rattle.run_history.specs.Going.{Start, Going};
ghost use Rattle.run_history.specs.Calls.{set, get, pump, dispose, edit, Calls};
ghost use Rattle.phase_graph.specs.Graph.{StaysOpen, AreRunOrLeft, edits_with};
ghost use Rattle.phase_graph.specs.Way.{IsOnWay, AreHome};

use crate::edits::edit_in;
use crate::graph::Graph;
use store_fields::Edit;
use values::{Code, Disposal, Pumped, Stop};

impl Graph {
    /// Writes the value to a signal or a field, and answers its number. `Disposed` where the row's owner is disposed,
    /// and `Full` where the number is above the last of a phase.
    pub fn set(&mut self, signal: u32, code: Code) -> Result<u32, Stop>
        requires open { self.old.is_open ≡ true }
        requires row { IsSomeAnd (slice_get self.old.plan.nodes signal) (λ node. (node.kind ≡ kind.Signal) ⊎ (node.kind ≡ kind.Field)) }
        ensures stays { StaysOpen self.old self.new }
        ensures edits { self.new.edits ≡ self.old.edits }
        ensures live { self.new.live ≡ self.old.live }
        ensures call { (s : Start) (g : Going) (pass : ℕ) → IsOnWay s g self.old → (block : List NotedValue) × (h : Going) × Calls s g block h pass (set signal code result) × IsOnWay s h self.new }
    {
        self.table.set(signal, code)
    }

    /// The value of a row that is no effect, and the number under which it came in this phase: 0 for the value that the
    /// phase opened with. `Disposed` where the row's owner is disposed, and `Full` where a memo's new value found a
    /// number above the last of a phase.
    pub fn get(&mut self, node: u32) -> Result<(Code, u32), Stop>
        requires open { self.old.is_open ≡ true }
        requires row { IsSomeAnd (slice_get self.old.plan.nodes node) (λ n. n.kind ≢ kind.Effect) }
        ensures stays { StaysOpen self.old self.new }
        ensures edits { self.new.edits ≡ self.old.edits }
        ensures live { self.new.live ≡ self.old.live }
        ensures call { (s : Start) (g : Going) (pass : ℕ) → IsOnWay s g self.old → (block : List NotedValue) × (h : Going) × Calls s g block h pass (get node result) × IsOnWay s h self.new }
    {
        self.table.get(node)
    }

    /// Runs each effect that needs a run, in order of row. An effect whose owner is disposed is passed over. One that
    /// finds no number is left for a later call, and is dirty then.
    pub fn pump(&mut self) -> Pumped
        requires open { self.old.is_open ≡ true }
        ensures stays { StaysOpen self.old self.new }
        ensures edits { self.new.edits ≡ self.old.edits }
        ensures live { self.new.live ≡ self.old.live }
        ensures effects { AreRunOrLeft self.old.plan.nodes self.old.live self.new.rows }
        ensures call { (s : Start) (g : Going) (pass : ℕ) → AreHome s → IsOnWay s g self.old → (block : List NotedValue) × (h : Going) × Calls s g block h pass (pump result) × IsOnWay s h self.new }
    {
        self.table.pump()
    }

    /// Disposes the owner and all owners inside it, inner ones first. It takes the time of the owners from this one on.
    pub fn dispose(&mut self, owner: u32) -> Disposal
        requires open { self.old.is_open ≡ true }
        requires owner { owner < length self.old.plan.owners }
        ensures stays { StaysOpen self.old self.new }
        ensures edits { self.new.edits ≡ self.old.edits }
        ensures call { (s : Start) (g : Going) (pass : ℕ) → IsOnWay s g self.old → (block : List NotedValue) × (h : Going) × Calls s g block h pass (dispose owner result) × IsOnWay s h self.new }
    {
        self.table.dispose(self.inside.as_mut_slice(), owner)
    }

    /// Notes the edit of what the owner owns, as one of this pass, and answers its number. `Disposed` where the owner
    /// is disposed, and `Full` where the number is above the last of a phase.
    pub fn edit(&mut self, pass: u32, owner: u32, asked: Edit) -> Result<u32, Stop>
        requires open { self.old.is_open ≡ true }
        requires owner { owner < length self.old.plan.owners }
        requires pass { IsSomeAnd (numbered self.old.edits pass) (λ edits. length edits < self.old.edit_room) }
        ensures stays { StaysOpen self.old self.new }
        ensures live { self.new.live ≡ self.old.live }
        ensures edits { self.new.edits ≡ edits_with self.old.edits pass asked result }
        ensures call { (s : Start) (g : Going) → IsOnWay s g self.old → (block : List NotedValue) × (h : Going) × Calls s g block h pass (edit owner asked result) × IsOnWay s h self.new }
    {
        let list = &mut self.edits[pass as usize - 1];
        edit_in(&mut self.table, list, pass, owner, asked)
    }
}
