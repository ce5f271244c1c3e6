//! A phase of writes and reads.
ghost use Rattle.std.specs.Prelude.{◌≡◌, ◌≢◌, ◌≤◌, ◌<◌, ◌^◌, ◌⊎◌, ℕ, List, length, replicate, slice_get, OnOk, OnErr, IsSomeAnd};
ghost use Rattle.values.specs.declared.plan.Kind.TheVariants as kind;
ghost use Rattle.values.specs.declared.plan.Noted.{Noted as NotedValue};
ghost use Rattle.run_meaning.specs.Phase.{Phase};
ghost use Rattle.run_history.specs.Going.{Going, just_opened};
ghost use Rattle.script_items.specs.Script.{numbered};
ghost use Rattle.run_history.specs.Calls.{Call, set, get, pump, dispose, edit, Calls};
ghost use Rattle.phase_graph.specs.Graph.{ticks_of, StaysOpen, edits_with};
ghost use Rattle.phase_graph.specs.Way.{no_edits};
ghost use Rattle.phase_edits.specs.Posts.{ArePosted};
ghost use Rattle.still_graph.specs.Still.{opened_in, start_in, IsSettledAfter, IsOpenAt, HasEnded};

use crate::still::{Stage, Still};
use std::alloc::Global;
use store_fields::Edit;
use values::{Code, Disposal, NoMemory, Pumped, Stop};

impl Still {
    /// Opens a phase of so many passes, each of which may note so many edits. All memory of the phase is taken here.
    /// After want of memory the graph is as it was.
    pub fn begin(&mut self, alloc: Global, passes: u32, edits: u32) -> Result<(), NoMemory>
        requires settled { self.old.stage ≡ Stage.Settled }
        requires passes { 1 ≤ passes × passes ≤ 16 }
        requires edits { edits ≤ 65537 }
        requires ticks { ticks_of self.old.graph < 2 ^ 62 }
        ensures opened { OnOk result ((past : List Phase) → IsSettledAfter past self.old → IsOpenAt past just_opened self.new) }
        ensures rest { OnOk result (self.new ≡ record self.old { stage = Stage.Open; graph = self.new.graph }) }
        ensures base { OnOk result (self.new.graph.base ≡ ticks_of self.old.graph) }
        ensures passes_are { OnOk result (self.new.graph.edits ≡ no_edits passes) }
        ensures room { OnOk result (self.new.graph.edit_room ≡ edits) }
        ensures unchanged { OnErr result (self.new ≡ self.old) }
    {
        self.journal.ready()?;
        self.graph.begin(alloc, passes, edits)?;
        self.stage = Stage::Open;
        Ok(())
    }

    /// Writes the value to a signal or a field, and answers its number. `Disposed` where the row's owner is disposed,
    /// and `Full` where the number is above the last of a phase.
    pub fn set(&mut self, signal: u32, code: Code) -> Result<u32, Stop>
        requires open { self.old.stage ≡ Stage.Open }
        requires row { IsSomeAnd (slice_get self.old.graph.plan.nodes signal) (λ node. (node.kind ≡ kind.Signal) ⊎ (node.kind ≡ kind.Field)) }
        ensures rest { self.new ≡ record self.old { graph = self.new.graph } }
        ensures stays { StaysOpen self.old.graph self.new.graph }
        ensures edits { self.new.graph.edits ≡ self.old.graph.edits }
        ensures call { (past : List Phase) (g : Going) (pass : ℕ) → IsOpenAt past g self.old → (block : List NotedValue) × (h : Going) × Calls (start_in past self.old) g block h pass (set signal code result) × IsOpenAt past h self.new }
    {
        self.graph.set(signal, code)
    }

    /// The value of a row that is no effect, and the number under which it came in this phase: 0 for the value that the
    /// phase opened with. `Disposed` where the row's owner is disposed, and `Full` where a memo's new value found a
    /// number above the last of a phase.
    pub fn get(&mut self, node: u32) -> Result<(Code, u32), Stop>
        requires open { self.old.stage ≡ Stage.Open }
        requires row { IsSomeAnd (slice_get self.old.graph.plan.nodes node) (λ n. n.kind ≢ kind.Effect) }
        ensures rest { self.new ≡ record self.old { graph = self.new.graph } }
        ensures stays { StaysOpen self.old.graph self.new.graph }
        ensures edits { self.new.graph.edits ≡ self.old.graph.edits }
        ensures call { (past : List Phase) (g : Going) (pass : ℕ) → IsOpenAt past g self.old → (block : List NotedValue) × (h : Going) × Calls (start_in past self.old) g block h pass (get node result) × IsOpenAt past h self.new }
    {
        self.graph.get(node)
    }

    /// Runs each effect that needs a run, in order of row. An effect whose owner is disposed is passed over. One that
    /// finds no number is left for a later call.
    pub fn pump(&mut self) -> Pumped
        requires open { self.old.stage ≡ Stage.Open }
        ensures rest { self.new ≡ record self.old { graph = self.new.graph } }
        ensures stays { StaysOpen self.old.graph self.new.graph }
        ensures edits { self.new.graph.edits ≡ self.old.graph.edits }
        ensures call { (past : List Phase) (g : Going) (pass : ℕ) → IsOpenAt past g self.old → (block : List NotedValue) × (h : Going) × Calls (start_in past self.old) g block h pass (pump result) × IsOpenAt past h self.new }
    {
        self.graph.pump()
    }

    /// Disposes the owner and all owners inside it, inner ones first. It takes the time of the owners from this one on.
    pub fn dispose(&mut self, owner: u32) -> Disposal
        requires open { self.old.stage ≡ Stage.Open }
        requires owner { owner < length self.old.graph.plan.owners }
        ensures rest { self.new ≡ record self.old { graph = self.new.graph } }
        ensures stays { StaysOpen self.old.graph self.new.graph }
        ensures edits { self.new.graph.edits ≡ self.old.graph.edits }
        ensures call { (past : List Phase) (g : Going) (pass : ℕ) → IsOpenAt past g self.old → (block : List NotedValue) × (h : Going) × Calls (start_in past self.old) g block h pass (dispose owner result) × IsOpenAt past h self.new }
    {
        self.graph.dispose(owner)
    }

    /// Notes the edit of what the owner owns, as one of this pass, and answers its number. It is made when the phase is
    /// settled. `Disposed` where the owner is disposed, and `Full` where the number is above the last of a phase.
    pub fn edit(&mut self, pass: u32, owner: u32, asked: Edit) -> Result<u32, Stop>
        requires open { self.old.stage ≡ Stage.Open }
        requires owner { owner < length self.old.graph.plan.owners }
        requires pass { IsSomeAnd (numbered self.old.graph.edits pass) (λ edits. length edits < self.old.graph.edit_room) }
        ensures rest { self.new ≡ record self.old { graph = self.new.graph } }
        ensures stays { StaysOpen self.old.graph self.new.graph }
        ensures edits { self.new.graph.edits ≡ edits_with self.old.graph.edits pass asked result }
        ensures call { (past : List Phase) (g : Going) → IsOpenAt past g self.old → (block : List NotedValue) × (h : Going) × Calls (start_in past self.old) g block h pass (edit owner asked result) × IsOpenAt past h self.new }
    {
        self.graph.edit(pass, owner, asked)
    }
}

impl Still {
    ghost use Rattle.run_journal.specs.Journal.{no_counts};

    /// Ends the phase that is open, and puts it into the journal. It takes no memory.
    pub fn end(&mut self)
        requires open { self.old.stage ≡ Stage.Open }
        ensures component { self.new.component ≡ self.old.component }
        ensures state { self.new.state ≡ self.old.state }
        ensures ticks { ticks_of self.new.graph ≡ ticks_of self.old.graph }
        ensures verdicts { self.new.verdicts ≡ self.old.verdicts }
        ensures few { self.old.graph.drawn < 2 ^ 31 }
        ensures ended { (past : List Phase) (p : Phase) → p.opened ≡ opened_in self.old → IsOpenAt past (record { drawn = p.drawn; entries = p.entries }) self.old → p.base ≡ self.old.graph.base
            → p.counts ≡ replicate (length self.old.graph.edits) no_counts → ArePosted p.lanes self.old.graph.edits → HasEnded past p self.new }
    {
        let base = self.graph.base();
        let counted = self.graph.passes();
        let passes = counted as usize;
        let entries = self.graph.end();
        self.journal.push(base, entries, passes);
        self.stage = Stage::Ended;
    }
}
