//! Scripts.
ghost use Rattle.std.specs.Prelude.{◌≡◌, [], ◌∷◌, ◌++◌, ◌<◌, ◌≤◌, ◌↔◌, length, IsSome, IsSomeAnd, OnOk, OnErr};
ghost use Rattle.std.specs.Option.{option_copied, option_and_then};
ghost use Rattle.values.specs.declared.limits.TheConstants.{MOST_PHASES, MOST_LANES};
ghost use Rattle.script_items.specs.Script.{numbered, at_last, lanes_of, op_at, with_phase, with_lane, with_op, IsScript};

use crate::operation::ScriptOp;
use std::alloc::Global;
use std::marker::Model;
use values::{NoMemory, Sequence};

/// The place of a row that is inserted behind all others, as where an insert names none.
pub const END_OF_ROWS: u32 = 4294967295;

/// The phases of a script, in order. Contracts see the list of them, each as the list of its lanes, and each
/// of these as the list of its operations.
#[derive(Debug, Drop)]
pub struct Script {
    phases: Vec<Phase>,
}

impl Model for Script {
    ghost use Rattle.std.specs.Prelude.{List};
    ghost use Rattle.script_items.specs.declared.operation.ScriptOp.{ScriptOp};
    ghost use Rattle.script_items.specs.Script.{IsScript};

    ghost Value = { List (List (List ScriptOp)) };

    ghost view = { λ s. s.phases.items };

    ghost invariant = { λ s. IsScript s.phases.items };
}

impl Script {
    /// The script of no phases.
    pub fn new(alloc: Global) -> Script
        ensures { result ≡ [] }
    {
        Script {
            phases: Vec::new(alloc),
        }
    }

    /// How many phases there are.
    pub fn phases(&self) -> u32
        ensures count { result ≡ length self.now }
        ensures script { IsScript self.now }
    {
        self.phases.len() as u32
    }

    /// How many lanes the phase has. Phases count from 1. `None` exactly where there is no such phase.
    pub fn lanes(&self, phase: u32) -> Option<u32>
        ensures count { result ≡ lanes_of self.now phase }
        ensures within { IsSome result ↔ ((0 < phase) × (phase ≤ length self.now)) }
    {
        let phase = nth_item(self.phases.as_slice(), phase)?;
        Some(phase.len() as u32)
    }

    /// The operation. Phases, lanes and operations all count from 1. `None` exactly where there is no such
    /// operation.
    pub fn op(&self, phase: u32, lane: u32, op: u32) -> Option<&ScriptOp>
        ensures { option_copied result ≡ op_at self.now phase lane op }
    {
        nth_item(self.phases.as_slice(), phase)?.op(lane, op)
    }

    /// Begins a phase at the end. It has no lane yet.
    pub fn begin_phase(&mut self) -> Result<(), NoMemory>
        requires { length self.old < MOST_PHASES }
        ensures begun { OnOk result (self.new ≡ with_phase self.old) }
        ensures unchanged { OnErr result (self.new ≡ self.old) }
    {
        let alloc = *self.phases.allocator();
        self.phases.push(Phase::new(alloc))?;
        Ok(())
    }

    /// Begins a lane at the end of the last phase. It has no operation yet.
    pub fn begin_lane(&mut self) -> Result<(), NoMemory>
        requires { IsSomeAnd (lanes_of self.old (length self.old)) (λ lanes. lanes < MOST_LANES) }
        ensures begun { OnOk result (self.new ≡ with_lane self.old) }
        ensures unchanged { OnErr result (self.new ≡ self.old) }
    {
        let last = self.phases.len() - 1;
        let phase = &mut self.phases[last];
        phase.begin_lane()
    }

    /// Adds the operation at the end of the last lane of the last phase.
    pub fn add(&mut self, op: ScriptOp) -> Result<(), NoMemory>
        requires { IsSomeAnd (lanes_of self.old (length self.old)) (λ lanes. 0 < lanes) }
        ensures added { OnOk result (self.new ≡ with_op op self.old) }
        ensures unchanged { OnErr result (self.new ≡ self.old) }
    {
        let last = self.phases.len() - 1;
        let phase = &mut self.phases[last];
        phase.add(op)
    }
}

/// The lanes of a phase, in order. Contracts see the list of them.
#[derive(Debug, Drop)]
struct Phase {
    lanes: Vec<Sequence<ScriptOp>>,
}

impl Model for Phase {
    ghost use Rattle.std.specs.Prelude.{List};
    ghost use Rattle.script_items.specs.declared.operation.ScriptOp.{ScriptOp};

    ghost Value = { List (List ScriptOp) };

    ghost view = { λ p. p.lanes.items };
}

impl Phase {
    /// The phase of no lanes.
    fn new(alloc: Global) -> Phase
        ensures { result ≡ [] }
    {
        Phase {
            lanes: Vec::new(alloc),
        }
    }

    /// How many lanes there are.
    fn len(&self) -> usize
        ensures { result ≡ length self.now }
    {
        self.lanes.len()
    }

    /// The operation of the lane. Both count from 1.
    fn op(&self, lane: u32, op: u32) -> Option<&ScriptOp>
        ensures { option_copied result ≡ option_and_then (λ ops. numbered ops op) (numbered self.now lane) }
    {
        let lane = nth_item(self.lanes.as_slice(), lane)?;
        nth_item(lane.as_slice(), op)
    }

    /// Begins a lane at the end.
    fn begin_lane(&mut self) -> Result<(), NoMemory>
        ensures begun { OnOk result (self.new ≡ self.old ++ [] ∷ []) }
        ensures unchanged { OnErr result (self.new ≡ self.old) }
    {
        let alloc = *self.lanes.allocator();
        self.lanes.push(Sequence::new(alloc))?;
        Ok(())
    }

    /// Adds the operation at the end of the last lane.
    fn add(&mut self, op: ScriptOp) -> Result<(), NoMemory>
        requires { 0 < length self.old }
        ensures added { OnOk result (self.new ≡ at_last (λ ops. ops ++ op ∷ []) self.old) }
        ensures unchanged { OnErr result (self.new ≡ self.old) }
    {
        let last = self.lanes.len() - 1;
        let lane = &mut self.lanes[last];
        lane.push(op)
    }
}

/// The item with this number, counted from 1.
fn nth_item<T>(items: &[T], number: u32) -> Option<&T>
    ensures { option_copied result ≡ numbered items.now number }
{
    let before = number.checked_sub(1)?;
    items.get(before as usize)
}
