//! Values that sources are given between phases.
ghost use Rattle.std.specs.Prelude.{◌≡◌, ◌≢◌, ◌≤◌, ◌<◌, ◌+◌, ◌^◌, ℕ, true, false, length, slice_get, Some, IsSomeAnd, Contains};
ghost use Rattle.values.specs.declared.plan.PlanNode.{PlanNode as NodeValue};
ghost use Rattle.values.specs.Plan.{rows_in};
ghost use Rattle.values.specs.Packing.{unpacked};
ghost use Rattle.values.specs.PlanValues.{is_derived};
ghost use Rattle.sources.specs.declared.opening.Opened.{Opened as OpenedValue};
ghost use Rattle.still_readers.specs.Marking.{IsSource};
ghost use Rattle.phase_graph.specs.Table.{IsTable, IsKept, IsPutAs, HasWord};

use crate::graph::Graph;
use crate::table::Table;
use still_rows::Full;
use values::Code;

impl Graph {
    /// Gives a source this value, and marks what reads it. One that has it already stays as it is. It takes no memory.
    pub fn put(&mut self, row: u32, code: Code)
        requires closed { self.old.is_open ≡ false }
        requires row { IsSomeAnd (slice_get self.old.plan.nodes row) (λ node. is_derived node.kind ≡ false) }
        requires few { self.old.drawn < 65536 }
        requires ticks { self.old.base < 2 ^ 62 }
        ensures rest { self.new ≡ record self.old { rows = self.new.rows; drawn = self.new.drawn } }
        ensures ticks { (self.old.drawn ≤ self.new.drawn) × (self.new.drawn ≤ self.old.drawn + 1) }
        ensures long { length self.new.rows ≡ length self.old.rows }
        ensures value { (r : OpenedValue) → slice_get self.new.rows row ≡ Some r → unpacked r.code ≡ code }
        ensures same { (r : OpenedValue) → slice_get self.old.rows row ≡ Some r → unpacked r.code ≡ code → self.new ≡ self.old }
        ensures others { (n : ℕ) (one two : OpenedValue) → n ≢ row → slice_get self.old.rows n ≡ Some one → slice_get self.new.rows n ≡ Some two → two ≡ record one { colour = two.colour } }
        ensures settled { (bound : ℕ) → ((n : ℕ) (node : NodeValue) → slice_get self.old.plan.nodes n ≡ Some node → Contains (rows_in node.expr) row → is_derived node.kind ≡ true → bound ≤ n) → (n : ℕ) → n < bound → n ≢ row → slice_get self.new.rows n ≡ slice_get self.old.rows n }
    {
        self.make_exact();
        self.table.renew(row, code);
    }

    /// Makes exact who has read what, where it isn't.
    fn make_exact(&mut self)
        requires { self.old.base < 2 ^ 62 }
        ensures { self.new ≡ self.old }
    {
        if self.renewed {
            return;
        }
        self.table.subscribe();
        self.renewed = true;
    }
}

impl Table {
    /// Gives a source this value where it has another one.
    fn renew(&mut self, row: u32, code: Code)
        requires table { IsTable self.old }
        requires closed { self.old.clock.in_phase ≡ false }
        requires source { IsSource self.old.plan.nodes row }
        requires few { self.old.clock.drawn < 65536 }
        requires ticks { self.old.clock.base < 2 ^ 62 }
        ensures kept { IsKept self.old self.new }
        ensures put { IsPutAs self.old self.new row code }
    {
        if self.has_word(row, code.pack()) {
            return;
        }
        match self.put(row, code) {
            Ok(_) => {}
            Err(Full) => unreachable!(),
        }
    }

    /// Whether the value of the row is kept as this word.
    fn has_word(&self, row: u32, word: u64) -> bool
        requires table { IsTable self.now }
        requires row { row < length self.now.plan.nodes }
        ensures { HasWord self.now row word result }
    {
        self.rows[row as usize].code == word
    }
}
