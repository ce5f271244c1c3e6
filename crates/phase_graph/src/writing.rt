//! Writes.
ghost use Rattle.std.specs.Prelude.{◌≡◌, ◌≤◌, ◌<◌, ◌⊎◌, ◌^◌, ℕ, true, None, length, slice_get, IsSomeAnd, IfOk, OnErr};
ghost use Rattle.values.specs.declared.plan.Kind.TheVariants as kind;
ghost use Rattle.still_readers.specs.Marking.{IsSource};
ghost use Rattle.run_history.specs.Calls.{set};
ghost use Rattle.phase_graph.specs.Table.{IsTable, HasOwner, IsWrittenIn, IsAsBefore, IsKept, MakesCall};

use crate::table::Table;
use still_rows::{Full, set};
use values::{Code, Stop};

impl Table {
    /// Writes the value to a signal or a field.
    pub(crate) fn set(&mut self, signal: u32, code: Code) -> Result<u32, Stop>
        requires table { IsTable self.old }
        requires open { self.old.clock.in_phase ≡ true }
        requires row { IsSomeAnd (slice_get self.old.plan.nodes signal) (λ node. (node.kind ≡ kind.Signal) ⊎ (node.kind ≡ kind.Field)) }
        ensures kept { IsKept self.old self.new }
        ensures live { self.new.live ≡ self.old.live }
        ensures call { (pass : ℕ) → MakesCall self.old self.new pass (set signal code result) }
    {
        if let Some(owner) = self.dead_owner(signal) {
            return Err(Stop::Disposed(owner));
        }
        if let Some(number) = self.full {
            return Err(Stop::Full(number));
        }
        self.write(signal, code)
    }

    /// Writes the value to a row whose owner is live, where nothing was full yet.
    fn write(&mut self, signal: u32, code: Code) -> Result<u32, Stop>
        requires table { IsTable self.old }
        requires open { self.old.clock.in_phase ≡ true }
        requires row { IsSomeAnd (slice_get self.old.plan.nodes signal) (λ node. (node.kind ≡ kind.Signal) ⊎ (node.kind ≡ kind.Field)) }
        requires live { (owner : ℕ) × HasOwner self.old.plan.nodes self.old.live.items signal owner true }
        ensures kept { IsKept self.old self.new }
        ensures live { self.new.live ≡ self.old.live }
        ensures call { (pass : ℕ) → MakesCall self.old self.new pass (set signal code result) }
    {
        match self.put(signal, code) {
            Ok(number) => Ok(number),
            Err(Full) => Err(Stop::Full(self.fill())),
        }
    }

    /// Writes the value, as far as there is a number for it.
    pub(crate) fn put(&mut self, signal: u32, code: Code) -> Result<u32, Full>
        requires table { IsTable self.old }
        requires ticks { self.old.clock.base < 2 ^ 62 }
        requires source { IsSource self.old.plan.nodes signal }
        ensures written { IfOk result (IsWrittenIn self.old self.new signal code) }
        ensures full { OnErr result (65536 ≤ self.old.clock.drawn) }
        ensures unchanged { OnErr result (IsAsBefore self.old self.new) }
    {
        // The word that is kept says what the value is.
        let _word = code.pack();
        set(
            self.plan.nodes.as_slice(),
            self.rows.as_mut_slice(),
            &self.readers,
            &mut self.clock,
            &mut self.work,
            signal,
            code,
        )
    }
}
