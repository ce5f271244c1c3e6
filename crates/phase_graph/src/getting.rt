//! Values that are asked for.
ghost use Rattle.std.specs.Prelude.{◌≡◌, ◌≢◌, ◌≤◌, ◌<◌, ℕ, true, slice_get, IsSomeAnd, IfOk, OnErr};
ghost use Rattle.values.specs.declared.plan.Kind.TheVariants as kind;
ghost use Rattle.still_rows.specs.Works.{unclean_count};
ghost use Rattle.run_history.specs.Calls.{get};
ghost use Rattle.phase_graph.specs.Table.{IsTable, HasOwner, IsStirred, IsAnswered, IsKept, MakesCall};

use crate::table::Table;
use still_rows::{Full, get};
use values::{Code, Stop};

impl Table {
    /// The value of a row that is no effect, and its number.
    pub(crate) fn get(&mut self, node: u32) -> Result<(Code, u32), Stop>
        requires table { IsTable self.old }
        requires open { self.old.clock.in_phase ≡ true }
        requires row { IsSomeAnd (slice_get self.old.plan.nodes node) (λ n. n.kind ≢ kind.Effect) }
        ensures kept { IsKept self.old self.new }
        ensures live { self.new.live ≡ self.old.live }
        ensures call { (pass : ℕ) → MakesCall self.old self.new pass (get node result) }
    {
        if let Some(owner) = self.dead_owner(node) {
            return Err(Stop::Disposed(owner));
        }
        self.value(node)
    }

    /// The value of a row whose owner is live.
    fn value(&mut self, node: u32) -> Result<(Code, u32), Stop>
        requires table { IsTable self.old }
        requires open { self.old.clock.in_phase ≡ true }
        requires row { IsSomeAnd (slice_get self.old.plan.nodes node) (λ n. n.kind ≢ kind.Effect) }
        requires live { (owner : ℕ) × HasOwner self.old.plan.nodes self.old.live.items node owner true }
        ensures kept { IsKept self.old self.new }
        ensures live { self.new.live ≡ self.old.live }
        ensures call { (pass : ℕ) → MakesCall self.old self.new pass (get node result) }
    {
        match self.look_up(node) {
            Ok(answer) => Ok(answer),
            Err(Full) => Err(Stop::Full(self.fill())),
        }
    }

    /// The value of a row, as far as there are numbers for the new values of memos.
    fn look_up(&mut self, node: u32) -> Result<(Code, u32), Full>
        requires table { IsTable self.old }
        requires open { self.old.clock.in_phase ≡ true }
        requires row { IsSomeAnd (slice_get self.old.plan.nodes node) (λ n. n.kind ≢ kind.Effect) }
        ensures stirred { IsStirred self.old self.new }
        ensures answered { IfOk result (IsAnswered self.old self.new node) }
        ensures full { OnErr result (65536 ≤ self.new.clock.drawn) }
        ensures left { OnErr result (0 < unclean_count self.new.rows.items) }
    {
        get(
            self.plan.nodes.as_slice(),
            self.rows.as_mut_slice(),
            &mut self.readers,
            &mut self.clock,
            &mut self.work,
            node,
        )
    }
}
