//! The rows of a plan, with all that the calls on them work with.
ghost use Rattle.std.specs.Prelude.{◌≡◌, ◌≤◌, ◌<◌, ◌+◌, ◌⊎◌, ℕ, true, false, length, slice_get, Some, None, IfSome, IfNone};
ghost use Rattle.phase_graph.specs.Table.{IsTable, HasOwner, IsFilled};

use sources::Opened;
use still_readers::Readers;
use still_rows::{Clock, Work};
use values::Plan;

/// The rows of a plan, with all that the calls on them work with.
#[derive(Drop)]
pub(crate) struct Table {
    pub(crate) plan: Plan,
    pub(crate) rows: Vec<Opened>,
    pub(crate) readers: Readers,
    pub(crate) work: Work,
    pub(crate) clock: Clock,
    /// Whether each owner is live.
    pub(crate) live: Vec<bool>,
    /// The number above the last of a phase, once it was drawn.
    pub(crate) full: Option<u32>,
}

impl Table {
    /// The owner of a row, where it is disposed.
    pub(crate) fn dead_owner(&self, row: u32) -> Option<u32>
        requires table { IsTable self.now }
        requires row { row < length self.now.plan.nodes }
        ensures dead { IfSome result (λ owner. HasOwner self.now.plan.nodes self.now.live.items row owner false) }
        ensures live { IfNone result ((owner : ℕ) × HasOwner self.now.plan.nodes self.now.live.items row owner true) }
    {
        let owner = self.plan.nodes.as_slice()[row as usize].owner;
        if self.live[owner as usize] {
            None
        } else {
            Some(owner)
        }
    }

    /// Whether an owner is live.
    pub(crate) fn is_live(&self, owner: u32) -> bool
        requires table { IsTable self.now }
        requires owner { owner < length self.now.plan.owners }
        ensures { slice_get self.now.live.items owner ≡ Some result }
    {
        self.live[owner as usize]
    }

    /// A number above the last of a phase, for a call that finds none to note: it is drawn once, and kept.
    pub(crate) fn fill(&mut self) -> u32
        requires table { IsTable self.old }
        requires open { self.old.clock.in_phase ≡ true }
        requires past { 65536 ≤ self.old.clock.drawn }
        ensures table { IsTable self.new }
        ensures filled { IsFilled self.old self.new result }
        ensures once { (number : ℕ) → self.old.full ≡ Some number → self.new ≡ self.old }
    {
        if let Some(number) = self.full {
            return number;
        }
        let number = self.clock.refuse();
        self.full = Some(number);
        number
    }
}
