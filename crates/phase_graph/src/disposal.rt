//! Disposals.
ghost use Rattle.std.specs.Prelude.{◌≡◌, ◌≤◌, ◌<◌, ◌+◌, ◌⊎◌, ℕ, true, false, length, slice_get, slice_set, Some};
ghost use Rattle.run_history.specs.Calls.{dispose};
ghost use Rattle.phase_graph.specs.Table.{IsTable, IsKept, MakesCall, is_within, AreMarked, AreOwners, IsTurned, IsTurnedNow};

use crate::table::Table;
use values::{Disposal, PlanOwner};

impl Table {
    /// Disposes the owner and all owners inside it, inner ones first. `inside` is what it works with, and has a place
    /// for each owner. It takes the time of the owners from the area's own on.
    pub(crate) fn dispose(&mut self, inside: &mut [bool], area: u32) -> Disposal
        requires table { IsTable self.old }
        requires open { self.old.clock.in_phase ≡ true }
        requires area { area < length self.old.plan.owners }
        requires inside { length inside.old ≡ length self.old.plan.owners }
        ensures kept { IsKept self.old self.new }
        ensures inside { length inside.new ≡ length inside.old }
        ensures call { (pass : ℕ) → MakesCall self.old self.new pass (dispose area result) }
    {
        mark_area(self.plan.owners.as_slice(), inside, area);
        self.dispose_marked(inside, area)
    }

    /// Disposes the owners of an area that are marked, the last one first.
    fn dispose_marked(&mut self, inside: &[bool], area: u32) -> Disposal
        requires table { IsTable self.old }
        requires open { self.old.clock.in_phase ≡ true }
        requires area { area < length self.old.plan.owners }
        requires inside { length inside.now ≡ length self.old.plan.owners }
        requires marked { AreMarked self.old.plan.owners area area (length inside.now) inside.now }
        ensures kept { IsKept self.old self.new }
        ensures call { (pass : ℕ) → MakesCall self.old self.new pass (dispose area result) }
    {
        let mut done = Disposal { now: 0, before: 0 };
        let mut at = inside.len();
        while at > area as usize {
            at -= 1;
            self.turn(inside[at], at as u32, &mut done);
        }
        done
    }

    /// Disposes one owner where it is inside, and counts it.
    fn turn(&mut self, inside: bool, owner: u32, done: &mut Disposal)
        requires table { IsTable self.old }
        requires open { self.old.clock.in_phase ≡ true }
        requires owner { owner < length self.old.plan.owners }
        requires few { done.old.now + done.old.before < 1024 }
        ensures turned { inside ≡ true → IsTurned self.old self.new owner done.old done.new }
        ensures passed { inside ≡ false → self.new ≡ self.old }
        ensures same { inside ≡ false → done.new ≡ done.old }
    {
        if !inside {
            return;
        }
        self.turn_inside(owner, done);
    }

    fn turn_inside(&mut self, owner: u32, done: &mut Disposal)
        requires table { IsTable self.old }
        requires open { self.old.clock.in_phase ≡ true }
        requires owner { owner < length self.old.plan.owners }
        requires few { done.old.now + done.old.before < 1024 }
        ensures { IsTurned self.old self.new owner done.old done.new }
    {
        if self.is_live(owner) {
            self.turn_now(owner);
            done.now += 1;
            return;
        }
        done.before += 1;
    }

    /// Disposes an owner that is live.
    fn turn_now(&mut self, owner: u32)
        requires table { IsTable self.old }
        requires open { self.old.clock.in_phase ≡ true }
        requires live { slice_get self.old.live.items owner ≡ Some true }
        ensures table { IsTable self.new }
        ensures turned { IsTurnedNow self.old self.new owner }
    {
        self.live[owner as usize] = false;
        self.clock.dispose(owner);
    }
}

/// Marks the owners that are in the area, from its own on. A parent has a smaller number.
fn mark_area(owners: &[PlanOwner], inside: &mut [bool], area: u32)
    requires owners { AreOwners owners.now }
    requires area { area < length owners.now }
    requires inside { length inside.old ≡ length owners.now }
    ensures inside { length inside.new ≡ length inside.old }
    ensures marked { AreMarked owners.now area area (length inside.new) inside.new }
{
    for at in area as usize..owners.len() {
        inside[at] = is_in_area(owners, inside, area, at);
    }
}

/// Whether an owner is in the area, where those before it are marked.
fn is_in_area(owners: &[PlanOwner], inside: &[bool], area: u32, at: usize) -> bool
    requires owners { AreOwners owners.now }
    requires at { at < length owners.now }
    requires from_on { area ≤ at }
    requires marked { AreMarked owners.now area area at inside.now }
    requires inside { length inside.now ≡ length owners.now }
    ensures { result ≡ is_within owners.now area at }
{
    if at == area as usize {
        return true;
    }
    match owners[at].parent {
        None => false,
        Some(parent) => {
            if parent < area {
                return false;
            }
            inside[parent as usize]
        }
    }
}
