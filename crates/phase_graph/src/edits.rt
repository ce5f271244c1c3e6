//! Edits.
ghost use Rattle.std.specs.Prelude.{◌≡◌, ◌≤◌, ◌<◌, ◌+◌, ℕ, true, None, Some, length, slice_get};
ghost use Rattle.store_fields.specs.declared.edit.Edit.{Edit as EditValue};
ghost use Rattle.values.specs.Reserved.{room_of};
ghost use Rattle.phase_graph.specs.Table.{IsTable, IsKept, MakesEdit, list_with};

use crate::table::Table;
use still_rows::Full;
use store_fields::Edit;
use values::{Fact, Reserved, Stop};

impl Table {
    /// Notes that this pass makes an edit of what the owner owns: the one of this place in its list.
    pub(crate) fn edit(&mut self, pass: u32, owner: u32, index: u32) -> Result<u32, Stop>
        requires table { IsTable self.old }
        requires open { self.old.clock.in_phase ≡ true }
        requires owner { owner < length self.old.plan.owners }
        ensures kept { IsKept self.old self.new }
        ensures live { self.new.live ≡ self.old.live }
        ensures call { (asked : EditValue) → MakesEdit self.old self.new pass owner index asked result }
    {
        if self.is_live(owner) {
            return self.edit_live(pass, owner, index);
        }
        Err(Stop::Disposed(owner))
    }

    /// The same, where the owner is live.
    fn edit_live(&mut self, pass: u32, owner: u32, index: u32) -> Result<u32, Stop>
        requires table { IsTable self.old }
        requires open { self.old.clock.in_phase ≡ true }
        requires live { slice_get self.old.live.items owner ≡ Some true }
        ensures kept { IsKept self.old self.new }
        ensures live { self.new.live ≡ self.old.live }
        ensures call { (asked : EditValue) → MakesEdit self.old self.new pass owner index asked result }
    {
        if let Some(number) = self.full {
            return Err(Stop::Full(number));
        }
        self.note_edit(pass, owner, index)
    }

    /// Notes the edit, where the owner is live and nothing was full yet.
    fn note_edit(&mut self, pass: u32, _owner: u32, index: u32) -> Result<u32, Stop>
        requires table { IsTable self.old }
        requires open { self.old.clock.in_phase ≡ true }
        requires live { slice_get self.old.live.items _owner ≡ Some true }
        ensures kept { IsKept self.old self.new }
        ensures live { self.new.live ≡ self.old.live }
        ensures call { (asked : EditValue) → MakesEdit self.old self.new pass _owner index asked result }
    {
        match self.clock.tick(Fact::Edit { pass, index }) {
            Ok(_) => Ok(self.clock.drawn),
            Err(Full) => Err(Stop::Full(self.fill())),
        }
    }
}

/// Notes the edit behind those of the list, which are of this pass, where it is accepted.
pub(crate) fn edit_in(
    table: &mut Table,
    list: &mut Reserved<Edit>,
    pass: u32,
    owner: u32,
    asked: Edit,
) -> Result<u32, Stop>
    requires table { IsTable table.old }
    requires open { table.old.clock.in_phase ≡ true }
    requires owner { owner < length table.old.plan.owners }
    requires room { length list.old.list < room_of list.old }
    requires few { length list.old.list < 65537 }
    ensures kept { IsKept table.old table.new }
    ensures live { table.new.live ≡ table.old.live }
    ensures room { room_of list.new ≡ room_of list.old }
    ensures list { list.new.list ≡ list_with list.old.list asked result }
    ensures call { MakesEdit table.old table.new pass owner (length list.old.list) asked result }
{
    let index = list.len() as u32;
    match table.edit(pass, owner, index) {
        Ok(number) => {
            list.push(asked);
            Ok(number)
        }
        Err(why) => Err(why),
    }
}
