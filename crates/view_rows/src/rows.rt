//! The mounted rows.
ghost use Rattle.std.specs.Prelude.{◌≡◌, true, false, ℕ, [], IfOk};
ghost use Rattle.std.specs.Option.{option_map, option_copied};
ghost use Rattle.store_fields.specs.Edits.{keys};
ghost use Rattle.component_items.specs.declared.component.Component.{Component as ComponentValue};
ghost use Rattle.component_items.specs.Kept.{IsKept};
ghost use Rattle.view_meaning.specs.Mounted.{Seen, Mounted, nothing_mounted, mounted_again};
ghost use Rattle.view_meaning.specs.Serials.{rows_again};
ghost use Rattle.view_slots.specs.Eaches.{EachOf, StandsIn};
ghost use Rattle.view_slots.specs.Home.{has_rows, top_parts};
ghost use Rattle.view_slots.specs.Seen.{seen_by};
ghost use Rattle.view_rows.specs.Listed.{Listed, rows_arranged, rows_planned, rows_remounted, rows_gone, row_with, serials_of};
ghost use Rattle.view_rows.specs.Shows.{ShowsRows, rows_follow};

use crate::table::{self, Plan, Table};
use component_items::Item;
use indexmap::IndexMap;
use std::alloc::Global;
use std::marker::Model;
use store_fields::Rows;
use values::{Code, NoMemory};
use view_slots::{Near, Sight, Slots};

/// The mounted rows of an `each`, each at its key, in the order of the store, and the serial that the next fresh one
/// takes. Contracts see the list of the rows.
#[derive(Drop)]
pub struct MountedRows {
    rows: Table,
    next: u64,
}

impl Model for MountedRows {
    ghost use Rattle.view_rows.specs.Listed.{Listed};
    ghost use Rattle.view_rows.specs.Parts.{rows_in};

    ghost Value = { Listed };

    ghost view = { λ m. record { rows = rows_in m.rows; next = m.next } };
}

impl MountedRows {
    /// No row was mounted yet.
    pub fn new(alloc: Global) -> MountedRows
        ensures none { result ≡ record { rows = []; next = 0 } }
        ensures shows { (e : EachOf) → ShowsRows nothing_mounted e result }
    {
        MountedRows {
            rows: IndexMap::new(alloc),
            next: 0,
        }
    }

    /// Whether the rows are those of the store, in its order, so that nothing is to be planned. It hashes nothing.
    pub fn stands(&self, rows: &Rows) -> bool
        ensures arranged { result ≡ true → (base width : ℕ) → rows_arranged base width self.now (keys rows.now.rows) ≡ self.now }
        ensures serials { result ≡ true → rows_again (serials_of self.now) (keys rows.now.rows) ≡ serials_of self.now }
    {
        let _next = self.next;
        table::stands(&self.rows, rows)
    }

    /// What is to be adopted so that the rows are those of the store: fresh ones have `width` ids from `base` on. All
    /// memory that this wants is taken here.
    pub fn plan(
        &self,
        alloc: Global,
        rows: &Rows,
        base: u32,
        width: usize,
    ) -> Result<Plan, NoMemory>
        ensures { IfOk result (λ plan. plan ≡ rows_planned base width self.now (keys rows.now.rows)) }
    {
        table::plan_for(alloc, &self.rows, self.next, rows, base, width)
    }

    /// Takes what was planned for the rows of the store. A row that stays is moved whole, and a fresh one has the next
    /// serial.
    pub fn adopt(&mut self, rows: &Rows, plan: Plan)
        ensures arranged { (base width : ℕ) → plan ≡ rows_planned base width self.old (keys rows.now.rows) → self.new ≡ rows_arranged base width self.old (keys rows.now.rows) }
        ensures serials { (base width : ℕ) → plan ≡ rows_planned base width self.old (keys rows.now.rows) → serials_of self.new ≡ rows_again (serials_of self.old) (keys rows.now.rows) }
    {
        let Plan {
            rows: planned,
            next,
        } = plan;
        table::adopt(&mut self.rows, rows, planned);
        self.next = next;
    }

    /// Mounts these items again in each row. Where the rows follow their store by then, and the `each` with these items
    /// is mounted, they show the view that is made again.
    pub fn remount(&mut self, sight: &Sight, items: &[Item], near: &mut Near)
        ensures remounted { self.new ≡ rows_remounted (seen_by sight.now) items.now self.old }
        ensures shows { (old : Mounted) (e : EachOf) (before : Listed) → IsKept sight.now.component → StandsIn e sight.now.component.items → e.items ≡ items.now → has_rows (top_parts (seen_by sight.now).view sight.now.component.items) e.id ≡ true → ShowsRows old e before → self.old ≡ rows_follow (seen_by sight.now) e before → ShowsRows (mounted_again sight.now.component.items (seen_by sight.now) old) e self.new }
    {
        table::remount_all(&mut self.rows, sight, items, near);
    }

    /// Mounts no row any more. The count of serials stays. Where the `each` is not mounted, the rows show the view that
    /// is made again.
    pub fn clear(&mut self)
        ensures gone { self.new ≡ rows_gone self.old }
        ensures shows { (seen : Seen) (component : ComponentValue) (old : Mounted) (e : EachOf) → IsKept component → StandsIn e component.items → has_rows (top_parts seen.view component.items) e.id ≡ false → ShowsRows old e self.old → ShowsRows (mounted_again component.items seen old) e self.new }
    {
        self.rows.clear();
    }

    /// The serial of the row with the key. `None` exactly where it is not mounted.
    pub fn serial(&self, key: Code) -> Option<u64>
        ensures { result ≡ option_map (λ row. row.0) (row_with self.now key) }
    {
        match self.rows.get(&key) {
            Some(part) => Some(part.serial),
            None => None,
        }
    }

    /// What the row with the key has mounted. `None` exactly where it is not mounted.
    pub fn slots(&self, key: Code) -> Option<&Slots>
        ensures { option_copied result ≡ option_map (λ row. row.1) (row_with self.now key) }
    {
        match self.rows.get(&key) {
            Some(part) => Some(&part.slots),
            None => None,
        }
    }
}
