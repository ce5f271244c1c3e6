//! The slots of a home.
ghost use Rattle.std.specs.Prelude.{◌≡◌, IfOk, None, Some, List, Option as OptionOf};
ghost use Rattle.std.specs.Option.{option_map};
ghost use Rattle.component_items.specs.Kept.{IsKept};
ghost use Rattle.values.specs.declared.code.Code.{Code as CodeValue};
ghost use Rattle.view_meaning.specs.Mounted.{Seen, Mounted, mounted_again};
ghost use Rattle.view_meaning.specs.Parts.{Part};
ghost use Rattle.view_slots.specs.Eaches.{EachOf, StandsIn};
ghost use Rattle.view_slots.specs.Home.{Home, blank_home, home_parts, top_parts, remounted, home_undone, face_at};
ghost use Rattle.view_slots.specs.Seen.{seen_by};
ghost use Rattle.view_slots.specs.Shows.{Shows, IsRowHome, IsMountedRow};

use crate::mounting::{Mounting, slot_of};
use crate::near::Near;
use crate::sight::Sight;
use crate::slot::{Face, Slot, turn_all, undo_all};
use component_items::Item;
use std::alloc::Global;
use std::marker::Model;
use values::{Code, NoMemory};

/// What a home has mounted, in a slot for each id from its base on. Contracts see the base, and what each slot has
/// mounted now and had at the last update.
#[derive(Drop)]
pub struct Slots {
    base: u32,
    slots: Vec<Slot>,
}

impl Model for Slots {
    ghost use Rattle.view_slots.specs.Home.{Home};
    ghost use Rattle.view_slots.specs.Plain.{home_of};

    ghost Value = { Home };

    ghost view = { λ s. home_of s.base s.slots.items };
}

impl Slots {
    /// Nothing is mounted, of as many ids as `count` from `base` on.
    pub fn new(alloc: Global, base: u32, count: usize) -> Result<Slots, NoMemory>
        ensures { IfOk result (λ slots. slots ≡ blank_home base count) }
    {
        let slots = vec![in alloc; Slot::blank(); count]?;
        Ok(Slots { base, slots })
    }

    /// No slots.
    pub fn none(alloc: Global) -> Slots
        ensures { result ≡ blank_home 0 0 }
    {
        Slots {
            base: 0,
            slots: Vec::new(alloc),
        }
    }

    /// Mounts the page outside of all rows again: what is mounted of it now is what the component shows, as it was
    /// mounted before or anew. Where the top is dead nothing is.
    pub fn remount_top(&mut self, sight: &Sight, near: &mut Near)
        ensures remounted { self.new ≡ remounted (seen_by sight.now) (top_parts (seen_by sight.now).view sight.now.component.items) None self.old }
        ensures shows { (old : Mounted) → IsKept sight.now.component → Shows old None self.old → Shows (mounted_again sight.now.component.items (seen_by sight.now) old) None self.new }
    {
        self.remount(sight, sight.top_items(), None, near);
    }

    /// Mounts the row with this key of an `each` with these items again.
    pub fn remount_row(&mut self, sight: &Sight, items: &[Item], key: Code, near: &mut Near)
        ensures remounted { self.new ≡ remounted (seen_by sight.now) (home_parts (seen_by sight.now).view items.now (Some key)) (Some key) self.old }
        ensures shows { (old : Mounted) (e : EachOf) → IsKept sight.now.component → StandsIn e sight.now.component.items → e.items ≡ items.now → IsMountedRow (seen_by sight.now).view sight.now.component.items e key → IsRowHome e self.old → Shows old (Some key) self.old → Shows (mounted_again sight.now.component.items (seen_by sight.now) old) (Some key) self.new }
    {
        self.remount(sight, items, Some(key), near);
    }

    /// Mounts these items again, in the row with the key or in none.
    fn remount(&mut self, sight: &Sight, items: &[Item], key: Option<Code>, near: &mut Near)
        ensures { self.new ≡ remounted (seen_by sight.now) (home_parts (seen_by sight.now).view items.now key) key self.old }
    {
        turn_all(self.slots.as_mut_slice());
        let mounting = Mounting {
            sight,
            key,
            base: self.base,
        };
        mounting.items(items, self.slots.as_mut_slice(), near);
    }

    /// All is mounted as it was before it was mounted again.
    pub fn undo(&mut self)
        ensures undone { self.new ≡ home_undone self.old }
        ensures shows { (seen : Seen) (parts : List Part) (key : OptionOf CodeValue) (home : Home) (mounted : Mounted) (of : OptionOf CodeValue) → self.old ≡ remounted seen parts key home → Shows mounted of home → Shows mounted of self.new }
    {
        undo_all(self.slots.as_mut_slice());
    }

    /// The value that the text or attribute with the id shows. `None` exactly where it is not mounted.
    pub fn code(&self, id: u32) -> Option<Code>
        ensures { result ≡ option_map (λ cell. cell.code) (face_at self.now id).cell }
    {
        Some(self.face(id).cell?.code)
    }

    /// How often the text or attribute with the id was replaced since it was mounted. `None` exactly where it is not
    /// mounted.
    pub fn written(&self, id: u32) -> Option<u64>
        ensures { result ≡ option_map (λ cell. cell.written) (face_at self.now id).cell }
    {
        Some(self.face(id).cell?.written)
    }

    /// Whether what stands in the area or `if` with the id is mounted.
    pub fn is_open(&self, id: u32) -> bool
        ensures { result ≡ (face_at self.now id).is_open }
    {
        self.face(id).is_open
    }

    /// Whether the rows of the `each` with the id are mounted.
    pub fn has_rows(&self, id: u32) -> bool
        ensures { result ≡ (face_at self.now id).has_rows }
    {
        self.face(id).has_rows
    }
}

impl Slots {
    ghost use Rattle.view_slots.specs.Plain.{face_meant};

    /// What is mounted of the id.
    fn face(&self, id: u32) -> Face
        ensures { face_meant result ≡ face_at self.now id }
    {
        match slot_of(id, self.base, self.slots.as_slice()) {
            Some(at) => self.slots[at].now,
            None => Face::blank(),
        }
    }
}
