//! The walk that mounts a home.
ghost use Rattle.std.specs.Prelude.{◌≡◌, ◌<◌, ◌≤◌, ◌+◌, ◌∷◌, [], IfSome, IfNone, length, map};
ghost use Rattle.std.specs.Bool.{OnTrue, OnFalse};
ghost use Rattle.values.specs.Evaluation.{truth};
ghost use Rattle.plain_evaluation.specs.Place.{place_at};
ghost use Rattle.view_meaning.specs.Parts.{shows, branch, area, each, attr_part, item_parts};
ghost use Rattle.view_slots.specs.Home.{rowless, home_parts, mounted_with, IsOutside};
ghost use Rattle.view_slots.specs.Plain.{all_sides};
ghost use Rattle.view_slots.specs.Seen.{seen_by};

use crate::cell::Cell;
use crate::near::Near;
use crate::sight::Sight;
use crate::slot::Slot;
use component_items::{Attr, Item};
use values::Code;

/// What a home is mounted from: what is seen, the row that it is, or none, and the id of its first slot.
#[derive(Clone, Copy)]
pub(crate) struct Mounting<'a> {
    pub sight: &'a Sight<'a>,
    pub key: Option<Code>,
    pub base: u32,
}

impl Mounting<'_> {
    /// Mounts these items.
    #[cycle(mounting)]
    pub(crate) fn items(&self, items: &[Item], slots: &mut [Slot], near: &mut Near)
        ensures { all_sides slots.new ≡ mounted_with (seen_by self.now.sight.now) (home_parts (seen_by self.now.sight.now).view items.now self.now.key) self.now.key self.now.base (all_sides slots.old) }
    {
        for item in items {
            self.item(item, slots, near);
        }
    }

    #[cycle(mounting)]
    fn item(&self, item: &Item, slots: &mut [Slot], near: &mut Near)
        ensures { all_sides slots.new ≡ mounted_with (seen_by self.now.sight.now) (item_parts (rowless (seen_by self.now.sight.now).view) item.now self.now.key) self.now.key self.now.base (all_sides slots.old) }
    {
        match item {
            Item::Signal { .. } => {}
            Item::Memo { .. } => {}
            Item::Effect { .. } => {}
            Item::Resource { .. } => {}
            Item::Load { .. } => {}
            Item::Store { .. } => {}
            Item::Cleanup { .. } => {}
            Item::Area {
                id,
                owner,
                items,
                ..
            } => {
                if self.sight.is_live(*owner) {
                    self.area(*id, slots);
                    self.items(items.as_slice(), slots, near);
                }
            }
            Item::If { id, items, .. } => {
                if self.branch(*id, slots, near) {
                    self.items(items.as_slice(), slots, near);
                }
            }
            Item::Each { id, store, .. } => self.each(*id, *store, slots),
            Item::Element { attrs, items, .. } => {
                self.attrs(attrs.as_slice(), slots, near);
                self.items(items.as_slice(), slots, near);
            }
            Item::Text { .. } => {}
            Item::Shown { id, .. } => self.shown(*id, slots, near),
        }
    }

    fn attrs(&self, attrs: &[Attr], slots: &mut [Slot], near: &mut Near)
        ensures { all_sides slots.new ≡ mounted_with (seen_by self.now.sight.now) (map (attr_part self.now.key) attrs.now) self.now.key self.now.base (all_sides slots.old) }
    {
        for attr in attrs {
            self.attr(attr, slots, near);
        }
    }

    fn attr(&self, attr: &Attr, slots: &mut [Slot], near: &mut Near)
        ensures { all_sides slots.new ≡ mounted_with (seen_by self.now.sight.now) (attr_part self.now.key attr.now ∷ []) self.now.key self.now.base (all_sides slots.old) }
    {
        match attr {
            Attr::Bare { .. } => {}
            Attr::Fixed { .. } => {}
            Attr::Shown { id, .. } => self.shown(*id, slots, near),
        }
    }

    /// Mounts a shown value.
    fn shown(&self, id: u32, slots: &mut [Slot], near: &mut Near)
        ensures { all_sides slots.new ≡ mounted_with (seen_by self.now.sight.now) (shows (place_at id self.now.key) ∷ []) self.now.key self.now.base (all_sides slots.old) }
    {
        if let Some(at) = slot_of(id, self.base, slots) {
            let slot = slots[at];
            let found = self.sight.look(id, self.key, near.guess(slot.row));
            near.note(slot.row, found.row);
            slots[at] = slot.with_cell(Cell::again(slot.before.cell, &found), found.row);
        }
    }

    /// Whether the condition of the `if` is true. If so, what stands in it is to be mounted.
    fn branch(&self, id: u32, slots: &mut [Slot], near: &mut Near) -> bool
        ensures truth { result ≡ truth ((seen_by self.now.sight.now).view.value (place_at id self.now.key)) }
        ensures open { OnTrue result (all_sides slots.new ≡ mounted_with (seen_by self.now.sight.now) (branch (place_at id self.now.key) ∷ []) self.now.key self.now.base (all_sides slots.old)) }
        ensures closed { OnFalse result (all_sides slots.new ≡ all_sides slots.old) }
    {
        match slot_of(id, self.base, slots) {
            None => self.sight.look(id, self.key, near.guess(None)).code.truth(),
            Some(at) => {
                let slot = slots[at];
                let found = self.sight.look(id, self.key, near.guess(slot.row));
                near.note(slot.row, found.row);
                let is_open = found.code.truth();
                slots[at] = slot.with_branch(is_open, found.row);
                is_open
            }
        }
    }

    /// What stands in the area is to be mounted.
    fn area(&self, id: u32, slots: &mut [Slot])
        ensures { all_sides slots.new ≡ mounted_with (seen_by self.now.sight.now) (area (place_at id self.now.key) ∷ []) self.now.key self.now.base (all_sides slots.old) }
    {
        if let Some(at) = slot_of(id, self.base, slots) {
            slots[at] = slots[at].opened();
        }
    }

    /// The rows of the `each` are to be mounted.
    fn each(&self, id: u32, store: u32, slots: &mut [Slot])
        ensures { all_sides slots.new ≡ mounted_with (seen_by self.now.sight.now) (each id store ∷ []) self.now.key self.now.base (all_sides slots.old) }
    {
        if let Some(at) = slot_of(id, self.base, slots) {
            slots[at] = slots[at].with_rows();
        }
    }
}

/// Where the slot of the id is, if there is one.
pub(crate) fn slot_of(id: u32, base: u32, slots: &[Slot]) -> Option<usize>
    ensures at { IfSome result (λ at. (id ≡ base + at) × (at < length slots.now)) }
    ensures none { IfNone result (IsOutside id base (length slots.now)) }
{
    let at = id.checked_sub(base)? as usize;
    if at < slots.len() { Some(at) } else { None }
}
