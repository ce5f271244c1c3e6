//! Laws of the definitions. Each is the contract of a function that does nothing.
ghost use Rattle.std.specs.Prelude.{◌≡◌, ◌≤◌, ◌<◌, ◌+◌, ◌==◌, ℕ, min, true, false, Some, None, List, [], length, map};
ghost use Rattle.values.specs.declared.code.Code.{Code as CodeValue};
ghost use Rattle.outside.specs.Counts.{last_count, next_count};
ghost use Rattle.component_items.specs.declared.component.Component.{Component as ComponentValue};
ghost use Rattle.component_items.specs.declared.component.Item.{Item as ItemValue};
ghost use Rattle.component_items.specs.Kept.{IsKept};
ghost use Rattle.plain_evaluation.specs.Fits.{Fits};
ghost use Rattle.plain_evaluation.specs.Held.{Held};
ghost use Rattle.plain_evaluation.specs.Page.{page_in, page_of, View};
ghost use Rattle.plain_evaluation.specs.Place.{Place};
ghost use Rattle.plain_evaluation.specs.Scratch.{scratch};
ghost use Rattle.view_meaning.specs.Counted.{AreCounted};
ghost use Rattle.view_meaning.specs.Mounted.{Seen, Cell, Mounted, nothing_mounted, mounted_again, mounted_after, serial_of, written_of, code_of, page_mounted, ShowsHeld};
ghost use Rattle.view_meaning.specs.Parts.{parts_in, parts_of, parts_bytes, has_cell, has_each, keys_mounted, mounted_places, places_apart, KeysDiffer};
ghost use Rattle.view_meaning.specs.Serials.{fresh_among, before_it};

/// The parts of a page write it, one after another.
pub fn parts_write_the_page()
    ensures { (view : View) (items : List ItemValue) → parts_bytes view.texts view.value (parts_in view items) ≡ page_in view items }
{}

/// A view writes the page of what was seen last; where that is held state with the values of plain evaluation, it
/// is the page of that state. So is that of any view with the parts of held state that shows these values.
pub fn views_write_the_page()
    ensures seen { (items : List ItemValue) (seen : Seen) (old : Mounted) → page_mounted seen.view.texts (mounted_again items seen old) ≡ page_in seen.view items }
    ensures held { (component : ComponentValue) (held : Held) (seen : Seen) (old : Mounted) → ShowsHeld component held seen.view → page_mounted component.texts (mounted_again component.items seen old) ≡ page_of component held }
    ensures shown { (component : ComponentValue) (held : Held) (mounted : Mounted) → mounted.parts ≡ parts_of component held → ((p : Place) → has_cell mounted.parts p ≡ true → code_of mounted p ≡ scratch component held p) → page_mounted component.texts mounted ≡ page_of component held }
{}

/// No two mounted parts stand at one place.
pub fn mounted_places_differ()
    ensures seen { (component : ComponentValue) (view : View) → IsKept component → KeysDiffer view → places_apart (mounted_places (parts_in view component.items)) ≡ true }
    ensures held { (component : ComponentValue) (held : Held) → IsKept component → Fits component held → places_apart (mounted_places (parts_of component held)) ≡ true }
{}

/// The mounted rows of an `each` are those of its store, in the store's order; one that is not mounted has none.
pub fn rows_are_those_of_the_store()
    ensures mounted { (component : ComponentValue) (view : View) (id store : ℕ) → IsKept component → has_each (parts_in view component.items) id store ≡ true → keys_mounted (parts_in view component.items) id ≡ view.keys id store }
    ensures unmounted { (component : ComponentValue) (view : View) (id : ℕ) → IsKept component → ((store : ℕ) → has_each (parts_in view component.items) id store ≡ false) → keys_mounted (parts_in view component.items) id ≡ [] }
{}

/// A mounted text or attribute shows the value and the version that were seen last.
pub fn views_show_what_was_seen()
    ensures { (items : List ItemValue) (seen : Seen) (old : Mounted) (p : Place) (cell : Cell) → (mounted_again items seen old).cells p ≡ Some cell → (cell.code ≡ seen.view.value p) × (cell.version ≡ seen.version p) }
{}

/// A text or attribute that stayed mounted was replaced once more exactly where the version of its node moved. One
/// that was not mounted begins at 0, and what is not mounted has no count.
pub fn replacements_are_counted()
    ensures moved { (items : List ItemValue) (seen : Seen) (old : Mounted) (p : Place) (cell : Cell) → has_cell (parts_in seen.view items) p ≡ true → old.cells p ≡ Some cell → (cell.version == seen.version p) ≡ false → written_of (mounted_again items seen old) p ≡ Some (next_count cell.written) }
    ensures stayed { (items : List ItemValue) (seen : Seen) (old : Mounted) (p : Place) (cell : Cell) → has_cell (parts_in seen.view items) p ≡ true → old.cells p ≡ Some cell → (cell.version == seen.version p) ≡ true → written_of (mounted_again items seen old) p ≡ Some cell.written }
    ensures fresh { (items : List ItemValue) (seen : Seen) (old : Mounted) (p : Place) → has_cell (parts_in seen.view items) p ≡ true → old.cells p ≡ None → written_of (mounted_again items seen old) p ≡ Some 0 }
    ensures gone { (items : List ItemValue) (seen : Seen) (old : Mounted) (p : Place) → has_cell (parts_in seen.view items) p ≡ false → written_of (mounted_again items seen old) p ≡ None }
{}

/// The rows that a view numbers are those that are mounted, in their order.
pub fn mounted_rows_are_numbered()
    ensures { (items : List ItemValue) (seen : Seen) (old : Mounted) (id : ℕ) → map (λ pair. pair.0) ((mounted_again items seen old).rows id).rows ≡ keys_mounted (mounted_again items seen old).parts id }
{}

/// A row whose key stays keeps its serial, wherever it moves. A fresh one takes the next, in the store's order. What
/// is not mounted has none, and an `each` that is not mounted leaves its count as it is.
pub fn rows_have_their_serials()
    ensures kept { (items : List ItemValue) (seen : Seen) (old : Mounted) (id : ℕ) (key : CodeValue) (serial : ℕ) (before : List CodeValue) → before_it (keys_mounted (mounted_again items seen old).parts id) key ≡ Some before → serial_of old id key ≡ Some serial → serial_of (mounted_again items seen old) id key ≡ Some serial }
    ensures fresh { (items : List ItemValue) (seen : Seen) (old : Mounted) (id : ℕ) (key : CodeValue) (before : List CodeValue) → (old.rows id).next ≤ last_count → before_it (keys_mounted (mounted_again items seen old).parts id) key ≡ Some before → serial_of old id key ≡ None → serial_of (mounted_again items seen old) id key ≡ Some (min ((old.rows id).next + fresh_among (old.rows id).rows before) last_count) }
    ensures gone { (items : List ItemValue) (seen : Seen) (old : Mounted) (id : ℕ) (key : CodeValue) → before_it (keys_mounted (mounted_again items seen old).parts id) key ≡ None → serial_of (mounted_again items seen old) id key ≡ None }
    ensures count { (items : List ItemValue) (seen : Seen) (old : Mounted) (id : ℕ) → (old.rows id).next ≤ last_count → ((mounted_again items seen old).rows id).next ≡ min ((old.rows id).next + fresh_among (old.rows id).rows (keys_mounted (mounted_again items seen old).parts id)) last_count }
    ensures unmounted { (items : List ItemValue) (seen : Seen) (old : Mounted) (id : ℕ) → keys_mounted (mounted_again items seen old).parts id ≡ [] → (mounted_again items seen old).rows id ≡ record { rows = []; next = (old.rows id).next } }
{}

/// In each view that was ever made, the serials of the rows of one `each` are distinct, and below the next one.
pub fn serials_differ()
    ensures { (items : List ItemValue) (seens : List Seen) (id : ℕ) → AreCounted ((mounted_after items seens nothing_mounted).rows id) }
{}

/// Serials keep the order of first mounting: a fresh row has a greater one than each that was there, and of two
/// fresh ones the first in the store has the smaller.
pub fn serials_keep_the_order_of_mounting()
    ensures later { (items : List ItemValue) (seen : Seen) (old : Mounted) (id : ℕ) (key fresh : CodeValue) (serial more : ℕ) → AreCounted (old.rows id) → ((mounted_again items seen old).rows id).next < last_count → serial_of old id key ≡ Some serial → serial_of old id fresh ≡ None → serial_of (mounted_again items seen old) id fresh ≡ Some more → serial < more }
    ensures order { (items : List ItemValue) (seen : Seen) (old : Mounted) (id : ℕ) (key other : CodeValue) (first second : List CodeValue) (serial more : ℕ) → AreCounted (old.rows id) → ((mounted_again items seen old).rows id).next < last_count → before_it (keys_mounted (mounted_again items seen old).parts id) key ≡ Some first → before_it (keys_mounted (mounted_again items seen old).parts id) other ≡ Some second → length first < length second → serial_of old id key ≡ None → serial_of old id other ≡ None → serial_of (mounted_again items seen old) id key ≡ Some serial → serial_of (mounted_again items seen old) id other ≡ Some more → serial < more }
{}
