//! What follows from the definitions alone. Each is the contract of a function that does nothing.
ghost use Rattle.std.specs.Prelude.{◌≡◌, ℕ, List, [], ◌∷◌, Bool, true, false, Some, None, Contains, ◌↔◌, length, map, pos};
ghost use Rattle.values.specs.declared.code.Code.{Code as CodeValue};
ghost use Rattle.values.specs.declared.expr.Expr.{Expr as ExprValue};
ghost use Rattle.component_items.specs.declared.component.Component.{Component as ComponentValue};
ghost use Rattle.component_items.specs.declared.component.Item.{Item as ItemValue};
ghost use Rattle.component_items.specs.Around.{Around, items_listed, owner_of_id, path_of_id};
ghost use Rattle.component_items.specs.Counts.{nodes_of};
ghost use Rattle.component_items.specs.Ids.{ids_in, owners_in};
ghost use Rattle.component_items.specs.Kept.{item_stands, standing_at_top, items_see, nothing_seen, are_distinct, IsKept};
ghost use Rattle.component_items.specs.Worked.{items};

use crate::component::{Attr, Item};
use values::{Code, Expr};

/// Each id that items take has its owner and path, in text order.
pub fn each_id_is_listed()
    ensures { (items : List ItemValue) (around : Around) → map (λ l. l.id) (items_listed items around) ≡ ids_in items }
{}

/// An id has an owner and a path exactly where an item takes it.
pub fn other_ids_have_no_owner()
    ensures owner { (component : ComponentValue) (id : ℕ) → (owner_of_id component id ≡ None) ↔ ¬ Contains (ids_in component.items) id }
    ensures path { (component : ComponentValue) (id : ℕ) → (path_of_id component id ≡ None) ↔ ¬ Contains (ids_in component.items) id }
{}

/// A worked component is kept, with any table that has its texts.
pub fn worked_component_is_kept()
    ensures { (texts : List (List ℕ)) → length texts ≡ 12 → IsKept (record { texts = texts; items = items }) }
{}

/// Worked rows of the definitions.
pub fn worked_components()
    ensures store_ids { ids_in (Item.Store 4 7 3 (8 ∷ 9 ∷ []) (Code.Empty ∷ Code.Empty ∷ []) ∷ []) ≡ 4 ∷ 5 ∷ 6 ∷ 7 ∷ [] }
    ensures load_ids { ids_in (Item.Load 4 7 1 (Expr.Read 0) ∷ []) ≡ 4 ∷ 5 ∷ [] }
    ensures element_ids { ids_in (Item.Element 1 true (Attr.Bare 2 ∷ Attr.Shown 3 4 (Expr.Read 0) ∷ []) (Item.Text 6 ∷ Item.Shown 5 (Expr.Read 0) ∷ []) ∷ []) ≡ 4 ∷ 5 ∷ [] }
    ensures owners { owners_in (Item.Area 0 7 1 (Item.Area 1 8 2 [] ∷ []) ∷ Item.Area 2 9 3 [] ∷ []) ≡ 1 ∷ 2 ∷ 3 ∷ [] }
    ensures owner { (texts : List (List ℕ)) → owner_of_id (record { texts = texts; items = Item.Element 1 true [] (Item.Area 0 7 1 (Item.Signal 1 8 Code.Empty ∷ []) ∷ []) ∷ [] }) 1 ≡ Some 1 }
    ensures path { (texts : List (List ℕ)) → path_of_id (record { texts = texts; items = Item.Area 0 7 1 (Item.Area 1 8 2 (Item.Store 2 9 3 (10 ∷ 11 ∷ []) (Code.Empty ∷ Code.Empty ∷ []) ∷ []) ∷ []) ∷ [] }) 5 ≡ Some (7 ∷ 8 ∷ 11 ∷ []) }
    ensures nodes { nodes_of (Item.Store 0 7 3 (8 ∷ 9 ∷ []) (Code.Empty ∷ Code.Empty ∷ []) ∷ Item.Each 4 0 (Item.Shown 5 (Expr.Read 2) ∷ Item.Shown 6 (Expr.Read 3) ∷ []) ∷ []) ≡ 12 }
    ensures no_signal_in_an_element { item_stands (Item.Element 1 true [] (Item.Signal 0 7 Code.Empty ∷ [])) standing_at_top ≡ false }
    ensures no_each_in_an_each { item_stands (Item.Each 4 0 (Item.Each 5 0 [] ∷ [])) standing_at_top ≡ false }
    ensures memo_in_an_if { item_stands (Item.If 0 (Expr.Lit Code.Empty) (Item.Memo 1 7 (Expr.Lit Code.Empty) ∷ [])) standing_at_top ≡ true }
    ensures seen_before { items_see (Item.Signal 0 7 Code.Empty ∷ Item.Memo 1 8 (Expr.Read 0) ∷ []) nothing_seen ≡ true }
    ensures unseen_behind { items_see (Item.Memo 0 8 (Expr.Read 1) ∷ Item.Signal 1 7 Code.Empty ∷ []) nothing_seen ≡ false }
    ensures equal_keys { are_distinct (Code.Number (pos 0) ∷ Code.Number (pos 0) ∷ []) ≡ false }
{}
