//! What each component that a text means keeps: it follows from what each token and each action does.

ghost use Rattle.std.specs.Prelude.{◌≡◌, ℕ, ◌+◌, ◌^◌, ◌≤◌, ◌<◌, true, length, List};
ghost use Rattle.std.specs.List.{list_all};
ghost use Rattle.values.specs.declared.limits.TheConstants.{MOST_OWNERS};
ghost use Rattle.component_items.specs.declared.component.Component.{Component as ComponentValue};
ghost use Rattle.component_items.specs.Ids.{ids_in, owners_in, IsNumbered};
ghost use Rattle.component_items.specs.Kept.{standing_at_top, item_stands, nothing_seen, items_see, item_has_texts, item_has_shape, IsKept};
ghost use Rattle.component_meaning.specs.Component.{IsComponent};

/// Ids are numbered from 0 in text order, and owners from 1 on.
pub fn ids_are_numbered()
    ensures { (bytes : List ℕ) (component : ComponentValue) → IsComponent bytes component → IsNumbered component.items }
{}

/// Each text of an item is in the component's table.
pub fn texts_are_in_the_table()
    ensures { (bytes : List ℕ) (component : ComponentValue) → IsComponent bytes component → list_all (item_has_texts (length component.texts)) component.items ≡ true }
{}

/// There are few enough owners, the top with them.
pub fn owners_are_few()
    ensures { (bytes : List ℕ) (component : ComponentValue) → IsComponent bytes component → length (owners_in component.items) < MOST_OWNERS }
{}

/// Each item stands where it may.
pub fn items_stand_where_they_may()
    ensures { (bytes : List ℕ) (component : ComponentValue) → IsComponent bytes component → list_all (λ item. item_stands item standing_at_top) component.items ≡ true }
{}

/// Stores and resources have one value for each field and key; a store has few rows, and a resource distinct keys.
pub fn stores_and_resources_have_their_shape()
    ensures { (bytes : List ℕ) (component : ComponentValue) → IsComponent bytes component → list_all item_has_shape component.items ≡ true }
{}

/// Each item names what is seen before it.
pub fn names_are_of_what_is_seen()
    ensures { (bytes : List ℕ) (component : ComponentValue) → IsComponent bytes component → items_see component.items nothing_seen ≡ true }
{}

/// No more ids are taken than the text has bytes, and its end.
pub fn ids_are_few()
    ensures { (bytes : List ℕ) (component : ComponentValue) → IsComponent bytes component → length (ids_in component.items) ≤ length bytes + 1 }
{}

/// All that a component keeps, together, where the text is no longer than what ids can number.
pub fn components_are_kept()
    ensures { (bytes : List ℕ) (component : ComponentValue) → length bytes + 1 < 2 ^ 31 → IsComponent bytes component → IsKept component }
{}
