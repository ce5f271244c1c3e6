//! What follows from the definitions alone. Each is the contract of a function that does nothing.
ghost use Rattle.std.specs.Prelude.{ℕ, ◌<◌, List, length, Contains};
ghost use Rattle.values.specs.declared.limits.TheConstants.{MOST_OWNERS};
ghost use Rattle.component_items.specs.declared.component.Component.{Component};
ghost use Rattle.component_items.specs.Ids.{ids_in};
ghost use Rattle.component_items.specs.Kept.{IsKept};
ghost use Rattle.script_items.specs.declared.operation.ScriptOp.{ScriptOp};
ghost use Rattle.script_items.specs.KeptFor.{IsKeptFor};
ghost use Rattle.script_items.specs.Members.{Member, an_area, ids_taken, members_of};

/// The members of a component have ids that it takes, and owners from 1 on.
pub fn members_are_within()
    ensures ids { (component : Component) (member : Member) (id : ℕ) → IsKept component → Contains (members_of component.items) member → Contains (ids_taken member) id → id < length (ids_in component.items) }
    ensures owners { (component : Component) (owner : ℕ) → IsKept component → Contains (members_of component.items) (an_area owner) → (0 < owner) × (owner < MOST_OWNERS) }
{}

/// What a script keeps for a component it keeps for the component with the script's texts in its table.
pub fn kept_with_its_texts()
    ensures { (component : Component) (script : List (List (List ScriptOp))) (texts : List (List ℕ)) → IsKeptFor component script texts → IsKeptFor (record component { texts = texts }) script texts }
{}
