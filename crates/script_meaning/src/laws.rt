//! What follows from the definitions alone.

ghost use Rattle.std.specs.Prelude.{◌≡◌, ◌⊎◌, ◌++◌, ℕ, List, length};
ghost use Rattle.component_items.specs.declared.component.Component.{Component};
ghost use Rattle.component_items.specs.declared.refusal.Refusal.{Refusal};
ghost use Rattle.script_items.specs.declared.operation.ScriptOp.{ScriptOp};
ghost use Rattle.script_items.specs.Script.{IsScript as IsShort};
ghost use Rattle.component_items.specs.Kept.{IsKept};
ghost use Rattle.script_items.specs.KeptFor.{AllOps, HasTexts, NamesMembers, IsKeptFor};
ghost use Rattle.script_items.specs.Members.{members_of};
ghost use Rattle.script_meaning.specs.Script.{IsScript, IsNoScript};

/// Bytes are the text of at most one script for a component, and the texts are then known.
pub fn one_script()
    ensures script { (component : Component) (first_line : ℕ) (bytes : List ℕ) (a b : List (List (List ScriptOp))) (texts others : List (List ℕ)) → IsScript component first_line bytes a texts → IsScript component first_line bytes b others → a ≡ b }
    ensures texts { (component : Component) (first_line : ℕ) (bytes : List ℕ) (a b : List (List (List ScriptOp))) (texts others : List (List ℕ)) → IsScript component first_line bytes a texts → IsScript component first_line bytes b others → texts ≡ others }
{}

/// The text of a script is not refused.
pub fn never_both()
    ensures { (component : Component) (first_line : ℕ) (bytes : List ℕ) (script : List (List (List ScriptOp))) (texts : List (List ℕ)) (why : Refusal) → IsScript component first_line bytes script texts → IsNoScript component first_line bytes why → ⊥ }
{}

/// A text is refused for one reason at one place.
pub fn one_refusal()
    ensures { (component : Component) (first_line : ℕ) (bytes : List ℕ) (a b : Refusal) → IsNoScript component first_line bytes a → IsNoScript component first_line bytes b → a ≡ b }
{}

/// Bytes are the text of a script for a component, or are refused.
pub fn one_of_both()
    ensures { (component : Component) (first_line : ℕ) (bytes : List ℕ) → ((script : List (List (List ScriptOp))) × (texts : List (List ℕ)) × IsScript component first_line bytes script texts) ⊎ ((why : Refusal) × IsNoScript component first_line bytes why) }
{}

/// A script only adds texts: those of its component keep their numbers.
pub fn texts_only_grow()
    ensures { (component : Component) (first_line : ℕ) (bytes : List ℕ) (script : List (List (List ScriptOp))) (texts : List (List ℕ)) → IsScript component first_line bytes script texts → (more : List (List ℕ)) × (texts ≡ component.texts ++ more) }
{}

/// A script has few phases, and each of them few lanes.
pub fn scripts_are_short()
    ensures { (component : Component) (first_line : ℕ) (bytes : List ℕ) (script : List (List (List ScriptOp))) (texts : List (List ℕ)) → IsScript component first_line bytes script texts → IsShort script }
{}

/// Each text of an operation is in the table that the component has with the script.
pub fn words_are_in_the_table()
    ensures { (component : Component) (first_line : ℕ) (bytes : List ℕ) (script : List (List (List ScriptOp))) (texts : List (List ℕ)) → IsKept component → IsScript component first_line bytes script texts → AllOps (HasTexts (length texts)) script }
{}

/// Each operation names what there is outside of the `if`s and `each`es of the component.
pub fn names_are_members()
    ensures { (component : Component) (first_line : ℕ) (bytes : List ℕ) (script : List (List (List ScriptOp))) (texts : List (List ℕ)) → IsKept component → IsScript component first_line bytes script texts → AllOps (NamesMembers (members_of component.items)) script }
{}

/// All that a script keeps for its component, together.
pub fn scripts_are_kept()
    ensures { (component : Component) (first_line : ℕ) (bytes : List ℕ) (script : List (List (List ScriptOp))) (texts : List (List ℕ)) → IsKept component → IsScript component first_line bytes script texts → IsKeptFor component script texts }
{}
