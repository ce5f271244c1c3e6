//! Whole inputs: what follows from the definitions, and worked rows. Lines and columns were counted by hand.

ghost use Rattle.std.specs.Prelude.{◌≡◌, ◌⊎◌, ℕ, List, [], ◌∷◌, codes, pos, None};
ghost use Rattle.values.specs.declared.code.Code.TheVariants.{Number};
ghost use Rattle.component_items.specs.declared.component.Item.TheVariants as item;
ghost use Rattle.component_items.specs.declared.component.Component.{Component};
ghost use Rattle.component_items.specs.declared.refusal.Refusal.{Refusal};
ghost use Rattle.script_items.specs.declared.operation.ScriptOp.{ScriptOp};
ghost use Rattle.script_items.specs.declared.operation.ScriptOp.TheVariants as op;
ghost use Rattle.script_meaning.specs.Input.{IsInput, IsBadInput};
ghost use Rattle.script_meaning.specs.WorkedInput.{InputRefusedAt, InputMeans};

use component_items::Why;

/// Bytes are at most one input: the component, the script and the texts are known.
pub fn one_input()
    ensures component { (bytes : List ℕ) (c d : Component) (a b : List (List (List ScriptOp))) (texts others : List (List ℕ)) → IsInput bytes c a texts → IsInput bytes d b others → c ≡ d }
    ensures script { (bytes : List ℕ) (c d : Component) (a b : List (List (List ScriptOp))) (texts others : List (List ℕ)) → IsInput bytes c a texts → IsInput bytes d b others → a ≡ b }
    ensures texts { (bytes : List ℕ) (c d : Component) (a b : List (List (List ScriptOp))) (texts others : List (List ℕ)) → IsInput bytes c a texts → IsInput bytes d b others → texts ≡ others }
{}

/// An input is not refused.
pub fn input_never_both()
    ensures { (bytes : List ℕ) (component : Component) (script : List (List (List ScriptOp))) (texts : List (List ℕ)) (why : Refusal) → IsInput bytes component script texts → IsBadInput bytes why → ⊥ }
{}

/// Bytes are refused for one reason at one place.
pub fn input_one_refusal()
    ensures { (bytes : List ℕ) (a b : Refusal) → IsBadInput bytes a → IsBadInput bytes b → a ≡ b }
{}

/// Bytes are an input, or are refused.
pub fn input_one_of_both()
    ensures { (bytes : List ℕ) → ((component : Component) × (script : List (List (List ScriptOp))) × (texts : List (List ℕ)) × IsInput bytes component script texts) ⊎ ((why : Refusal) × IsBadInput bytes why) }
{}

/// Inputs that are refused, in the component text or in the script text.
pub fn refused_inputs()
    ensures nothing { InputRefusedAt (codes "") Why.Unexpected 1 1 }
    ensures element_left_open { InputRefusedAt (codes "component 1\n<p>\n---\nphase") Why.UnclosedTag 3 1 }
    ensures name_of_no_component { InputRefusedAt (codes "component 1\nsignal a = 1\n---\nphase lane set b = 1") Why.UnknownName 4 16 }
    ensures lanes { InputRefusedAt (codes "component 1\n---\nphase lane lane lane lane lane lane lane lane lane lane lane lane lane lane lane lane lane") Why.TooManyLanes 3 87 }
{}

/// What small inputs mean.
pub fn accepted_inputs()
    ensures no_separator { InputMeans (codes "component 1") ([] ∷ []) ([]) ([]) ([] ∷ []) }
    ensures signal_is_set { InputMeans (codes "component 1\nsignal a = 1\n---\nphase lane set a = 2") ([] ∷ codes "a" ∷ []) (item.Signal 0 1 (Number (pos 1)) ∷ []) (((op.Set 0 None (Number (pos 2)) ∷ []) ∷ []) ∷ []) ([] ∷ codes "a" ∷ []) }
{}
