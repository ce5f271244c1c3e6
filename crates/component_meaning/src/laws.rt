//! What follows from the definitions alone.

ghost use Rattle.std.specs.Prelude.{◌≡◌, ◌⊎◌, ◌++◌, ◌∷◌, [], ℕ, ◌≤◌, ◌<◌, List, Some, None, true, false, length, codes};
ghost use Rattle.grammar.specs.Ahead.{with_next};
ghost use Rattle.grammar.specs.Meaning.{Means};
ghost use Rattle.text_grammar.specs.Closed.{closed_table, RefusesClosers};
ghost use Rattle.part_meaning.specs.Part.{IsReadTo};
ghost use Rattle.component_items.specs.declared.component.Component.{Component as ComponentValue};
ghost use Rattle.component_items.specs.declared.refusal.Refusal.{Refusal};
ghost use Rattle.component_items.specs.Counts.{nodes_of};
ghost use Rattle.component_meaning.specs.Component.{component_text, IsComponent, IsNoComponent, too_many_nodes};
ghost use Rattle.component_meaning.specs.Computed.{read_of, refusal_of};
ghost use Rattle.component_meaning.specs.Meaning.{semantics};
ghost use Rattle.component_meaning.specs.Checks.{fails_owners};
ghost use Rattle.component_meaning.specs.Names.{is_full};
ghost use Rattle.component_meaning.specs.State.{State, start};
ghost use Rattle.values.specs.declared.limits.TheConstants.{MOST_NODES};
ghost use Rattle.values.specs.Texts.{index_of};
ghost use Rattle.text_grammar.specs.declared.component.Terminal.TheVariants.{NewArea};
ghost use Rattle.component_meaning.specs.Worked.{RefusedAt};

use component_items::Why;

/// Bytes are the text of at most one component.
pub fn one_component()
    ensures { (bytes : List ℕ) (a b : ComponentValue) → IsComponent bytes a → IsComponent bytes b → a ≡ b }
{}

/// The text of a component is not refused.
pub fn never_both()
    ensures { (bytes : List ℕ) (component : ComponentValue) (why : Refusal) → IsComponent bytes component → IsNoComponent bytes why → ⊥ }
{}

/// A text is refused for one reason at one place.
pub fn one_refusal()
    ensures { (bytes : List ℕ) (a b : Refusal) → IsNoComponent bytes a → IsNoComponent bytes b → a ≡ b }
{}

/// Bytes are the text of a component, or are refused.
pub fn one_of_both()
    ensures { (bytes : List ℕ) → ((component : ComponentValue) × IsComponent bytes component) ⊎ ((why : Refusal) × IsNoComponent bytes why) }
{}

/// No token passes as a closer. So the production of the closer adds no text: what is read is read without it.
pub fn closers_never_pass()
    ensures refused { (bytes : List ℕ) → RefusesClosers (semantics bytes) }
    ensures closed { (bytes : List ℕ) (last : State) (read : IsReadTo component_text bytes last) → Means closed_table (semantics bytes) component_text.text component_text.start (with_next read.tokens) last }
{}

/// A worked row: bytes that are no UTF-8 are refused at the first one that begins no valid sequence.
pub fn bad_utf8()
    ensures { RefusedAt (codes "component 1\n\"" ++ 255 ∷ []) Why.BadUtf8 2 2 }
{}

/// What is computed is what the relations say.
pub fn outcome_is_meaning()
    ensures component { (bytes : List ℕ) (component : ComponentValue) → read_of bytes ≡ Some component → nodes_of component.items ≤ MOST_NODES → IsComponent bytes component }
    ensures refused { (bytes : List ℕ) (why : Refusal) → refusal_of bytes ≡ Some why → IsNoComponent bytes why }
    ensures too_large { (bytes : List ℕ) (component : ComponentValue) → read_of bytes ≡ Some component → MOST_NODES < nodes_of component.items → IsNoComponent bytes (too_many_nodes bytes) }
{}

/// Both sides of the limits that are too large for a worked text: 1,023 areas and no more may be declared, and a
/// table has room for 65,536 texts and no more.
pub fn limits_of_large_texts()
    ensures area { fails_owners NewArea (record start { next_owner = 1023 }) ≡ false }
    ensures no_area { fails_owners NewArea (record start { next_owner = 1024 }) ≡ true }
    ensures text { (text : List ℕ) (texts : List (List ℕ)) → length texts ≡ 65535 → is_full text texts ≡ false }
    ensures no_text { (text : List ℕ) (texts : List (List ℕ)) → length texts ≡ 65536 → index_of text texts ≡ None → is_full text texts ≡ true }
    ensures same_text { (text : List ℕ) (texts : List (List ℕ)) (n : ℕ) → index_of text texts ≡ Some n → is_full text texts ≡ false }
{}
