//! What follows from the definitions alone.

ghost use Rattle.std.specs.Prelude.{◌↔◌, Bool, false, List};
ghost use Rattle.grammar.specs.Descent.{LeadsDown};
ghost use Rattle.grammar.specs.Ends.{IsLast};
ghost use Rattle.grammar.specs.Machine.{Fits, IsRight};
ghost use Rattle.grammar.specs.Meaning.{Means};
ghost use Rattle.grammar.specs.Semantics.{Semantics, Refuses};
ghost use Rattle.grammar.specs.Table.{Begins, Derives};
ghost use Rattle.text_grammar.specs.declared.kind.Seen.{Seen};
ghost use Rattle.text_grammar.specs.declared.component.Action.{Action};
ghost use Rattle.text_grammar.specs.declared.component.Terminal.{Terminal};
ghost use Rattle.text_grammar.specs.declared.component.Terminal.TheVariants.{End};
ghost use Rattle.text_grammar.specs.declared.script.Terminal.TheVariants.{End as ScriptEnd};
ghost use Rattle.text_grammar.specs.Worked as worked;
ghost use Rattle.text_grammar.specs.Closed.{closed_table, is_closer, RefusesClosers, IsUnclosed, RefusesAlike, GoesOnAlike};
ghost use Rattle.text_grammar.specs.Kind.{end_seen, bad_seen};
ghost use Rattle.text_grammar.specs.Component as component;
ghost use Rattle.text_grammar.specs.ComponentAhead as component_ahead;
ghost use Rattle.text_grammar.specs.Script as script;
ghost use Rattle.text_grammar.specs.ScriptAhead as script_ahead;

/// One token of lookahead decides which production a component text takes next.
pub fn component_reads_by_one_token()
    ensures right { IsRight component.table component_ahead.lookahead }
    ensures closed_right { IsRight closed_table component_ahead.lookahead }
    ensures fits { Fits component.table component_ahead.lookahead component.text }
{}

/// One token of lookahead decides which production a script text takes next.
pub fn script_reads_by_one_token()
    ensures right { IsRight script.table script_ahead.lookahead }
    ensures fits { Fits script.table script_ahead.lookahead script.text }
{}

/// The end of a component text stands last: the rules lead down before a token is taken, no terminal but the
/// last takes the end, where closers take nothing, and none takes what is no token.
pub fn component_ends()
    ensures down { LeadsDown component.table component_ahead.lookahead component_ahead.level }
    ensures end { (touches : Bool) → IsLast component.table is_closer End (end_seen touches) component.text }
    ensures bad { IsLast component.table is_closer End bad_seen component.text }
{}

/// The end of a script text stands last: the rules lead down before a token is taken, no terminal but the last
/// takes the end, and none takes what is no token.
pub fn script_ends()
    ensures down { LeadsDown script.table script_ahead.lookahead script_ahead.level }
    ensures end { (touches : Bool) → IsLast script.table (λ w. false) ScriptEnd (end_seen touches) script.text }
    ensures bad { IsLast script.table (λ w. false) ScriptEnd bad_seen script.text }
{}

/// The closer adds no text: where every closer is refused, a list of tokens means by the table what it
/// means without the closer.
pub fn closers_add_no_text<T, S, E>()
    ensures meaning { (m : Semantics Terminal Action Seen T S E) → RefusesClosers m → (xs : List T) (a b : S) → Means component.table m component.text a xs b ↔ Means closed_table m component.text a xs b }
    ensures contained { (ks : List Seen) → Derives closed_table component.text ks → Derives component.table component.text ks }
{}

/// The closer refuses no token but those that leave an element open, and each of these: where every closer
/// is refused, the table refuses what is refused without the closer, but for a `}` or the end of the text
/// where an element is still open.
pub fn closers_leave_elements_open<T, S, E>()
    ensures alike { (m : Semantics Terminal Action Seen T S E) → RefusesClosers m → (a : S) (before : List T) (x : T) (e : E) → RefusesAlike m a before x e }
    ensures unclosed { (m : Semantics Terminal Action Seen T S E) (a : S) (before : List T) (x : T) (e : E) → IsUnclosed m a before x e → Refuses component.table m component.text a before x e }
    ensures goes_on { (m : Semantics Terminal Action Seen T S E) (a : S) (before : List T) (x : T) → GoesOnAlike m a before x }
{}

/// Some texts and some that are none, as the grammars have them.
pub fn worked_texts()
    ensures head { Derives closed_table component.text worked.head }
    ensures shown_in_element { Derives closed_table component.text worked.shown_in_element }
    ensures dashed_and_void_tags { Derives closed_table component.text worked.dashed_and_void_tags }
    ensures expression { Derives closed_table component.text worked.expression }
    ensures no_dash_apart { Begins component.table component.text worked.dash_apart → ⊥ }
    ensures no_other_version { Begins component.table component.text worked.other_version → ⊥ }
    ensures unclosed { Begins component.table component.text worked.unclosed }
    ensures no_unclosed { Begins closed_table component.text worked.unclosed → ⊥ }
    ensures set_field { Derives script.table script.text worked.set_field }
    ensures edits { Derives script.table script.text worked.edits }
    ensures no_disposed_row { Begins script.table script.text worked.disposed_row → ⊥ }
{}
