//! A script as far as it was read.

ghost use Rattle.std.specs.Prelude.{◌≡◌, IfOk};
ghost use Rattle.script_meaning.specs.State.{start_for};

use crate::named::Named;
use crate::texts::ScriptTexts;
use script_items::{END_OF_ROWS, Script};
use script_names::Names;
use std::alloc::Global;
use std::marker::Model;
use values::{Code, NoMemory, Texts};

/// What was read of a script text so far, for a component whose names and texts it borrows. What tokens and actions do
/// to it stands in the crates above, for which its fields are public; contracts see the state of the definitions.
#[derive(Drop)]
pub struct ScriptDraft<'a> {
    /// The names of the component.
    pub names: &'a Names<'a>,
    /// The texts of the component, and those that the script adds.
    pub texts: ScriptTexts<'a>,
    /// The phases so far.
    pub script: Script,
    /// What the path that is read names so far.
    pub named: Named<'a>,
    /// The key of a store row.
    pub key: Option<Code>,
    /// Of an insert, the value of each field.
    pub values: Vec<Code>,
    /// Which fields of the insert were given.
    pub given: Vec<bool>,
    /// The place of the last field that was given, counted from 0.
    pub field: usize,
    /// A place behind `at` or `to`.
    pub place: u32,
    /// The last literal.
    pub literal: Code,
}

impl<'a> Model for ScriptDraft<'a> {
    ghost use Rattle.script_meaning.specs.State.{State};
    ghost use Rattle.script_draft.specs.Named.{named_of};

    ghost Value = { State };

    ghost view = { λ s. record {
      texts = s.texts;
      phases = s.script;
      names = s.names.now;
      named = named_of s.named;
      key = s.key;
      values = s.values.items;
      given = s.given.items;
      field = s.field;
      place = s.place;
      literal = s.literal;
    } };
}

impl<'a> ScriptDraft<'a> {
    /// The state before the first token, for a component with these names and texts.
    pub fn new(
        alloc: Global,
        names: &'a Names<'a>,
        texts: &'a Texts,
    ) -> Result<ScriptDraft<'a>, NoMemory>
        ensures { IfOk result (λ state. state ≡ start_for texts.entry.now names.entry.now) }
    {
        Ok(ScriptDraft {
            names,
            texts: ScriptTexts::new(alloc, texts)?,
            script: Script::new(alloc),
            named: Named::Nothing,
            key: None,
            values: Vec::new(alloc),
            given: Vec::new(alloc),
            field: 0,
            place: END_OF_ROWS,
            literal: Code::Empty,
        })
    }

    /// The script that was read, and all texts.
    pub fn into_parts(self) -> (Script, ScriptTexts<'a>)
        ensures script { result.0 ≡ self.entry.phases }
        ensures texts { result.1 ≡ self.entry.texts }
    {
        let ScriptDraft { script, texts, .. } = self;
        (script, texts)
    }
}
