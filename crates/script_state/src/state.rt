//! The state of a script text at one of its tokens.

ghost use Rattle.std.specs.Prelude.{◌≡◌, IfOk};
ghost use Rattle.script_meaning.specs.State.{start_for};

use script_draft::{ScriptDraft, ScriptTexts};
use script_items::Script;
use script_names::Names;
use std::alloc::Global;
use std::marker::Model;
use values::{NoMemory, Texts};

/// What was read of a script text so far, for a component whose names and texts it borrows.
#[derive(Drop)]
pub struct ScriptState<'a> {
    pub(crate) draft: ScriptDraft<'a>,
}

impl<'a> Model for ScriptState<'a> {
    ghost use Rattle.script_meaning.specs.State.{State};

    ghost Value = { State };

    ghost view = { λ s. s.draft };
}

impl<'a> ScriptState<'a> {
    /// The state before the first token, for a component with these names and texts.
    pub fn new(
        alloc: Global,
        names: &'a Names<'a>,
        texts: &'a Texts,
    ) -> Result<ScriptState<'a>, NoMemory>
        ensures { IfOk result (λ state. state ≡ start_for texts.entry.now names.entry.now) }
    {
        Ok(ScriptState {
            draft: ScriptDraft::new(alloc, names, texts)?,
        })
    }

    /// The script that was read, and all texts.
    pub fn into_parts(self) -> (Script, ScriptTexts<'a>)
        ensures script { result.0 ≡ self.entry.phases }
        ensures texts { result.1 ≡ self.entry.texts }
    {
        let ScriptState { draft } = self;
        draft.into_parts()
    }
}
