//! The state of a component text at one of its tokens.

ghost use Rattle.std.specs.Prelude.{◌≡◌, IfOk};
ghost use Rattle.component_meaning.specs.State.{start};

use component_draft::Draft;
use component_items::Items;
use std::alloc::Global;
use std::marker::Model;
use values::{NoMemory, Texts};

/// What was read of a component text so far.
#[derive(Drop)]
pub struct ComponentState {
    pub(crate) draft: Draft,
}

impl Model for ComponentState {
    ghost use Rattle.component_meaning.specs.State.{State};
    ghost use Rattle.component_items.specs.contracts.component.Item as item;
    ghost use Rattle.values.specs.contracts.expr.Expr as expr;
    ghost use Rattle.std.specs.Coded.{codes};

    ghost Value = { State };

    ghost coded = { Prim.hlevel (codes, item.the_row.coded, expr.the_row.coded) };

    ghost view = { λ s. s.draft };
}

impl ComponentState {
    /// The state before the first token.
    pub fn new(alloc: Global) -> Result<ComponentState, NoMemory>
        ensures { IfOk result (λ state. state ≡ start) }
    {
        Ok(ComponentState {
            draft: Draft::new(alloc)?,
        })
    }

    /// The texts and the items that were read.
    pub fn finish(self) -> (Texts, Items)
        ensures texts { result.0 ≡ self.texts }
        ensures items { result.1 ≡ self.items }
    {
        let ComponentState { draft } = self;
        draft.finish()
    }
}
