//! A component as far as it was read.

ghost use Rattle.std.specs.Prelude.{◌≡◌, IfOk};
ghost use Rattle.component_meaning.specs.State.{start};

use crate::keys::Keys;
use crate::spelling::Spelling;
use component_blocks::Blocks;
use component_items::Items;
use component_scope::{Declaration, Fields};
use grammar::Stack;
use std::alloc::Global;
use std::marker::Model;
use values::{Code, Codes, Expr, NoMemory, Texts};

/// What was read of a component text so far. What tokens and actions do to it stands in the crates above, for which its
/// fields are public; contracts see the state of the definitions.
#[derive(Drop)]
pub struct Draft {
    pub texts: Texts,
    /// What is seen and what is open, with the items so far.
    pub blocks: Blocks,
    /// The id that comes next.
    pub next_id: u32,
    /// The owner that comes next.
    pub next_owner: u32,
    /// The name of the item or attribute that is read.
    pub name: u32,
    /// The number behind `after` or `max`.
    pub number: u32,
    /// The resource or store that the item uses.
    pub used: Option<Declaration>,
    /// The keys of a resource.
    pub keys: Keys,
    /// The fields of a store.
    pub fields: Fields,
    /// The values of a resource's keys, or the starts of a store's fields.
    pub values: Codes,
    /// The text of the page, of a cleanup or of an attribute.
    pub written: u32,
    /// The name of a tag or attribute.
    pub spelling: Spelling,
    /// The last literal of the expression that is read.
    pub literal: Code,
    /// Its operands that wait for their operator, the last one first.
    pub operands: Stack<Expr>,
    /// Its tokens so far.
    pub tokens: u32,
}

impl Model for Draft {
    ghost use Rattle.component_meaning.specs.State.{State};
    ghost use Rattle.component_items.specs.contracts.component.Item as item;
    ghost use Rattle.values.specs.contracts.expr.Expr as expr;
    ghost use Rattle.std.specs.Coded.{codes};

    ghost Value = { State };

    ghost coded = { Prim.hlevel (codes, item.the_row.coded, expr.the_row.coded) };

    ghost view = { λ s. record {
      texts = s.texts;
      seen = s.blocks.seen;
      items = s.blocks.items;
      opened = s.blocks.opened;
      next_id = s.next_id;
      next_owner = s.next_owner;
      name = s.name;
      number = s.number;
      used = s.used;
      keys = s.keys;
      fields = s.fields;
      values = s.values;
      written = s.written;
      spelling = s.spelling;
      literal = s.literal;
      operands = s.operands;
      tokens = s.tokens;
    } };
}

impl Draft {
    /// The state before the first token.
    pub fn new(alloc: Global) -> Result<Draft, NoMemory>
        ensures { IfOk result (λ state. state ≡ start) }
    {
        Ok(Draft {
            texts: Texts::new(alloc)?,
            blocks: Blocks::new(alloc),
            next_id: 0,
            next_owner: 1,
            name: 0,
            number: 0,
            used: None,
            keys: Keys::new(alloc),
            fields: Fields::new(alloc),
            values: Codes::new(alloc),
            written: 0,
            spelling: Spelling::new(alloc),
            literal: Code::Empty,
            operands: Stack::new(alloc),
            tokens: 0,
        })
    }
    /// The texts and the items that were read.
    pub fn finish(self) -> (Texts, Items)
        ensures texts { result.0 ≡ self.texts }
        ensures items { result.1 ≡ self.items }
    {
        let Draft { texts, blocks, .. } = self;
        (texts, blocks.finish())
    }
}
