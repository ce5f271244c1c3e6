//! One block or element that is open.

use crate::attributes::Attributes;
use component_items::{Attr, Item, Items};
use component_scope::Rows;
use std::alloc::AllocError;
use values::Expr;

/// What is open, as it began.
#[derive(Drop)]
pub enum Frame {
    /// An area: its id, its name by its number in the table of texts, and its owner.
    Area {
        id: u32,
        name: u32,
        owner: u32,
    },
    /// An `if`: its id and its condition.
    If {
        id: u32,
        cond: Expr,
    },
    /// An `each`: its id and its store.
    Each {
        id: u32,
        rows: Rows,
    },
    /// An element: its tag by its number in the table of texts, whether it has an end tag, and its attributes so far.
    Element {
        tag: u32,
        closed: bool,
        attrs: Attributes,
    },
}

impl Frame {
    ghost use Rattle.std.specs.Prelude.{◌≡◌, ◌==◌, Option, OnOk};
    ghost use Rattle.std.specs.List.{list_any};
    ghost use Rattle.component_items.specs.Kept.{Standing};
    ghost use Rattle.component_meaning.specs.State.{Rows as Fielded, tag_of, attrs_of, inside, rows_of};
    ghost use Rattle.component_meaning.specs.Names.{name_of};
    ghost use Rattle.component_frames.specs.Blocks.{frame_of, is_area, is_branch};
    ghost use Rattle.component_frames.specs.Nest as nest;

    /// Whether it is an area.
    pub fn is_area(&self) -> bool
        ensures { result ≡ is_area (frame_of self.now) }
    {
        match self {
            Frame::Area { .. } => true,
            _ => false,
        }
    }

    /// Whether it is an element.
    pub fn is_element(&self) -> bool
        ensures { result ≡ nest.is_element (frame_of self.now) }
    {
        match self {
            Frame::Element { .. } => true,
            _ => false,
        }
    }

    /// The tag of an element.
    pub fn tag(&self) -> Option<u32>
        ensures { result ≡ tag_of (frame_of self.now) }
    {
        match self {
            Frame::Element { tag, .. } => Some(*tag),
            _ => None,
        }
    }

    /// Whether it is an element that has an attribute of this name.
    pub fn has_attribute(&self, name: u32) -> bool
        ensures { result ≡ list_any (λ attr. name == name_of attr) (attrs_of (frame_of self.now)) }
    {
        match self {
            Frame::Element { attrs, .. } => attrs.has(name),
            _ => false,
        }
    }

    /// Whether what is in it is there under a condition: an `if` or an `each`.
    pub fn is_branch(&self) -> bool
        ensures { result ≡ is_branch (frame_of self.now) }
    {
        match self {
            Frame::If { .. } | Frame::Each { .. } => true,
            _ => false,
        }
    }

    /// Adds the attribute at the end, where it is an element.
    pub fn add_attribute(&mut self, attr: Attr) -> Result<(), AllocError>
        ensures added { OnOk result (frame_of self.new ≡ nest.frame_with attr (frame_of self.old)) }
        ensures standing { (around : Standing) → inside (frame_of self.new) around ≡ inside (frame_of self.old) around }
        ensures rows { (around : Option Fielded) → rows_of (frame_of self.new) around ≡ rows_of (frame_of self.old) around }
    {
        match self {
            Frame::Element { attrs, .. } => attrs.push(attr),
            _ => Ok(()),
        }
    }
}

/// A block or element that is open.
#[derive(Drop)]
pub struct Block {
    /// As it began.
    pub frame: Frame,
    /// How many declarations were seen where it began.
    pub outside: usize,
    /// Its items so far.
    pub items: Items,
    /// Whether what is read in it is in an `if` or an `each`.
    pub branched: bool,
    /// The store of the `each` around what is read in it.
    pub rows: Option<Rows>,
}

impl Block {
    ghost use Rattle.std.specs.Prelude.{◌≡◌};
    ghost use Rattle.component_meaning.specs.Actions.{item_of};
    ghost use Rattle.component_frames.specs.Blocks.{frame_of};

    /// The item that it is.
    pub fn into_item(self) -> Item
        ensures { result ≡ item_of (frame_of self.frame) self.items }
    {
        let Block { frame, items, .. } = self;
        match frame {
            Frame::Area { id, name, owner } => Item::Area {
                id,
                name,
                owner,
                items,
            },
            Frame::If { id, cond } => Item::If { id, cond, items },
            Frame::Each { id, rows } => Item::Each {
                id,
                store: rows.store(),
                items,
            },
            Frame::Element { tag, closed, attrs } => Item::Element {
                tag,
                closed,
                attrs: attrs.into_attrs(),
                items,
            },
        }
    }
}
