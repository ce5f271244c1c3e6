//! What a component text means.
ghost use Rattle.std.specs.Prelude.{◌≡◌, ◌↔◌, Some, None, IfOk, OnErr, length};
ghost use Rattle.values.specs.Texts.{index_of, with_text};
ghost use Rattle.values.specs.declared.limits.TheConstants.{MOST_TEXTS};
ghost use Rattle.component_items.specs.Kept.{IsKept};

use sqlite_items as items;
use std::marker::Model;
use values::{Code, Codes, Expr, Numbers, Sequence, TextRefusal, Texts};

/// An attribute of a tag. Names and texts are indices in the component's table of texts.
#[derive(Debug, Drop)]
pub enum Attr {
    /// The name alone.
    Bare { name: u32 },
    /// A name with a text that stays as it is.
    Fixed { name: u32, text: u32 },
    /// A name with the value of an expression.
    Shown { name: u32, id: u32, expr: Expr },
}

/// The attributes of a tag, in text order.
pub type Attrs = Sequence<Attr>;

/// Items, in text order.
pub type Items = items::Items<Item>;

/// One item of a component. Names, tags and texts are indices in the table of texts. Ids are numbered
/// from 0 in text order, areas have the owners from 1 on, and `Read(n)` of an expression names the id n.
#[derive(Debug, Drop)]
pub enum Item {
    /// A signal with its value at the start.
    Signal {
        id: u32,
        name: u32,
        start: Code,
    },
    /// A memo, which has the value of its expression.
    Memo {
        id: u32,
        name: u32,
        expr: Expr,
    },
    /// An effect, which runs its expression after each change of what that read.
    Effect {
        id: u32,
        name: u32,
        expr: Expr,
    },
    /// A resource: its value for each of its keys. A load of it arrives when it has been asked more than
    /// `after` times.
    Resource {
        id: u32,
        name: u32,
        after: u32,
        keys: Codes,
        values: Codes,
    },
    /// A load of the resource with the id `resource`. It takes a further id behind its own, for its key.
    Load {
        id: u32,
        name: u32,
        resource: u32,
        key: Expr,
    },
    /// A store of at most `max` rows. It takes further ids behind its own: one for the key, and then one
    /// for each field. Each field has a name and the value with which a new row begins.
    Store {
        id: u32,
        name: u32,
        max: u32,
        fields: Numbers,
        starts: Codes,
    },
    /// What is done when the area around it is disposed.
    Cleanup {
        text: u32,
    },
    /// An area, which owns what is in it.
    Area {
        id: u32,
        name: u32,
        owner: u32,
        items: Items,
    },
    /// Items that are there while the condition is true.
    If {
        id: u32,
        cond: Expr,
        items: Items,
    },
    /// Items that are there once for each row of the store with the id `store`.
    Each {
        id: u32,
        store: u32,
        items: Items,
    },
    /// An element of the page. `closed` is false for a void element, which has no items.
    Element {
        tag: u32,
        closed: bool,
        attrs: Attrs,
        items: Items,
    },
    /// A text of the page.
    Text {
        text: u32,
    },
    /// The value of an expression, shown.
    Shown {
        id: u32,
        expr: Expr,
    },
}

/// A component: its table of texts and its items, with what each component keeps
/// (`docs/SEMANTICS.md`, "Components"). Contracts see the bytes of its texts and its items.
#[derive(Drop)]
pub struct Component {
    texts: Texts,
    items: Items,
}

impl Model for Component {
    ghost use Rattle.component_items.specs.contracts.component.Item as item;
    ghost use Rattle.component_items.specs.Kept.{IsKept};
    ghost use Rattle.component_items.specs.Parts.{Parts};
    ghost use Rattle.std.specs.Coded.{codes};

    ghost Value = { Parts };

    ghost coded = { Prim.hlevel (codes, item.the_row.coded) };

    ghost view = { λ c. record { texts = c.texts; items = c.items } };

    ghost invariant = { λ c. IsKept (record { texts = c.texts; items = c.items }) };
}

impl Component {
    /// The component of these texts and items.
    pub fn new(texts: Texts, items: Items) -> Component
        requires { IsKept (record { texts = texts; items = items }) }
        ensures { result ≡ record { texts = texts; items = items } }
    {
        Component { texts, items }
    }

    /// The items at the top, and what the component keeps.
    pub fn items(&self) -> &[Item]
        ensures items { result.now ≡ self.now.items }
        ensures kept { IsKept self.now }
    {
        self.items.as_slice()
    }

    /// The table of texts.
    pub fn texts(&self) -> &Texts
        ensures { result.now ≡ self.now.texts }
    {
        &self.texts
    }

    /// The number of the text, which is added at the end where the table does not hold it yet: a script
    /// has its texts in the table of its component.
    pub fn add_text(&mut self, text: &str) -> Result<u32, TextRefusal>
        ensures table { IfOk result (λ index. self.new ≡ record self.old { texts = with_text text.now self.old.texts }) }
        ensures index { IfOk result (λ index. index_of text.now self.new.texts ≡ Some index) }
        ensures full { (result ≡ Err TextRefusal.Full)
            ↔ ((index_of text.now self.old.texts ≡ None) × (length self.old.texts ≡ MOST_TEXTS)) }
        ensures unchanged { OnErr result (self.new ≡ self.old) }
    {
        self.texts.add(text)
    }
}
