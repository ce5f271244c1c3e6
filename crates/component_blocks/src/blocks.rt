//! What is seen and what is open.

ghost use Rattle.std.specs.Prelude.{◌≡◌, ◌==◌, [], ◌∷◌, ◌++◌, if◌then◌else◌, None, IfOk, OnOk, OnErr, length, find};
ghost use Rattle.std.specs.Option.{option_copied};
ghost use Rattle.component_items.specs.Kept as stand;
ghost use Rattle.component_meaning.specs.State.{area_frame, if_frame, each_frame, element_frame, inside, standing_in, rows_in, rows_of, open_tag};
ghost use Rattle.component_frames.specs.Nest.{empty, has_attr, declaring, holding, opening, closing, is_element, may_take_attr, taking};
ghost use Rattle.component_scope.specs.Scope.{oldest};
ghost use Rattle.component_frames.specs.Blocks.{frame_of, all_blocks};

use component_frames::{Attributes, Block, Frame};
use component_items::{Attr, Item, Items};
use component_scope::{Declaration, Rows, Scope};
use grammar::Stack;
use std::alloc::{AllocError, Global};
use std::marker::Model;
use values::Expr;

/// What is seen and what is open while a component text is read.
#[derive(Drop)]
pub struct Blocks {
    seen: Scope,
    /// The items outside of what is open.
    items: Items,
    /// The innermost of what is open, and what is open around it, again the innermost first.
    innermost: Option<Block>,
    outer: Stack<Block>,
}

impl Model for Blocks {
    ghost use Rattle.component_frames.specs.Nest.{Nest};
    ghost use Rattle.component_items.specs.contracts.component.Item as item;
    ghost use Rattle.values.specs.contracts.expr.Expr as expr;
    ghost use Rattle.std.specs.Coded.{codes};

    ghost Value = { Nest };

    ghost coded = { Prim.hlevel (codes, item.the_row.coded, expr.the_row.coded) };

    ghost use Rattle.component_blocks.specs.Whole.{nest, IsWhole};

    ghost view = { nest };

    ghost invariant = { IsWhole };
}

/// A further owner of the rows, where there are any.
fn share_rows(rows: Option<&Rows>) -> Result<Option<Rows>, AllocError>
    ensures { IfOk result (λ shared. shared ≡ option_copied rows.entry) }
{
    match rows {
        None => Ok(None),
        Some(rows) => Ok(Some(rows.share()?)),
    }
}

/// The block or element is the innermost from here on. After an `Err` there is none.
fn put_inside(
    alloc: Global,
    innermost: &mut Option<Block>,
    outer: &mut Stack<Block>,
    block: Block,
) -> Result<(), AllocError>
    requires { innermost.old ≡ None → outer.old ≡ [] }
    ensures ok { OnOk result ((innermost.new ≡ Some block) × (outer.new ≡ all_blocks innermost.old outer.old)) }
    ensures err { OnErr result ((innermost.new ≡ None) × (outer.new ≡ [])) }
{
    if let Some(around) = innermost.take() {
        if let Err(error) = outer.push(around) {
            *outer = Stack::new(alloc);
            return Err(error);
        }
    }
    *innermost = Some(block);
    Ok(())
}

/// What is seen behind a block or element: what is declared in a block is not.
fn leave(seen: &mut Scope, block: &Block)
    ensures { seen.new ≡ (if is_element (frame_of block.now.frame) then seen.old else oldest block.now.outside seen.old) }
{
    if !block.frame.is_element() {
        seen.keep(block.outside);
    }
}

impl Blocks {
    /// Nothing is seen, and nothing is open.
    pub fn new(alloc: Global) -> Blocks
        ensures { result ≡ empty }
    {
        Blocks {
            seen: Scope::new(alloc),
            items: Items::new(alloc),
            innermost: None,
            outer: Stack::new(alloc),
        }
    }

    /// How many blocks and elements are open.
    pub fn depth(&self) -> usize
        ensures { result ≡ length self.now.opened }
    {
        match &self.innermost {
            None => 0,
            Some(_) => self.outer.as_slice().len() + 1,
        }
    }

    /// The last declaration of the name, which is a number in the table of texts, if it is seen.
    pub fn find(&self, name: u32) -> Option<&Declaration>
        ensures { option_copied result ≡ find (λ d. d.name == name) self.now.seen }
    {
        self.seen.find(name)
    }

    /// Whether signals, effects, loads and stores may stand here: at the top or directly in an area.
    pub fn may_declare(&self) -> bool
        ensures { result ≡ stand.may_declare (standing_in self.now.opened) }
    {
        match &self.innermost {
            None => true,
            Some(block) => block.frame.is_area(),
        }
    }

    /// Whether a resource may stand here: at the top.
    pub fn may_have_resource(&self) -> bool
        ensures { result ≡ stand.may_have_resource (standing_in self.now.opened) }
    {
        self.innermost.is_none()
    }

    /// Whether a cleanup may stand here: directly in an area.
    pub fn may_have_cleanup(&self) -> bool
        ensures { result ≡ stand.may_have_cleanup (standing_in self.now.opened) }
    {
        match &self.innermost {
            None => false,
            Some(block) => block.frame.is_area(),
        }
    }

    /// Whether a memo may stand here: not directly in an element.
    pub fn may_have_memo(&self) -> bool
        ensures { result ≡ stand.may_have_memo (standing_in self.now.opened) }
    {
        match &self.innermost {
            None => true,
            Some(block) => !block.frame.is_element(),
        }
    }

    /// Whether an area may stand here: in no `if` or `each`.
    pub fn may_have_area(&self) -> bool
        ensures { result ≡ stand.may_have_area (standing_in self.now.opened) }
    {
        match &self.innermost {
            None => true,
            Some(block) => !block.branched,
        }
    }

    /// Whether an `each` may stand here: in no other one.
    pub fn may_have_each(&self) -> bool
        ensures { result ≡ stand.may_have_each (standing_in self.now.opened) }
    {
        match &self.innermost {
            None => true,
            Some(block) => block.rows.is_none(),
        }
    }

    /// The store of the `each` around what is read now.
    pub fn rows(&self) -> Option<&Rows>
        ensures { option_copied result ≡ rows_in self.now.opened }
    {
        match &self.innermost {
            None => None,
            Some(block) => block.rows.as_ref(),
        }
    }

    /// The tag of the innermost of what is open, where that is an element.
    pub fn open_tag(&self) -> Option<u32>
        ensures { result ≡ open_tag self.now.opened }
    {
        match &self.innermost {
            None => None,
            Some(block) => block.frame.tag(),
        }
    }

    /// Whether the innermost of what is open is an element that has an attribute of this name, by its number in the table
    /// of texts.
    pub fn has_attribute(&self, name: u32) -> bool
        ensures { result ≡ has_attr name self.now.opened }
    {
        match &self.innermost {
            None => false,
            Some(block) => block.frame.has_attribute(name),
        }
    }

    /// The declaration is seen from here on.
    pub fn declare(&mut self, declaration: Declaration) -> Result<(), AllocError>
        ensures { OnOk result (self.new ≡ declaring declaration self.old) }
    {
        self.seen.declare(declaration)
    }

    /// Adds the item to the innermost of what is open, or else outside of that.
    pub fn add_item(&mut self, item: Item) -> Result<(), AllocError>
        ensures { OnOk result (self.new ≡ holding item self.old) }
    {
        match &mut self.innermost {
            None => self.items.push(item),
            Some(block) => block.items.push(item),
        }
    }

    /// Whether what is read in a block or element that begins here is in an `if` or an `each`.
    fn branched_within(&self, frame: &Frame) -> bool
        ensures { result ≡ (inside (frame_of frame.now) (standing_in self.now.opened)).branched }
    {
        match &self.innermost {
            None => frame.is_branch(),
            Some(block) => block.branched || frame.is_branch(),
        }
    }

    /// The store of the `each` around what is read in a block or element that begins here.
    fn rows_within(&self, frame: &Frame) -> Result<Option<Rows>, AllocError>
        ensures { IfOk result (λ rows. rows ≡ rows_of (frame_of frame.now) (rows_in self.now.opened)) }
    {
        match frame {
            Frame::Each { rows, .. } => Ok(Some(rows.share()?)),
            _ => share_rows(self.rows()),
        }
    }

    /// The block or element is open from here on. After an `Err` nothing is.
    fn open(&mut self, alloc: Global, frame: Frame) -> Result<(), AllocError>
        ensures { OnOk result (self.new ≡ opening (frame_of frame) self.old) }
    {
        let branched = self.branched_within(&frame);
        let rows = self.rows_within(&frame)?;
        let outside = self.seen.len();
        let block = Block {
            frame,
            outside,
            items: Items::new(alloc),
            branched,
            rows,
        };
        put_inside(alloc, &mut self.innermost, &mut self.outer, block)
    }

    /// An area is open from here on: its id, its name and its owner.
    pub fn open_area(
        &mut self,
        alloc: Global,
        id: u32,
        name: u32,
        owner: u32,
    ) -> Result<(), AllocError>
        ensures { OnOk result (self.new ≡ opening (area_frame id name owner) self.old) }
    {
        self.open(alloc, Frame::Area { id, name, owner })
    }

    /// An `if` is open from here on: its id and its condition.
    pub fn open_if(&mut self, alloc: Global, id: u32, cond: Expr) -> Result<(), AllocError>
        ensures { OnOk result (self.new ≡ opening (if_frame id cond) self.old) }
    {
        self.open(alloc, Frame::If { id, cond })
    }

    /// An `each` is open from here on: its id and its store.
    pub fn open_each(&mut self, alloc: Global, id: u32, rows: Rows) -> Result<(), AllocError>
        ensures { OnOk result (self.new ≡ opening (each_frame id rows) self.old) }
    {
        self.open(alloc, Frame::Each { id, rows })
    }

    /// An element is open from here on, with no attributes so far: its tag, and whether it has an end tag.
    pub fn open_element(&mut self, alloc: Global, tag: u32, closed: bool) -> Result<(), AllocError>
        ensures { OnOk result (self.new ≡ opening (element_frame tag closed []) self.old) }
    {
        let attrs = Attributes::new(alloc);
        self.open(alloc, Frame::Element { tag, closed, attrs })
    }

    /// Whether an attribute may come: the innermost of what is open is an element with no items so far.
    pub fn may_take_attribute(&self) -> bool
        ensures { result ≡ may_take_attr self.now.opened }
    {
        match &self.innermost {
            None => false,
            Some(block) => block.frame.is_element() && block.items.is_empty(),
        }
    }

    /// Adds the attribute to the innermost of what is open, where that is an element.
    pub fn add_attribute(&mut self, attr: Attr) -> Result<(), AllocError>
        ensures { OnOk result (self.new ≡ taking attr self.old) }
    {
        match &mut self.innermost {
            None => Ok(()),
            Some(block) => block.frame.add_attribute(attr),
        }
    }

    /// The innermost of what is open ends, and is an item. Behind a block its declarations are no longer seen; those in an
    /// element are.
    pub fn close(&mut self) -> Result<(), AllocError>
        ensures { OnOk result (self.new ≡ closing self.old) }
    {
        let Some(block) = self.innermost.take() else {
            return Ok(());
        };
        self.innermost = self.outer.pop();
        leave(&mut self.seen, &block);
        self.add_item(block.into_item())
    }

    /// The items outside of what is open.
    pub fn finish(self) -> Items
        ensures { result ≡ self.items }
    {
        let Blocks { items, .. } = self;
        items
    }
}
