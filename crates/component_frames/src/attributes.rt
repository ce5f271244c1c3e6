//! The attributes of an element.

ghost use Rattle.std.specs.Prelude.{◌≡◌, ◌==◌, ◌<◌, ℕ, [], ◌∷◌, ◌++◌, IfOk, OnOk, OnErr, nat_eq, length, cond, true};
ghost use Rattle.std.specs.List.{list_any};
ghost use Rattle.std.specs.HashSet.{contains};
ghost use Rattle.component_meaning.specs.Names.{name_of};

use component_items::{Attr, Attrs};
use std::alloc::{AllocError, Global};
use std::collections::HashSet;
use std::marker::Model;

/// So many attributes are looked through one by one, which costs less than a set of their names.
const FEW: usize = 8;

/// The attributes of an element that is open, in text order. Whether it has one of a name is found at once, however many
/// there are.
#[derive(Drop)]
pub struct Attributes {
    attrs: Vec<Attr>,
    /// Their names, where there are more than a few.
    names: HashSet<u32>,
}

impl Model for Attributes {
    ghost use Rattle.std.specs.Prelude.{◌≡◌, ◌==◌, ◌<◌, ℕ, List, nat_eq, length};
    ghost use Rattle.std.specs.List.{list_any};
    ghost use Rattle.std.specs.HashSet.{contains};
    ghost use Rattle.component_items.specs.declared.component.Attr.{Attr};
    ghost use Rattle.values.specs.contracts.expr.Expr as expr;
    ghost use Rattle.std.specs.Coded.{codes};
    ghost use Rattle.component_meaning.specs.Names.{name_of};

    ghost Value = { List Attr };

    ghost coded = { Prim.hlevel (codes, expr.the_row.coded) };

    ghost view = { λ a. a.attrs.items };

    ghost invariant = { λ a. 8 < length a.attrs.items → (name : ℕ) → contains nat_eq a.names name ≡ list_any (λ attr. name == name_of attr) a.attrs.items };
}

/// The name of an attribute.
fn attr_name(attr: &Attr) -> u32
    ensures { result ≡ name_of attr.now }
{
    match attr {
        Attr::Bare { name } | Attr::Fixed { name, .. } | Attr::Shown { name, .. } => *name,
    }
}

/// Whether one of the attributes has this name.
fn is_named(attrs: &[Attr], name: u32) -> bool
    ensures { result ≡ list_any (λ attr. name == name_of attr) attrs.now }
{
    for attr in attrs {
        if name == attr_name(attr) {
            return true;
        }
    }
    false
}

/// The names of the attributes.
fn names_of(alloc: Global, attrs: &[Attr]) -> Result<HashSet<u32>, AllocError>
    ensures { IfOk result (λ names. (name : ℕ) → contains nat_eq names name ≡ list_any (λ attr. name == name_of attr) attrs.now) }
{
    let mut names = HashSet::new(alloc);
    for attr in attrs {
        names.insert(attr_name(attr))?;
    }
    Ok(names)
}

/// Notes the name of the last attribute, where there are more than a few. After an `Err` the names are as before.
fn note_last(
    alloc: Global,
    attrs: &[Attr],
    names: &mut HashSet<u32>,
    name: u32,
) -> Result<(), AllocError>
    requires before { 9 < length attrs.now → (n : ℕ) → cond (name == n) true (contains nat_eq names.old n) ≡ list_any (λ attr. n == name_of attr) attrs.now }
    ensures noted { OnOk result (8 < length attrs.now → (n : ℕ) → contains nat_eq names.new n ≡ list_any (λ attr. n == name_of attr) attrs.now) }
    ensures unchanged { OnErr result (9 < length attrs.now → (n : ℕ) → contains nat_eq names.new n ≡ contains nat_eq names.old n) }
{
    if attrs.len() <= FEW {
        return Ok(());
    }
    if attrs.len() == FEW + 1 {
        *names = names_of(alloc, attrs)?;
        return Ok(());
    }
    names.insert(name)?;
    Ok(())
}

impl Attributes {
    /// No attributes.
    pub fn new(alloc: Global) -> Attributes
        ensures { result ≡ [] }
    {
        Attributes {
            attrs: Vec::new(alloc),
            names: HashSet::new(alloc),
        }
    }

    /// Whether there is one of this name.
    pub fn has(&self, name: u32) -> bool
        ensures { result ≡ list_any (λ attr. name == name_of attr) self.now }
    {
        if self.attrs.len() <= FEW {
            return is_named(self.attrs.as_slice(), name);
        }
        self.names.contains(&name)
    }

    /// Adds the attribute at the end.
    pub fn push(&mut self, attr: Attr) -> Result<(), AllocError>
        ensures added { OnOk result (self.new ≡ self.old ++ attr ∷ []) }
    {
        let name = attr_name(&attr);
        let alloc = *self.attrs.allocator();
        self.attrs.push(attr)?;
        if let Err(error) = note_last(alloc, self.attrs.as_slice(), &mut self.names, name) {
            self.attrs.pop();
            return Err(error);
        }
        Ok(())
    }

    /// The attributes alone.
    pub fn into_attrs(self) -> Attrs
        ensures { result ≡ self }
    {
        let Attributes { attrs, .. } = self;
        Attrs::from_vec(attrs)
    }
}
