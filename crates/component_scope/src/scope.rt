//! The names that are seen at a place.

ghost use Rattle.std.specs.Prelude.{◌≡◌, ◌==◌, ◌+◌, ◌<◌, ◌≤◌, ◌^◌, ℕ, [], ◌∷◌, None, IfOk, OnOk, OnErr, length, find, vec_len, slice_index_or, slice_get};
ghost use Rattle.std.specs.Option.{option_copied, option_map};

use crate::fields::{Fields, SharedFields};
use crate::rows::Rows;
use grammar::Stack;
use std::alloc::{AllocError, Global};
use std::marker::Model;

/// What a name is declared as. Of a store, the names of its fields are known too.
#[derive(Drop)]
pub enum Kind {
    Signal,
    Memo,
    Effect,
    Resource,
    Load,
    Store(SharedFields),
    Area,
}

impl Kind {
    ghost use Rattle.std.specs.Prelude.{◌≡◌, IfOk};
    ghost use Rattle.component_meaning.specs.Names.{fields_of};
    ghost use Rattle.component_scope.specs.Scope.{what_of};

    /// A further owner of the same.
    fn share(&self) -> Result<Kind, AllocError>
        ensures { IfOk result (λ kind. kind ≡ self.now) }
    {
        match self {
            Kind::Signal => Ok(Kind::Signal),
            Kind::Memo => Ok(Kind::Memo),
            Kind::Effect => Ok(Kind::Effect),
            Kind::Resource => Ok(Kind::Resource),
            Kind::Load => Ok(Kind::Load),
            Kind::Store(fields) => Ok(Kind::Store(fields.share()?)),
            Kind::Area => Ok(Kind::Area),
        }
    }

    /// The fields of a store, and none where it is no store.
    fn fields(&self, alloc: Global) -> Result<SharedFields, AllocError>
        ensures { IfOk result (λ fields. fields ≡ fields_of (what_of self.now)) }
    {
        match self {
            Kind::Store(fields) => fields.share(),
            _ => SharedFields::new(alloc, Fields::new(alloc)),
        }
    }
}

/// A declaration: a name, by its number in the table of texts, and the id that it stands for.
#[derive(Drop)]
pub struct Declaration {
    name: u32,
    id: u32,
    kind: Kind,
}

impl Model for Declaration {
    ghost use Rattle.std.specs.Prelude.{◌+◌, ◌<◌, ◌^◌, length};
    ghost use Rattle.component_meaning.specs.State.{Declared};
    ghost use Rattle.component_meaning.specs.Names.{fields_of};
    ghost use Rattle.component_scope.specs.Scope.{what_of};

    ghost Value = { Declared };

    ghost view = { λ d. record { name = d.name; id = d.id; what = what_of d.kind } };

    ghost invariant = { λ d. d.id + 2 + length (fields_of (what_of d.kind)) < 2 ^ 32 };
}

impl Declaration {
    ghost use Rattle.std.specs.Prelude.{◌≡◌, ◌+◌, ◌<◌, ◌^◌, length, Some, IfOk};
    ghost use Rattle.component_meaning.specs.Names as names;
    ghost use Rattle.component_scope.specs.Scope.{what_of};

    /// A declaration of the name. All ids that it takes are numbers: its own, the one behind it, and one for each field.
    pub fn new(name: u32, id: u32, kind: Kind) -> Declaration
        requires { id + 2 + length (names.fields_of (what_of kind)) < 2 ^ 32 }
        ensures { result ≡ record { name = name; id = id; what = what_of kind } }
    {
        Declaration { name, id, kind }
    }

    /// The id that the name stands for.
    pub fn id(&self) -> u32
        ensures { result ≡ self.now.id }
    {
        self.id
    }

    /// Whether it has a value: a signal, memo or load.
    pub fn has_value(&self) -> bool
        ensures { result ≡ names.has_value self.now.what }
    {
        match self.kind {
            Kind::Signal | Kind::Memo | Kind::Load => true,
            Kind::Effect | Kind::Resource | Kind::Store(_) | Kind::Area => false,
        }
    }

    /// Whether it is a resource.
    pub fn is_resource(&self) -> bool
        ensures { result ≡ names.is_resource self.now.what }
    {
        match self.kind {
            Kind::Resource => true,
            _ => false,
        }
    }

    /// Whether it is a store.
    pub fn is_store(&self) -> bool
        ensures { result ≡ names.is_store self.now.what }
    {
        match self.kind {
            Kind::Store(_) => true,
            _ => false,
        }
    }

    /// A further owner of the same declaration.
    pub fn share(&self) -> Result<Declaration, AllocError>
        ensures { IfOk result (λ declaration. declaration ≡ self.now) }
    {
        let kind = self.kind.share()?;
        Ok(Declaration {
            name: self.name,
            id: self.id,
            kind,
        })
    }

    /// The store that it declares, with its fields; one with no fields, where it is no store.
    pub fn rows(&self, alloc: Global) -> Result<Rows, AllocError>
        ensures { IfOk result (λ rows. rows ≡ names.rows_from (Some self.now)) }
    {
        let fields = self.kind.fields(alloc)?;
        Ok(Rows::new(self.id, fields))
    }
}

/// A declaration, with the place of the one that it hides: the last one before it of the same name.
#[derive(Drop)]
struct Seen {
    declaration: Declaration,
    hidden: Option<usize>,
}

/// The declarations that are seen. Contracts see them as a list with the last one first. A name is found at once,
/// however many there are.
#[derive(Drop)]
pub struct Scope {
    seen: Stack<Seen>,
    /// The place of the last declaration of each name, by the name's number.
    places: Vec<Option<usize>>,
}

impl Model for Scope {
    ghost use Rattle.std.specs.Prelude.{◌≡◌, ℕ, List, None, slice_index_or};
    ghost use Rattle.component_meaning.specs.State.{Declared};

    ghost Value = { List Declared };

    ghost use Rattle.component_scope.specs.Seen.{seen_in, KnowsHidden};
    ghost use Rattle.component_scope.specs.Scope.{place_of};

    ghost view = { λ s. seen_in s.seen };

    ghost invariant = { λ s. ((name : ℕ) → slice_index_or s.places.items name None ≡ place_of name (seen_in s.seen)) × KnowsHidden s.seen };
}

/// The declaration at a place, counted from the first one.
fn declaration_at(seen: &[Seen], place: usize) -> Option<&Declaration>
    ensures { option_copied result ≡ option_map (λ s. s.declaration) (slice_get seen.now place) }
{
    let seen = seen.get(place)?;
    Some(&seen.declaration)
}

/// Makes the list at least `len` long, by names that are not declared.
fn grow(places: &mut Vec<Option<usize>>, len: usize) -> Result<(), AllocError>
    ensures long { OnOk result (len ≤ vec_len places.new) }
    ensures same { (name : ℕ) → slice_index_or places.new.items name None ≡ slice_index_or places.old.items name None }
{
    while places.len() < len {
        places.push(None)?;
    }
    Ok(())
}

impl Scope {
    ghost use Rattle.std.specs.Prelude.{◌≡◌, ◌==◌, [], ◌∷◌, OnOk, OnErr, length, find};
    ghost use Rattle.std.specs.Option.{option_copied};
    ghost use Rattle.component_meaning.specs.Actions.{rest};
    ghost use Rattle.component_scope.specs.Scope.{oldest};

    /// No declarations.
    pub fn new(alloc: Global) -> Scope
        ensures { result ≡ [] }
    {
        Scope {
            seen: Stack::new(alloc),
            places: Vec::new(alloc),
        }
    }

    /// How many declarations are seen.
    pub fn len(&self) -> usize
        ensures { result ≡ length self.now }
    {
        self.seen.as_slice().len()
    }

    /// The last declaration of the name.
    pub fn find(&self, name: u32) -> Option<&Declaration>
        ensures { option_copied result ≡ find (λ d. d.name == name) self.now }
    {
        let place = *self.places.get(name as usize)?;
        declaration_at(self.seen.as_slice(), place?)
    }

    /// The declaration is seen from here on.
    pub fn declare(&mut self, declaration: Declaration) -> Result<(), AllocError>
        ensures seen { OnOk result (self.new ≡ declaration ∷ self.old) }
        ensures unchanged { OnErr result (self.new ≡ self.old) }
    {
        let at = declaration.name as usize;
        grow(&mut self.places, at + 1)?;
        let hidden = self.places[at];
        let place = self.seen.as_slice().len();
        self.seen.push(Seen {
            declaration,
            hidden,
        })?;
        self.places[at] = Some(place);
        Ok(())
    }

    /// The last declaration is no longer seen, and one that it hid is seen again.
    fn forget(&mut self)
        ensures { self.new ≡ rest self.old }
    {
        if let Some(last) = self.seen.pop() {
            let at = last.declaration.name as usize;
            if at < self.places.len() {
                self.places[at] = last.hidden;
            }
        }
    }

    /// Only the first so many declarations are seen from here on.
    pub fn keep(&mut self, len: usize)
        ensures { self.new ≡ oldest len self.old }
    {
        while self.len() > len {
            self.forget();
        }
    }
}
