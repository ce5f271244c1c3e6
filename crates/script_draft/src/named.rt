//! What a path names.

ghost use Rattle.std.specs.Prelude.{◌≡◌, ◌==◌, ◌<◌, ◌+◌, ◌^◌, position, IfSome};
ghost use Rattle.std.specs.Option.{option_map};
ghost use Rattle.script_meaning.specs.Checks as checks;
ghost use Rattle.script_meaning.specs.Effects as effects;
ghost use Rattle.script_meaning.specs.Names.{a_signal};
ghost use Rattle.script_names.specs.Named.{named_as};
ghost use Rattle.script_draft.specs.Named.{named_of};

use script_names::{Store, What};
use values::Code;

/// What the path that is read names so far, with its id; an area has its owner.
#[derive(Clone, Copy, Drop)]
pub enum Named<'a> {
    /// Nothing yet: the path begins at the top.
    Nothing,
    /// A signal.
    Signal(u32),
    /// A memo.
    Memo(u32),
    /// A load.
    Load(u32),
    /// A store.
    Store(&'a Store<'a>),
    /// An area, by its owner.
    Area(u32),
    /// An effect or a resource, which no script names.
    Other,
}

/// What a name of the component stands for.
pub fn named_by<'a>(what: &'a What<'a>) -> Named<'a>
    ensures { named_of result ≡ named_as what.entry.now }
{
    match what {
        What::Signal(id) => Named::Signal(*id),
        What::Memo(id) => Named::Memo(*id),
        What::Load(id) => Named::Load(*id),
        What::Store(store) => Named::Store(store),
        What::Area(owner) => Named::Area(*owner),
        What::Other => Named::Other,
    }
}

impl<'a> Named<'a> {
    /// The owner of an area; where no area is named that is the top.
    pub fn owner(self) -> u32
        ensures { result ≡ checks.owner_of (named_of self.entry) }
    {
        match self {
            Named::Area(owner) => owner,
            _ => 0,
        }
    }

    /// The id, where there is one.
    pub fn id(self) -> u32
        ensures { result ≡ effects.id_of (named_of self.entry) }
    {
        match self {
            Named::Signal(id) | Named::Memo(id) | Named::Load(id) => id,
            Named::Store(store) => store.id,
            _ => 0,
        }
    }

    /// Whether it is a signal.
    pub fn is_signal(self) -> bool
        ensures { result ≡ checks.is_signal (named_of self.entry) }
    {
        match self {
            Named::Signal(_) => true,
            _ => false,
        }
    }

    /// Whether it is a signal, memo or load.
    pub fn has_value(self) -> bool
        ensures { result ≡ checks.has_value (named_of self.entry) }
    {
        match self {
            Named::Signal(_) | Named::Memo(_) | Named::Load(_) => true,
            _ => false,
        }
    }

    /// Whether it is a store.
    pub fn is_store(self) -> bool
        ensures { result ≡ checks.is_store (named_of self.entry) }
    {
        match self {
            Named::Store(_) => true,
            _ => false,
        }
    }

    /// Whether it is an area.
    pub fn is_area(self) -> bool
        ensures { result ≡ checks.is_area (named_of self.entry) }
    {
        match self {
            Named::Area(_) => true,
            _ => false,
        }
    }

    /// The names of the fields of a store.
    pub fn fields(self) -> &'a [u32]
        ensures { result.now ≡ checks.fields_of (named_of self.entry) }
    {
        match self {
            Named::Store(store) => store.fields.as_slice(),
            _ => &[],
        }
    }

    /// The values with which a new row of a store begins.
    pub fn starts(self) -> &'a [Code]
        ensures { result.now ≡ effects.starts_of (named_of self.entry) }
    {
        match self {
            Named::Store(store) => store.starts,
            _ => &[],
        }
    }

    /// The place of a field of this name in a store, counted from 0.
    pub fn place(self, name: u32) -> Option<usize>
        ensures place { result ≡ position (λ f. f == name) (checks.fields_of (named_of self.entry)) }
        ensures within { IfSome result (λ place. effects.id_of (named_of self.entry) + 2 + place < 2 ^ 32) }
    {
        match self {
            Named::Store(store) => store.fields.place(name),
            _ => None,
        }
    }
}
