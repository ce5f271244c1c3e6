//! What a name of a component stands for.

ghost use Rattle.std.specs.Prelude.{◌≡◌, ◌+◌, ◌<◌, ◌^◌, length, IfOk};

use component_scope::Fields;
use std::alloc::{AllocError, Global};
use values::Code;

/// A store: its id, the names of its fields, and the values with which a new row begins. Its key has the id behind its
/// own, and each field one behind that.
#[derive(Drop)]
pub struct Store<'a> {
    pub id: u32,
    pub fields: Fields,
    pub starts: &'a [Code],
    ghost small: { id + 2 + length fields < 2 ^ 32 },
}

/// What a name stands for, with its id; an area has its owner.
#[derive(Drop)]
pub enum What<'a> {
    Signal(u32),
    Memo(u32),
    Load(u32),
    Store(Store<'a>),
    Area(u32),
    /// An effect or a resource, which no script names.
    Other,
}

/// The fields of these names.
fn all_fields(alloc: Global, names: &[u32]) -> Result<Fields, AllocError>
    ensures { IfOk result (λ fields. fields ≡ names.now) }
{
    let mut fields = Fields::new(alloc);
    for name in names {
        fields.push(*name)?;
    }
    Ok(fields)
}

impl<'a> Store<'a> {
    /// The store with this id, and with these names and starts of its fields.
    pub fn new(
        alloc: Global,
        id: u32,
        fields: &[u32],
        starts: &'a [Code],
    ) -> Result<Store<'a>, AllocError>
        requires { id + 2 + length fields.now < 2 ^ 32 }
        ensures id { IfOk result (λ store. store.id ≡ id) }
        ensures fields { IfOk result (λ store. store.fields ≡ fields.now) }
        ensures starts { IfOk result (λ store. store.starts.now ≡ starts.entry.now) }
    {
        Ok(Store {
            id,
            fields: all_fields(alloc, fields)?,
            starts,
        })
    }
}
