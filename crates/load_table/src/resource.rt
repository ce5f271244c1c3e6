//! What a resource says.
ghost use Rattle.std.specs.Prelude.{◌≡◌, [], IfOk};
ghost use Rattle.std.specs.List.{zip};
ghost use Rattle.plain_evaluation.specs.Scratch.{value_by};
ghost use Rattle.load_table.specs.Table.{pairs_put, resource_of};

use indexmap::IndexMap;
use std::alloc::Global;
use std::marker::Model;
use values::{Code, NoMemory};

/// A resource: after how many attempts its loads arrive, and its values by key. A look-up takes the same time however
/// many keys there are.
#[derive(Drop)]
pub(crate) struct Resource {
    after: u32,
    by_key: IndexMap<Code, Code>,
}

impl Model for Resource {
    ghost use Rattle.load_table.specs.Table.{ResourceOf};

    ghost Value = { ResourceOf };

    ghost view = { λ r. record { after = r.after; pairs = r.by_key.entries } };
}

impl Resource {
    /// The resource of these keys and values.
    pub(crate) fn new(
        alloc: Global,
        after: u32,
        keys: &[Code],
        codes: &[Code],
    ) -> Result<Resource, NoMemory>
        ensures { IfOk result (λ resource. resource ≡ resource_of after keys.now codes.now) }
    {
        let by_key = by_key(alloc, keys, codes)?;
        Ok(Resource { after, by_key })
    }

    /// After how many attempts its loads arrive.
    pub(crate) fn after(&self) -> u32
        ensures { result ≡ self.now.after }
    {
        self.after
    }

    /// The value for the key, or the empty one where there is none.
    pub(crate) fn value(&self, key: Code) -> Code
        ensures { result ≡ value_by self.now.pairs key }
    {
        self.by_key.get(&key).copied().unwrap_or(Code::Empty)
    }
}

/// Each value at its key.
fn by_key(alloc: Global, keys: &[Code], codes: &[Code]) -> Result<IndexMap<Code, Code>, NoMemory>
    ensures { IfOk result (λ map. map.entries ≡ pairs_put [] (zip keys.now codes.now)) }
{
    let mut map = IndexMap::with_capacity(alloc, keys.len())?;
    for (key, code) in keys.iter().zip(codes) {
        map.insert(*key, *code)?;
    }
    Ok(map)
}
