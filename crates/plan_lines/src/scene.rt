//! What stands around a place.
ghost use Rattle.std.specs.Prelude.{◌≡◌};
ghost use Rattle.plain_evaluation.specs.Written.{at_top, in_area, in_row, key_in};
ghost use Rattle.plan_lines.specs.Scenes.{scene_in};

use values::Code;

/// A row of a store.
#[derive(Clone, Copy, Debug)]
pub struct RowAround {
    /// The store's id.
    pub store: u32,
    /// The row's key.
    pub key: Code,
}

/// What stands around a place.
#[derive(Clone, Copy, Debug)]
pub struct Scene {
    /// The innermost area, as an owner.
    pub owner: u32,
    /// The row of the store of the `each`, or the row that a field is of.
    pub row: Option<RowAround>,
}

impl Scene {
    /// Outside of every area and row.
    pub(crate) fn top() -> Scene
        ensures { scene_in result ≡ at_top }
    {
        Scene {
            owner: 0,
            row: None,
        }
    }

    /// In the area that is this owner.
    pub(crate) fn in_area(self, owner: u32) -> Scene
        ensures { scene_in result ≡ in_area owner (scene_in self) }
    {
        Scene { owner, ..self }
    }

    /// In the row with the key, of the store with the id.
    pub(crate) fn in_row(self, store: u32, key: Code) -> Scene
        ensures { scene_in result ≡ in_row store key (scene_in self) }
    {
        Scene {
            row: Some(RowAround { store, key }),
            ..self
        }
    }

    /// The key of the row.
    pub fn key(self) -> Option<Code>
        ensures { result ≡ key_in (scene_in self) }
    {
        self.row.map(|row| row.key)
    }
}
