//! Places.
ghost use Rattle.std.specs.Prelude.{◌≡◌};
ghost use Rattle.plain_evaluation.specs.Place.{outside, of_row};

use std::marker::Model;
use values::Code;

/// Where a value belongs in a component: an id, with the key of the store's row where it is a field or stands
/// inside an `each`.
#[derive(Clone, Copy, Debug, PartialEq, Eq, Hash)]
pub struct NodePlace {
    id: u32,
    key: Option<Code>,
}

impl Model for NodePlace {
    ghost use Rattle.plain_evaluation.specs.Place.{Place};

    ghost Value = { Place };

    ghost view = { λ p. record { id = p.id; key = p.key } };

    ghost inverse = { λ p. record { id = p.id; key = p.key } };
}

impl NodePlace {
    /// The place of this id, with the key of a row or with none.
    pub fn new(id: u32, key: Option<Code>) -> NodePlace
        ensures { result ≡ record { id = id; key = key } }
    {
        NodePlace { id, key }
    }

    /// The place of an id that stands in no row.
    pub fn outside(id: u32) -> NodePlace
        ensures { result ≡ outside id }
    {
        NodePlace { id, key: None }
    }

    /// The place of an id in the row with the key.
    pub fn of_row(id: u32, key: Code) -> NodePlace
        ensures { result ≡ of_row id key }
    {
        NodePlace { id, key: Some(key) }
    }

    /// The id.
    pub fn id(self) -> u32
        ensures { result ≡ self.id }
    {
        self.id
    }

    /// The key of the row that it stands in.
    pub fn key(self) -> Option<Code>
        ensures { result ≡ self.key }
    {
        self.key
    }
}
