//! Why a text is refused, and where.

ghost use Rattle.std.specs.Prelude.{◌≡◌};
ghost use Rattle.component_items.specs.Why.{number_of};

use std::alloc::{AllocError, AllocFailed};

/// Which limit a text is over.
#[derive(Clone, Copy, Debug, PartialEq, Eq)]
pub enum Count {
    Nodes,
    Owners,
    Texts,
    StoreRows,
    Phases,
}

/// Why a text is refused (`docs/LANGUAGE.md`, "Refusals"). They are numbered from 1, in this order.
#[derive(Clone, Copy, Debug, PartialEq, Eq)]
pub enum Why {
    BadUtf8,
    BadToken,
    Unexpected,
    UnknownName,
    NameTaken,
    WrongPlace,
    NumberRange,
    TooDeep,
    TooLarge(Count),
    TooManyLanes,
    UnclosedTag,
}

impl Why {
    /// The number of the reason, as it is printed.
    pub fn number(self) -> u8
        ensures { result ≡ number_of self }
    {
        match self {
            Why::BadUtf8 => 1,
            Why::BadToken => 2,
            Why::Unexpected => 3,
            Why::UnknownName => 4,
            Why::NameTaken => 5,
            Why::WrongPlace => 6,
            Why::NumberRange => 7,
            Why::TooDeep => 8,
            Why::TooLarge(_) => 9,
            Why::TooManyLanes => 10,
            Why::UnclosedTag => 11,
        }
    }
}

/// A place in the input: its line, and the number of its byte in that line, both from 1.
#[derive(Clone, Copy, Debug, PartialEq, Eq)]
pub struct Place {
    pub line: u32,
    pub column: u32,
}

/// What the readers answer in place of what a text means.
#[derive(Clone, Copy, Debug, PartialEq, Eq)]
pub enum Refusal {
    /// The text is refused, for this reason and at this place.
    Bad(Why, Place),
    /// Memory could not be had.
    NoMemory,
}

impl From<AllocError> for Refusal {
    ghost use Rattle.std.specs.Prelude.{◌≡◌};
    ghost use Rattle.component_items.specs.declared.refusal.Refusal.TheVariants.{NoMemory};

    ghost from_gives = { λ _ e. e ≡ NoMemory };

    fn from(_: AllocError) -> Refusal {
        Refusal::NoMemory
    }
}

impl<T: Drop> From<AllocFailed<T>> for Refusal {
    ghost use Rattle.std.specs.Prelude.{◌≡◌};
    ghost use Rattle.component_items.specs.declared.refusal.Refusal.TheVariants.{NoMemory};

    ghost from_gives = { λ _ e. e ≡ NoMemory };

    fn from(_: AllocFailed<T>) -> Refusal {
        Refusal::NoMemory
    }
}
