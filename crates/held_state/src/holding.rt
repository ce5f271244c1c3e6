//! What the state holds for one id, and what goes with one owner.
ghost use Rattle.std.specs.Prelude.{◌≡◌, map, false, IfOk};
ghost use Rattle.std.specs.Option.{option_copied, option_copied_mut};
ghost use Rattle.plain_evaluation.specs.Held.{nothing};
ghost use Rattle.plain_evaluation.specs.Changed.{signal_in, store_in, load_in};
ghost use Rattle.plain_evaluation.specs.Killed.{with_each};
ghost use Rattle.held_state.specs.Seen.{holding_seen, numbers_from};

use std::alloc::Global;
use store_fields::Rows;
use values::{Code, NoMemory};

/// What the state holds for an id.
#[derive(Drop)]
pub(crate) enum Holding {
    /// What is neither signal, store nor load, and all that a dead owner owns.
    Nothing,
    /// A signal's value.
    Value(Code),
    /// The rows of a store.
    Stored(Rows),
    /// The key that arrived for a load, if one did.
    Arrived(Option<Code>),
}

impl Holding {
    ghost use Rattle.std.specs.Borrow.{sem};
    ghost use Rattle.held_state.specs.Lending.{LendsRows};

    pub(crate) fn value(&self) -> Option<Code>
        ensures { result ≡ signal_in (holding_seen self.now) }
    {
        match self {
            Holding::Value(code) => Some(*code),
            Holding::Nothing | Holding::Stored(_) | Holding::Arrived(_) => None,
        }
    }

    pub(crate) fn rows(&self) -> Option<&Rows>
        ensures { option_copied result ≡ store_in (holding_seen self.now) }
    {
        match self {
            Holding::Stored(rows) => Some(rows),
            Holding::Nothing | Holding::Value(_) | Holding::Arrived(_) => None,
        }
    }

    pub(crate) fn rows_mut(&mut self) -> Option<&mut Rows>
        ensures* writes_back { sem 𝓛 (LendsRows self.entry result) }
        ensures value { option_copied_mut result ≡ store_in (holding_seen self.old) }
    {
        match self {
            Holding::Stored(rows) => Some(rows),
            Holding::Nothing | Holding::Value(_) | Holding::Arrived(_) => None,
        }
    }

    pub(crate) fn arrived(&self) -> Option<Option<Code>>
        ensures { result ≡ load_in (holding_seen self.now) }
    {
        match self {
            Holding::Arrived(key) => Some(*key),
            Holding::Nothing | Holding::Value(_) | Holding::Stored(_) => None,
        }
    }

    /// The same, in memory of its own.
    fn copy(&self, alloc: Global) -> Result<Holding, NoMemory>
        ensures { IfOk result (λ holding. holding ≡ self.now) }
    {
        match self {
            Holding::Nothing => Ok(Holding::Nothing),
            Holding::Value(code) => Ok(Holding::Value(*code)),
            Holding::Stored(rows) => Ok(Holding::Stored(rows.copy(alloc)?)),
            Holding::Arrived(key) => Ok(Holding::Arrived(*key)),
        }
    }
}

/// The same, in memory of their own.
pub(crate) fn copies(alloc: Global, holdings: &[Holding]) -> Result<Vec<Holding>, NoMemory>
    ensures { IfOk result (λ copied. copied.items ≡ holdings.now) }
{
    let mut copied = Vec::with_capacity(alloc, holdings.len())?;
    for holding in holdings {
        copied.push(holding.copy(alloc)?)?;
    }
    Ok(copied)
}

/// Leaves nothing at each of the ids from `first` on, below `past`.
pub(crate) fn empty_all(holdings: &mut [Holding], first: usize, past: usize)
    ensures { map holding_seen holdings.new ≡ with_each nothing (numbers_from first past) (map holding_seen holdings.old) }
{
    for id in first..past {
        if id < holdings.len() {
            holdings[id] = Holding::Nothing;
        }
    }
}

/// Leaves none of the owners from `first` on, below `past`, live.
pub(crate) fn end_all(live: &mut [bool], first: usize, past: usize)
    ensures { live.new ≡ with_each false (numbers_from first past) live.old }
{
    for owner in first..past {
        if owner < live.len() {
            live[owner] = false;
        }
    }
}

/// What goes with an owner: the ids from `first_id` on, below `past_id`, and so the owners.
#[derive(Clone, Copy)]
pub(crate) struct Going {
    pub first_id: usize,
    pub past_id: usize,
    pub first_owner: usize,
    pub past_owner: usize,
}
