//! Held state.
ghost use Rattle.std.specs.Prelude.{◌≡◌, IsSome, IfOk, length};
ghost use Rattle.std.specs.Option.{option_copied, option_copied_mut};
ghost use Rattle.plain_evaluation.specs.Held.{is_live};
ghost use Rattle.plain_evaluation.specs.Changed.{signal_of, store_of, load_of, with_code, with_arrived};
ghost use Rattle.plain_evaluation.specs.Killed.{without};
ghost use Rattle.held_state.specs.State.{first_state, going_at, with_held};

use crate::first::Start;
use crate::holding::{self, Going, Holding};
use component_items::Component;
use std::alloc::Global;
use std::marker::Model;
use store_fields::Rows;
use values::{Code, NoMemory};

/// All that a page is computed from, beside the text of its component: the value of each live signal, the rows
/// of each live store, the key that arrived for each live load, and which owners are live. Ids and owners are
/// the component's; owner 0 is the top. Contracts see the state, and beside it what goes with each owner.
#[derive(Drop)]
pub struct Held {
    holdings: Vec<Holding>,
    live: Vec<bool>,
    goings: Vec<Going>,
}

impl Model for Held {
    ghost use Rattle.held_state.specs.State.{HeldState};
    ghost use Rattle.held_state.specs.Seen.{state_seen};

    ghost Value = { HeldState };

    ghost view = { λ h. state_seen h.holdings.items h.live.items h.goings.items };
}

impl Held {
    /// The state at the start: signals have their starts, stores no rows, no key has arrived for a load, and all
    /// owners are live.
    pub fn first(alloc: Global, component: &Component) -> Result<Held, NoMemory>
        ensures { IfOk result (λ held. held ≡ first_state component.now) }
    {
        let items = component.items();
        let mut start = Start {
            alloc,
            holdings: Vec::new(alloc),
            goings: Vec::new(alloc),
        };
        start.area(items)?;
        let Start {
            holdings,
            goings,
            ..
        } = start;
        let live = vec![in alloc; true; goings.len()]?;
        Ok(Held {
            holdings,
            live,
            goings,
        })
    }

    /// How many ids there are, whatever each of them holds.
    pub fn count(&self) -> usize
        ensures { result ≡ length self.now.held.holdings }
    {
        self.holdings.len()
    }

    /// Whether the owner is live. An owner that the component has not is not.
    pub fn is_live(&self, owner: u32) -> bool
        ensures { result ≡ is_live self.now.held owner }
    {
        self.live.get(owner as usize).copied().unwrap_or(false)
    }

    /// The value of the signal with the id. `None` exactly where there is no such live signal.
    pub fn value(&self, id: u32) -> Option<Code>
        ensures { result ≡ signal_of self.now.held id }
    {
        self.holdings.get(id as usize)?.value()
    }

    /// The rows of the store with the id. `None` exactly where there is no such live store.
    pub fn rows(&self, id: u32) -> Option<&Rows>
        ensures { option_copied result ≡ store_of self.now.held id }
    {
        self.holdings.get(id as usize)?.rows()
    }

    /// The key that arrived for the load with the id, if one did. `None` exactly where there is no such live
    /// load.
    pub fn arrived(&self, load: u32) -> Option<Option<Code>>
        ensures { result ≡ load_of self.now.held load }
    {
        self.holdings.get(load as usize)?.arrived()
    }

    /// Gives the signal this value.
    pub fn put(&mut self, id: u32, code: Code)
        requires { IsSome (signal_of self.old.held id) }
        ensures { self.new ≡ with_held self.old (with_code self.old.held id code) }
    {
        self.holdings[id as usize] = Holding::Value(code);
    }

    /// Gives the load this key as the one that arrived, or none.
    pub fn arrive(&mut self, load: u32, key: Option<Code>)
        requires { IsSome (load_of self.old.held load) }
        ensures { self.new ≡ with_held self.old (with_arrived self.old.held load key) }
    {
        self.holdings[load as usize] = Holding::Arrived(key);
    }

    /// Takes out the owner, all owners inside it, and all that these own. It takes the time of what is taken
    /// out. An owner that the component has not takes nothing.
    pub fn kill(&mut self, owner: u32)
        ensures { self.new ≡ with_held self.old (without (going_at self.old.goings owner) self.old.held) }
    {
        if let Some(going) = self.goings.get(owner as usize).copied() {
            holding::empty_all(&mut self.holdings, going.first_id, going.past_id);
            holding::end_all(&mut self.live, going.first_owner, going.past_owner);
        }
    }

    /// The same state, in memory of its own.
    pub fn copy(&self, alloc: Global) -> Result<Held, NoMemory>
        ensures { IfOk result (λ held. held ≡ self.now) }
    {
        Ok(Held {
            holdings: holding::copies(alloc, self.holdings.as_slice())?,
            live: Vec::from_slice(alloc, self.live.as_slice())?,
            goings: Vec::from_slice(alloc, self.goings.as_slice())?,
        })
    }
}

impl Held {
    ghost use Rattle.std.specs.Borrow.{sem};
    ghost use Rattle.held_state.specs.Lending.{LendsStore};

    /// The rows of the store with the id, to be changed. `None` exactly where there is no such live store.
    pub fn store(&mut self, id: u32) -> Option<&mut Rows>
        ensures* writes_back { sem 𝓛 (LendsStore self.entry id result) }
        ensures value { option_copied_mut result ≡ store_of self.old.held id }
    {
        self.holdings.get_mut(id as usize)?.rows_mut()
    }
}
