//! How far a load is.
ghost use Rattle.std.specs.Prelude.{◌≡◌, ◌↔◌, None, Some};
ghost use Rattle.std.specs.Bool.{OnTrue};
ghost use Rattle.outside.specs.Counts.{NeverFalls, Rose};
ghost use Rattle.async_derived.specs.Loads.{is_key, keyed, after_ask, after_poll, answer_of, prompt_ask, prompt_poll};

use outside::{Arrival, Loader};
use values::Code;

/// How far a load is (`docs/SEMANTICS.md`, "Loads").
#[derive(Clone, Copy, Debug, Default, PartialEq, Eq)]
pub struct Loading {
    /// The key that was last asked for.
    pub key: Option<Code>,
    /// The key that has arrived.
    pub arrived: Option<Code>,
    /// How often the loader was asked since the key last changed. It stays at the last value of a
    /// `u32`.
    pub asked: u32,
}

/// What came of a poll.
#[derive(Clone, Copy, Debug, PartialEq, Eq)]
pub enum Polled {
    /// The load has arrived with the key.
    Arrived,
    /// It is not here yet. The loader has counted it.
    Waiting,
    /// This call of the loader failed. The loader has counted it, and may be asked again.
    Failed,
}

impl Loading {
    /// A load that was never asked for.
    pub fn new() -> Loading
        ensures key { result.key ≡ None }
        ensures arrived { result.arrived ≡ None }
        ensures asked { result.asked ≡ 0 }
    {
        Loading {
            key: None,
            arrived: None,
            asked: 0,
        }
    }

    /// Asks the loader once for the value of `resource` at `key`, where the key has not arrived yet.
    /// A new key starts the count anew. `after` is how many calls the resource wants before it is
    /// ready.
    pub fn poll<L: Loader>(
        &mut self,
        key: Code,
        resource: u32,
        after: u32,
        loader: &mut L,
    ) -> Polled
        ensures state { self.new ≡ after_poll self.old key result }
        ensures arrived { (result ≡ Polled.Arrived) ↔ (self.new.arrived ≡ Some key) }
        ensures unasked { self.old.arrived ≡ Some key → loader.new ≡ loader.old }
        ensures asked { ¬ (self.old.arrived ≡ Some key) → L.answers loader.old
            (record { resource = resource; key = key; after = after; asked = (keyed self.old key).asked })
            (answer_of result) loader.new }

        ensures waiting { result ≡ Polled.Waiting → Rose (L.not_yets loader.old) (L.not_yets loader.new) }
        ensures failed { result ≡ Polled.Failed → Rose (L.faults loader.old) (L.faults loader.new) }

        ensures prompt { OnTrue L.is_prompt (result ≡ prompt_poll self.old key after) }

        ensures not_yets_counted { NeverFalls (L.not_yets loader.old) (L.not_yets loader.new) }
        ensures faults_counted { NeverFalls (L.faults loader.old) (L.faults loader.new) }
    {
        if is_key(self.arrived, key) {
            return Polled::Arrived;
        }
        self.turn_to(key);
        self.ask(key, resource, after, loader)
    }

    /// Starts anew where this is another key.
    fn turn_to(&mut self, key: Code)
        ensures { self.new ≡ keyed self.old key }
    {
        if !is_key(self.key, key) {
            *self = Loading {
                key: Some(key),
                arrived: None,
                asked: 0,
            };
        }
    }

    /// Asks, whatever has arrived.
    fn ask<L: Loader>(&mut self, key: Code, resource: u32, after: u32, loader: &mut L) -> Polled
        ensures state { self.new ≡ after_ask self.old key result }
        ensures asked { L.answers loader.old
            (record { resource = resource; key = key; after = after; asked = self.old.asked })
            (answer_of result) loader.new }

        ensures waiting { result ≡ Polled.Waiting → Rose (L.not_yets loader.old) (L.not_yets loader.new) }
        ensures failed { result ≡ Polled.Failed → Rose (L.faults loader.old) (L.faults loader.new) }

        ensures prompt { OnTrue L.is_prompt (result ≡ prompt_ask after self.old.asked) }

        ensures not_yets_counted { NeverFalls (L.not_yets loader.old) (L.not_yets loader.new) }
        ensures faults_counted { NeverFalls (L.faults loader.old) (L.faults loader.new) }
    {
        let asked = self.asked;
        self.asked = asked.saturating_add(1);
        match loader.ask(resource, key, after, asked) {
            Arrival::Ready => {
                self.arrived = Some(key);
                Polled::Arrived
            }
            Arrival::NotYet => Polled::Waiting,
            Arrival::Failed => Polled::Failed,
        }
    }
}

/// Whether this is the key.
fn is_key(kept: Option<Code>, key: Code) -> bool
    ensures { result ≡ is_key kept key }
{
    match kept {
        Some(code) => code == key,
        None => false,
    }
}
