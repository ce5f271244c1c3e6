//! A loader that fails at chosen calls.

ghost use Rattle.std.specs.Prelude.{◌≡◌, ◌↔◌};
ghost use Rattle.outside.specs.Counts.{NeverFalls};
ghost use Rattle.outside.specs.Fallible.{FailsNextAsk, after_ask};
ghost use Rattle.outside.specs.Prompt.{prompt_arrival};

use crate::counts::{is_among, next_count};
use crate::traits::{Arrival, Loader};
use std::marker::Model;
use values::Code;

/// A loader whose calls with chosen numbers fail. All others are answered as `Delays` answers them: ready
/// once the load was asked as often as its resource wants. Contracts see the numbers, and how many calls
/// were made, came too early, and failed.
#[derive(Drop)]
pub struct FailingLoader {
    fails: Vec<u32>,
    calls: u64,
    not_yets: u64,
    faults: u64,
}

impl Model for FailingLoader {
    ghost use Rattle.outside.specs.Counts.{NeverFalls};
    ghost use Rattle.outside.specs.Fallible.{Fallible};

    ghost Value = { Fallible };

    ghost view = { λ s. record {
      fails = s.fails.items;
      calls = s.calls;
      not_yets = s.not_yets;
      faults = s.faults;
    } };
}

impl FailingLoader {
    /// The calls whose numbers, counted from 1, are among `fails` fail. No call was made yet.
    pub fn new(fails: Vec<u32>) -> FailingLoader
        ensures { result ≡ record { fails = fails.items; calls = 0; not_yets = 0; faults = 0 } }
    {
        FailingLoader {
            fails,
            calls: 0,
            not_yets: 0,
            faults: 0,
        }
    }
}

impl Loader for FailingLoader {
    ghost use Rattle.std.specs.Prelude.{false};
    ghost use Rattle.outside.specs.Asks.{FallibleAnswers};

    ghost faults = { λ s. s.faults };

    ghost not_yets = { λ s. s.not_yets };

    ghost is_prompt = { false };

    ghost answers = { FallibleAnswers };

    fn ask(&mut self, _: u32, _: Code, after: u32, asked: u32) -> Arrival
        ensures not_yets_counted { NeverFalls self.old.not_yets self.new.not_yets }
        ensures faults_counted { NeverFalls self.old.faults self.new.faults }

        // What this loader further promises: it fails exactly where it was told to.
        ensures fails_as_told { result ≡ Arrival.Failed ↔ FailsNextAsk self.old }
        ensures others { ¬ FailsNextAsk self.old → result ≡ prompt_arrival after asked }
        ensures after_answer { self.new ≡ after_ask self.old result }
    {
        self.calls = next_count(self.calls);
        if is_among(self.calls, &self.fails) {
            self.faults = next_count(self.faults);
            return Arrival::Failed;
        }
        if asked >= after {
            return Arrival::Ready;
        }
        self.not_yets = next_count(self.not_yets);
        Arrival::NotYet
    }
}
