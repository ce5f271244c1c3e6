//! A loader that goes by how often it was asked, and a gate that is always open.

ghost use Rattle.std.specs.Prelude.{◌≡◌, ◌≤◌, if◌then◌else◌, nat_le, true};
ghost use Rattle.std.specs.Bool.{OnTrue};
ghost use Rattle.outside.specs.Counts.{NeverFalls, Rose, next_count};
ghost use Rattle.outside.specs.Prompt.{prompt_arrival};

use crate::counts::next_count;
use crate::traits::{Arrival, Gate, Loader};
use std::marker::Model;
use values::Code;

/// A loader that is ready once a load was asked as often as its resource wants. It never fails.
#[derive(Drop)]
pub struct Delays {
    not_yets: u64,
}

impl Model for Delays {
    ghost use Rattle.std.specs.Prelude.{ℕ};

    ghost Value = { ℕ };

    ghost view = { λ delays. delays.not_yets };
}

impl Delays {
    /// It has answered no call yet.
    pub fn new() -> Delays
        ensures { result ≡ 0 }
    {
        Delays { not_yets: 0 }
    }
}

impl Loader for Delays {
    ghost use Rattle.std.specs.Prelude.{true};
    ghost use Rattle.outside.specs.Asks.{PromptAnswers};

    ghost faults = { λ _. 0 };

    ghost not_yets = { λ delays. delays };

    ghost is_prompt = { true };

    ghost answers = { PromptAnswers };

    fn ask(&mut self, _: u32, _: Code, after: u32, asked: u32) -> Arrival
        ensures prompt { result ≡ prompt_arrival after asked }
        ensures counted { NeverFalls self.old self.new }
        ensures count { self.new ≡ (if nat_le after asked then self.old else next_count self.old) }
    {
        if asked >= after {
            return Arrival::Ready;
        }
        self.not_yets = next_count(self.not_yets);
        Arrival::NotYet
    }
}

/// A gate that returns at once.
#[derive(Clone, Copy, Debug, PartialEq, Eq)]
pub struct OpenGate;

impl Gate for OpenGate {
    fn step(&self, _: u32, _: u32) {}
}
