//! The journal.
ghost use Rattle.std.specs.Prelude.{◌≡◌, ◌<◌, ◌+◌, ◌-◌, List, [], ◌∷◌, ◌++◌, length, replicate, slice_get, OnOk, OnErr, MatchOption, Some, None};
ghost use Rattle.std.specs.Option.{option_map, option_copied};
ghost use Rattle.run_items.specs.Journal.{JournalPhase, base_of, meets_of, remarks_of};
ghost use Rattle.script_items.specs.Script.{numbered};
ghost use Rattle.run_journal.specs.Journal.{no_counts, phase_kept};

use std::alloc::Global;
use std::marker::Model;
use values::{Facts, NoMemory, Noted};

/// What is kept of a phase.
#[derive(Drop)]
struct Kept {
    /// The count of ticks when the phase opened.
    base: u64,
    /// What was noted, in order of number.
    entries: Facts,
    /// How many passes it was opened with.
    passes: usize,
}

/// The phases that were run, each with what was noted in it. Phases and passes count from 1.
#[derive(Drop)]
pub struct Journal {
    phases: Vec<Kept>,
}

impl Model for Journal {
    ghost use Rattle.std.specs.Prelude.{◌-◌, vec_len, vec_capacity};
    ghost use Rattle.run_journal.specs.Journal.{JournalState, phases_kept};

    ghost Value = { JournalState };

    ghost view = { λ j. record { phases = phases_kept j.phases.items; spare = vec_capacity j.phases - vec_len j.phases } };
}

impl Journal {
    /// No phase yet.
    pub fn new(alloc: Global) -> Journal
        ensures { result.phases ≡ [] }
    {
        Journal {
            phases: Vec::new(alloc),
        }
    }

    /// Takes room for one more phase.
    pub fn ready(&mut self) -> Result<(), NoMemory>
        ensures phases { self.new.phases ≡ self.old.phases }
        ensures room { OnOk result (0 < self.new.spare) }
    {
        self.phases.reserve(1)?;
        Ok(())
    }

    /// Adds a phase of one caller, who meets no other, with so many passes.
    pub fn push(&mut self, base: u64, entries: Facts, passes: usize)
        requires { 0 < self.old.spare }
        ensures { self.new.phases ≡ self.old.phases ++ record { base = base; entries = entries; counts = replicate passes no_counts } ∷ [] }
    {
        self.phases.push_reserved(Kept {
            base,
            entries,
            passes,
        });
    }

    /// How many phases there are.
    pub fn phases(&self) -> usize
        ensures { result ≡ length self.now.phases }
    {
        self.phases.len()
    }

    /// The count of ticks when the phase opened. `None` exactly where there is no such phase.
    pub fn base(&self, phase: u32) -> Option<u64>
        ensures { result ≡ base_of self.now.phases phase }
    {
        Some(self.kept(phase)?.base)
    }

    /// What was noted in the phase, in order of number. `None` exactly where there is no such phase.
    pub fn entries(&self, phase: u32) -> Option<&[Noted]>
        ensures { MatchOption result (numbered self.now.phases phase ≡ None) (λ entries. option_map (λ p. p.entries) (numbered self.now.phases phase) ≡ Some entries.now) }
    {
        Some(self.kept(phase)?.entries.as_slice())
    }

    /// What was noted in the last phase. Nothing where there is none.
    pub fn last_entries(&self) -> &[Noted]
        ensures { (earlier : List JournalPhase) (phase : JournalPhase) → self.now.phases ≡ earlier ++ phase ∷ [] → result.now ≡ phase.entries }
    {
        match last(self.phases.as_slice()) {
            Some(kept) => kept.entries.as_slice(),
            None => &[],
        }
    }

    /// How often the pass met a node that another had claimed. `None` exactly where there is no such phase or pass.
    pub fn meets(&self, phase: u32, pass: u32) -> Option<u64>
        ensures { result ≡ meets_of self.now.phases phase pass }
    {
        self.count(phase, pass)
    }

    /// How often a node that the pass brought up to date was marked meanwhile. `None` exactly where there is no such
    /// phase or pass.
    pub fn remarks(&self, phase: u32, pass: u32) -> Option<u64>
        ensures { result ≡ remarks_of self.now.phases phase pass }
    {
        self.count(phase, pass)
    }

    /// With one caller all counts are 0.
    fn count(&self, phase: u32, pass: u32) -> Option<u64>
        ensures meets { result ≡ meets_of self.now.phases phase pass }
        ensures remarks { result ≡ remarks_of self.now.phases phase pass }
    {
        let kept = self.kept(phase)?;
        if pass == 0 || pass as usize > kept.passes {
            return None;
        }
        Some(0)
    }

    fn kept(&self, phase: u32) -> Option<&Kept>
        ensures { option_map phase_kept (option_copied result) ≡ numbered self.now.phases phase }
    {
        let place = phase.checked_sub(1)?;
        at(self.phases.as_slice(), place as usize)
    }
}

fn last(phases: &[Kept]) -> Option<&Kept>
    ensures { option_copied result ≡ slice_get phases.now (length phases.now - 1) }
{
    at(phases, phases.len().saturating_sub(1))
}

fn at(phases: &[Kept], place: usize) -> Option<&Kept>
    ensures { option_copied result ≡ slice_get phases.now place }
{
    phases.get(place)
}
