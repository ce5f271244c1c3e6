//! Runs of effects.
ghost use Rattle.std.specs.Prelude.{◌≡◌, ◌≤◌, ◌<◌, ◌+◌, ℕ, true, false, length, slice_get, Some};
ghost use Rattle.plain_evaluation.specs.Sound.{is_effect};
ghost use Rattle.sources.specs.declared.opening.Opened.{Opened as OpenedValue};
ghost use Rattle.sources.specs.Colours.{is_clean};
ghost use Rattle.still_effects.specs.Effects.{IsEffect};
ghost use Rattle.run_history.specs.Calls.{pump};
ghost use Rattle.phase_graph.specs.Graph.{AreRunOrLeft};
ghost use Rattle.phase_graph.specs.Table.{IsTable, IsKept, MakesHome};
ghost use Rattle.phase_graph.specs.Pumping.{IsEffectOf, IsDirtied, CameTo, TurnedAs, counted};

use crate::table::Table;
use sources::Colour;
use still_effects::{Effect, run_effect};
use still_rows::Full;
use values::{Code, Kind, Left, Pumped};

/// What came of one row.
#[derive(Clone, Copy)]
pub(crate) enum Turn {
    /// It is no effect.
    Other,
    /// Its owner is disposed.
    Gone,
    /// It needed no run.
    Same,
    /// It ran, with this value.
    Ran(Code),
    /// It was left, for want of a number. This one, above the last of a phase, is kept.
    Left(u32),
}

impl Table {
    /// Runs each effect that needs a run, in order of row.
    pub(crate) fn pump(&mut self) -> Pumped
        requires table { IsTable self.old }
        requires open { self.old.clock.in_phase ≡ true }
        ensures kept { IsKept self.old self.new }
        ensures live { self.new.live ≡ self.old.live }
        ensures effects { AreRunOrLeft self.old.plan.nodes self.old.live.items self.new.rows.items }
        ensures call { (pass : ℕ) → MakesHome self.old self.new pass (pump result) }
    {
        let mut told = Pumped {
            ran: 0,
            same: 0,
            gone: 0,
            left: 0,
            first_left: None,
        };
        let count = self.plan.nodes.as_slice().len() as u32;
        for row in 0..count {
            let turn = self.run_row(row);
            count_turn(&mut told, row, turn);
        }
        told
    }

    /// Runs the row where it is an effect that needs a run.
    fn run_row(&mut self, row: u32) -> Turn
        requires table { IsTable self.old }
        requires open { self.old.clock.in_phase ≡ true }
        requires row { row < length self.old.plan.nodes }
        ensures kept { IsKept self.old self.new }
        ensures turned { TurnedAs self.old self.new row result }
    {
        if !is_effect(self.plan.nodes.as_slice()[row as usize].kind) {
            return Turn::Other;
        }
        self.run_owned(row)
    }

    /// Runs an effect that needs a run, where its owner is live.
    fn run_owned(&mut self, row: u32) -> Turn
        requires table { IsTable self.old }
        requires open { self.old.clock.in_phase ≡ true }
        requires effect { IsEffect self.old.plan.nodes row }
        ensures kept { IsKept self.old self.new }
        ensures turned { TurnedAs self.old self.new row result }
    {
        if self.dead_owner(row).is_some() {
            return Turn::Gone;
        }
        self.run_live(row)
    }

    /// Runs an effect whose owner is live, where it needs a run.
    fn run_live(&mut self, row: u32) -> Turn
        requires table { IsTable self.old }
        requires open { self.old.clock.in_phase ≡ true }
        requires live { IsEffectOf self.old row true }
        ensures kept { IsKept self.old self.new }
        ensures turned { TurnedAs self.old self.new row result }
    {
        match self.try_effect(row) {
            Ok(Effect::Same) => Turn::Same,
            Ok(Effect::Ran(code)) => Turn::Ran(code),
            Err(Full) => {
                self.soil(row);
                Turn::Left(self.fill())
            }
        }
    }

    /// An effect that is left is dirty from now on.
    fn soil(&mut self, row: u32)
        requires table { IsTable self.old }
        requires open { self.old.clock.in_phase ≡ true }
        requires row { row < length self.old.plan.nodes }
        requires unclean { (opened : OpenedValue) → slice_get self.old.rows.items row ≡ Some opened → is_clean opened.colour ≡ false }
        ensures table { IsTable self.new }
        ensures dirtied { IsDirtied self.old self.new row }
    {
        self.rows[row as usize].colour = Colour::Dirty;
    }

    /// Runs an effect where it needs a run, as far as there are numbers.
    fn try_effect(&mut self, row: u32) -> Result<Effect, Full>
        requires table { IsTable self.old }
        requires open { self.old.clock.in_phase ≡ true }
        requires effect { IsEffect self.old.plan.nodes row }
        ensures kept { IsKept self.old self.new }
        ensures came { CameTo self.old self.new row result }
    {
        run_effect(
            self.plan.nodes.as_slice(),
            self.rows.as_mut_slice(),
            &mut self.readers,
            &mut self.clock,
            &mut self.work,
            row,
        )
    }
}

/// Whether a row of this kind is an effect.
fn is_effect(kind: Kind) -> bool
    ensures { result ≡ is_effect kind }
{
    matches!(kind, Kind::Effect)
}

/// Counts what came of a row.
fn count_turn(told: &mut Pumped, row: u32, turn: Turn)
    requires few { (told.old.ran + told.old.same) + (told.old.gone + told.old.left) < 4096 }
    ensures { told.new ≡ counted told.old row turn }
{
    match turn {
        Turn::Other => {}
        Turn::Gone => told.gone += 1,
        Turn::Same => told.same += 1,
        Turn::Ran(_) => told.ran += 1,
        Turn::Left(number) => {
            told.left += 1;
            told.first_left = told.first_left.or(Some((row, Left::Full(number))));
        }
    }
}
