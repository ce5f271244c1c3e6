//! Laws of the definitions that the crate's contracts cite.
ghost use Rattle.std.specs.Prelude.{◌≡◌, List, length};
ghost use Rattle.values.specs.declared.plan.PlanNode.{PlanNode as NodeValue};
ghost use Rattle.sources.specs.declared.opening.Opened.{Opened as OpenedValue};
ghost use Rattle.still_readers.specs.declared.readers.Readers.{Readers as ReadersValue};
ghost use Rattle.still_readers.specs.Readers.{IsReadersOf};
ghost use Rattle.still_rows.specs.declared.clock.Clock.{Clock as ClockValue};
ghost use Rattle.still_rows.specs.Clock.{IsClock};
ghost use Rattle.still_rows.specs.Frames.{AreLawful};
ghost use Rattle.still_rows.specs.Fresh.{AreFreshRows};
ghost use Rattle.still_rows.specs.Works.{IsStill};

/// Rows before anything is written, with the readers of their plan and any clock, hold what the calls
/// ask for.
pub fn fresh_rows_hold()
    ensures { (nodes : List NodeValue) (rows : List OpenedValue) (readers : ReadersValue) (clock : ClockValue) →
        AreLawful nodes → AreFreshRows nodes (length nodes) rows → IsReadersOf nodes readers → IsClock clock →
        IsStill nodes rows readers clock }
{}
