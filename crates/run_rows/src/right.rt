//! Phases that ran rightly: all that is asked of a phase holds.
ghost use Rattle.std.specs.Prelude.{[]};
ghost use Rattle.run_meaning.specs.Run.{IsPhase};
ghost use Rattle.run_rows.specs.Rows.{branch, remainder, equal, diamond, edits, area, pumps, gone};

/// A memo over the branch that is not written.
pub fn branch_not_taken()
    ensures { IsPhase [] branch }
{}

/// A memo that runs to the value that it had, and the one above it does not run.
pub fn equal_value()
    ensures { IsPhase [] remainder }
{}

/// Two writes of the value that is there.
pub fn equal_writes()
    ensures { IsPhase [] equal }
{}

/// A memo over two memos over one signal.
pub fn diamond_of_memos()
    ensures { IsPhase [] diamond }
{}

/// Edits of a store of one row.
pub fn edits_of_a_store()
    ensures { IsPhase [] edits }
{}

/// An area that is disposed twice, and then a set of its signal.
pub fn disposed_area()
    ensures { IsPhase [] area }
{}

/// An effect that is pumped three times.
pub fn pumped_effect()
    ensures { IsPhase [] pumps }
{}

/// An effect whose area is disposed.
pub fn gone_effect()
    ensures { IsPhase [] gone }
{}
