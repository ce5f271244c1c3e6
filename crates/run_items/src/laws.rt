//! Worked facts of the definitions. Each is the contract of a function that does nothing.
ghost use Rattle.std.specs.Prelude.{◌≡◌, [], ◌∷◌, Some, None, pos};
ghost use Rattle.run_items.specs.Journal.{entries_of, base_of, meets_of, remarks_of};
ghost use Rattle.run_items.specs.Worked.{two_phases, write_one, dispose_two};

/// A journal of two phases, the second of two passes: its entries, its bases, and the counts of a pass.
pub fn journals_are_read_by_phase()
    ensures entries { entries_of two_phases ≡ record { phase = 1; number = 1; fact = write_one } ∷ record { phase = 2; number = 1; fact = dispose_two } ∷ record { phase = 2; number = 2; fact = write_one } ∷ [] }
    ensures first { base_of two_phases 1 ≡ Some 7 }
    ensures second { base_of two_phases 2 ≡ Some 8 }
    ensures before { base_of two_phases 0 ≡ None }
    ensures past { base_of two_phases 3 ≡ None }
    ensures meets { meets_of two_phases 2 2 ≡ Some 5 }
    ensures remarks { remarks_of two_phases 2 2 ≡ Some 6 }
    ensures no_pass { meets_of two_phases 1 2 ≡ None }
    ensures no_phase { remarks_of two_phases 3 1 ≡ None }
{}
