//! What follows from the definitions alone.

ghost use Rattle.std.specs.Prelude.{◌≡◌, ℕ, List, codes};
ghost use Rattle.input_split.specs.Computed.{split_of};
ghost use Rattle.input_split.specs.Parts.{IsSplit};
ghost use Rattle.input_split.specs.declared.Split.{Split};

/// Bytes have one split at the most.
pub fn one_split()
    ensures { (bytes : List ℕ) (a b : Split) → IsSplit bytes a → IsSplit bytes b → a ≡ b }
{}

/// What is computed is a split, so each input has one.
pub fn split_computes()
    ensures { (bytes : List ℕ) → IsSplit bytes (split_of bytes) }
{}

/// Worked rows.
pub fn worked_splits()
    ensures nothing { split_of (codes "") ≡ record { component_end = 0; script_start = 0; script_line = 1 } }
    ensures no_separator { split_of (codes "component 1\n") ≡ record { component_end = 12; script_start = 12; script_line = 2 } }
    ensures line_feeds { split_of (codes "component 1\n---\nphase") ≡ record { component_end = 12; script_start = 16; script_line = 3 } }
    ensures carriage_returns { split_of (codes "component 1\r\n---\r\nphase") ≡ record { component_end = 13; script_start = 18; script_line = 3 } }
    ensures four_dashes { split_of (codes "component 1\n----\nphase") ≡ record { component_end = 22; script_start = 22; script_line = 3 } }
    ensures dashes_behind_a_word { split_of (codes "a ---\n--- \n") ≡ record { component_end = 11; script_start = 11; script_line = 3 } }
    ensures at_the_end { split_of (codes "component 1\n---") ≡ record { component_end = 12; script_start = 15; script_line = 3 } }
    ensures first_of_two { split_of (codes "a\n---\n\n---\nb") ≡ record { component_end = 2; script_start = 6; script_line = 3 } }
    ensures first_line { split_of (codes "---\n---\n") ≡ record { component_end = 0; script_start = 4; script_line = 2 } }
{}
