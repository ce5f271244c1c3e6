//! Worked rows of the definitions. Each is the contract of a function that does nothing.
ghost use Rattle.std.specs.Prelude.{◌≡◌, ℕ, [], ◌∷◌};
ghost use Rattle.plain_evaluation.specs.Held.{first_held};
ghost use Rattle.plain_evaluation.specs.Scratch.{pending};
ghost use Rattle.load_meaning.specs.Polls.{Progress, first_loadings, rounds_promptly, enough_rounds};
ghost use Rattle.load_rounds.specs.Rows.{chain};

/// Three loads, each with the one before it as its key, that want 1, 0 and 2 attempts before they arrive. The last
/// is pending behind three rounds, and none is behind four.
pub fn loads_in_a_chain()
    ensures three { pending chain (rounds_promptly 3 chain (record { held = first_held chain; loadings = first_loadings chain })).held ≡ 8 ∷ [] }
    ensures four { pending chain (rounds_promptly 4 chain (record { held = first_held chain; loadings = first_loadings chain })).held ≡ [] }
    ensures enough { enough_rounds chain ≡ 4 }
{}
