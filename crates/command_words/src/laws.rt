//! What follows from the definitions alone.

ghost use Rattle.std.specs.Prelude.{◌≡◌, ℕ, List};
ghost use Rattle.command_words.specs.declared.settings.Settings.{Settings};
ghost use Rattle.command_words.specs.Words.{StandFor};

/// Words stand for one settings at the most.
pub fn one_settings()
    ensures { (words : List (List ℕ)) (a b : Settings) → StandFor words a → StandFor words b → a ≡ b }
{}
