//! Worked rows of the definitions. Each is the contract of a function that does nothing.
ghost use Rattle.std.specs.Prelude.{◌≡◌, ℕ, [], ◌∷◌, Some, None};
ghost use Rattle.outside.specs.Fallible.{Fallible};
ghost use Rattle.outside.specs.Asks.{FallibleAnswers};
ghost use Rattle.plain_evaluation.specs.Held.{first_held};
ghost use Rattle.plain_evaluation.specs.Rows.{number, who, who_held, mails, mails_held};
ghost use Rattle.load_meaning.specs.declared.late.Late.TheVariants.{Failed};
ghost use Rattle.load_meaning.specs.Polls.{Progress, first_loadings, AllPolled, all_promptly, rounds_promptly, enough_rounds};

/// A load that wants two attempts before it arrives waits twice, arrives at the third poll, and stays.
pub fn a_load_arrives()
    ensures waits { all_promptly who (record { held = first_held who; loadings = first_loadings who }) ≡ record { held = who_held None (number 1); loadings = record { key = Some (number 1); arrived = None; asked = 1 } ∷ [] } }
    ensures waits_again { rounds_promptly 2 who (record { held = first_held who; loadings = first_loadings who }) ≡ record { held = who_held None (number 1); loadings = record { key = Some (number 1); arrived = None; asked = 2 } ∷ [] } }
    ensures arrives { rounds_promptly 3 who (record { held = first_held who; loadings = first_loadings who }) ≡ record { held = who_held (Some (number 1)) (number 1); loadings = record { key = Some (number 1); arrived = Some (number 1); asked = 3 } ∷ [] } }
    ensures stays { rounds_promptly 4 who (record { held = first_held who; loadings = first_loadings who }) ≡ record { held = who_held (Some (number 1)) (number 1); loadings = record { key = Some (number 1); arrived = Some (number 1); asked = 3 } ∷ [] } }
    ensures enough { enough_rounds who ≡ 3 }
{}

/// Where the key has another value, the load begins anew.
pub fn a_load_begins_anew()
    ensures { all_promptly who (record { held = who_held (Some (number 1)) (number 2); loadings = record { key = Some (number 1); arrived = Some (number 1); asked = 3 } ∷ [] }) ≡ record { held = who_held None (number 2); loadings = record { key = Some (number 2); arrived = None; asked = 1 } ∷ [] } }
{}

/// A load whose key reads another load arrives with it in one round.
pub fn loads_arrive_together()
    ensures both { all_promptly mails (record { held = first_held mails; loadings = first_loadings mails }) ≡ record { held = mails_held (Some (number 1)) (Some (number 7)); loadings = record { key = Some (number 1); arrived = Some (number 1); asked = 1 } ∷ record { key = Some (number 7); arrived = Some (number 7); asked = 1 } ∷ [] } }
    ensures enough { enough_rounds mails ≡ 1 }
{}

/// A load whose first call fails is late for that reason.
pub fn a_load_fails()
    ensures { AllPolled FallibleAnswers who (record { held = first_held who; loadings = first_loadings who }) (record { held = who_held None (number 1); loadings = record { key = Some (number 1); arrived = None; asked = 1 } ∷ [] }) ((2, Failed) ∷ []) (record { fails = 1 ∷ []; calls = 0; not_yets = 0; faults = 0 }) (record { fails = 1 ∷ []; calls = 1; not_yets = 0; faults = 1 }) }
{}
