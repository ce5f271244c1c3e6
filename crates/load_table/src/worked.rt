//! Worked rows of the definitions. Each is the contract of a function that does nothing.
ghost use Rattle.std.specs.Prelude.{◌≡◌, ℕ, List, [], ◌∷◌};
ghost use Rattle.values.specs.declared.code.Code.TheVariants.{Word};
ghost use Rattle.component_items.specs.Worked.{items};
ghost use Rattle.plain_evaluation.specs.Rows.{number, who, mails, side};
ghost use Rattle.load_table.specs.Loads.{loads_in};

/// A load has the attempts and the pairs of its resource; loads stand in order of declaration, those in areas too.
pub fn loads_of_components()
    ensures one { loads_in who ≡ record { id = 2; resource = 0; after = 2; pairs = (number 1, Word 2) ∷ [] } ∷ [] }
    ensures two { loads_in mails ≡ record { id = 3; resource = 0; after = 0; pairs = (number 1, number 7) ∷ [] } ∷ record { id = 5; resource = 1; after = 0; pairs = (number 7, Word 3) ∷ [] } ∷ [] }
    ensures none { loads_in side ≡ [] }
    ensures in_areas { (texts : List (List ℕ)) → loads_in (record { texts = texts; items = items }) ≡ record { id = 9; resource = 1; after = 0; pairs = [] } ∷ [] }
{}
