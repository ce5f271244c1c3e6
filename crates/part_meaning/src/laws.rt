//! What follows from the definitions alone.

ghost use Rattle.std.specs.Prelude.{◌≡◌, ◌⊎◌, ℕ, List};
ghost use Rattle.grammar.specs.Running.{read, refused};
ghost use Rattle.component_items.specs.declared.refusal.Refusal.{Refusal};
ghost use Rattle.part_meaning.specs.Part.{Language, IsDecided, EndsEach, IsReadTo, IsRefused};
ghost use Rattle.part_meaning.specs.Computed.{outcome};

/// Bytes mean one thing at the most.
pub fn one_meaning<W, R, D, S>()
    ensures { (l : Language W R D S) → IsDecided l → (bytes : List ℕ) (a b : S) → IsReadTo l bytes a → IsReadTo l bytes b → a ≡ b }
{}

/// Bytes that mean something are not refused.
pub fn never_both<W, R, D, S>()
    ensures { (l : Language W R D S) → IsDecided l → (bytes : List ℕ) (last : S) (why : Refusal) → IsReadTo l bytes last → IsRefused l bytes why → ⊥ }
{}

/// Bytes are refused for one reason at one place.
pub fn one_refusal<W, R, D, S>()
    ensures { (l : Language W R D S) → IsDecided l → (bytes : List ℕ) (a b : Refusal) → IsRefused l bytes a → IsRefused l bytes b → a ≡ b }
{}

/// Bytes mean something or are refused.
pub fn one_of_both<W, R, D, S>()
    ensures { (l : Language W R D S) → IsDecided l → EndsEach l → (bytes : List ℕ) → ((last : S) × IsReadTo l bytes last) ⊎ ((why : Refusal) × IsRefused l bytes why) }
{}

/// What is computed is what the relations say.
pub fn outcome_is_meaning<W, R, D, S>()
    ensures read { (l : Language W R D S) → IsDecided l → (bytes : List ℕ) (last : S) → outcome l bytes ≡ read last → IsReadTo l bytes last }
    ensures refused { (l : Language W R D S) → IsDecided l → (bytes : List ℕ) (why : Refusal) → outcome l bytes ≡ refused why → IsRefused l bytes why }
{}
