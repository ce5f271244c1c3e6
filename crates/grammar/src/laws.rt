//! What holds of every grammar whose lookahead is right.

ghost use Rattle.std.specs.Prelude.{◌≡◌, ◌⊎◌, ◌++◌, ◌∷◌, [], ℕ, suc, ◌+◌, ◌≤◌, Bool, true, List, map, length, slice_get, Some, Ok};
ghost use Rattle.std.specs.List.{list_all};
ghost use Rattle.grammar.specs.declared.symbol.Symbol.{Symbol};
ghost use Rattle.grammar.specs.declared.symbol.Symbol.TheVariants.{Terminal};
ghost use Rattle.grammar.specs.Table.{Table};
ghost use Rattle.grammar.specs.Lookahead.{Lookahead, ListsAll, is_predictive, has_samples, follows_alone};
ghost use Rattle.grammar.specs.Machine.{Fits, IsRight};
ghost use Rattle.grammar.specs.Decides.{TakesChosen, FollowsDerivations, NeverMisleads};
ghost use Rattle.grammar.specs.Descent.{LeadsDown, leads_down};
ghost use Rattle.grammar.specs.Ends.{IsEndOf, IsEnded, is_apart, IsLast, stops, rule_stops, Blocks};
ghost use Rattle.grammar.specs.Semantics.{Semantics, Reads};
ghost use Rattle.grammar.specs.Meaning.{Means, IsFirstBad, ClosesWith};
ghost use Rattle.grammar.specs.Running.{run, read, refused};
ghost use Rattle.grammar.specs.Ahead.{WithNext, with_next};
ghost use Rattle.grammar.specs.Paid.{rule_pays, need};

/// Tests that compute over a table, with lists of its terminals, rules and kinds, show all that the other laws
/// ask of it.
pub fn tests_suffice<W, R, D, K>()
    ensures right { (t : Table W R D K) (h : Lookahead W R K)
        → (words : List W) (rules : List R) (kinds : List K) → ListsAll words → ListsAll rules → ListsAll kinds
        → has_samples t h words ≡ true → is_predictive t h rules kinds ≡ true → IsRight t h }
    ensures fits { (t : Table W R D K) (h : Lookahead W R K) (start : List (Symbol W R D))
        → (kinds : List K) → ListsAll kinds → follows_alone t h start kinds ≡ true → Fits t h start }
    ensures down { (t : Table W R D K) (h : Lookahead W R K) (level : R → ℕ)
        → (rules : List R) → ListsAll rules → leads_down t h level rules ≡ true → LeadsDown t h level }
    ensures end { (t : Table W R D K) (end : W) (inner : List (Symbol W R D))
        → (rules : List R) (kinds : List K) → ListsAll rules → ListsAll kinds
        → is_apart t end inner rules kinds ≡ true → IsEndOf t end (inner ++ Terminal end ∷ []) }
    ensures last { (t : Table W R D K) (blocked : W → Bool) (end : W) (k : K) (inner : List (Symbol W R D))
        → (rules : List R) → ListsAll rules → stops t blocked k inner ≡ true → list_all (rule_stops t blocked k) rules ≡ true
        → IsLast t blocked end k (inner ++ Terminal end ∷ []) }
{}

/// One token of lookahead decides: what a stack derives takes the productions that the lookahead chooses, and
/// a stack that isn't stuck ends in a text.
pub fn lookahead_decides<W, R, D, K>()
    ensures chosen { (t : Table W R D K) (h : Lookahead W R K) → IsRight t h → TakesChosen t h }
    ensures followed { (t : Table W R D K) (h : Lookahead W R K) → IsRight t h → FollowsDerivations t h }
    ensures never_misled { (t : Table W R D K) (h : Lookahead W R K) → IsRight t h → NeverMisleads t h }
{}

/// A list of tokens has at most one meaning.
pub fn meaning_is_unique<W, R, D, K, T, S, E>()
    ensures { (t : Table W R D K) (h : Lookahead W R K) (m : Semantics W D K T S E) → IsRight t h
        → (start : List (Symbol W R D)) (end : W) (first : S) → Fits t h start → ClosesWith end start
        → (xs : List T) (a b : S) → Means t m start first xs a → Means t m start first xs b → a ≡ b }
{}

/// No list of tokens both has a meaning and a bad token.
pub fn never_both<W, R, D, K, T, S, E>()
    ensures { (t : Table W R D K) (h : Lookahead W R K) (m : Semantics W D K T S E) → IsRight t h
        → (start : List (Symbol W R D)) (first : S) → Fits t h start
        → (xs : List T) (a : S) (e : E) → Means t m start first xs a → IsFirstBad t m start first xs e → ⊥ }
{}

/// The first bad token of a list is refused for one reason.
pub fn refusal_is_unique<W, R, D, K, T, S, E>()
    ensures { (t : Table W R D K) (h : Lookahead W R K) (m : Semantics W D K T S E) → IsRight t h
        → (start : List (Symbol W R D)) (first : S) → Fits t h start
        → (xs : List T) (e f : E) → IsFirstBad t m start first xs e → IsFirstBad t m start first xs f → e ≡ f }
{}

/// Every list of tokens whose last may end a text has a meaning or a first bad token, where no rule leads back
/// to itself before a token is taken.
pub fn one_of_both<W, R, D, K, T, S, E>()
    ensures { (t : Table W R D K) (h : Lookahead W R K) (m : Semantics W D K T S E) → IsRight t h
        → (level : R → ℕ) → LeadsDown t h level
        → (start : List (Symbol W R D)) (end : W) (first : S) → Fits t h start → IsEndOf t end start
        → (xs : List T) → IsEnded t m end xs
        → ((last : S) × Means t m start first xs last) ⊎ ((why : E) × IsFirstBad t m start first xs why) }
{}

/// The same where the last token may stand for a terminal that refuses every token, or for none at all, the end
/// included: it is enough that no terminal of the productions takes it, and none that stands before the end.
pub fn one_of_both_by_the_last<W, R, D, K, T, S, E>()
    ensures { (t : Table W R D K) (h : Lookahead W R K) (m : Semantics W D K T S E) → IsRight t h
        → (level : R → ℕ) → LeadsDown t h level
        → (start : List (Symbol W R D)) (end : W) (first : S) → Fits t h start
        → (blocked : W → Bool) → Blocks m blocked
        → (before : List T) (last : T) → IsLast t blocked end (m.kind last) start
        → ((final : S) × Means t m start first (before ++ last ∷ []) final) ⊎ ((why : E) × IsFirstBad t m start first (before ++ last ∷ []) why) }
{}

/// What the form that computes finds is so: the state that the tokens lead to, or why the first bad one is
/// refused.
pub fn running_tells<W, R, D, K, T, S, E>()
    ensures read { (t : Table W R D K) (h : Lookahead W R K) (m : Semantics W D K T S E) → IsRight t h
        → (start : List (Symbol W R D)) (first : S) → Fits t h start
        → (n : ℕ) (xs : List T) (last : S) → run t h m n start first xs ≡ read last → Means t m start first xs last }
    ensures refused { (t : Table W R D K) (h : Lookahead W R K) (m : Semantics W D K T S E) → IsRight t h
        → (start : List (Symbol W R D)) (first : S) → Fits t h start
        → (n : ℕ) (xs : List T) (why : E) → run t h m n start first xs ≡ refused why → IsFirstBad t m start first xs why }
{}

/// Tokens with the next one: they are the tokens, each with the one behind it, the last with itself.
pub fn next_ones<A>()
    ensures tokens { (xs : List A) → map (λ (one : WithNext A). one.token) (with_next xs) ≡ xs }
    ensures next { (xs : List A) (i : ℕ) (x y : A) → slice_get xs i ≡ Some x → slice_get xs (suc i) ≡ Some y
        → slice_get (with_next xs) i ≡ Some (record { token = x; next = y }) }
    ensures last { (before : List A) (x : A)
        → slice_get (with_next (before ++ x ∷ [])) (length before) ≡ Some (record { token = x; next = x }) }
{}

/// Where each production pays for what it adds, what was read is no larger than its tokens: each terminal of a
/// production pays one, for itself and for what comes behind it.
pub fn size_is_bounded<W, R, D, K, T, S, E>()
    ensures { (t : Table W R D K) (m : Semantics W D K T S E) (rise : W → ℕ) (gain : D → ℕ) (size : S → ℕ)
        → ((w : W) (a b : S) (x : T) → m.accept w a x ≡ Ok b → size b ≤ size a + rise w)
        → ((d : D) (a : S) → size (m.perform d a) ≤ size a + gain d)
        → ((r : R) → rule_pays t rise gain r ≡ true)
        → (s out : List (Symbol W R D)) (a b : S) (xs : List T) → need t rise gain s ≡ 0 → Reads t m s a xs out b → size b ≤ size a + length xs }
{}
