//! What follows of each history of one caller after another. Each law is the contract of a function that does nothing.
ghost use Rattle.std.specs.Prelude.{◌≡◌, ◌⊎◌, ◌+◌, ◌<◌, ◌≤◌, ℕ, true, None, Some, List, [], ◌∷◌, ◌++◌};
ghost use Rattle.values.specs.declared.plan.PlanNode.{PlanNode as NodeValue};
ghost use Rattle.values.specs.declared.plan.Noted.{Noted as NotedValue};
ghost use Rattle.values.specs.declared.plan.Fact.{Fact as FactValue};
ghost use Rattle.values.specs.Plan.{IsLawful};
ghost use Rattle.run_items.specs.declared.limits.TheConstants.{LAST_NUMBER};
ghost use Rattle.run_meaning.specs.Opened.{Opened, node_at};
ghost use Rattle.run_meaning.specs.Explained.{Explained};
ghost use Rattle.run_meaning.specs.Phase.{Phase, IsJournal, IsOfPlan};
ghost use Rattle.run_meaning.specs.Entries.{is_disposal};
ghost use Rattle.run_meaning.specs.Merge.{Answered, NotedInOrder, NotedOnce, DisposedOnce, PumpsFit, ChangesDiffer, DiffersFrom, IsMerge};
ghost use Rattle.run_meaning.specs.Told.{GotExplained, EntriesExplained, NoRunAfter};
ghost use Rattle.run_meaning.specs.Causes.{RepliesCaused, RefusalsCounted, cost_of, HasRoom};
ghost use Rattle.run_meaning.specs.Run.{IsPhase};
ghost use Rattle.run_history.specs.Going.{Start, opened_at, start_of, Going, note, all_are, latest, plain_code, EntryFits, Goes, writes_nothing};
ghost use Rattle.run_history.specs.History.{OfHistories, VerdictsFit};

/// The journal is well formed.
pub fn journal_is_well_formed()
    ensures { OfHistories (λ past p. IsJournal p.opened p.drawn p.entries) }
{}

/// Plain evaluation over the latest writes explains the value of each row.
pub fn plain_values_are_explained()
    ensures { (past : List Phase) (o : Opened) (es : List NotedValue) (drawn : ℕ) → IsLawful o.plan → IsJournal o drawn es → (row : ℕ) (node : NodeValue) → node_at o row ≡ Some node → Explained o es (latest es) None row (plain_code (start_of past o) es row) }
{}

/// Each operation has an answer of its kind.
pub fn answers_are_of_their_kind()
    ensures { OfHistories (λ past p. Answered p) }
{}

/// The numbers of a lane's accepted sets and edits grow along it, and under each stands what was asked.
pub fn sets_and_edits_are_noted_in_order()
    ensures { OfHistories (λ past p. VerdictsFit p → NotedInOrder p) }
{}

/// Each write and each edit of the journal belongs to exactly one reply.
pub fn each_is_noted_once()
    ensures { OfHistories (λ past p. NotedOnce p) }
{}

/// Each owner is disposed once at most, by an operation on an area with it in it, between the lane's sets and edits.
pub fn each_owner_is_disposed_once()
    ensures { OfHistories DisposedOnce }
{}

/// What lanes got is no older than their own writes, and no newer than their next.
pub fn values_that_were_got_are_explained()
    ensures { OfHistories (λ past p. GotExplained p) }
{}

/// Each run and each change is explained.
pub fn runs_and_changes_are_explained()
    ensures { OfHistories (λ past p. EntriesExplained p) }
{}

/// No effect runs after its owner's disposal.
pub fn no_effect_runs_after_its_disposal()
    ensures { OfHistories NoRunAfter }
{}

/// The counts of pumps are those of the journal, their runs lie between the lane's sets and edits, and the values of
/// effects that were not left stand.
pub fn pumps_fit_the_journal()
    ensures { OfHistories PumpsFit }
{}

/// Each change is of a memo, and differs from the value before.
pub fn changes_differ()
    ensures { OfHistories (λ past p. ChangesDiffer p) }
{}

/// Operations are answered as they are for a cause.
pub fn replies_have_their_causes()
    ensures { OfHistories RepliesCaused }
{}

/// No operation is refused, and no effect left, for another lane's sake.
pub fn refusals_are_counted()
    ensures { OfHistories (λ past p. RefusalsCounted p) }
{}

/// The operations of a phase draw no more numbers than their shares, so nothing is full where these are no more than are
/// noted.
pub fn operations_draw_their_shares()
    ensures drawn { OfHistories (λ past p. p.drawn ≤ cost_of p) }
    ensures room { OfHistories (λ past p. HasRoom p) }
{}

/// A history merges what its lanes did.
pub fn histories_are_merges()
    ensures { OfHistories (λ past p. VerdictsFit p → IsMerge past p) }
{}

/// A history makes a phase of which all holds.
pub fn histories_make_phases()
    ensures { OfHistories (λ past p. VerdictsFit p → IsPhase past p) }
{}

/// A call that notes nothing, one that notes an entry under the next number, and a number that comes to nothing where
/// all that are noted were drawn.
pub fn single_steps_go()
    ensures nothing { (s : Start) (g : Going) → Goes s g [] g }
    ensures one { (s : Start) (g : Going) (f : FactValue) → (g.drawn < LAST_NUMBER) ⊎ (is_disposal f ≡ true) → IsOfPlan (opened_at s) f → DiffersFrom (opened_at s) g.entries f → EntryFits s g.entries (g.entries ++ note (g.drawn + 1) f ∷ []) f → Goes s g (note (g.drawn + 1) f ∷ []) (record { drawn = g.drawn + 1; entries = g.entries ++ note (g.drawn + 1) f ∷ [] }) }
    ensures none { (s : Start) (g : Going) → LAST_NUMBER ≤ g.drawn → Goes s g [] (record g { drawn = g.drawn + 1 }) }
{}

/// What goes on with what writes nothing goes as a whole.
pub fn steps_go_on()
    ensures { (s : Start) (g : Going) (first : List NotedValue) (h : Going) (second : List NotedValue) (k : Going) → Goes s g first h → Goes s h second k → all_are writes_nothing second ≡ true → Goes s g (first ++ second) k }
{}

/// What writes nothing leaves all values by plain evaluation.
pub fn values_stay_where_nothing_is_written()
    ensures { (s : Start) (es block : List NotedValue) → all_are writes_nothing block ≡ true → (row : ℕ) → plain_code s (es ++ block) row ≡ plain_code s es row }
{}
