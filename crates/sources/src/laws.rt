//! Laws of the definitions that the crate's contracts cite.
ghost use Rattle.std.specs.Prelude.{◌≡◌, ◌↔◌, ◌≤◌, ℕ, Bool, List, [], ◌∷◌, Some, None, true, false, slice_get, Contains};
ghost use Rattle.values.specs.declared.code.Code.{Code as CodeValue};
ghost use Rattle.values.specs.declared.expr.Expr.{Expr as ExprValue};
ghost use Rattle.values.specs.declared.plan.PlanNode.{PlanNode as NodeValue};
ghost use Rattle.values.specs.Evaluation.{value_of, reads_of};
ghost use Rattle.values.specs.Packing.{unpacked, IsPacked};
ghost use Rattle.values.specs.PlanRows.{signal_in, reader};
ghost use Rattle.values.specs.PlanValues.{plan_value, ReadsBack};
ghost use Rattle.sources.specs.declared.body.Read.{Read as ReadValue};
ghost use Rattle.sources.specs.declared.opening.Opened.{Opened as OpenedValue};
ghost use Rattle.sources.specs.Bodies.{rows_read, IsRight, IsCaused};
ghost use Rattle.sources.specs.Colours.{is_clean};
ghost use Rattle.sources.specs.Rows.{value_in, IsGood};
ghost use Rattle.sources.specs.Bits.{IsIn, members_from};
ghost use Rattle.sources.specs.Tried.{five_at, row_alone, no_row, IsAtNine};

use crate::body::Cause;
use crate::colour::Colour;
use values::Kind;

/// A right body is what evaluation gives over any values that its reads show: the same value, by the
/// same reads. And what evaluation read, with the values that it read, is a right body.
pub fn right_bodies_are_evaluations()
    ensures shows { (e : ExprValue) (reads : List ReadValue) (code : ℕ) (values : ℕ → CodeValue) →
        IsRight e reads code →
        ((k : ℕ) (x : ReadValue) → slice_get reads k ≡ Some x → values x.row ≡ unpacked x.code) →
        (value_of e values ≡ unpacked code) × (reads_of e values ≡ rows_read reads) }
    ensures made { (e : ExprValue) (reads : List ReadValue) (code : ℕ) (values : ℕ → CodeValue) →
        rows_read reads ≡ reads_of e values →
        ((k : ℕ) (x : ReadValue) → slice_get reads k ≡ Some x → values x.row ≡ unpacked x.code) →
        value_of e values ≡ unpacked code → IsRight e reads code }
{}

/// Where the rows are good, each clean row has its value by plan evaluation over the sources.
pub fn clean_rows_have_their_value()
    ensures { (nodes : List NodeValue) (rows : List OpenedValue) → ReadsBack nodes → IsGood nodes rows →
        (i : ℕ) (row : OpenedValue) → slice_get rows i ≡ Some row → is_clean row.colour ≡ true →
        plan_value nodes (value_in rows) i ≡ unpacked row.code }
{}

/// Worked rows: a body of one read is right for the value that was read, and not for another one, nor
/// without the read, nor for an expression that reads nothing.
pub fn right_bodies_are_told_apart()
    ensures right { IsRight (row_alone 2) (five_at 2 ∷ []) 21 }
    ensures other_value { ¬ IsRight (row_alone 2) (five_at 2 ∷ []) 25 }
    ensures unread { ¬ IsRight (row_alone 2) [] 0 }
    ensures unasked { ¬ IsRight no_row (five_at 2 ∷ []) 0 }
{}

/// Worked rows: a first run is caused where the node never ran, and any other by a recorded source that
/// was shown to have another version.
pub fn causes_are_told_apart()
    ensures first { IsCaused [] None IsAtNine Cause.First }
    ensures again { ¬ IsCaused [] (Some Cause.First) IsAtNine Cause.First }
    ensures changed { IsCaused (five_at 2 ∷ []) (Some Cause.First) IsAtNine (Cause.Changed 2 4 9) }
    ensures unshown { ¬ IsCaused (five_at 2 ∷ []) (Some Cause.First) IsAtNine (Cause.Changed 2 4 8) }
    ensures unrecorded { ¬ IsCaused (five_at 2 ∷ []) (Some Cause.First) IsAtNine (Cause.Changed 3 4 9) }
    ensures at_another { ¬ IsCaused (five_at 2 ∷ []) (Some Cause.First) IsAtNine (Cause.Changed 2 5 9) }
{}

/// Worked rows: a signal and a memo that never ran are good, and a clean memo that read the signal at
/// an older version is not.
pub fn good_rows_are_told_apart()
    ensures fresh { (signal memo : OpenedValue) →
        IsPacked signal.code → signal.colour ≡ Colour.Clean →
        IsPacked memo.code → memo.colour ≡ Colour.Dirty →
        memo.body.cause ≡ None → memo.body.reads.list ≡ [] →
        IsGood (signal_in 0 ∷ reader Kind.Memo 0 ∷ []) (signal ∷ memo ∷ []) }
    ensures stale { (signal memo : OpenedValue) →
        memo.colour ≡ Colour.Clean → memo.body.reads.list ≡ five_at 0 ∷ [] → signal.version ≡ 5 →
        ¬ IsGood (signal_in 0 ∷ reader Kind.Memo 0 ∷ []) (signal ∷ memo ∷ []) }
{}

/// The members of a set from a number on are those that are in, from there on.
pub fn members_are_those_that_are_in()
    ensures all { (set : List Bool) (from number : ℕ) →
        Contains (members_from set from) number ↔ ((from ≤ number) × IsIn set number) }
    ensures in_order { members_from (true ∷ false ∷ true ∷ true ∷ []) 1 ≡ 2 ∷ 3 ∷ [] }
{}
