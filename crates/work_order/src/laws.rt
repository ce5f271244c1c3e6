//! What the order of work comes to, point by point. Each law is the contract of a function that does
//! nothing.
ghost use Rattle.std.specs.Prelude.{◌≡◌, ◌≢◌, ◌↔◌, ◌+◌, ◌≤◌, ◌<◌, ℕ, List, Some, None, Option, true, false, length, slice_get, take, Contains};
ghost use Rattle.values.specs.declared.code.Code.{Code as CodeValue};
ghost use Rattle.values.specs.declared.expr.Expr.{Expr as ExprValue};
ghost use Rattle.values.specs.declared.tried.Tried.{Tried as TriedValue};
ghost use Rattle.values.specs.Evaluation.{value_of, reads_of};
ghost use Rattle.values.specs.Attempt.{known_value, known_by, tried_of};
ghost use Rattle.sources.specs.declared.body.Read.{Read as ReadValue};
ghost use Rattle.sources.specs.declared.body.Cause.{Cause as CauseValue};
ghost use Rattle.sources.specs.declared.colour.Colour.{Colour as ColourValue};
ghost use Rattle.work_order.specs.declared.frame.Frame.{Frame as FrameValue};
ghost use Rattle.work_order.specs.Order.{next_of, run_of, first_frame, cleared_frame, compared_frame, is_run};

use crate::frame::Due;
use crate::order::Next;
use sources::Colour;

/// A clean node is answered.
pub fn clean_nodes_are_answered()
    ensures { (tried : TriedValue) (recorded : List ReadValue) (f : FrameValue) → f.cleared ≡ false →
        next_of tried Colour.Clean recorded f ≡ Next.Answer }
{}

/// A dirty node's recorded sources are compared in order, as they are. Where none is left and none
/// differs the node is cleared, and goes on as a check from the first one.
pub fn dirty_nodes_compare_in_order()
    ensures compares { (tried : TriedValue) (recorded : List ReadValue) (f : FrameValue) →
        f.cleared ≡ false → f.due ≡ Due.Not → f.at < length recorded →
        next_of tried Colour.Dirty recorded f ≡ Next.Compare f.at }
    ensures goes_on { (f : FrameValue) (version : ℕ) →
        compared_frame f version version ≡ record f { at = f.at + 1 } }
    ensures ends { (tried : TriedValue) (recorded : List ReadValue) (f : FrameValue) →
        f.cleared ≡ false → f.due ≡ Due.Not → length recorded ≤ f.at →
        next_of tried Colour.Dirty recorded f ≡ Next.Clear }
    ensures as_check { (f : FrameValue) → f.due ≡ Due.Not →
        cleared_frame f ≡ record f { at = 0; cleared = true } }
{}

/// A check brings its recorded sources up to date in order. It stops at the first that differs: what
/// follows is a run. Where none differs the node is kept.
pub fn checks_stop_at_the_first_that_differs()
    ensures in_order { (tried : TriedValue) (colour : ColourValue) (recorded : List ReadValue) (f : FrameValue) (x : ReadValue) →
        f.cleared ≡ true → f.due ≡ Due.Not → slice_get recorded f.at ≡ Some x →
        next_of tried colour recorded f ≡ Next.Check x.row }
    ensures stops { (tried : TriedValue) (colour : ColourValue) (recorded : List ReadValue) (f : FrameValue) (old new : ℕ) →
        f.cleared ≡ true → old ≢ new →
        next_of tried colour recorded (compared_frame f old new) ≡ run_of tried }
    ensures keeps { (tried : TriedValue) (colour : ColourValue) (recorded : List ReadValue) (f : FrameValue) →
        f.cleared ≡ true → f.due ≡ Due.Not → slice_get recorded f.at ≡ None →
        next_of tried colour recorded f ≡ Next.Keep }
{}

/// A run is due exactly where the node never ran or a recorded source was seen to have another version,
/// and a cleared node runs exactly where a run is due.
pub fn nodes_run_exactly_where_a_run_is_due()
    ensures first { (node : ℕ) (cause : Option CauseValue) → ((first_frame node cause).due ≢ Due.Not) ↔ (cause ≡ None) }
    ensures differs { (f : FrameValue) (old new : ℕ) → f.due ≡ Due.Not → ((compared_frame f old new).due ≢ Due.Not) ↔ (old ≢ new) }
    ensures stays { (f : FrameValue) → (cleared_frame f).due ≡ f.due }
    ensures runs { (tried : TriedValue) (colour : ColourValue) (recorded : List ReadValue) (f : FrameValue) →
        is_run f ≡ true → next_of tried colour recorded f ≡ run_of tried }
    ensures no_read { (tried : TriedValue) (colour : ColourValue) (recorded : List ReadValue) (f : FrameValue) (row : ℕ) →
        is_run f ≡ false → next_of tried colour recorded f ≢ Next.Read row }
    ensures no_finish { (tried : TriedValue) (colour : ColourValue) (recorded : List ReadValue) (f : FrameValue) (code : CodeValue) →
        is_run f ≡ false → next_of tried colour recorded f ≢ Next.Finish code }
{}

/// A run reads each source once, in the order of evaluation, and then has its value: a row that is read
/// next is not known yet, and with the first n rows known that are read it is the one at n.
pub fn runs_read_each_source_once()
    ensures unread { (e : ExprValue) (known : List (ℕ × CodeValue)) (values : ℕ → CodeValue) (row : ℕ) →
        run_of (tried_of e known values) ≡ Next.Read row → known_value known row ≡ None }
    ensures in_order { (e : ExprValue) (values : ℕ → CodeValue) (n row : ℕ) → slice_get (reads_of e values) n ≡ Some row →
        run_of (tried_of e (known_by values (take n (reads_of e values))) values) ≡ Next.Read row }
    ensures ends { (e : ExprValue) (values : ℕ → CodeValue) (n : ℕ) → slice_get (reads_of e values) n ≡ None →
        run_of (tried_of e (known_by values (take n (reads_of e values))) values) ≡ Next.Finish (value_of e values) }
{}
