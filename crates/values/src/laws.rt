//! Laws of the definitions that the crate's contracts cite. All but `repacked` are contracts of
//! functions that do nothing.
ghost use Rattle.std.specs.Prelude.{◌≡◌, ◌⊎◌, ◌↔◌, ◌<◌, ◌≤◌, ℕ, List, [], ◌∷◌, Some, true, false, pos, negsuc, take, slice_get, length, Contains};
ghost use Rattle.values.specs.declared.code.Code.{Code as CodeValue};
ghost use Rattle.values.specs.declared.expr.Expr.{Expr as ExprValue};
ghost use Rattle.values.specs.declared.plan.Plan.{Plan as PlanValue};
ghost use Rattle.values.specs.declared.plan.PlanNode.{PlanNode as NodeValue};
ghost use Rattle.values.specs.Evaluation.{truth, combined, value_of, reads_of};
ghost use Rattle.values.specs.Attempt.{Agrees, known_by, answer, tried_of};
ghost use Rattle.values.specs.Packing.{packed, unpacked, IsValue, IsPacked};
ghost use Rattle.values.specs.Plan.{rows_in, names_of, IsLawful};
ghost use Rattle.values.specs.PlanRows.{plan_of, signal_in, reader, doubler, root, inside};
ghost use Rattle.values.specs.PlanValues.{is_derived, plan_values, plan_value, ReadsBack, SolvesPlan, HaveSameSources};
ghost use Rattle.values.specs.Texts.{IsTable};

use crate::code::{Code, Op};
use crate::plan::Kind;

/// Evaluation depends on the rows that it reads alone.
pub fn evaluation_is_by_reads()
    ensures { (e : ExprValue) (s t : ℕ → CodeValue) →
        ((row : ℕ) → Contains (reads_of e s) row → s row ≡ t row) →
        (value_of e s ≡ value_of e t) × (reads_of e s ≡ reads_of e t) }
{}

/// It reads no row that the expression does not name.
pub fn reads_are_named()
    ensures { (e : ExprValue) (s : ℕ → CodeValue) (row : ℕ) →
        Contains (reads_of e s) row → Contains (rows_in e) row }
{}

/// It reads no more rows than the distinct ones that the expression names.
pub fn reads_fit_the_names()
    ensures { (e : ExprValue) (s : ℕ → CodeValue) → length (reads_of e s) ≤ length (names_of e) }
{}

/// An attempt that knows the first n rows that are read needs the row at n, and with all of them
/// known it has the value. So one that is asked again after each answer reads the rows in order and
/// ends with the value.
pub fn attempts_end_with_the_value()
    ensures agrees { (s : ℕ → CodeValue) (rows : List ℕ) → Agrees s (known_by s rows) }
    ensures in_order { (e : ExprValue) (s : ℕ → CodeValue) (n : ℕ) →
        tried_of e (known_by s (take n (reads_of e s))) s
        ≡ answer (slice_get (reads_of e s) n) (value_of e s) }
{}

/// Three values are false.
pub fn three_values_are_false()
    ensures { (code : CodeValue) →
        (truth code ≡ false)
        ↔ ((code ≡ CodeValue.Empty) ⊎ (code ≡ CodeValue.Number (pos 0)) ⊎ (code ≡ CodeValue.Word 0)) }
{}

/// No two values pack to one word.
pub fn packing_tells_values_apart()
    ensures { (a b : CodeValue) → IsValue a → IsValue b → packed a ≡ packed b → a ≡ b }
{}

/// What was packed comes back, in definitions too.
pub fn packing_is_undone()
    ensures value { (code : CodeValue) → IsValue code → unpacked (packed code) ≡ code }
    ensures word { (word : ℕ) → IsPacked word → packed (unpacked word) ≡ word }
{}

/// What was packed comes back.
pub fn repacked(code: Code) -> Option<Code>
    ensures { result ≡ Some code }
{
    Code::unpack(code.pack())
}

/// In a table of texts equal numbers mean equal texts, and no text has two.
pub fn texts_are_told_apart()
    ensures { (texts : List (List ℕ)) → IsTable texts → (i j : ℕ) (text : List ℕ) →
        slice_get texts i ≡ Some text → slice_get texts j ≡ Some text → i ≡ j }
{}

/// Worked rows of arithmetic: a sum held to the end, -7 / 2 and -7 % 2, and the least number by -1.
/// `negsuc n` is -(n + 1).
pub fn arithmetic_is_held_to_the_ends()
    ensures sum { combined Op.Add (Code.Number (pos 2147483647)) (Code.Number (pos 1))
        ≡ Code.Number (pos 2147483647) }
    ensures quotient { combined Op.Div (Code.Number (negsuc 6)) (Code.Number (pos 2))
        ≡ Code.Number (negsuc 2) }
    ensures remainder { combined Op.Rem (Code.Number (negsuc 6)) (Code.Number (pos 2))
        ≡ Code.Number (negsuc 0) }
    ensures quotient_held { combined Op.Div (Code.Number (negsuc 2147483647)) (Code.Number (negsuc 0))
        ≡ Code.Number (pos 2147483647) }
{}

/// Worked rows of plans: a signal of an inner owner, a memo and an effect are lawful. A plan with
/// no owner is not, nor is a node that reads itself or an effect, one of an owner that is not there,
/// an owner with no parent beside owner 0, or one inside itself.
pub fn lawful_plans_are_told_apart()
    ensures lawful { IsLawful (plan_of
        (signal_in 1 ∷ reader Kind.Memo 0 ∷ reader Kind.Effect 1 ∷ [])
        (root ∷ inside 0 ∷ [])) }
    ensures no_owner { ¬ IsLawful (plan_of [] []) }
    ensures reads_itself { ¬ IsLawful (plan_of (reader Kind.Memo 0 ∷ []) (root ∷ [])) }
    ensures reads_effect { ¬ IsLawful (plan_of
        (signal_in 0 ∷ reader Kind.Effect 0 ∷ reader Kind.Memo 1 ∷ [])
        (root ∷ [])) }
    ensures stranger { ¬ IsLawful (plan_of (signal_in 1 ∷ []) (root ∷ [])) }
    ensures second_root { ¬ IsLawful (plan_of [] (root ∷ root ∷ [])) }
    ensures own_parent { ¬ IsLawful (plan_of [] (root ∷ inside 1 ∷ [])) }
{}

/// Plan evaluation solves the plan's equations, and nothing else does. The plans that it is told of
/// are the lawful ones, among others.
pub fn plans_have_one_solution()
    ensures lawful { (plan : PlanValue) → IsLawful plan → ReadsBack plan.nodes }
    ensures solves { (nodes : List NodeValue) (sources : ℕ → CodeValue) → ReadsBack nodes →
        SolvesPlan nodes sources (plan_value nodes sources) }
    ensures alone { (nodes : List NodeValue) (sources values : ℕ → CodeValue) → ReadsBack nodes →
        SolvesPlan nodes sources values → (row : ℕ) → row < length nodes →
        values row ≡ plan_value nodes sources row }
    ensures all_rows { (nodes : List NodeValue) (sources : ℕ → CodeValue) →
        length (plan_values nodes sources) ≡ length nodes }
{}

/// A source has its own value. The value of a derived row is decided by the rows that it reads, all
/// of them before it.
pub fn rows_are_decided_by_their_reads()
    ensures source { (nodes : List NodeValue) (sources : ℕ → CodeValue) → ReadsBack nodes →
        (row : ℕ) (node : NodeValue) → slice_get nodes row ≡ Some node →
        is_derived node.kind ≡ false → plan_value nodes sources row ≡ sources row }
    ensures derived { (nodes : List NodeValue) (sources : ℕ → CodeValue) → ReadsBack nodes →
        (row : ℕ) (node : NodeValue) → slice_get nodes row ≡ Some node →
        is_derived node.kind ≡ true → (values : ℕ → CodeValue) →
        ((q : ℕ) → Contains (reads_of node.expr (plan_value nodes sources)) q → plan_value nodes sources q ≡ values q) →
        plan_value nodes sources row ≡ value_of node.expr values }
    ensures before { (nodes : List NodeValue) → ReadsBack nodes →
        (row : ℕ) (node : NodeValue) → slice_get nodes row ≡ Some node →
        (values : ℕ → CodeValue) (q : ℕ) → Contains (reads_of node.expr values) q → q < row }
{}

/// What is given for derived rows does not count.
pub fn sources_decide_a_plan()
    ensures { (nodes : List NodeValue) (s t : ℕ → CodeValue) → HaveSameSources nodes s t →
        plan_value nodes s ≡ plan_value nodes t }
{}

/// Worked rows of plan evaluation: a signal, a memo that doubles it and an effect that reads the
/// memo, and what stands past the end.
pub fn a_small_plan_is_evaluated()
    ensures { (given : CodeValue) →
        plan_values (signal_in 0 ∷ doubler Kind.Memo 0 ∷ reader Kind.Effect 1 ∷ []) (λ _. given)
        ≡ given ∷ combined Op.Add given given ∷ combined Op.Add given given ∷ [] }
{}
