//! Laws of the definitions that the crate's contracts cite. Each is the contract of a function that
//! does nothing.
ghost use Rattle.std.specs.Prelude.{◌≡◌, ◌≢◌, ℕ, List, [], ◌∷◌};
ghost use Rattle.std.specs.List.{IsDistinct};
ghost use Rattle.values.specs.Evaluation.{is_same};
ghost use Rattle.values.specs.declared.code.Code.{Code as CodeValue};
ghost use Rattle.store_fields.specs.declared.row.Row.{Row as RowValue};
ghost use Rattle.store_fields.specs.declared.edit.EditOp.{EditOp as OpValue};
ghost use Rattle.store_fields.specs.Edits.{IsStore, keys, edit, rows_after, verdicts_of};
ghost use Rattle.store_fields.specs.WorkedRows.{row_of, insert_of, move_of, remove_of};

use crate::edit::Verdict;

/// An edit that is not made leaves the rows as they are.
pub fn refused_edits_change_nothing()
    ensures { (max width : ℕ) (rows : List RowValue) (op : OpValue) → (edit max width rows op).verdict ≢ Verdict.Done → (edit max width rows op).rows ≡ rows }
{}

/// Edits leave at most as many rows as there may be, and each with its number of fields.
pub fn edits_keep_a_store()
    ensures one { (max width : ℕ) (rows : List RowValue) (op : OpValue) → IsStore max width rows → IsStore max width (edit max width rows op).rows }
    ensures all { (max width : ℕ) (rows : List RowValue) (ops : List OpValue) → IsStore max width rows → IsStore max width (rows_after max width rows ops) }
{}

/// Edits leave the keys of the rows distinct.
pub fn edits_keep_keys_distinct()
    ensures one { (max width : ℕ) (rows : List RowValue) (op : OpValue) → IsDistinct is_same (keys rows) → IsDistinct is_same (keys (edit max width rows op).rows) }
    ensures all { (max width : ℕ) (rows : List RowValue) (ops : List OpValue) → IsDistinct is_same (keys rows) → IsDistinct is_same (keys (rows_after max width rows ops)) }
{}

/// Worked rows: three inserts at the end, a move to the front and a removal; then a store of one row that
/// refuses the same key again, and another key.
pub fn worked_edits()
    ensures list { rows_after 4 1 [] (insert_of 1 7 ∷ insert_of 2 8 ∷ insert_of 3 9 ∷ move_of 3 0 ∷ remove_of 1 ∷ []) ≡ row_of 3 9 ∷ row_of 2 8 ∷ [] }
    ensures made { verdicts_of 4 1 [] (insert_of 1 7 ∷ insert_of 2 8 ∷ insert_of 3 9 ∷ move_of 3 0 ∷ remove_of 1 ∷ remove_of 1 ∷ move_of 4 0 ∷ []) ≡ Verdict.Done ∷ Verdict.Done ∷ Verdict.Done ∷ Verdict.Done ∷ Verdict.Done ∷ Verdict.Absent ∷ Verdict.Absent ∷ [] }
    ensures full { verdicts_of 1 1 [] (insert_of 1 5 ∷ insert_of 1 6 ∷ insert_of 2 7 ∷ []) ≡ Verdict.Done ∷ Verdict.Present ∷ Verdict.AtMax ∷ [] }
    ensures kept { rows_after 1 1 [] (insert_of 1 5 ∷ insert_of 1 6 ∷ insert_of 2 7 ∷ []) ≡ row_of 1 5 ∷ [] }
    ensures wide { verdicts_of 1 2 [] (insert_of 1 5 ∷ []) ≡ Verdict.Absent ∷ [] }
{}
