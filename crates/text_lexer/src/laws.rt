//! What follows from the definitions alone.

ghost use Rattle.std.specs.Prelude.{◌≡◌, ℕ, ◌≤◌, true, false, List, [], ◌∷◌, length, map, replicate, Some, None, codes};
ghost use Rattle.text_lexer.specs.Computed.{next_of, tokens_of, kind_and_place, touches_before};
ghost use Rattle.text_lexer.specs.Cursor.{Cursor, start_of};
ghost use Rattle.text_lexer.specs.Lexing.{HasOneNext, HasOneBad, HasNeverBoth, HasSomeNext, HasOneTokenList};
ghost use Rattle.text_lexer.specs.Tokens.{Lexed, IsGiven, IsTokenList};

use crate::token::{Mark, Reserved, TokenKind};

/// What comes next is one token or one bad token, and never both and never neither.
pub fn one_next()
    ensures one_token { (cursor : Cursor) → HasOneNext cursor }
    ensures one_bad { (cursor : Cursor) → HasOneBad cursor }
    ensures never_both { (cursor : Cursor) → HasNeverBoth cursor }
    ensures never_neither { (cursor : Cursor) → HasSomeNext cursor }
{}

/// A text has one token list.
pub fn one_token_list()
    ensures { (cursor : Cursor) → HasOneTokenList cursor }
{}

/// What is computed is what the relations say: what comes next, and all tokens of a text. And a cursor has
/// one list of all tokens.
pub fn tokens_compute()
    ensures next { (cursor : Cursor) → cursor.at ≤ length cursor.text → IsGiven cursor (next_of cursor) }
    ensures all { (text : List ℕ) (first_line : ℕ) → IsTokenList (start_of text first_line) (tokens_of text first_line) }
    ensures one { (cursor : Cursor) (xs ys : List Lexed) → IsTokenList cursor xs → IsTokenList cursor ys → xs ≡ ys }
{}

/// Worked rows: the kind of each token, or none where it is bad, with its line and column.
pub fn worked_tokens()
    ensures nothing { map kind_and_place (tokens_of (codes "") 1) ≡ (Some TokenKind.End, 1, 1) ∷ [] }
    ensures tags { map kind_and_place (tokens_of (codes "component 1 <p>{a}</p>") 1) ≡ (Some (TokenKind.Reserved Reserved.Component), 1, 1) ∷ (Some TokenKind.Number, 1, 11) ∷ (Some (TokenKind.Mark Mark.Less), 1, 13) ∷ (Some TokenKind.Name, 1, 14) ∷ (Some (TokenKind.Mark Mark.Greater), 1, 15) ∷ (Some (TokenKind.Mark Mark.OpenBrace), 1, 16) ∷ (Some TokenKind.Name, 1, 17) ∷ (Some (TokenKind.Mark Mark.CloseBrace), 1, 18) ∷ (Some (TokenKind.Mark Mark.ClosingTag), 1, 19) ∷ (Some TokenKind.Name, 1, 21) ∷ (Some (TokenKind.Mark Mark.Greater), 1, 22) ∷ (Some TokenKind.End, 1, 23) ∷ [] }
    ensures longest_mark { map kind_and_place (tokens_of (codes "</===>=") 1) ≡ (Some (TokenKind.Mark Mark.ClosingTag), 1, 1) ∷ (Some (TokenKind.Mark Mark.EqualTo), 1, 3) ∷ (Some (TokenKind.Mark Mark.Arrow), 1, 5) ∷ (Some (TokenKind.Mark Mark.Assign), 1, 7) ∷ (Some TokenKind.End, 1, 8) ∷ [] }
    ensures comment { map kind_and_place (tokens_of (codes "a # \"b\n\tc") 5) ≡ (Some TokenKind.Name, 5, 1) ∷ (Some TokenKind.Name, 6, 2) ∷ (Some TokenKind.End, 6, 3) ∷ [] }
    ensures text { map kind_and_place (tokens_of (codes "\"#\\\"b\" c") 1) ≡ (Some TokenKind.Text, 1, 1) ∷ (Some TokenKind.Name, 1, 8) ∷ (Some TokenKind.End, 1, 9) ∷ [] }
    ensures text_not_closed { map kind_and_place (tokens_of (codes "x\n \"a b") 1) ≡ (Some TokenKind.Name, 1, 1) ∷ (None, 2, 2) ∷ [] }
    ensures leading_zero { map kind_and_place (tokens_of (codes "0 007 a") 1) ≡ (Some TokenKind.Number, 1, 1) ∷ (None, 1, 3) ∷ [] }
    ensures byte_of_no_token { map kind_and_place (tokens_of (codes "if$") 1) ≡ (Some (TokenKind.Reserved Reserved.If), 1, 1) ∷ (None, 1, 3) ∷ [] }
    ensures longest_name { map kind_and_place (tokens_of (replicate 64 97) 1) ≡ (Some TokenKind.Name, 1, 1) ∷ (Some TokenKind.End, 1, 65) ∷ [] }
    ensures longer_word { map kind_and_place (tokens_of (replicate 65 97) 1) ≡ (None, 1, 1) ∷ [] }
    ensures touches { map touches_before (tokens_of (codes "a.b (c") 1) ≡ false ∷ true ∷ true ∷ false ∷ true ∷ true ∷ [] }
{}
