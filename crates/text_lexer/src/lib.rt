//! The tokens of a component or script text, with their places.
//!
//! Space, tab, carriage return and line feed part tokens, and so does a comment, which goes from a `#` to
//! the end of its line. The longest run of bytes that has the form of a token is taken whole, and is a bad
//! token where it is none: `01` is no number behind another, and a word of 65 bytes is no name. A bad token
//! is at its first byte, so a text that is not closed is bad at its opening quotation mark.
//!
//! Lines end at a line feed alone. A column counts bytes.
#![tactic(auto)]

mod bytes;
mod laws;
mod lexeme;
mod lexer;
mod meaning;
mod token;

pub use laws::{one_next, one_token_list, tokens_compute, worked_tokens};
pub use lexer::Lexer;
pub use token::{BadToken, Mark, Reserved, Token, TokenKind};

#[cfg(test)]
mod tests;
