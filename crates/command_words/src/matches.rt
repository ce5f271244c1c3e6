//! What `clap` reads in the words.

ghost use Rattle.std.specs.Prelude.{◌≡◌, ℕ, Bool, List, Option, IfOk, Err, false};
ghost use Rattle.std.specs.List.{list_any};
ghost use Rattle.clap.specs.Words.{app_of};
ghost use Rattle.command_words.specs.Clap.{Found, IsValueText, is_other_flag, page_command};
ghost use Rattle.command_words.specs.Words.{Give, texts_of};
ghost use Rattle.command_words.specs.declared.error.WordsError.{WordsError};

use crate::error::WordsError;
use clap::error::ErrorKind;
use clap::{Arg, ArgAction, ArgMatches, Command};
use std::alloc::{AllocError, Global};

/// The command, with no flags for help and the version.
fn command<'a>(alloc: Global) -> Result<Command<'a>, AllocError>
    ensures { IfOk result (λ made. app_of made ≡ page_command) }
{
    let answers = Arg::new(alloc, "answers")
        .short('a')
        .action(ArgAction::SetTrue);
    let rounds = Arg::new(alloc, "rounds")
        .long("rounds")
        .action(ArgAction::Set);
    let bare = Command::new(alloc, "page")
        .no_binary_name(true)
        .disable_help_flag(true)
        .disable_version_flag(true);
    bare.arg(answers)?.arg(rounds)
}

/// What the words give, by `clap`.
pub fn matches_of<'a>(alloc: Global, words: &'a [String]) -> Result<ArgMatches<'a>, WordsError>
    requires { list_any is_other_flag (texts_of words.now) ≡ false }
    ensures found { IfOk result (λ m. (with_answers : Bool) × (text : Option (List ℕ)) × Give (texts_of words.entry.now) with_answers text × Found m with_answers text) }
    ensures only { IfOk result (λ m. (with_answers : Bool) (text : Option (List ℕ)) → Give (texts_of words.entry.now) with_answers text → IsValueText text → Found m with_answers text) }
    ensures bad { result ≡ Err WordsError.BadWords → (with_answers : Bool) (text : Option (List ℕ)) → Give (texts_of words.entry.now) with_answers text → IsValueText text → ⊥ }
{
    let command = command(alloc)?;
    match command.try_get_matches_from(words) {
        Ok(matches) => Ok(matches),
        Err(error) => match error.kind() {
            ErrorKind::OutOfMemory => Err(WordsError::NoMemory),
            _ => Err(WordsError::BadWords),
        },
    }
}
