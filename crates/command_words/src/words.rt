//! From the words to the settings.

ghost use Rattle.std.specs.Prelude.{◌≡◌, ◌⊎◌, ℕ, IfOk, codes};
ghost use Rattle.std.specs.List.{list_any};
ghost use Rattle.std.specs.String.{string_bytes};
ghost use Rattle.clap.specs.Words.{first_value, found_of};
ghost use Rattle.command_words.specs.Clap as spec;
ghost use Rattle.command_words.specs.Words.{IsRounds, StandFor, texts_of};
ghost use Rattle.command_words.specs.declared.error.WordsError.{WordsError};
ghost use Rattle.command_words.specs.declared.settings.Settings.{Settings};

use crate::error::WordsError;
use crate::matches::matches_of;
use crate::settings::Settings;
use clap::ArgMatches;
use std::alloc::Global;

/// The most rounds that may be asked for.
const MOST_ROUNDS: u32 = 1000;

/// Whether a word is one of short flags, other than `-a`. `clap` takes several flags in one word; the
/// command has one flag, and a word of several would name it twice.
fn is_other_flag(word: &String) -> bool
    ensures { result ≡ spec.is_other_flag (string_bytes word.now) }
{
    match word.as_bytes() {
        b"-a" => false,
        [b'-', b'-', ..] => false,
        [b'-', _, ..] => true,
        _ => false,
    }
}

fn has_other_flag(words: &[String]) -> bool
    ensures { result ≡ list_any (λ word. spec.is_other_flag (string_bytes word)) words.now }
{
    words.iter().any(|word| is_other_flag(word))
}

/// The number of rounds that a text is, in plain decimal.
fn rounds_in(alloc: Global, text: &str) -> Result<u32, WordsError>
    ensures number { IfOk result (IsRounds (Some text.now)) }
    ensures bad { result ≡ Err WordsError.BadWords → (n : ℕ) → IsRounds (Some text.now) n → ⊥ }
{
    match text.parse::<u32>() {
        Ok(rounds) if 1 <= rounds && rounds <= MOST_ROUNDS => {
            let plain = format!(in alloc; "{rounds}")?;
            if plain.as_str() == text {
                Ok(rounds)
            } else {
                Err(WordsError::BadWords)
            }
        }
        _ => Err(WordsError::BadWords),
    }
}

/// The number of rounds that the matches give.
fn rounds_of(alloc: Global, matches: &ArgMatches<'_>) -> Result<u32, WordsError>
    ensures number { IfOk result (IsRounds (first_value (found_of matches.now) (codes "rounds"))) }
    ensures bad { result ≡ Err WordsError.BadWords → (n : ℕ) → IsRounds (first_value (found_of matches.now) (codes "rounds")) n → ⊥ }
{
    match matches.get_str("rounds") {
        Some(text) => rounds_in(alloc, text),
        None => Ok(1),
    }
}

/// The settings that the words stand for.
fn settings_of(alloc: Global, words: &[String]) -> Result<Settings, WordsError>
    ensures settings { IfOk result (StandFor (texts_of words.now)) }
    ensures bad { result ≡ Err WordsError.BadWords → (settings : Settings) → StandFor (texts_of words.now) settings → ⊥ }
{
    if has_other_flag(words) {
        return Err(WordsError::BadWords);
    }
    let matches = matches_of(alloc, words)?;
    let rounds = rounds_of(alloc, &matches)?;
    Ok(Settings {
        answers: matches.get_flag("answers"),
        rounds,
    })
}

/// Reads the words behind the program's name: `[-a] [--rounds N]`, the number from 1 to 1,000 and 1 where
/// none is given (`docs/LANGUAGE.md`).
pub fn read_words(alloc: Global, words: &[String]) -> Result<Settings, WordsError>
    // The words stand for the settings.
    ensures settings { IfOk result (StandFor (texts_of words.now)) }
    // The words stand for no settings.
    ensures bad { result ≡ Err WordsError.BadWords → (settings : Settings) → StandFor (texts_of words.now) settings → ⊥ }
    // Where they stand for some, these are the answer, and where they stand for none they are refused,
    // unless memory could not be had.
    ensures taken { (settings : Settings) → StandFor (texts_of words.now) settings → (result ≡ Ok settings) ⊎ (result ≡ Err WordsError.NoMemory) }
    ensures refused { ((settings : Settings) → StandFor (texts_of words.now) settings → ⊥) → (result ≡ Err WordsError.BadWords) ⊎ (result ≡ Err WordsError.NoMemory) }
{
    settings_of(alloc, words)
}
