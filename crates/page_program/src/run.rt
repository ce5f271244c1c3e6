//! The run of the program.

ghost use Rattle.std.specs.Prelude.{◌≡◌, ◌≢◌, ◌≤◌, ◌<◌, ℕ, true, [], Some, None, List, length, IfSome};
ghost use Rattle.std.specs.Bool.{OnTrue};
ghost use Rattle.std.specs.Io.KnownBytes.{Appends};
ghost use Rattle.command_words.specs.declared.settings.Settings.{Settings as SettingsValue};
ghost use Rattle.command_words.specs.Words.{StandFor, texts_of};
ghost use Rattle.component_items.specs.declared.refusal.Place.{Place};
ghost use Rattle.load_meaning.specs.Polls.{enough_rounds};
ghost use Rattle.outside.specs.Bytes.{AppendsPart};
ghost use Rattle.outside.specs.Counts.{Rose, RoseByTogether};
ghost use Rattle.run_items.specs.Journal.{JournalPhase};
ghost use Rattle.run_meaning.specs.Run.{IsRun};
ghost use Rattle.page_program.specs.declared.finish.Outcome.{Outcome};
ghost use Rattle.page_program.specs.Ending.{text_of, ending_account, account_of};
ghost use Rattle.page_program.specs.Outcome.{status_of, own_line, is_before_run};
ghost use Rattle.page_program.specs.Run.{Reading, Polling, RefusedAsOwed, Input, Means, IsBad, IsBuilt, GivesEnd, GivesInput, GivesTooMany, Request, EndsAsPage, EndsAsWaiting, IsDue, IsOr, IsReadOr, IsRunOr, StandForNone, StandForSome, component_of};
ghost use Rattle.values.specs.declared.limits.TheConstants.{MOST_INPUT_BYTES};

use crate::answer::answer;
use crate::ending::{Ending, Text, USAGE};
use crate::finish::{Finish, Outcome, status_of as status};
use command_words::{Settings, WordsError, read_words};
use html_out::put;
use outside::{Gate, Loader, ReadError, Sink, Source, read_up_to};
use std::alloc::Global;
use values::limits::MOST_INPUT_BYTES;

/// What the source's bytes come to, by the settings.
fn prepared_by<S: Source, L: Loader, G: Gate>(
    alloc: Global,
    settings: Settings,
    source: &mut S,
    loader: &mut L,
    gate: &G,
) -> Ending
    requires rounds { 1 ≤ settings.rounds }
    ensures { let reading : Reading = record { held = S.held source.old; left = S.held source.new; faults = S.faults source.old; faults_after = S.faults source.new } in
        let polling : Polling = record { is_prompt = L.is_prompt; counts = record { faults = L.faults loader.old; faults_after = L.faults loader.new; not_yets = L.not_yets loader.old; not_yets_after = L.not_yets loader.new } } in
        (words : List (List ℕ)) → StandFor words settings → IsDue words reading polling result.outcome (ending_account result) (text_of result) }
{
    let bytes = match read_up_to(alloc, source, MOST_INPUT_BYTES) {
        Ok(bytes) => bytes,
        Err(ReadError::Failed) => {
            return Ending::not_run(alloc, Outcome::ReadFault, Text::Line(b"read fault\n"));
        }
        Err(ReadError::NoMemory) => return Ending::no_memory(alloc),
    };
    if bytes.len() > MOST_INPUT_BYTES {
        return Ending::not_run(alloc, Outcome::TooLong, Text::Line(b"too long\n"));
    }
    answer(alloc, settings, &bytes, loader, gate)
}

/// What words and source come to. All memory that the output needs is taken here.
fn prepared<S: Source, L: Loader, G: Gate>(
    alloc: Global,
    words: &[String],
    source: &mut S,
    loader: &mut L,
    gate: &G,
) -> Ending
    ensures due { let reading : Reading = record { held = S.held source.old; left = S.held source.new; faults = S.faults source.old; faults_after = S.faults source.new } in
        let polling : Polling = record { is_prompt = L.is_prompt; counts = record { faults = L.faults loader.old; faults_after = L.faults loader.new; not_yets = L.not_yets loader.old; not_yets_after = L.not_yets loader.new } } in
        IsDue (texts_of words.now) reading polling result.outcome (ending_account result) (text_of result) }
    ensures unread { result.outcome ≡ Outcome.BadWords → source.new ≡ source.old }
{
    match read_words(alloc, words) {
        Ok(settings) => prepared_by(alloc, settings, source, loader, gate),
        Err(WordsError::BadWords) => {
            Ending::not_run(alloc, Outcome::BadWords, Text::Line(USAGE))
        }
        Err(WordsError::NoMemory) => Ending::no_memory(alloc),
    }
}

/// Writes the text, which ends the run.
fn written<K: Sink>(sink: &mut K, ending: Ending) -> Finish
    ensures status { result.status ≡ status_of result.outcome }
    ensures account { account_of result ≡ ending_account ending }
    ensures whole { result.outcome ≢ Outcome.WriteFault → (result.outcome ≡ ending.outcome) × Appends (K.taken sink.old) (K.taken sink.new) (text_of ending) }
    ensures write_fault { result.outcome ≡ Outcome.WriteFault → ending.outcome ≢ Outcome.WriteFault → Rose (K.faults sink.old) (K.faults sink.new) × AppendsPart (K.taken sink.old) (K.taken sink.new) (text_of ending) }
{
    let put = put(sink, ending.text.bytes());
    let Ending {
        outcome,
        journal,
        answers,
        ..
    } = ending;
    let outcome = match put {
        Ok(()) => outcome,
        Err(_) => Outcome::WriteFault,
    };
    Finish {
        status: status(&outcome),
        outcome,
        journal,
        answers,
    }
}

/// Reads an input from the source to its end, runs its script, and writes its page to the sink (`docs/SEMANTICS.md`).
/// The loader is asked by settlings, and `gate` is stepped through before each operation of a lane.
///
/// The words come first, then the source, then the input, then the run, then the text, and the first of these that
/// fails gives the outcome. Each outcome comes exactly where its clauses say, but that a failed write may take its
/// place, want of memory too, and behind the words a failed read. What is said of the source's bytes is said
/// of a source that tells them.
pub fn page<R, S: Source, K: Sink, L: Loader, G: Gate>(
    _rt: &R,
    alloc: Global,
    words: &[String],
    source: &mut S,
    sink: &mut K,
    loader: &mut L,
    gate: &G,
) -> Finish
    ensures status { result.status ≡ status_of result.outcome }

    // The words stand for no settings. The source was not read.
    ensures bad_words { result.outcome ≡ Outcome.BadWords → StandForNone (texts_of words.now) × (source.new ≡ source.old) }
    ensures words_refused { StandForNone (texts_of words.now) → IsOr Outcome.BadWords result.outcome }

    // The source gave one byte more than an input may have.
    ensures too_long { let reading : Reading = record { held = S.held source.old; left = S.held source.new; faults = S.faults source.old; faults_after = S.faults source.new } in
        result.outcome ≡ Outcome.TooLong → GivesTooMany reading }
    ensures longer_refused { StandForSome (texts_of words.now) → IfSome (S.held source.old) (λ bytes.
        MOST_INPUT_BYTES < length bytes → IsReadOr Outcome.TooLong result.outcome) }

    // The source gave its end, and its bytes are no input: the number of the reason, and the place.
    ensures bad_text { let reading : Reading = record { held = S.held source.old; left = S.held source.new; faults = S.faults source.old; faults_after = S.faults source.new } in
        (kind : ℕ) (place : Place) → result.outcome ≡ Outcome.BadText kind place → GivesEnd reading (λ bytes. IsBad bytes kind place) }
    ensures text_refused { StandForSome (texts_of words.now) → IfSome (S.held source.old) (λ bytes. length bytes ≤ MOST_INPUT_BYTES →
        (kind : ℕ) (place : Place) → IsBad bytes kind place → IsReadOr (Outcome.BadText kind place) result.outcome) }

    // The source gave its end, its bytes are an input, and that has a form that is not run yet.
    ensures unbuilt { let reading : Reading = record { held = S.held source.old; left = S.held source.new; faults = S.faults source.old; faults_after = S.faults source.new } in
        result.outcome ≡ Outcome.Unbuilt → (input : Input) × GivesInput reading input × (¬ IsBuilt input) }
    ensures input_unbuilt { StandForSome (texts_of words.now) → IfSome (S.held source.old) (λ bytes. length bytes ≤ MOST_INPUT_BYTES →
        (input : Input) → Means bytes input → ¬ IsBuilt input → IsReadOr Outcome.Unbuilt result.outcome) }

    // The source gave its end, its bytes are an input, and that was run. Nothing is pending behind its last settling.
    // The sink has taken exactly the report, where the words ask for it, and the page of the last state by plain
    // evaluation.
    ensures page { let reading : Reading = record { held = S.held source.old; left = S.held source.new; faults = S.faults source.old; faults_after = S.faults source.new } in
        let polling : Polling = record { is_prompt = L.is_prompt; counts = record { faults = L.faults loader.old; faults_after = L.faults loader.new; not_yets = L.not_yets loader.old; not_yets_after = L.not_yets loader.new } } in
        result.outcome ≡ Outcome.Page → (request : Request (texts_of words.now) reading) × (text : List ℕ)
        × EndsAsPage request.input request.settings polling (account_of result) text × Appends (K.taken sink.old) (K.taken sink.new) text }

    // The same, but exactly these loads are pending behind the last settling, and each has its line in the place of
    // the page. So the loader refused in this call, and where it goes by the attempts alone, the rounds were too few.
    ensures waiting { let reading : Reading = record { held = S.held source.old; left = S.held source.new; faults = S.faults source.old; faults_after = S.faults source.new } in
        let polling : Polling = record { is_prompt = L.is_prompt; counts = record { faults = L.faults loader.old; faults_after = L.faults loader.new; not_yets = L.not_yets loader.old; not_yets_after = L.not_yets loader.new } } in
        (loads : List ℕ) → result.outcome ≡ Outcome.Waiting loads → (request : Request (texts_of words.now) reading) × (text : List ℕ)
        × EndsAsWaiting request.input request.settings polling loads (account_of result) text × Appends (K.taken sink.old) (K.taken sink.new) text }
    ensures waited { (loads : List ℕ) → result.outcome ≡ Outcome.Waiting loads → RoseByTogether 1 (L.faults loader.old) (L.faults loader.new) (L.not_yets loader.old) (L.not_yets loader.new) }
    ensures input_written { StandForSome (texts_of words.now) → IfSome (S.held source.old) (λ bytes. length bytes ≤ MOST_INPUT_BYTES →
        (input : Input) → Means bytes input → IsBuilt input → IsRunOr result.outcome) }

    // A loader that goes by the attempts alone, and rounds that are enough for all loads: nothing stays pending.
    ensures prompt { OnTrue L.is_prompt ((settings : SettingsValue) → StandFor (texts_of words.now) settings → IfSome (S.held source.old) (λ bytes. length bytes ≤ MOST_INPUT_BYTES →
        (input : Input) → Means bytes input → IsBuilt input → enough_rounds (component_of input) ≤ settings.rounds → IsReadOr Outcome.Page result.outcome)) }

    // There is a journal only where the input was run to its last settling. It is that run's, and so are the answers.
    ensures journal { let reading : Reading = record { held = S.held source.old; left = S.held source.new; faults = S.faults source.old; faults_after = S.faults source.new } in
        (journal : List JournalPhase) → (account_of result).journal ≡ Some journal → (request : Request (texts_of words.now) reading)
        × IsRun (component_of request.input) request.input.script journal result.answers }
    ensures no_journal { is_before_run result.outcome ≡ true → (account_of result).journal ≡ None }
    ensures no_answers { (account_of result).journal ≡ None → result.answers ≡ [] }

    // Where there is a journal, the loader refused as often as the run's settlings owe: for each behind which loads stayed
    // pending, in each round but the last, and for each of these loads.
    ensures loader_refused { let reading : Reading = record { held = S.held source.old; left = S.held source.new; faults = S.faults source.old; faults_after = S.faults source.new } in
        let polling : Polling = record { is_prompt = L.is_prompt; counts = record { faults = L.faults loader.old; faults_after = L.faults loader.new; not_yets = L.not_yets loader.old; not_yets_after = L.not_yets loader.new } } in
        (journal : List JournalPhase) → (account_of result).journal ≡ Some journal → (request : Request (texts_of words.now) reading)
        × (run : IsRun (component_of request.input) request.input.script journal result.answers) × RefusedAsOwed request.input request.settings.rounds polling.counts journal result.answers run }

    // A read failed in this call.
    ensures read_fault { result.outcome ≡ Outcome.ReadFault → Rose (S.faults source.old) (S.faults source.new) }

    // An outcome that has a line of its own writes that, and nothing else.
    ensures own_line { IfSome (own_line result.outcome) (λ line. Appends (K.taken sink.old) (K.taken sink.new) line) }

    // A write failed in this call, and a part of the text of the outcome that was due was written.
    ensures write_fault { let reading : Reading = record { held = S.held source.old; left = S.held source.new; faults = S.faults source.old; faults_after = S.faults source.new } in
        let polling : Polling = record { is_prompt = L.is_prompt; counts = record { faults = L.faults loader.old; faults_after = L.faults loader.new; not_yets = L.not_yets loader.old; not_yets_after = L.not_yets loader.new } } in
        result.outcome ≡ Outcome.WriteFault → Rose (K.faults sink.old) (K.faults sink.new)
        × (due : Outcome) × (text : List ℕ) × IsDue (texts_of words.now) reading polling due (account_of result) text × AppendsPart (K.taken sink.old) (K.taken sink.new) text }
{
    let ending = prepared(alloc, words, source, loader, gate);
    written(sink, ending)
}
