//! What the program answers to an input.

ghost use Rattle.std.specs.Prelude.{◌≡◌, ◌≤◌, ◌++◌, ℕ, [], List, Some, length, IfOk, MatchResult};
ghost use Rattle.std.specs.Bool.{OnTrue};
ghost use Rattle.std.specs.List.{flat_map};
ghost use Rattle.values.specs.declared.limits.TheConstants.{MOST_INPUT_BYTES};
ghost use Rattle.command_words.specs.declared.settings.Settings.{Settings as SettingsValue};
ghost use Rattle.command_words.specs.Words.{StandFor};
ghost use Rattle.load_meaning.specs.Polls.{enough_rounds};
ghost use Rattle.plain_evaluation.specs.Page.{page_of};
ghost use Rattle.script_items.specs.KeptFor.{IsKeptFor};
ghost use Rattle.run_meaning.specs.Ending.{waiting_line};
ghost use Rattle.page_program.specs.Ending.{text_of, ending_account};
ghost use Rattle.page_program.specs.Outcome.{own_line};
ghost use Rattle.page_program.specs.Run.{Reading, Polling, Input as InputValue, GaveAll, GivesEnd, StandForSome, IsBad, IsReadAs, IsRunDue, IsDue, component_of};
ghost use Rattle.script_run.specs.Ran.{IsRanTo};

use crate::ending::{Ending, Text};
use crate::finish::{Outcome, bad_text_line};
use crate::input::{Input, read_input};
use command_words::Settings;
use component_items::{Place, Refusal};
use outside::{Gate, Loader};
use plain_page::held_page_bytes;
use report_text::put_waiting;
use run_items::Answers;
use script_run::{Ran, run_script, runs_today};
use std::alloc::Global;
use still_graph::Still;
use values::NoMemory;

/// The report, and behind it the page of what the graph holds.
fn page_behind(alloc: Global, still: &Still, report: Vec<u8>) -> Result<Vec<u8>, NoMemory>
    ensures { IfOk result (λ text. text.items ≡ report.items ++ page_of still.now.component still.now.state.held) }
{
    let page = held_page_bytes(alloc, still.component(), still.held())?;
    if report.is_empty() {
        return Ok(page);
    }
    let mut text = report;
    text.extend_from_slice(&page)?;
    Ok(text)
}

/// The report, and behind it the lines of the loads.
fn loads_behind(still: &Still, report: Vec<u8>, loads: &[u32]) -> Result<Vec<u8>, NoMemory>
    ensures { IfOk result (λ text. text.items ≡ report.items ++ flat_map (waiting_line still.now.component) loads.now) }
{
    let mut lines = report;
    put_waiting(&mut lines, still.component(), loads)?;
    Ok(lines)
}

/// What a run has come to, where this is its outcome, and this was made of its text.
fn ended_as(
    outcome: Outcome,
    made: Result<Vec<u8>, NoMemory>,
    still: Still,
    answers: Answers,
) -> Ending
    ensures account { ending_account result ≡ record { journal = Some still.journal; answers = answers } }
    ensures text { MatchResult made (λ text. (result.outcome ≡ outcome) × (text_of result ≡ text.items)) (λ _. (result.outcome ≡ Outcome.NoMemory) × (own_line result.outcome ≡ Some (text_of result))) }
{
    let journal = Some(still.into_journal());
    match made {
        Ok(text) => Ending {
            outcome,
            text: Text::Made(text),
            journal,
            answers,
        },
        Err(NoMemory) => Ending {
            outcome: Outcome::NoMemory,
            text: Text::Line(b"no memory\n"),
            journal,
            answers,
        },
    }
}

/// What a run has come to behind its last settling.
fn ended(alloc: Global, ran: Ran) -> Ending
    ensures { (input : InputValue) (settings : SettingsValue) (polling : Polling) → IsRanTo (component_of input) input.script settings.answers settings.rounds polling.counts ran
        → OnTrue polling.is_prompt (enough_rounds (component_of input) ≤ settings.rounds → ran.pending ≡ []) → IsRunDue input settings polling result.outcome (ending_account result) (text_of result) }
{
    let Ran {
        still,
        answers,
        report,
        pending,
    } = ran;
    if pending.is_empty() {
        let made = page_behind(alloc, &still, report);
        return ended_as(Outcome::Page, made, still, answers);
    }
    let made = loads_behind(&still, report, pending.as_slice());
    ended_as(Outcome::Waiting(pending), made, still, answers)
}

/// What an input that was read comes to.
fn answer_to<L: Loader, G: Gate>(
    alloc: Global,
    settings: Settings,
    input: Input,
    loader: &mut L,
    gate: &G,
) -> Ending
    requires kept { IsKeptFor input.component input.script input.component.texts }
    requires rounds { 1 ≤ settings.rounds }
    ensures { let polling : Polling = record { is_prompt = L.is_prompt; counts = record { faults = L.faults loader.old; faults_after = L.faults loader.new; not_yets = L.not_yets loader.old; not_yets_after = L.not_yets loader.new } } in
        (words : List (List ℕ)) (reading : Reading) (bytes : List ℕ) → StandFor words settings → GaveAll reading bytes → length bytes ≤ MOST_INPUT_BYTES → IsReadAs bytes input.component input.script → IsDue words reading polling result.outcome (ending_account result) (text_of result) }
{
    let Input { component, script } = input;
    if !runs_today(&script) {
        return Ending::not_run(alloc, Outcome::Unbuilt, Text::Line(b"not built\n"));
    }
    let Settings { answers, rounds } = settings;
    match run_script(alloc, component, &script, answers, rounds, loader, gate) {
        Ok(ran) => ended(alloc, ran),
        Err(NoMemory) => Ending::no_memory(alloc),
    }
}

/// The line of an input that is refused.
fn refused(alloc: Global, kind: u8, place: Place) -> Ending
    ensures { (words : List (List ℕ)) (reading : Reading) (polling : Polling) → StandForSome words → GivesEnd reading (λ bytes. IsBad bytes kind place) → IsDue words reading polling result.outcome (ending_account result) (text_of result) }
{
    match bad_text_line(alloc, kind, place) {
        Ok(line) => {
            let text = Text::Made(line.into_bytes());
            Ending::not_run(alloc, Outcome::BadText(kind, place), text)
        }
        Err(_) => Ending::no_memory(alloc),
    }
}

/// What the bytes of an input come to.
pub fn answer<L: Loader, G: Gate>(
    alloc: Global,
    settings: Settings,
    bytes: &[u8],
    loader: &mut L,
    gate: &G,
) -> Ending
    requires few { length bytes.now ≤ MOST_INPUT_BYTES }
    requires rounds { 1 ≤ settings.rounds }
    ensures { let polling : Polling = record { is_prompt = L.is_prompt; counts = record { faults = L.faults loader.old; faults_after = L.faults loader.new; not_yets = L.not_yets loader.old; not_yets_after = L.not_yets loader.new } } in
        (words : List (List ℕ)) (reading : Reading) → StandFor words settings → GaveAll reading bytes.now → IsDue words reading polling result.outcome (ending_account result) (text_of result) }
{
    match read_input(alloc, bytes) {
        Ok(input) => answer_to(alloc, settings, input, loader, gate),
        Err(Refusal::Bad(why, place)) => refused(alloc, why.number(), place),
        Err(Refusal::NoMemory) => Ending::no_memory(alloc),
    }
}
