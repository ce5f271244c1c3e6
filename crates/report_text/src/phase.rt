//! The lines of a phase.
ghost use Rattle.std.specs.Prelude.{◌≡◌, ◌++◌, OnOk, List};
ghost use Rattle.std.specs.List.{flat_map};
ghost use Rattle.run_meaning.specs.Lane.{Done};
ghost use Rattle.run_meaning.specs.Report.{answer_lines, journal_lines};
ghost use Rattle.run_meaning.specs.Run.{answers_of_lanes};
ghost use Rattle.report_text.specs.Lines.{line_of};

use crate::answers::put_answers;
use crate::journal::put_entries;
use run_items::Answer;
use values::{NoMemory, Noted, PlanOwner, Texts};

/// The lines of a phase: those of its answers, and then those of its entries, each in their order. Phases count from
/// 1, and `owners` are those of the plan that the phase opened with. Where the answers are those of the phase's
/// lanes, the lines are what the report has of the phase.
pub fn put_phase(
    out: &mut Vec<u8>,
    texts: &Texts,
    phase: u32,
    answers: &[Answer],
    owners: &[PlanOwner],
    entries: &[Noted],
) -> Result<(), NoMemory>
    ensures lines { OnOk result (out.new.items ≡ out.old.items ++ (flat_map (line_of texts.now) answers.now ++ journal_lines texts.now owners.now phase entries.now)) }
    ensures lanes { OnOk result ((lanes : List (List Done)) → answers.now ≡ answers_of_lanes phase 1 lanes → out.new.items ≡ out.old.items ++ (answer_lines texts.now phase 1 lanes ++ journal_lines texts.now owners.now phase entries.now)) }
{
    put_answers(out, texts, answers)?;
    put_entries(out, texts, owners, phase, entries)
}
