//! What edits are told once their phase is settled.
ghost use Rattle.std.specs.Prelude.{◌≡◌, ◌≤◌, ◌<◌, ◌+◌, ◌^◌, ◌++◌, Some, is_some, if◌then◌else◌, length, take, drop, slice_get, slice_set};
ghost use Rattle.run_items.specs.declared.answer.Answer.{Answer as AnswerValue};
ghost use Rattle.run_meaning.specs.Lane as meaning;
ghost use Rattle.run_weave.specs.Lanes as weave;
ghost use Rattle.lane_run.specs.Today.{most_ops};
ghost use Rattle.phase_run.specs.Told.{is_accepted, first_verdicts, verdict_at, answer_told, answers_told};

use run_items::{Answer, Answers, Reply};
use still_graph::Still;
use store_fields::Verdict;

/// The reply, where its edit came to this.
fn told_reply(reply: Reply, verdict: Verdict) -> Reply
    ensures { result ≡ weave.told_reply (λ n. verdict) reply }
{
    match reply {
        Reply::Edited(number, _) => Reply::Edited(number, verdict),
        Reply::Set(_)
        | Reply::Got(..)
        | Reply::Pumped(_)
        | Reply::Disposal(_)
        | Reply::NoRow
        | Reply::Busy(_)
        | Reply::Again(_)
        | Reply::Disposed(_)
        | Reply::Full(_) => reply,
    }
}

/// The place of the next edit among the verdicts, behind a reply.
fn place_behind(index: u32, reply: Reply) -> u32
    requires { index + 1 < 2 ^ 32 }
    ensures { result ≡ index + (if is_some (meaning.edit_number reply) then 1 else 0) }
{
    match reply {
        Reply::Edited(..) => index + 1,
        Reply::Set(_)
        | Reply::Got(..)
        | Reply::Pumped(_)
        | Reply::Disposal(_)
        | Reply::NoRow
        | Reply::Busy(_)
        | Reply::Again(_)
        | Reply::Disposed(_)
        | Reply::Full(_) => index,
    }
}

/// What came of the edit of this place in the list of the first pass, in the phase that was settled last.
fn verdict(still: &Still, index: u32) -> Verdict
    ensures { result ≡ verdict_at (first_verdicts still.now.verdicts) index }
{
    still.verdict(1, index).unwrap_or(Verdict::Absent)
}

fn answer_at(answers: &Answers, place: usize) -> Answer
    requires { place < length answers.now }
    ensures { slice_get answers.now place ≡ Some result }
{
    answers.as_slice()[place]
}

/// Tells the answer of this place what came of its edit, if it is that of an accepted one, and gives the place of the next
/// one among the verdicts.
fn tell(still: &Still, answers: &mut Answers, place: usize, index: u32) -> u32
    requires within { place < length answers.old }
    requires few { index + 1 < 2 ^ 32 }
    ensures { (answer : AnswerValue) × (slice_get answers.old place ≡ Some answer) × (answers.new ≡ slice_set answers.old place (answer_told (verdict_at (first_verdicts still.now.verdicts) index) answer))
        × (result ≡ index + (if is_accepted answer then 1 else 0)) }
{
    let answer = answer_at(answers, place);
    let reply = told_reply(answer.reply, verdict(still, index));
    answers.set(place, Answer { reply, ..answer });
    place_behind(index, answer.reply)
}

/// Tells the accepted edits among the answers from the first on what came of them in the phase that was settled last.
/// They are those of its only lane, in their order.
pub fn tell_edits(still: &Still, answers: &mut Answers, first: usize)
    requires within { first ≤ length answers.old }
    requires few { length answers.old ≤ first + most_ops }
    ensures { answers.new ≡ take first answers.old ++ answers_told (first_verdicts still.now.verdicts) 0 (drop first answers.old) }
{
    let mut index = 0;
    for place in first..answers.len() {
        index = tell(still, answers, place, index);
    }
}
