//! The edits of a phase.
ghost use Rattle.std.specs.Prelude.{◌≡◌, ℕ, List, [], map, length, replicate, Some, IfOk, OnOk};
ghost use Rattle.std.specs.Option.{option_copied};
ghost use Rattle.script_items.specs.Script.{numbered};
ghost use Rattle.store_fields.specs.declared.edit.Verdict.{Verdict as VerdictValue};
ghost use Rattle.component_items.specs.declared.component.Component.{Component as ComponentValue};
ghost use Rattle.held_state.specs.State.{IsOf, with_held};
ghost use Rattle.run_meaning.specs.Edits.{held_edited};
ghost use Rattle.phase_edits.specs.Making.{held_with, verdict_with, with_told, told_of};
ghost use Rattle.phase_edits.specs.Posts.{edit_made, held_made, posted, posted_edits, verdict_made, verdicts_by};

use crate::one::make_edit;
use held_state::Held;
use std::alloc::Global;
use store_fields::{Edit, Verdict, Verdicts};
use values::{Fact, NoMemory, Noted, Reserved};

/// Makes the edits that were noted, in order of number, and tells for each pass what comes of its edits, in their order.
/// `posts` has the edits of each pass. After want of memory some of them may be made.
pub fn fold_edits(
    alloc: Global,
    held: &mut Held,
    posts: &[Reserved<Edit>],
    entries: &[Noted],
) -> Result<Vec<Verdicts>, NoMemory>
    ensures held { OnOk result (held.new ≡ with_held held.old (held_edited (posted_edits (map (λ post. post.list) posts.now) entries.now) held.old.held)) }
    ensures fits { OnOk result ((component : ComponentValue) → IsOf component held.old → IsOf component held.new) }
    ensures passes { IfOk result (λ verdicts. length verdicts.items ≡ length posts.now) }
    ensures told { IfOk result (λ verdicts. (pass : ℕ) (told : List VerdictValue) → numbered verdicts.items pass ≡ Some told → told ≡ verdicts_by (map (λ post. post.list) posts.now) pass entries.now held.old.held) }
{
    let mut verdicts = no_verdicts(alloc, posts.len())?;
    for entry in entries {
        fold_entry(alloc, held, posts, *entry, verdicts.as_mut_slice())?;
    }
    Ok(verdicts)
}

/// For each pass nothing yet.
fn no_verdicts(alloc: Global, passes: usize) -> Result<Vec<Verdicts>, NoMemory>
    ensures { IfOk result (λ verdicts. verdicts.items ≡ replicate passes []) }
{
    let mut verdicts = Vec::with_capacity(alloc, passes)?;
    for _ in 0..passes {
        verdicts.push(Verdicts::new(alloc))?;
    }
    Ok(verdicts)
}

/// Makes the edit that the entry notes, if it notes one, and tells its pass what comes of it.
fn fold_entry(
    alloc: Global,
    held: &mut Held,
    posts: &[Reserved<Edit>],
    entry: Noted,
    verdicts: &mut [Verdicts],
) -> Result<(), NoMemory>
    ensures held { OnOk result (held.new ≡ with_held held.old (held_made (edit_made (map (λ post. post.list) posts.now) entry) held.old.held)) }
    ensures fits { OnOk result ((component : ComponentValue) → IsOf component held.old → IsOf component held.new) }
    ensures told { OnOk result (verdicts.new ≡ told_of verdicts.old entry.fact (verdict_made (edit_made (map (λ post. post.list) posts.now) entry) held.old.held)) }
{
    match entry.fact {
        Fact::Edit { pass, index } => {
            let verdict = make_posted(alloc, held, posts, pass, index)?;
            tell(verdicts, pass, verdict)
        }
        Fact::Write { .. }
        | Fact::Change { .. }
        | Fact::Ran { .. }
        | Fact::Void { .. }
        | Fact::Disposed { .. } => Ok(()),
    }
}

/// Makes the edit at this place of the list of this pass. Where no edit stands there, it is absent.
fn make_posted(
    alloc: Global,
    held: &mut Held,
    posts: &[Reserved<Edit>],
    pass: u32,
    index: u32,
) -> Result<Verdict, NoMemory>
    ensures held { OnOk result (held.new ≡ with_held held.old (held_with (posted (map (λ post. post.list) posts.now) pass index) held.old.held)) }
    ensures fits { OnOk result ((component : ComponentValue) → IsOf component held.old → IsOf component held.new) }
    ensures told { IfOk result (λ verdict. verdict ≡ verdict_with (posted (map (λ post. post.list) posts.now) pass index) held.old.held) }
{
    match posted_edit(posts, pass, index) {
        Some(edit) => make_edit(alloc, held, edit),
        None => Ok(Verdict::Absent),
    }
}

fn posted_edit(posts: &[Reserved<Edit>], pass: u32, index: u32) -> Option<&Edit>
    ensures { option_copied result ≡ posted (map (λ post. post.list) posts.now) pass index }
{
    let place = pass.checked_sub(1)?;
    posts.get(place as usize)?.at(index as usize)
}

/// Tells the pass what comes of its next edit.
fn tell(verdicts: &mut [Verdicts], pass: u32, verdict: Verdict) -> Result<(), NoMemory>
    ensures { OnOk result (verdicts.new ≡ with_told verdicts.old pass verdict) }
{
    let Some(place) = pass.checked_sub(1) else {
        return Ok(());
    };
    if (place as usize) < verdicts.len() {
        verdicts[place as usize].push(verdict)?;
    }
    Ok(())
}
