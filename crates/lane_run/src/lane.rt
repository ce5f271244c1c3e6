//! The operations of a lane, made on the graph.
ghost use Rattle.std.specs.Prelude.{◌≡◌, ◌∷◌, ◌++◌, [], ℕ, All, Contains, IfOk, OnOk};
ghost use Rattle.script_items.specs.KeptFor.{MaySet, MayGet, MayEdit, NamesMembers};
ghost use Rattle.script_items.specs.Members.{members_of, an_area};
ghost use Rattle.run_items.specs.declared.answer.Reply.{Reply as ReplyValue};
ghost use Rattle.run_weave.specs.Lanes as weave;
ghost use Rattle.lane_run.specs.Lanes.{IsOpenOver, IsSamePhase, IsFresh, MayNote, HasRoom, DoesNext, HasDone, first_ops};
ghost use Rattle.lane_run.specs.Today.{OpsRun};

use outside::Gate;
use run_items::{Answer, Answers, Reply};
use run_weave::laws::lanes_go_on;
use script_items::{Script, ScriptOp};
use std::alloc::Global;
use still_graph::{Still, Target};
use store_fields::{Edit, Verdict};
use values::{Code, NoMemory, Stop};

/// What an operation is told whose call was stopped.
fn stopped(why: Stop) -> Reply
    ensures { result ≡ weave.stopped why }
{
    match why {
        Stop::Disposed(owner) => Reply::Disposed(owner),
        Stop::Full(number) => Reply::Full(number),
    }
}

/// What a set is told.
fn set_reply(answer: Result<u32, Stop>) -> Reply
    ensures { result ≡ weave.set_reply answer }
{
    match answer {
        Ok(number) => Reply::Set(number),
        Err(why) => stopped(why),
    }
}

/// What a get is told.
fn get_reply(answer: Result<(Code, u32), Stop>) -> Reply
    ensures { result ≡ weave.get_reply answer }
{
    match answer {
        Ok((code, number)) => Reply::Got(code, number),
        Err(why) => stopped(why),
    }
}

/// What an edit is told for now. What comes of it is known when the phase is settled.
fn edit_reply(answer: Result<u32, Stop>) -> Reply
    ensures { weave.IsEditReply answer result }
{
    match answer {
        Ok(number) => Reply::Edited(number, Verdict::Absent),
        Err(why) => stopped(why),
    }
}

/// Writes the value to a signal, or to a field of the row with the key. What is not there, and what a dead owner
/// owned, is not asked of the graph.
fn do_set(still: &mut Still, id: u32, key: Option<Code>, code: Code) -> Reply
    requires open { IsOpenOver still.old }
    requires named { MaySet (members_of still.old.component.items) id key }
    ensures same { IsSamePhase still.old still.new }
    ensures does { DoesNext still.old (ScriptOp.Set id key code) result still.new }
{
    lanes_go_on();
    match still.target(id, key) {
        Target::Row(row) => set_reply(still.set(row, code)),
        Target::NoRow => Reply::NoRow,
        Target::Dead(owner) => Reply::Disposed(owner),
    }
}

/// Reads a signal, memo or load, or a field of the row with the key.
fn do_get(still: &mut Still, id: u32, key: Option<Code>) -> Reply
    requires open { IsOpenOver still.old }
    requires named { MayGet (members_of still.old.component.items) id key }
    ensures same { IsSamePhase still.old still.new }
    ensures does { DoesNext still.old (ScriptOp.Get id key) result still.new }
{
    lanes_go_on();
    match still.target(id, key) {
        Target::Row(row) => get_reply(still.get(row)),
        Target::NoRow => Reply::NoRow,
        Target::Dead(owner) => Reply::Disposed(owner),
    }
}

/// Runs the effects.
fn do_pump(still: &mut Still) -> Reply
    requires open { IsOpenOver still.old }
    ensures same { IsSamePhase still.old still.new }
    ensures does { DoesNext still.old ScriptOp.Pump result still.new }
{
    lanes_go_on();
    Reply::Pumped(still.pump())
}

/// Disposes the area with the owner.
fn do_dispose(still: &mut Still, owner: u32) -> Reply
    requires open { IsOpenOver still.old }
    requires named { Contains (members_of still.old.component.items) (an_area owner) }
    ensures same { IsSamePhase still.old still.new }
    ensures does { DoesNext still.old (ScriptOp.Dispose owner) result still.new }
{
    lanes_go_on();
    Reply::Disposal(still.dispose(owner))
}

/// Notes the edit of a store, of which the graph takes a copy.
fn do_edit(still: &mut Still, alloc: Global, edit: &Edit) -> Result<Reply, NoMemory>
    requires open { IsOpenOver still.old }
    requires room { MayNote still.old }
    ensures same { OnOk result (IsSamePhase still.old still.new) }
    ensures does { IfOk result (λ reply. DoesNext still.old (ScriptOp.Change edit.now) reply still.new) }
{
    lanes_go_on();
    let owner = still.owner_of(edit.store);
    let asked = edit.copy(alloc)?;
    Ok(edit_reply(still.edit(1, owner, asked)))
}

/// Makes the operation.
fn do_op(still: &mut Still, alloc: Global, op: &ScriptOp) -> Result<Reply, NoMemory>
    requires open { IsOpenOver still.old }
    requires named { NamesMembers (members_of still.old.component.items) op.now }
    requires room { HasRoom still.old op.now }
    ensures same { OnOk result (IsSamePhase still.old still.new) }
    ensures does { IfOk result (λ reply. DoesNext still.old op.now reply still.new) }
{
    match op {
        ScriptOp::Set { id, key, code } => Ok(do_set(still, *id, *key, *code)),
        ScriptOp::Get { id, key } => Ok(do_get(still, *id, *key)),
        ScriptOp::Pump => Ok(do_pump(still)),
        ScriptOp::Dispose { owner } => Ok(do_dispose(still, *owner)),
        ScriptOp::Change(edit) => do_edit(still, alloc, edit),
    }
}

/// Makes the operation behind a step through the gate, and adds its answer. Operations count from 1.
fn run_op<G: Gate>(
    still: &mut Still,
    alloc: Global,
    op: &ScriptOp,
    phase: u32,
    number: u32,
    gate: &G,
    answers: &mut Answers,
) -> Result<(), NoMemory>
    requires open { IsOpenOver still.old }
    requires named { NamesMembers (members_of still.old.component.items) op.now }
    requires room { HasRoom still.old op.now }
    ensures { OnOk result ((reply : ReplyValue) × IsSamePhase still.old still.new × DoesNext still.old op.now reply still.new
        × (answers.new ≡ answers.old ++ record { phase = phase; lane = 1; op = number; reply = reply } ∷ [])) }
{
    gate.step(1, number);
    let reply = do_op(still, alloc, op)?;
    answers.push(Answer {
        phase,
        lane: 1,
        op: number,
        reply,
    })
}

/// Makes the operations of the first lane of the phase, each behind a step through the gate, and adds their answers.
/// After want of memory some of them may be made.
pub(crate) fn run_lane<G: Gate>(
    still: &mut Still,
    alloc: Global,
    script: &Script,
    phase: u32,
    gate: &G,
    answers: &mut Answers,
) -> Result<(), NoMemory>
    requires open { IsOpenOver still.old }
    requires fresh { IsFresh still.old (first_ops script.now phase) }
    requires named { All (NamesMembers (members_of still.old.component.items)) (first_ops script.now phase) }
    requires today { OpsRun (first_ops script.now phase) }
    ensures { OnOk result (HasDone phase (first_ops script.now phase) still.old still.new answers.old answers.new) }
{
    for before in 0..u32::MAX {
        match script.op(phase, 1, before + 1) {
            None => return Ok(()),
            Some(op) => run_op(still, alloc, op, phase, before + 1, gate, answers)?,
        }
    }
    Ok(())
}
