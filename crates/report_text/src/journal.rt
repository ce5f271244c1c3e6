//! The lines of a phase's journal.
ghost use Rattle.std.specs.Prelude.{◌≡◌, ◌++◌, codes, OnOk};
ghost use Rattle.std.specs.List.{flat_map};
ghost use Rattle.std.specs.Fmt.{decimal};
ghost use Rattle.run_meaning.specs.Report.{code_text, fact_text, cleanups_of, cleanup_line, cleanup_lines, entry_line, journal_lines};

use crate::code::put_code;
use crate::pieces::{put, put_count};
use values::{Code, Fact, NoMemory, Noted, PlanOwner, Texts};

/// The lines of a phase's entries, in their order. `owners` are those of the plan that the phase opened with.
pub fn put_entries(
    out: &mut Vec<u8>,
    texts: &Texts,
    owners: &[PlanOwner],
    phase: u32,
    entries: &[Noted],
) -> Result<(), NoMemory>
    ensures { OnOk result (out.new.items ≡ out.old.items ++ journal_lines texts.now owners.now phase entries.now) }
{
    for entry in entries {
        put_entry(out, texts, owners, phase, *entry)?;
    }
    Ok(())
}

/// The line of an entry, and behind that of a disposal those of the owner's cleanups. What is not among the owners
/// has no cleanup.
pub fn put_entry(
    out: &mut Vec<u8>,
    texts: &Texts,
    owners: &[PlanOwner],
    phase: u32,
    entry: Noted,
) -> Result<(), NoMemory>
    ensures { OnOk result (out.new.items ≡ out.old.items ++ (entry_line texts.now phase entry ++ cleanup_lines texts.now owners.now entry.fact)) }
{
    put_noted(out, texts, phase, entry)?;
    put_cleanups(out, texts, owners, entry.fact)
}

/// The line of an entry alone.
fn put_noted(out: &mut Vec<u8>, texts: &Texts, phase: u32, entry: Noted) -> Result<(), NoMemory>
    ensures { OnOk result (out.new.items ≡ out.old.items ++ entry_line texts.now phase entry) }
{
    put_count(out, b"journal ", phase)?;
    put_count(out, b".", entry.number)?;
    put(out, b" ")?;
    put_fact(out, texts, entry.fact)?;
    put(out, b"\n")
}

/// What an entry says, in words.
pub fn put_fact(out: &mut Vec<u8>, texts: &Texts, fact: Fact) -> Result<(), NoMemory>
    ensures { OnOk result (out.new.items ≡ out.old.items ++ fact_text texts.now fact) }
{
    match fact {
        Fact::Write { row, code } => put_valued(out, texts, b"write ", row, code),
        Fact::Change { row, code } => put_valued(out, texts, b"change ", row, code),
        Fact::Ran { row, code } => put_valued(out, texts, b"ran ", row, code),
        Fact::Void { row } => put_count(out, b"void ", row),
        Fact::Disposed { owner } => put_count(out, b"disposed ", owner),
        Fact::Edit { pass, index } => {
            put_count(out, b"edit ", pass)?;
            put_count(out, b" ", index)
        }
    }
}

/// A word, a row and its value.
fn put_valued(
    out: &mut Vec<u8>,
    texts: &Texts,
    word: &[u8],
    row: u32,
    code: Code,
) -> Result<(), NoMemory>
    ensures { OnOk result (out.new.items ≡ out.old.items ++ (word.now ++ decimal row ++ codes " " ++ code_text texts.now code)) }
{
    put_count(out, word, row)?;
    put(out, b" ")?;
    put_code(out, texts, code)
}

/// The lines of the cleanups that a disposal runs.
fn put_cleanups(
    out: &mut Vec<u8>,
    texts: &Texts,
    owners: &[PlanOwner],
    fact: Fact,
) -> Result<(), NoMemory>
    ensures { OnOk result (out.new.items ≡ out.old.items ++ cleanup_lines texts.now owners.now fact) }
{
    match fact {
        Fact::Write { .. }
        | Fact::Change { .. }
        | Fact::Ran { .. }
        | Fact::Void { .. }
        | Fact::Edit { .. } => Ok(()),
        Fact::Disposed { owner } => put_cleanups_of(out, texts, owners, owner),
    }
}

/// The lines of the cleanups of this owner.
fn put_cleanups_of(
    out: &mut Vec<u8>,
    texts: &Texts,
    owners: &[PlanOwner],
    owner: u32,
) -> Result<(), NoMemory>
    ensures { OnOk result (out.new.items ≡ out.old.items ++ flat_map (cleanup_line texts.now) (cleanups_of owners.now owner)) }
{
    match owners.get(owner as usize) {
        Some(owner) => put_each_cleanup(out, texts, owner.cleanups.as_slice()),
        None => Ok(()),
    }
}

fn put_each_cleanup(out: &mut Vec<u8>, texts: &Texts, cleanups: &[u32]) -> Result<(), NoMemory>
    ensures { OnOk result (out.new.items ≡ out.old.items ++ flat_map (cleanup_line texts.now) cleanups.now) }
{
    for text in cleanups {
        put_cleanup(out, texts, *text)?;
    }
    Ok(())
}

/// The line of a cleanup, which is the text with this number.
fn put_cleanup(out: &mut Vec<u8>, texts: &Texts, text: u32) -> Result<(), NoMemory>
    ensures { OnOk result (out.new.items ≡ out.old.items ++ cleanup_line texts.now text) }
{
    put(out, b"cleanup ")?;
    put_code(out, texts, Code::Word(text))?;
    put(out, b"\n")
}
