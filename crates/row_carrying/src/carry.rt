//! Rows that go over.
ghost use Rattle.std.specs.Prelude.{◌≡◌, ℕ, length, map, slice_get, Some};
ghost use Rattle.values.specs.Reserved.{room_of};
ghost use Rattle.sources.specs.declared.opening.Opened.{Opened as OpenedValue};
ghost use Rattle.carried_rows.specs.Moved.{read_moved, cause_moved, HasMoved};
ghost use Rattle.row_carrying.specs.Target.{number_by, AreTargets, IsNoTarget};

use sources::{Cause, Opened, Read, Reads};

/// Puts each row of `old` that goes anywhere there, with the new numbers of the rows that its body names. All other
/// rows stay. It takes no memory, and a step for each row and each recorded read.
pub fn carry_over(to: &[Option<u32>], old: Vec<Opened>, rows: &mut [Opened])
    requires paired { length old.items ≡ length to.now }
    requires targets { AreTargets to.now (length rows.old) }
    ensures long { length rows.new ≡ length rows.old }
    ensures kept { (row later : ℕ) (one two : OpenedValue) → slice_get to.now row ≡ Some (Some later) → slice_get old.items row ≡ Some one → slice_get rows.new later ≡ Some two → HasMoved (number_by to.now) one two }
    ensures fresh { (later : ℕ) → IsNoTarget to.now later → slice_get rows.new later ≡ slice_get rows.old later }
{
    let mut left = old;
    while let Some(row) = left.pop() {
        if let Some(later) = to[left.len()] {
            rows[later as usize] = renumbered(to, row);
        }
    }
}

/// The row with the new numbers of the rows that its body names, in the memory that it has.
fn renumbered(to: &[Option<u32>], row: Opened) -> Opened
    ensures { HasMoved (number_by to.now) row result }
{
    let mut moved = row;
    renumber(to, &mut moved.body.reads);
    moved.body.cause = renumbered_cause(to, moved.body.cause);
    moved
}

/// Gives the rows that were read their new numbers, in place.
fn renumber(to: &[Option<u32>], reads: &mut Reads)
    ensures list { reads.new.list ≡ map (read_moved (number_by to.now)) reads.old.list }
    ensures room { room_of reads.new ≡ room_of reads.old }
{
    for index in 0..reads.len() {
        let read = reads.as_slice()[index];
        reads.set(index, renumbered_read(to, read));
    }
}

fn renumbered_read(to: &[Option<u32>], read: Read) -> Read
    ensures { result ≡ read_moved (number_by to.now) read }
{
    Read {
        row: number(to, read.row),
        version: read.version,
        code: read.code,
    }
}

fn renumbered_cause(to: &[Option<u32>], cause: Option<Cause>) -> Option<Cause>
    ensures { result ≡ cause_moved (number_by to.now) cause }
{
    match cause {
        None => None,
        Some(Cause::First) => Some(Cause::First),
        Some(Cause::Changed { source, old, new }) => Some(Cause::Changed {
            source: number(to, source),
            old,
            new,
        }),
    }
}

/// The new number of a row.
fn number(to: &[Option<u32>], row: u32) -> u32
    ensures { result ≡ number_by to.now row }
{
    match to.get(row as usize) {
        Some(Some(later)) => *later,
        Some(None) | None => 0,
    }
}
