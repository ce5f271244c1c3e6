//! The lines by row.
ghost use Rattle.std.specs.Prelude.{◌≡◌, ◌≤◌, [], ◌∷◌, ◌++◌, length, map, IfOk, OnOk};
ghost use Rattle.values.specs.declared.limits.TheConstants.{MOST_NODES};
ghost use Rattle.plan_meaning.specs.Carried.{AreApart};
ghost use Rattle.plan_lines.specs.Lines.{placed_in};
ghost use Rattle.node_plan.specs.Rows.{places_placed, rows_placed, some_of};

use node_names::Names;
use plan_lines::Line;
use std::alloc::Global;
use values::NoMemory;

/// The lines in order of row: first the sources, and then what is computed, each in text order.
pub(crate) fn in_rows<'c>(alloc: Global, lines: &[Line<'c>]) -> Result<Vec<Line<'c>>, NoMemory>
    ensures { IfOk result (λ rows. map placed_in rows.items ≡ rows_placed (map placed_in lines.now)) }
{
    let mut rows = Vec::with_capacity(alloc, lines.len())?;
    put_some(lines, false, &mut rows)?;
    put_some(lines, true, &mut rows)?;
    Ok(rows)
}

/// Adds the lines that are computed, or those that are not.
fn put_some<'c>(
    lines: &[Line<'c>],
    computed: bool,
    rows: &mut Vec<Line<'c>>,
) -> Result<(), NoMemory>
    ensures { OnOk result (map placed_in rows.new.items ≡ map placed_in rows.old.items ++ some_of computed (map placed_in lines.now)) }
{
    for line in lines {
        put_one(line, computed, rows)?;
    }
    Ok(())
}

fn put_one<'c>(line: &Line<'c>, computed: bool, rows: &mut Vec<Line<'c>>) -> Result<(), NoMemory>
    ensures { OnOk result (map placed_in rows.new.items ≡ map placed_in rows.old.items ++ some_of computed (placed_in line.now ∷ [])) }
{
    if line.expr.is_some() == computed {
        rows.push(*line)?;
    }
    Ok(())
}

/// The places of the rows.
pub(crate) fn names_of(alloc: Global, rows: &[Line<'_>]) -> Result<Names, NoMemory>
    requires few { length rows.now ≤ MOST_NODES }
    requires apart { AreApart (places_placed (map placed_in rows.now)) }
    ensures { IfOk result (λ names. names ≡ places_placed (map placed_in rows.now)) }
{
    let mut names = Names::with_room(alloc, rows.len())?;
    for row in rows {
        names.push(row.place())?;
    }
    Ok(names)
}
