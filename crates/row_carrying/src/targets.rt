//! Which row goes to which.
ghost use Rattle.std.specs.Prelude.{◌≡◌, ◌<◌, length, slice_get, Some, IfOk};
ghost use Rattle.plan_meaning.specs.Carried as spec;

use node_names::Names;
use std::alloc::Global;
use values::NoMemory;

/// For each row of the first layout the row of its place in the second, where there is one.
pub fn rows_to(alloc: Global, old: &Names, new: &Names) -> Result<Vec<Option<u32>>, NoMemory>
    ensures { IfOk result (λ to. to.items ≡ spec.rows_to old.now new.now) }
{
    let mut to = Vec::with_capacity(alloc, old.len() as usize)?;
    let mut near = 0;
    for row in 0..old.len() {
        let later = target(old, new, row, near);
        near = next_near(later, near);
        to.push(later)?;
    }
    Ok(to)
}

/// The row behind this one, near which the place of the next row is looked for.
fn next_near(later: Option<u32>, near: u32) -> u32 {
    match later {
        Some(row) => row.wrapping_add(1),
        None => near,
    }
}

/// The row of the second layout that a row of the first goes to. It is looked for first near this one.
fn target(old: &Names, new: &Names, row: u32, near: u32) -> Option<u32>
    requires { row < length old.now }
    ensures { slice_get (spec.rows_to old.now new.now) row ≡ Some result }
{
    let place = old.place(row)?;
    new.row_near(place, near)
}
