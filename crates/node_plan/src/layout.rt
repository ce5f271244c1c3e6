//! The layout.
ghost use Rattle.std.specs.Prelude.{◌≡◌, map, IfOk};
ghost use Rattle.plain_evaluation.specs.Written.{state_of, written};
ghost use Rattle.plan_meaning.specs.Layout.{places_of, plan_of};
ghost use Rattle.held_state.specs.State.{IsOf};
ghost use Rattle.plan_lines.specs.Lines.{placed_in, placed_of};

use crate::nodes::nodes_of;
use crate::owners::owners_of;
use crate::rows::{in_rows, names_of};
use component_items::Component;
use held_state::Held;
use node_names::Names;
use plan_lines::{Line, keyed_ids, write_out};
use std::alloc::Global;
use values::{NoMemory, Plan};

/// The plan of a component in held state, and the place of each of its rows.
#[derive(Drop)]
pub struct Laid {
    /// The plan. It is lawful (`plan_meaning::laws::plans_are_lawful`).
    pub plan: Plan,
    /// The place of each node of the plan.
    pub names: Names,
}

/// Lays a component out in this state. The rows are first its signals, fields and loads, and then all that is
/// computed, each in text order; what stands in a dead area has none (`docs/SEMANTICS.md`, "The layout"). It
/// takes the time of what it makes.
pub fn lay_out(alloc: Global, component: &Component, held: &Held) -> Result<Laid, NoMemory>
    requires { IsOf component.now held.now }
    ensures plan { IfOk result (λ laid. laid.plan ≡ plan_of component.now (state_of held.now.held)) }
    ensures names { IfOk result (λ laid. laid.names ≡ places_of (written component.now held.now.held)) }
{
    let lines = write_out(alloc, component, held)?;
    lay_out_lines(alloc, component, held, lines.as_slice())
}

/// The same, where the component is written out in this state already.
pub fn lay_out_lines(
    alloc: Global,
    component: &Component,
    held: &Held,
    lines: &[Line<'_>],
) -> Result<Laid, NoMemory>
    requires fits { IsOf component.now held.now }
    requires lines { map placed_in lines.now ≡ map placed_of (written component.now held.now.held) }
    ensures plan { IfOk result (λ laid. laid.plan ≡ plan_of component.now (state_of held.now.held)) }
    ensures names { IfOk result (λ laid. laid.names ≡ places_of (written component.now held.now.held)) }
{
    let owners = owners_of(alloc, component.items())?;
    let keyed = keyed_ids(alloc, component)?;
    let rows = in_rows(alloc, lines)?;
    let names = names_of(alloc, rows.as_slice())?;
    let nodes = nodes_of(alloc, rows.as_slice(), &names, keyed.as_slice())?;
    let plan = Plan { nodes, owners };
    Ok(Laid { plan, names })
}
