//! A phase that leaves the rows that there are.
ghost use Rattle.std.specs.Prelude.{◌≡◌};
ghost use Rattle.sources.specs.Rows.{value_in};
ghost use Rattle.plain_evaluation.specs.Written.{state_of};
ghost use Rattle.held_state.specs.State.{with_held};
ghost use Rattle.held_rows.specs.Shown.{held_shown};
ghost use Rattle.next_layout.specs.Next.{IsLaidOut, LoadsStay};
ghost use Rattle.next_layout.specs.Sources.{SourcesAreSaid};

use component_items::Component;
use held_rows::write_back;
use held_state::Held;
use node_names::Names;
use phase_graph::Graph;

/// Held state takes what the phase wrote, as the rows show it. The layout stays. It takes no memory.
pub fn fold_in_place(held: &mut Held, component: &Component, names: &Names, graph: &Graph)
    requires { IsLaidOut component.now held.old names.now graph.now }
    ensures held { held.new ≡ with_held held.old (held_shown names.now (value_in graph.now.rows) held.old.held) }
    ensures laid { IsLaidOut component.now held.new names.now graph.now }
    ensures sources { SourcesAreSaid component.now (state_of held.new.held) graph.now.rows }
    ensures loads { LoadsStay component.now (state_of held.old.held) (state_of held.new.held) graph.now graph.now }
{
    write_back(held, component, names, graph.rows());
}
