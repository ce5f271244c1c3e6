//! The rows that take the values of sources.
ghost use Rattle.std.specs.Prelude.{◌≡◌, ◌≤◌, ◌<◌, ◌^◌, ℕ, false, length, slice_get, IsSomeAnd};
ghost use Rattle.values.specs.PlanValues.{is_derived};
ghost use Rattle.next_layout.specs.Sources.{ArePut};

use phase_graph::Graph;
use values::Code;

/// Gives the first rows, which are sources, these values.
pub(crate) fn put_sources(graph: &mut Graph, codes: &[Code])
    requires closed { graph.old.is_open ≡ false }
    requires drawn { graph.old.drawn ≡ 0 }
    requires few { length codes.now ≤ 4096 }
    requires ticks { graph.old.base < 2 ^ 62 }
    requires sources { (n : ℕ) → n < length codes.now → IsSomeAnd (slice_get graph.old.plan.nodes n) (λ node. is_derived node.kind ≡ false) }
    ensures { ArePut codes.now (length codes.now) graph.old graph.new }
{
    for row in 0..codes.len() {
        graph.put(row as u32, codes[row]);
    }
}
