//! Going over.
ghost use Rattle.std.specs.Prelude.{◌≡◌, ◌<◌, ◌^◌, false};
ghost use Rattle.component_items.specs.declared.component.Component.{Component as ComponentValue};
ghost use Rattle.phase_graph.specs.Graph.{ticks_of};
ghost use Rattle.next_layout.specs.Next.{IsLaidOut, IsNext, IsReady, HasGoneOver};

use crate::making::Next;
use crate::putting::put_sources;
use held_state::Held;
use node_names::Names;
use phase_graph::Graph;
use store_fields::Verdicts;

impl Next {
    /// Takes the place of what it was made for: the graph goes over by the places of its rows, and each source has its
    /// value. It takes no memory.
    pub fn take_over(
        self,
        held: &mut Held,
        names: &mut Names,
        graph: &mut Graph,
        verdicts: &mut Vec<Verdicts>,
    )
        requires closed { graph.old.is_open ≡ false }
        requires ticks { ticks_of graph.old < 2 ^ 62 }
        requires ready { IsReady held.old names.old graph.old self }
        ensures held { held.new ≡ self.state }
        ensures verdicts { verdicts.new.items ≡ self.verdicts }
        ensures over { (component : ComponentValue) → IsLaidOut component held.old names.old graph.old → IsNext component held.old names.old graph.old self → HasGoneOver component held.old held.new names.old names.new graph.old graph.new }
    {
        let Next {
            folded,
            names: later,
            relaid,
            codes,
        } = self;
        let _plan = graph.plan();
        graph.relay(relaid);
        put_sources(graph, codes.as_slice());
        *held = folded.held;
        *names = later;
        *verdicts = folded.verdicts;
    }
}
