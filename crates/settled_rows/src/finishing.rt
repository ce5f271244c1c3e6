//! What each settling ends with: the loads, and then the memos.
ghost use Rattle.std.specs.Prelude.{◌≡◌, ◌≤◌, [], length};
ghost use Rattle.id_owners.specs.Table.{owners_by_id};
ghost use Rattle.settled_rows.specs.Finishing.{IsReady, IsFinished, AreCounted};

use component_items::Component;
use held_state::Held;
use id_owners::IdOwners;
use load_polls::{Late, Loads};
use node_names::Names;
use outside::Loader;
use phase_graph::Graph;
use values::Reserved;

/// Polls each live load once, with the value that its key has by then, and brings every memo up to date. The loads that
/// are late are put into `late`.
pub fn finish<L: Loader>(
    component: &Component,
    owners: &IdOwners,
    held: &mut Held,
    names: &Names,
    graph: &mut Graph,
    loads: &mut Loads,
    late: &mut Reserved<(u32, Late)>,
    loader: &mut L,
)
    requires ready { IsReady component.now held.old names.now graph.old loads.old }
    requires owners { owners.now ≡ owners_by_id component.now }
    requires empty { late.old.list ≡ [] }
    requires room { length loads.old.loads ≤ late.old.spare }
    ensures finished { IsFinished L.answers L.is_prompt component.now names.now held.old held.new graph.old graph.new loads.old loads.new late.new.list loader.old loader.new }
    ensures counted { AreCounted late.new.list (L.not_yets loader.old) (L.not_yets loader.new) (L.faults loader.old) (L.faults loader.new) }
{
    loads.poll(component, owners, held, names, graph, late, loader);
    graph.settle();
}
