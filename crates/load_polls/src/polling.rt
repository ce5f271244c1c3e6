//! Polls, one load after another.
ghost use Rattle.std.specs.Prelude.{◌≡◌, ◌≤◌, ◌<◌, ◌+◌, ◌-◌, ◌*◌, ◌^◌, ◌++◌, ℕ, suc, true, [], List, length, slice_get, Some, IsSome};
ghost use Rattle.sources.specs.Rows.{value_in};
ghost use Rattle.outside.specs.Counts.{RoseBy};
ghost use Rattle.plain_evaluation.specs.Place.{outside, position_of};
ghost use Rattle.plain_evaluation.specs.Written.{state_of};
ghost use Rattle.held_state.specs.State.{with_held};
ghost use Rattle.id_owners.specs.Table.{owners_by_id};
ghost use Rattle.load_table.specs.Loads.{LoadOf, loads_in, is_live_load};
ghost use Rattle.load_table.specs.Table.{load_alone, pairs_at};
ghost use Rattle.load_meaning.specs.Polls.{late_as};
ghost use Rattle.load_meaning.specs.declared.late.Late.{Late as LateValue};
ghost use Rattle.load_polls.specs.Loads.{progress_of, not_yet_count, failed_count, HasMoved};
ghost use Rattle.load_polls.specs.Shown.{load_code};
ghost use Rattle.load_polls.specs.Stands.{sweep_of, IsReady, IsTurned, IsTaken, ArePolledTo};

use async_derived::{Loading, Polled};
use component_items::Component;
use held_state::Held;
use id_owners::IdOwners;
use load_meaning::Late;
use load_table::{Load, LoadTable};
use node_names::Names;
use outside::Loader;
use phase_graph::Graph;
use values::{Code, Reserved};

/// What polls read, and leave as it is.
#[derive(Drop)]
pub(crate) struct Sides<'a> {
    pub(crate) component: &'a Component,
    pub(crate) table: &'a LoadTable,
    pub(crate) owners: &'a IdOwners,
    pub(crate) names: &'a Names,
}

/// The rows of a load and of its key.
#[derive(Clone, Copy)]
struct LoadRows {
    load: u32,
    key: u32,
}

/// Polls the loads in order of declaration.
pub(crate) fn poll_all<L: Loader>(
    sides: &Sides<'_>,
    loadings: &mut [Loading],
    held: &mut Held,
    graph: &mut Graph,
    late: &mut Reserved<(u32, Late)>,
    loader: &mut L,
)
    requires loads { sides.now.table.now ≡ loads_in sides.now.component.now }
    requires owners { sides.now.owners.now ≡ owners_by_id sides.now.component.now }
    requires ready { IsReady sides.now.component.now sides.now.names.now 0 0 (sweep_of held.old loadings.old graph.old) }
    requires few { graph.old.drawn ≤ 8192 }
    requires empty { late.old.list ≡ [] }
    requires room { length loadings.old ≤ late.old.spare }
    ensures ready { (from : ℕ) × IsReady sides.now.component.now sides.now.names.now (length loadings.old) from (sweep_of held.new loadings.new graph.new) }
    ensures polled { ArePolledTo L.answers L.is_prompt sides.now.component.now (length loadings.old) (progress_of held.old loadings.old) (sweep_of held.new loadings.new graph.new) late.new.list loader.old loader.new }
    ensures held { held.new ≡ with_held held.old held.new.held }
    ensures moved { HasMoved graph.old graph.new 8192 }
    ensures not_yets { RoseBy (not_yet_count late.new.list) (L.not_yets loader.old) (L.not_yets loader.new) }
    ensures faults { RoseBy (failed_count late.new.list) (L.faults loader.old) (L.faults loader.new) }
{
    let _items = sides.component.items();
    let mut from = 0;
    for place in 0..loadings.len() {
        from = poll_at(sides, place, from, loadings, held, graph, late, loader);
    }
}

/// Polls the load at the place, where it is live. The memos of the rows before `from` are up to date, and those before
/// the answered row are, then.
fn poll_at<L: Loader>(
    sides: &Sides<'_>,
    place: usize,
    from: u32,
    loadings: &mut [Loading],
    held: &mut Held,
    graph: &mut Graph,
    late: &mut Reserved<(u32, Late)>,
    loader: &mut L,
) -> u32
    requires loads { sides.now.table.now ≡ loads_in sides.now.component.now }
    requires owners { sides.now.owners.now ≡ owners_by_id sides.now.component.now }
    requires ready { IsReady sides.now.component.now sides.now.names.now place from (sweep_of held.old loadings.old graph.old) }
    requires within { place < length loadings.old }
    requires few { graph.old.drawn ≤ 16384 }
    requires room { 0 < late.old.spare }
    ensures ready { IsReady sides.now.component.now sides.now.names.now (place + 1) result (sweep_of held.new loadings.new graph.new) }
    ensures turned { (added : List (ℕ × LateValue)) × (late.new.list ≡ late.old.list ++ added) × IsTurned L.answers L.is_prompt sides.now.component.now place (sweep_of held.old loadings.old graph.old) (sweep_of held.new loadings.new graph.new) added loader.old loader.new }
    ensures counted { (added : List (ℕ × LateValue)) × (late.new.list ≡ late.old.list ++ added) × RoseBy (not_yet_count added) (L.not_yets loader.old) (L.not_yets loader.new) × RoseBy (failed_count added) (L.faults loader.old) (L.faults loader.new) }
    ensures held { held.new ≡ with_held held.old held.new.held }
    ensures long { length loadings.new ≡ length loadings.old }
    ensures spare { late.old.spare ≤ late.new.spare + 1 }
    ensures on { from ≤ result }
    ensures moved { HasMoved graph.old graph.new ((result - from) * 2) }
{
    let _items = sides.component.items();
    let Some(load) = sides.table.load(place) else {
        return from;
    };
    if !held.is_live(sides.owners.owner(load.id)) {
        return from;
    }
    poll_live(
        sides, place, load, from, loadings, held, graph, late, loader,
    )
}

/// Polls the live load at the place.
fn poll_live<L: Loader>(
    sides: &Sides<'_>,
    place: usize,
    load: Load,
    from: u32,
    loadings: &mut [Loading],
    held: &mut Held,
    graph: &mut Graph,
    late: &mut Reserved<(u32, Late)>,
    loader: &mut L,
) -> u32
    requires loads { sides.now.table.now ≡ loads_in sides.now.component.now }
    requires ready { IsReady sides.now.component.now sides.now.names.now place from (sweep_of held.old loadings.old graph.old) }
    requires within { place < length loadings.old }
    requires few { graph.old.drawn ≤ 16384 }
    requires room { 0 < late.old.spare }
    requires load { (one : LoadOf) × (slice_get (loads_in sides.now.component.now) place ≡ Some one) × (load_alone one ≡ load) × (is_live_load sides.now.component.now (state_of held.old.held) one ≡ true) }
    ensures ready { IsReady sides.now.component.now sides.now.names.now (place + 1) result (sweep_of held.new loadings.new graph.new) }
    ensures taken { (added : List (ℕ × LateValue)) × (late.new.list ≡ late.old.list ++ added) × ((one : LoadOf) → slice_get (loads_in sides.now.component.now) place ≡ Some one → IsTaken L.answers L.is_prompt sides.now.component.now place one (sweep_of held.old loadings.old graph.old) (sweep_of held.new loadings.new graph.new) added loader.old loader.new) }
    ensures counted { (added : List (ℕ × LateValue)) × (late.new.list ≡ late.old.list ++ added) × RoseBy (not_yet_count added) (L.not_yets loader.old) (L.not_yets loader.new) × RoseBy (failed_count added) (L.faults loader.old) (L.faults loader.new) }
    ensures held { held.new ≡ with_held held.old held.new.held }
    ensures long { length loadings.new ≡ length loadings.old }
    ensures spare { late.old.spare ≤ late.new.spare + 1 }
    ensures on { from ≤ result }
    ensures moved { HasMoved graph.old graph.new ((result - from) * 2) }
{
    let _items = sides.component.items();
    let rows = load_rows(sides.names, load.id);
    graph.settle_span(from, rows.key + 1);
    let key = row_code(graph, rows.key);
    let mut loading = loadings[place];
    let came = loading.poll(key, load.resource, load.after, loader);
    loadings[place] = loading;
    held.arrive(load.id, loading.arrived);
    graph.put(rows.load, load_code(sides.table, place, loading.arrived));
    note(late, load.id, came);
    rows.key + 1
}

/// The rows of the load with the id and of its key, which both have one.
fn load_rows(names: &Names, id: u32) -> LoadRows
    requires few { id + 1 < 2 ^ 32 }
    requires load { IsSome (position_of names.now (outside id)) }
    requires key { IsSome (position_of names.now (outside (suc id))) }
    ensures load { position_of names.now (outside id) ≡ Some result.load }
    ensures key { position_of names.now (outside (suc id)) ≡ Some result.key }
{
    match (names.find(id), names.find(id + 1)) {
        (Some(load), Some(key)) => LoadRows { load, key },
        _ => unreachable!(),
    }
}

/// The value of a row, and nothing past the end.
fn row_code(graph: &Graph, row: u32) -> Code
    ensures { result ≡ value_in graph.now.rows row }
{
    graph.value(row).unwrap_or(Code::Empty)
}

/// The value of the resource of the load at the place for the key that arrived, and nothing where none has.
fn load_code(table: &LoadTable, place: usize, arrived: Option<Code>) -> Code
    ensures { result ≡ load_code (pairs_at table.now place) arrived }
{
    match arrived {
        Some(key) => table.value(place, key),
        None => Code::Empty,
    }
}

/// Adds the load, where it has not arrived.
fn note(late: &mut Reserved<(u32, Late)>, id: u32, came: Polled)
    requires { 0 < late.old.spare }
    ensures list { late.new.list ≡ late.old.list ++ late_as id came }
    ensures spare { late.old.spare ≤ late.new.spare + 1 }
{
    match came {
        Polled::Arrived => {}
        Polled::Waiting => late.push((id, Late::NotYet)),
        Polled::Failed => late.push((id, Late::Failed)),
    }
}
