//! The values of sources.
ghost use Rattle.std.specs.Prelude.{◌≡◌, ◌++◌, map, IfOk, OnOk};
ghost use Rattle.std.specs.List.{flat_map};
ghost use Rattle.std.specs.Option.{option_copied, option_map};
ghost use Rattle.plain_evaluation.specs.Written.{state_of, written};
ghost use Rattle.plan_meaning.specs.Layout.{places_of, plan_of};
ghost use Rattle.held_state.specs.State.{IsOf};
ghost use Rattle.plan_lines.specs.Lines.{placed_in};
ghost use Rattle.plan_lines.specs.Scenes.{row_in};
ghost use Rattle.next_layout.specs.Sources.{load_shown, codes_said, codes_held, row_held, field_held, source_held};

use component_items::Component;
use held_state::Held;
use node_names::Names;
use node_plan::{Laid, lay_out_lines};
use phase_graph::Graph;
use plan_lines::{Line, RowAround, write_out};
use std::alloc::Global;
use store_fields::Row;
use values::{Code, Kind, NoMemory};

/// The component laid out in held state, and the value of each source of this layout, in order of row. A load has the
/// value that the graph of before shows.
pub(crate) fn laid_with_codes(
    alloc: Global,
    component: &Component,
    held: &Held,
    names: &Names,
    graph: &Graph,
) -> Result<(Laid, Vec<Code>), NoMemory>
    requires { IsOf component.now held.now }
    ensures plan { IfOk result (λ made. made.0.plan ≡ plan_of component.now (state_of held.now.held)) }
    ensures names { IfOk result (λ made. made.0.names ≡ places_of (written component.now held.now.held)) }
    ensures codes { IfOk result (λ made. made.1.items ≡ codes_said (load_shown names.now graph.now) (written component.now held.now.held)) }
{
    let lines = write_out(alloc, component, held)?;
    let laid = lay_out_lines(alloc, component, held, lines.as_slice())?;
    let codes = codes_of_lines(alloc, lines.as_slice(), held, names, graph)?;
    Ok((laid, codes))
}

/// The value of each line of a source.
fn codes_of_lines(
    alloc: Global,
    lines: &[Line<'_>],
    held: &Held,
    names: &Names,
    graph: &Graph,
) -> Result<Vec<Code>, NoMemory>
    ensures { IfOk result (λ codes. codes.items ≡ flat_map (codes_held (load_shown names.now graph.now) held.now.held) (map placed_in lines.now)) }
{
    let mut codes = Vec::new(alloc);
    for line in lines {
        put_code(line, held, names, graph, &mut codes)?;
    }
    Ok(codes)
}

/// Adds the value of the line, where it is a source's.
fn put_code(
    line: &Line<'_>,
    held: &Held,
    names: &Names,
    graph: &Graph,
    codes: &mut Vec<Code>,
) -> Result<(), NoMemory>
    ensures { OnOk result (codes.new.items ≡ codes.old.items ++ codes_held (load_shown names.now graph.now) held.now.held (placed_in line.now)) }
{
    match line.expr {
        Some(_) => Ok(()),
        None => {
            codes.push(source_code(line, held, names, graph))?;
            Ok(())
        }
    }
}

/// The value of a source.
fn source_code(line: &Line<'_>, held: &Held, names: &Names, graph: &Graph) -> Code
    ensures { result ≡ source_held (load_shown names.now graph.now) held.now.held line.now.kind line.now.id (option_map row_in line.now.scene.row) }
{
    match line.kind {
        Kind::Signal => held.value(line.id).unwrap_or(Code::Empty),
        Kind::Field => field_code(line, held).unwrap_or(Code::Empty),
        Kind::Load => load_code(line.id, names, graph),
        Kind::Memo | Kind::Effect => Code::Empty,
    }
}

/// The value that held state gives a field.
fn field_code(line: &Line<'_>, held: &Held) -> Option<Code>
    ensures { result ≡ field_held held.now.held line.now.id (option_map row_in line.now.scene.row) }
{
    let around = line.scene.row?;
    let row = row_around(held, around)?;
    let field = (line.id as usize).saturating_sub(around.store as usize + 2);
    row.fields.at(field).copied()
}

/// The row of the store with the key.
fn row_around(held: &Held, around: RowAround) -> Option<&Row>
    ensures { option_copied result ≡ row_held held.now.held (row_in around) }
{
    let rows = held.rows(around.store)?;
    let place = rows.find(around.key)?;
    rows.row(place)
}

/// The value that the graph shows of the load with the id.
fn load_code(id: u32, names: &Names, graph: &Graph) -> Code
    ensures { result ≡ load_shown names.now graph.now id }
{
    match names.find(id) {
        Some(row) => graph.value(row).unwrap_or(Code::Empty),
        None => Code::Empty,
    }
}
