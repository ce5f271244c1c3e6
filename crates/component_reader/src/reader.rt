//! The reader.

ghost use Rattle.std.specs.Prelude.{◌≡◌, ◌+◌, ◌<◌, ◌^◌, IfOk, IfErr, length};
ghost use Rattle.part_meaning.specs.Part.{IsReadTo};
ghost use Rattle.token_reader.specs.Refused.{IsRefusedOr};
ghost use Rattle.component_meaning.specs.Component.{component_text, IsComponent, too_many_nodes as too_many_nodes_in};
ghost use Rattle.component_reader.specs.Answer.{IsNoComponentOr};

use component_items::{Component, Count, Refusal, Why};
use component_meaning::components_are_kept;
use component_state::ComponentState;
use node_counts::has_too_many_nodes;
use std::alloc::Global;
use text_grammar::component::{Action, Rule, Terminal};
use token_reader::{place_at, read_bytes};

/// The component that the bytes are the text of, or why they are the text of none: the first token that is bad, and the
/// first reason for it; or, as the last of all checks, that its items lay out too many nodes.
pub fn read_component(alloc: Global, bytes: &[u8]) -> Result<Component, Refusal>
    requires { length bytes.now + 1 < 2 ^ 31 }
    ensures ok { IfOk result (IsComponent bytes.now) }
    ensures bad { IfErr result (IsNoComponentOr bytes.now) }
{
    let state = read_state(alloc, bytes)?;
    let (texts, items) = state.finish();
    if has_too_many_nodes(alloc, items.as_slice())? {
        return Err(too_many_nodes(bytes));
    }
    components_are_kept();
    Ok(Component::new(texts, items))
}

/// What was read of a whole text.
fn read_state(alloc: Global, bytes: &[u8]) -> Result<ComponentState, Refusal>
    requires { length bytes.now + 1 < 2 ^ 31 }
    ensures ok { IfOk result (IsReadTo component_text bytes.now) }
    ensures bad { IfErr result (IsRefusedOr component_text bytes.now) }
{
    match ComponentState::new(alloc) {
        Ok(first) => read_bytes::<Terminal, Rule, Action, ComponentState>(alloc, first, bytes, 1),
        Err(_) => Err(Refusal::NoMemory),
    }
}

/// Too many nodes, which are refused at the end of the bytes.
fn too_many_nodes(bytes: &[u8]) -> Refusal
    requires { length bytes.now + 1 < 2 ^ 31 }
    ensures { result ≡ too_many_nodes_in bytes.now }
{
    let place = place_at(bytes, bytes.len(), 1);
    Refusal::Bad(Why::TooLarge(Count::Nodes), place)
}
