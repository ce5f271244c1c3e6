//! The reader of scripts.

ghost use Rattle.std.specs.Prelude.{◌≡◌, ◌+◌, ◌++◌, ◌<◌, ◌≤◌, ◌^◌, length, map, drop, IfOk, IfErr};
ghost use Rattle.std.specs.String.{string_bytes};
ghost use Rattle.values.specs.Texts.{IsTable};
ghost use Rattle.part_meaning.specs.Part.{IsReadTo};
ghost use Rattle.token_reader.specs.Refused.{IsRefusedOr};
ghost use Rattle.token_reader.specs.Rules as spec;
ghost use Rattle.script_meaning.specs.Names.{names_of};
ghost use Rattle.script_meaning.specs.Script.{IsScript};
ghost use Rattle.script_meaning.specs.State.{start_for};
ghost use Rattle.script_items.specs.KeptFor.{IsKeptFor};
ghost use Rattle.script_state.specs.Rules.{rules};
ghost use Rattle.script_reader.specs.Reads.{IsNoScriptOr, Extends};

use crate::texts::add_texts;
use component_items::{Component, Refusal};
use script_items::{Script, kept_with_its_texts};
use script_meaning::scripts_are_kept;
use script_names::Names;
use script_state::ScriptState;
use std::alloc::Global;
use text_grammar::script::{Action, Rule, Terminal};
use token_reader::read_bytes;
use values::Texts;

/// A script, and the texts that it adds behind those of its component.
#[derive(Drop)]
struct Read {
    script: Script,
    texts: Vec<String>,
}

/// The state to which the tokens of a script lead, for a component with these names and texts.
fn read_state<'a>(
    alloc: Global,
    names: &'a Names<'a>,
    texts: &'a Texts,
    bytes: &[u8],
    first_line: u32,
) -> Result<ScriptState<'a>, Refusal>
    requires { length bytes.now + first_line < 2 ^ 31 }
    ensures ok { IfOk result (IsReadTo (spec.language rules (start_for texts.entry.now names.entry.now) first_line) bytes.entry.now) }
    ensures bad { IfErr result (IsRefusedOr (spec.language rules (start_for texts.entry.now names.entry.now) first_line) bytes.entry.now) }
{
    match ScriptState::new(alloc, names, texts) {
        Ok(first) => {
            read_bytes::<Terminal, Rule, Action, ScriptState<'a>>(alloc, first, bytes, first_line)
        }
        Err(_) => Err(Refusal::NoMemory),
    }
}

/// The script of a state, and copies of its texts from this number on.
fn parts_of(alloc: Global, state: ScriptState<'_>, first: usize) -> Result<Read, Refusal>
    requires { first ≤ length state.texts }
    ensures script { IfOk result (λ read. read.script ≡ state.entry.phases) }
    ensures texts { IfOk result (λ read. map string_bytes read.texts.items ≡ drop first state.entry.texts) }
    ensures table { IfOk result (λ read. IsTable state.entry.texts) }
    ensures free { IfErr result (λ e. e ≡ Refusal.NoMemory) }
{
    let (script, all) = state.into_parts();
    let _ = all.len();
    let texts = all.copies(alloc, first)?;
    Ok(Read { script, texts })
}

/// Reads the text of a script for a component with these names.
fn read_named<'n, 'c>(
    alloc: Global,
    names: &'n Names<'c>,
    component: &'n Component,
    bytes: &[u8],
    first_line: u32,
) -> Result<Read, Refusal>
    requires length { length bytes.now + first_line < 2 ^ 31 }
    requires names { names.now ≡ names_of component.now.items }
    ensures ok { IfOk result (λ read. IsScript component.entry.now first_line bytes.entry.now read.script (component.entry.now.texts ++ map string_bytes read.texts.items)) }
    ensures table { IfOk result (λ read. IsTable (component.entry.now.texts ++ map string_bytes read.texts.items)) }
    ensures bad { IfErr result (IsNoScriptOr component.entry.now first_line bytes.entry.now) }
{
    let last = read_state(alloc, names, component.texts(), bytes, first_line)?;
    parts_of(alloc, last, component.texts().len())
}

/// Reads the text of a script, and leaves the component as it is.
fn read_parts(
    alloc: Global,
    component: &Component,
    bytes: &[u8],
    first_line: u32,
) -> Result<Read, Refusal>
    requires { length bytes.now + first_line < 2 ^ 31 }
    ensures ok { IfOk result (λ read. IsScript component.now first_line bytes.now read.script (component.now.texts ++ map string_bytes read.texts.items)) }
    ensures table { IfOk result (λ read. IsTable (component.now.texts ++ map string_bytes read.texts.items)) }
    ensures kept { IfOk result (λ read. IsKeptFor component.now read.script (component.now.texts ++ map string_bytes read.texts.items)) }
    ensures bad { IfErr result (IsNoScriptOr component.now first_line bytes.now) }
{
    let _ = component.items();
    scripts_are_kept();
    match Names::new(alloc, component) {
        Ok(names) => read_named(alloc, &names, component, bytes, first_line),
        Err(_) => Err(Refusal::NoMemory),
    }
}

/// Reads the text of a script for the component, whose first line has this number (`docs/LANGUAGE.md`, "Script texts").
/// The texts of the script come into the component's table, behind those that are there. A `Bad` says why the bytes are
/// the text of no script, and where. After a refusal the component has the same items and perhaps more texts.
pub fn read_script(
    alloc: Global,
    component: &mut Component,
    bytes: &[u8],
    first_line: u32,
) -> Result<Script, Refusal>
    requires { length bytes.now + first_line < 2 ^ 31 }
    ensures ok { IfOk result (λ script. IsScript component.old first_line bytes.now script component.new.texts) }
    ensures bad { IfErr result (IsNoScriptOr component.old first_line bytes.now) }
    ensures items { component.new.items ≡ component.old.items }
    ensures texts { Extends component.old.texts component.new.texts }
    ensures kept { IfOk result (λ script. IsKeptFor component.new script component.new.texts) }
{
    kept_with_its_texts();
    let read = read_parts(alloc, component, bytes, first_line)?;
    add_texts(component, read.texts.as_slice())?;
    Ok(read.script)
}
