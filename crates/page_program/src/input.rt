//! Reading an input.

ghost use Rattle.std.specs.Prelude.{◌≡◌, ◌≤◌, length, IfOk, IfErr};
ghost use Rattle.component_items.specs.declared.refusal.Place.{Place};
ghost use Rattle.component_items.specs.declared.refusal.Refusal.TheVariants.{Bad};
ghost use Rattle.component_items.specs.declared.refusal.Why.{Why};
ghost use Rattle.script_items.specs.KeptFor.{IsKeptFor};
ghost use Rattle.script_meaning.specs.Input.{IsBadInput};
ghost use Rattle.values.specs.declared.limits.TheConstants.{MOST_INPUT_BYTES};
ghost use Rattle.page_program.specs.Run.{IsReadAs};

use component_items::{Component, Refusal};
use component_reader::read_component;
use input_split::split_input;
use script_items::Script;
use script_reader::read_script;
use std::alloc::Global;

/// What an input says. The table of the component has the texts of the script too.
#[derive(Drop)]
pub struct Input {
    pub component: Component,
    pub script: Script,
}

/// Reads the component text, and behind the line `---` the script text.
pub fn read_input(alloc: Global, bytes: &[u8]) -> Result<Input, Refusal>
    requires { length bytes.now ≤ MOST_INPUT_BYTES }
    ensures ok { IfOk result (λ input. IsReadAs bytes.now input.component input.script) }
    ensures kept { IfOk result (λ input. IsKeptFor input.component input.script input.component.texts) }
    ensures bad { IfErr result (λ e. (why : Why) (place : Place) → e ≡ Bad why place → IsBadInput bytes.now (Bad why place)) }
{
    let split = split_input(bytes);
    let mut component = read_component(alloc, &bytes[..split.component_end])?;
    let rest = &bytes[split.script_start..];
    let script = read_script(alloc, &mut component, rest, split.script_line)?;
    Ok(Input { component, script })
}
