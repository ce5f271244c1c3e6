//! The texts that a script adds to its component.

ghost use Rattle.std.specs.Prelude.{◌≡◌, ◌++◌, map, OnOk, IfErr};
ghost use Rattle.std.specs.String.{string_bytes};
ghost use Rattle.values.specs.Texts.{IsTable};
ghost use Rattle.script_reader.specs.Reads.{Extends};

use component_items::{Component, Refusal};

/// Adds the texts to those of the component, behind which they stand in a table.
pub(crate) fn add_texts(component: &mut Component, texts: &[String]) -> Result<(), Refusal>
    requires { IsTable (component.old.texts ++ map string_bytes texts.now) }
    ensures added { OnOk result (component.new.texts ≡ component.old.texts ++ map string_bytes texts.now) }
    ensures grown { Extends component.old.texts component.new.texts }
    ensures items { component.new.items ≡ component.old.items }
    ensures free { IfErr result (λ e. e ≡ Refusal.NoMemory) }
{
    for text in texts {
        if let Err(_) = component.add_text(text.as_str()) {
            return Err(Refusal::NoMemory);
        }
    }
    Ok(())
}
