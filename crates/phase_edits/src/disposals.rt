//! The disposals of a phase.
ghost use Rattle.std.specs.Prelude.{◌≡◌};
ghost use Rattle.component_items.specs.declared.component.Component.{Component as ComponentValue};
ghost use Rattle.component_items.specs.Kept.{IsKept};
ghost use Rattle.held_state.specs.State.{IsOf, with_held};
ghost use Rattle.run_meaning.specs.Entries.{disposed_in, owner_in};
ghost use Rattle.run_meaning.specs.Run.{held_disposed};
ghost use Rattle.phase_edits.specs.Making.{held_left};

use held_state::Held;
use values::{Fact, Noted};

/// Takes out each owner whose disposal was noted, all owners inside it, and all that these own. It takes no memory.
pub fn fold_disposals(held: &mut Held, entries: &[Noted])
    ensures held { (component : ComponentValue) → IsKept component → IsOf component held.old → held.new ≡ with_held held.old (held_disposed component (disposed_in entries.now) held.old.held) }
    ensures fits { (component : ComponentValue) → IsKept component → IsOf component held.old → IsOf component held.new }
{
    for entry in entries {
        fold_disposal(held, entry.fact);
    }
}

/// Takes out the owner whose disposal the fact is, if it is one.
fn fold_disposal(held: &mut Held, fact: Fact)
    ensures held { (component : ComponentValue) → IsKept component → IsOf component held.old → held.new ≡ with_held held.old (held_left component (owner_in fact) held.old.held) }
    ensures fits { (component : ComponentValue) → IsKept component → IsOf component held.old → IsOf component held.new }
{
    match fact {
        Fact::Disposed { owner } => held.kill(owner),
        Fact::Write { .. }
        | Fact::Change { .. }
        | Fact::Ran { .. }
        | Fact::Void { .. }
        | Fact::Edit { .. } => {}
    }
}
