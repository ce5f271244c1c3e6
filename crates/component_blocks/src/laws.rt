//! What is done with what is seen and what is open is what the meaning of component texts does with a whole state. Each
//! is the contract of a function that does nothing.

ghost use Rattle.std.specs.Prelude.{◌≡◌, ℕ};
ghost use Rattle.component_items.specs.declared.component.Attr.{Attr as AttrValue};
ghost use Rattle.component_items.specs.declared.component.Item.{Item as ItemValue};
ghost use Rattle.component_meaning.specs.State.{State, What, Frame};
ghost use Rattle.component_meaning.specs.Actions.{with_item, known_as, with_open, closed, with_attr};
ghost use Rattle.component_frames.specs.Nest.{nest_in, with_nest, declaring, holding, opening, closing, taking_numbered};

/// An item, a declaration and the end of a block do nothing else to a state.
pub fn parts_of_a_state()
    ensures item { (item : ItemValue) (a : State) → with_item item a ≡ with_nest (holding item (nest_in a)) a }
    ensures declaration { (what : What) (a : State) → known_as what a ≡ with_nest (declaring (record { name = a.name; id = a.next_id; what = what }) (nest_in a)) a }
    ensures opened { (frame : Frame) (a : State) → with_open frame a ≡ with_nest (opening frame (nest_in a)) a }
    ensures closed { (a : State) → closed a ≡ with_nest (closing (nest_in a)) a }
{}

/// An attribute comes, and takes its ids, exactly where one may.
pub fn attributes_of_a_state()
    ensures { (made : ℕ → AttrValue) (count : ℕ) (a : State) → with_attr made count a ≡ taking_numbered (made a.next_id) count a }
{}
