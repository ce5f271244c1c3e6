//! The items of a component that have no items of their own: what each action that makes one does to what was read so
//! far (`docs/SEMANTICS.md`).
#![tactic(auto)]

mod items;

pub use items::{
    add_value, begin_entries, known_as, make_cleanup, make_effect, make_load, make_memo,
    make_resource, make_shown, make_signal, make_store, make_text,
};
