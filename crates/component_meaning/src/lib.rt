//! What component texts mean, and the first bad token of those that mean nothing: definitions, and what
//! follows from them.
#![tactic(auto)]

mod accepted;
mod kept;
mod laws;
mod refused;

pub use accepted::{limits_reached, page_of_todos, small_components};
pub use kept::{
    components_are_kept, ids_are_few, ids_are_numbered, items_stand_where_they_may,
    names_are_of_what_is_seen, owners_are_few, stores_and_resources_have_their_shape,
    texts_are_in_the_table,
};
pub use laws::{
    bad_utf8, closers_never_pass, limits_of_large_texts, never_both, one_component, one_of_both,
    one_refusal, outcome_is_meaning,
};
pub use refused::{
    forbidden_tags, great_numbers, keys_taken, limits, names_not_seen, names_taken, too_many_nodes,
    unclosed_elements, unexpected_tokens, wrong_places,
};
