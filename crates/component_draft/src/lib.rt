//! What was read of a component text so far: the state through which the reader of component texts goes
//! (`docs/SEMANTICS.md`).
#![tactic(auto)]

mod draft;
mod keys;
mod spelling;

pub use draft::Draft;
pub use keys::Keys;
pub use spelling::Spelling;
