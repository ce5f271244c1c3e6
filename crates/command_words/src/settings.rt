//! What the words say of a run.

/// How a run is made.
#[derive(Clone, Copy, Debug, PartialEq, Eq)]
pub struct Settings {
    /// Whether the answers and the journal are printed.
    pub answers: bool,
    /// The most rounds of one settling, from 1 to 1,000.
    pub rounds: u32,
}
