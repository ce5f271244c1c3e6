//! Why a load is late.

/// Why a load that was polled has not arrived.
#[derive(Clone, Copy, Debug, PartialEq, Eq)]
pub enum Late {
    /// Its value has not arrived yet.
    NotYet,
    /// The call that asked for it failed.
    Failed,
}
