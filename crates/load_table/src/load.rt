//! A load.

/// A load: its id, that of its resource, and how many attempts there are before it arrives. The id of its key is
/// the next one.
#[derive(Clone, Copy, Debug, PartialEq, Eq)]
pub struct Load {
    pub id: u32,
    pub resource: u32,
    pub after: u32,
}
