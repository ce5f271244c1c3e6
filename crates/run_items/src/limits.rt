//! The limit of a journal (`docs/LANGUAGE.md`, "Limits").

/// The greatest number that a phase notes of anything but a disposal. Numbers count from 1.
pub const LAST_NUMBER: u32 = 65536;
