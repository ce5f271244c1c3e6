//! Why words give no settings.

use std::alloc::AllocError;
use thiserror::Error;

/// Why words give no settings.
#[derive(Clone, Copy, Debug, PartialEq, Eq, Error)]
pub enum WordsError {
    /// The words stand for no settings.
    #[error("the words are not the command's")]
    BadWords,
    /// Memory could not be had.
    #[error("out of memory")]
    NoMemory,
}

impl From<AllocError> for WordsError {
    ghost use Rattle.std.specs.Prelude.{◌≡◌};
    ghost use Rattle.command_words.specs.declared.error.WordsError.{WordsError};

    ghost from_gives = { λ _ e. e ≡ WordsError.NoMemory };

    fn from(_: AllocError) -> WordsError {
        WordsError::NoMemory
    }
}
