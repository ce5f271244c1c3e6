//! Reading to the end of a source.

ghost use Rattle.std.specs.Prelude.{◌≡◌, ◌+◌, ◌<◌, ◌≤◌, ◌++◌, length, take, IfOk, IfSome, OnErr, vec_len};
ghost use Rattle.std.specs.Io.KnownBytes.{Consumes};
ghost use Rattle.outside.specs.Bytes.{IsZeroAtEnd, LosesFront};
ghost use Rattle.outside.specs.Counts.{NeverFalls, Rose};

use crate::traits::{Failed, Source};
use std::alloc::{AllocError, Global};

/// The most bytes that are asked of a source at once.
const PIECE: usize = 65536;

/// Why a source was not read.
#[derive(Clone, Copy, Debug, PartialEq, Eq)]
pub enum ReadError {
    /// A read failed. The source has counted it.
    Failed,
    /// Memory could not be had.
    NoMemory,
}

impl From<Failed> for ReadError {
    ghost use Rattle.std.specs.Prelude.{◌≡◌};
    ghost use Rattle.outside.specs.declared.transfer.ReadError.{ReadError};

    ghost from_gives = { λ _ error. error ≡ ReadError.Failed };

    fn from(_: Failed) -> ReadError {
        ReadError::Failed
    }
}

impl From<AllocError> for ReadError {
    ghost use Rattle.std.specs.Prelude.{◌≡◌};
    ghost use Rattle.outside.specs.declared.transfer.ReadError.{ReadError};

    ghost from_gives = { λ _ error. error ≡ ReadError.NoMemory };

    fn from(_: AllocError) -> ReadError {
        ReadError::NoMemory
    }
}

/// Reads a source to its end, or until it has given one byte more than `limit`. So the caller sees
/// by the length whether there were too many. After an error what was read is lost.
pub fn read_up_to<S: Source>(
    alloc: Global,
    source: &mut S,
    limit: usize,
) -> Result<Vec<u8>, ReadError>
    ensures moved { IfOk result (λ bytes. Consumes (S.held source.old) (S.held source.new) bytes.items) }
    ensures bound { IfOk result (λ bytes. vec_len bytes ≤ limit + 1) }
    // At most `limit` bytes are all that the source held.
    ensures whole { IfOk result (λ bytes. vec_len bytes ≤ limit → IfSome (S.held source.old) (λ held. bytes.items ≡ held)) }

    ensures failed { result ≡ Err ReadError.Failed → Rose (S.faults source.old) (S.faults source.new) }
    ensures lost { OnErr result (LosesFront (S.held source.old) (S.held source.new)) }

    ensures counted { NeverFalls (S.faults source.old) (S.faults source.new) }
{
    let mut buffer = zeroes(alloc, PIECE)?;
    let mut bytes = Vec::new(alloc);
    while bytes.len() <= limit {
        let wanted = (limit - bytes.len()).min(PIECE - 1) + 1;
        if read_once(source, &mut buffer[..wanted], &mut bytes)? == 0 {
            return Ok(bytes);
        }
    }
    Ok(bytes)
}

/// As many zeroes.
fn zeroes(alloc: Global, count: usize) -> Result<Vec<u8>, AllocError>
    ensures { IfOk result (λ bytes. vec_len bytes ≡ count) }
{
    vec![in alloc; 0u8; count]
}

/// Reads once, by way of the buffer, adds what came to `bytes`, and says how many came.
fn read_once<S: Source>(
    source: &mut S,
    buffer: &mut [u8],
    bytes: &mut Vec<u8>,
) -> Result<usize, ReadError>
    requires { 0 < length buffer.old }

    ensures bound { IfOk result (λ count. count ≤ length buffer.new) }
    ensures moved { IfOk result (λ count. Consumes (S.held source.old) (S.held source.new) (take count buffer.new)) }
    ensures added { IfOk result (λ count. bytes.new.items ≡ bytes.old.items ++ take count buffer.new) }
    ensures len { IfOk result (λ count. vec_len bytes.new ≡ vec_len bytes.old + count) }
    ensures end { IfOk result (IsZeroAtEnd (S.held source.old)) }

    ensures failed { result ≡ Err ReadError.Failed → Rose (S.faults source.old) (S.faults source.new) }
    ensures lost { OnErr result (LosesFront (S.held source.old) (S.held source.new)) }

    ensures counted { NeverFalls (S.faults source.old) (S.faults source.new) }
{
    let count = source.read(buffer)?;
    bytes.extend_from_slice(&buffer[..count])?;
    Ok(count)
}
